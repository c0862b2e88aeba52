ghost use Rattle.std.specs.Prelude.{◌≡◌, ◌*◌, ◌^◌, ◌<◌, ◌∷◌, [], false, true, length, map, slice_get, Some, IfOk, IsErr, IsErrOf};
ghost use Rattle.medium.specs.Device.{IsFresh};
ghost use Rattle.drive.specs.Drives.{FitTheDrive, IsFreshDrive};
ghost use Rattle.image_store.specs.Place.{ChangesOnly, IsFree};
ghost use Rattle.stack_run.specs.Chains.{IsWanted};
ghost use Rattle.stack_run.specs.Media.{LacksBlocks};
ghost use Rattle.stack_run.specs.Probing.{IsProbed, ProbeFails, ProbeLeaves, ProbesMedium, wanted_alone};

use crate::putting::put_image;
use crate::refusal::NotRun;
use crate::taking::take_image;
use crate::wanted::Wanted;
use disk_core::{Disk, NotMade};
use drive::Drive;
use image_store::Images;
use medium::Medium;
use partition_children::{ProbeFault, probe};
use partition_tables::Table;
use std::alloc::{AllocError, Global};

// The table of a drive with one medium, and its medium. None is a table that could not be read, the error want of memory.
fn probe_drive<M: Medium>(
    alloc: Global,
    drive: Drive<M>,
) -> (Vec<M>, Result<Option<Table>, AllocError>)
    requires one { length drive.media ≡ 1 }
    requires fit { FitTheDrive M.device drive }
    requires fresh { IsFreshDrive M.device drive }
    requires uncached { drive.cached ≡ false }
    ensures one { length result.0.items ≡ 1 }
    ensures probes { (medium back : M) → slice_get drive.media 0 ≡ Some medium
        → slice_get result.0.items 0 ≡ Some back
        → ProbesMedium result.1 (M.device medium) (M.device back) }
{
    let mut disk = match Disk::make(alloc, drive, 1) {
        Ok(disk) => disk,
        Err(NotMade { drive }) => return (drive.into_media(), Err(AllocError)),
    };
    let probed = match probe(alloc, &mut disk) {
        Ok(table) => Ok(Some(table)),
        Err(ProbeFault::Device) => Ok(None),
        Err(ProbeFault::Memory) => Err(AllocError),
        Err(ProbeFault::NoMedia) => unreachable!(),
    };
    let (media, _) = disk.into_media();
    (media, probed)
}

// The table of a medium, which comes back. None is a table that could not be read, the error want of memory.
fn probe_medium<M: Medium>(alloc: Global, medium: M) -> (M, Result<Option<Table>, AllocError>)
    requires fresh { IsFresh (M.device medium) }
    requires uncached { (M.device medium).cached ≡ false }
    ensures { ProbesMedium result.1 (M.device medium) (M.device result.0) }
{
    let mut media = match Vec::with_capacity(alloc, 1) {
        Ok(media) => media,
        Err(_) => return (medium, Err(AllocError)),
    };
    media.push_reserved(medium);
    let (mut media, probed) = probe_drive(alloc, Drive::make(media, false, false, 1));
    let medium = media.remove(0);
    media.destroy_empty();
    (medium, probed)
}

// Takes an image, reads its partition table, and puts it back. None is a table that could not be read.
pub fn probe_image<I: Images>(
    alloc: Global,
    want: &Wanted,
    images: &mut I,
) -> Result<Option<Table>, NotRun>
    requires want { IsWanted want.now }
    requires alone { want.now ≡ wanted_alone want.now.image want.now.size }
    requires free { IsFree (I.at images.old want.now.image).place }
    ensures probed { IfOk result (λ table. IsProbed want.now.size table
        (I.at images.old want.now.image) (I.at images.new want.now.image)) }
    ensures image { IsErrOf result NotRun.Image → ProbeFails want.now
        (I.at images.old want.now.image) (I.at images.new want.now.image) }
    ensures memory { IsErrOf result NotRun.Memory → ProbeLeaves want.now.size
        (I.at images.old want.now.image) (I.at images.new want.now.image) }
    ensures lacks { LacksBlocks want.now (I.at images.old want.now.image).place → IsErr result }
    ensures free { IsFree (I.at images.new want.now.image).place }
    ensures others { ChangesOnly want.now.image (I.at images.old) (I.at images.new) }
{
    let medium = match take_image(alloc, want, images) {
        Ok(medium) => medium,
        Err(fault) => return Err(fault),
    };
    let (medium, probed) = probe_medium(alloc, medium);
    let put = put_image(alloc, want, images, medium);
    match probed {
        Ok(table) => match put {
            Ok(()) => Ok(table),
            Err(fault) => Err(fault),
        },
        Err(_) => Err(NotRun::Memory),
    }
}
