//! The commands on the medium that is in, and what makes its blocks ready.
ghost use Rattle.std.specs.Prelude.{◌≡◌, ℕ, ◌+◌, ◌*◌, ◌<◌, ◌≤◌, length, IsSome, OnOk};
ghost use Rattle.medium.specs.Device.{IsTransfer, IsRead, IsWrite, IsSync};
ghost use Rattle.drive.specs.Drives.{medium_in};
ghost use Rattle.disk_core.specs.Commands.{OnMedium, OfMedium};

use drive::Drive;
use medium::{BlockFailed, Medium};
use std::alloc::{AllocError, Global};

/// Reads blocks of the medium that is in, from `lba` on.
pub fn read_from<M: Medium>(
    drive: &mut Drive<M>,
    lba: u64,
    out: &mut [u8],
) -> Result<(), BlockFailed>
    requires present { IsSome (medium_in drive.old) }
    requires transfer { OfMedium drive.old (λ m. IsTransfer (M.device m) lba (length out.old)) }
    ensures { OnMedium M.device M.prepared drive.old drive.new
        (λ d d'. IsRead d lba result d' out.old out.new) }
{
    let Some(medium) = drive.medium() else {
        unreachable!()
    };
    medium.read_blocks(lba, out)
}

/// Writes blocks of the medium that is in, from `lba` on.
pub fn write_to<M: Medium>(drive: &mut Drive<M>, lba: u64, bytes: &[u8]) -> Result<(), BlockFailed>
    requires present { IsSome (medium_in drive.old) }
    requires transfer { OfMedium drive.old (λ m. IsTransfer (M.device m) lba (length bytes.now)) }
    requires ready { OfMedium drive.old
        (λ m. (b : ℕ) → lba ≤ b → b * (M.device m).size < lba * (M.device m).size + length bytes.now
        → M.prepared m b) }
    ensures { OnMedium M.device M.prepared drive.old drive.new
        (λ d d'. IsWrite d lba bytes.now result d') }
{
    let Some(medium) = drive.medium() else {
        unreachable!()
    };
    medium.write_blocks(lba, bytes)
}

/// Makes what was written to the medium that is in stay.
pub fn sync_in<M: Medium>(drive: &mut Drive<M>) -> Result<(), BlockFailed>
    requires present { IsSome (medium_in drive.old) }
    ensures { OnMedium M.device M.prepared drive.old drive.new (λ d d'. IsSync d result d') }
{
    let Some(medium) = drive.medium() else {
        unreachable!()
    };
    medium.sync()
}

/// Makes blocks of the medium that is in ready to be written. It is no command. The error is want of memory.
pub fn prepare_in<M: Medium>(
    alloc: Global,
    drive: &mut Drive<M>,
    lba: u64,
    count: u64,
) -> Result<(), AllocError>
    requires present { IsSome (medium_in drive.old) }
    requires there { OfMedium drive.old (λ m. lba + count ≤ (M.device m).blocks) }
    ensures same { OnMedium M.device M.prepared drive.old drive.new (λ d d'. d' ≡ d) }
    ensures ready { OnOk result
        (OfMedium drive.new (λ m. (b : ℕ) → lba ≤ b → b < lba + count → M.prepared m b)) }
{
    let Some(medium) = drive.medium() else {
        unreachable!()
    };
    medium.prepare(alloc, lba, count)
}
