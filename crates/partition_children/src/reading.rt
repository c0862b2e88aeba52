ghost use Rattle.std.specs.Prelude.{◌≡◌, ◌^◌, ◌+◌, ◌*◌, ◌≤◌, ◌<◌, [], ◌∷◌, IfOk, IfErr, length};
ghost use Rattle.disk_core.specs.declared.answers.Why.{Why};
ghost use Rattle.efi_status.specs.declared.Status.{Status};
ghost use Rattle.disk_io2.specs.Views.{whole_view};
ghost use Rattle.partition_children.specs.declared.reading.ReadFault.{ReadFault};
ghost use Rattle.partition_children.specs.Probing.{ProbeEnds, EndsRead, Finds, IsIn, IsQuiet, IsTargetOf, Reads, AddsEntriesAlone, read_failures};
ghost use Rattle.partition_children.specs.Reads.{record_read};
ghost use Rattle.partition_tables.specs.Blocks.{boot_record_at, table_block};

use byte_lists::copy_part;
use disk_core::{Disk, Why};
use disk_io2::read_disk;
use history::View;
use medium::Medium;
use std::alloc::{AllocError, Global};

/// Why a stage of a probe ended before its last read.
#[derive(Clone, Copy, Debug, PartialEq, Eq)]
pub enum ReadFault {
    /// A command of the device failed.
    Device,
    /// Memory ran out.
    Memory,
}

impl From<AllocError> for ReadFault {
    ghost use Rattle.std.specs.Prelude.{◌≡◌};
    ghost use Rattle.partition_children.specs.declared.reading.ReadFault.TheVariants.{Memory};

    ghost from_gives = { λ _ fault. fault ≡ Memory };

    fn from(_: AllocError) -> ReadFault {
        ReadFault::Memory
    }
}

/// The medium that is probed.
#[derive(Clone, Copy)]
pub struct Target {
    /// The whole of it.
    pub view: View,
    /// The bytes of a block.
    pub size: u32,
    /// How many blocks it has.
    pub blocks: u64,
}

/// So many bytes of the medium, from byte `at` on.
pub fn read_bytes<M: Medium>(
    alloc: Global,
    disk: &mut Disk<M>,
    target: &Target,
    at: u64,
    length: usize,
) -> Result<Vec<u8>, ReadFault>
    requires quiet { IsQuiet disk.old }
    requires is_in { IsIn disk.old target.now.view.media_id }
    requires whole { target.now.view ≡ whole_view disk.old.setup target.now.view.media_id }
    requires most { length ≤ 2 ^ 24 }
    requires fits { at + length ≤ target.now.view.length }
    ensures stays { AddsEntriesAlone disk.old (read_failures result) disk.new }
    ensures ok { IfOk result (λ bytes.
        Reads disk.old target.now.view.media_id (at, length) bytes.items disk.new) }
    ensures err { IfErr result (λ fault.
        EndsRead disk.old target.now.view.media_id (at, length) fault disk.new) }
{
    // Its facts say that its history is legal, and its drive how long its media are.
    disk.history();
    disk.drive();
    let buffer = vec![in alloc; 0; length]?;
    match read_disk(disk, 0, &target.view, target.view.media_id, at, buffer) {
        Ok(bytes) => Ok(bytes),
        Err(refused) => Err(fault_of(refused.why)),
    }
}

// What ends a probe where a read of it did not succeed.
fn fault_of(why: Why) -> ReadFault
    ensures memory { why ≡ Why.Memory → result ≡ ReadFault.Memory }
    ensures device { (status : Status) → why ≡ Why.Status status → result ≡ ReadFault.Device }
{
    match why {
        Why::Status(_) => ReadFault::Device,
        Why::Memory => ReadFault::Memory,
    }
}

/// The block at this LBA.
pub fn read_block<M: Medium>(
    alloc: Global,
    disk: &mut Disk<M>,
    target: &Target,
    lba: u64,
) -> Result<Vec<u8>, ReadFault>
    requires quiet { IsQuiet disk.old }
    requires target { IsTargetOf disk.old target.now }
    requires inside { lba < target.now.blocks }
    ensures stays { AddsEntriesAlone disk.old (read_failures result) disk.new }
    ensures long { IfOk result (λ block. length block.items ≡ target.now.size) }
    ensures found { Finds disk.old target.now
        (λ bytes. (lba * target.now.size, target.now.size) ∷ [])
        (λ bytes block. block.items ≡ table_block bytes target.now.size lba) result disk.new }
    ensures ends { ProbeEnds disk.old target.now
        (λ bytes. (lba * target.now.size, target.now.size) ∷ []) result disk.new }
{
    let at = lba * u64::from(target.size);
    read_bytes(alloc, disk, target, at, target.size as usize)
}

/// The first 512 bytes of the block at this LBA, where a boot record stands (UEFI 2.10, 5.2.1).
pub fn read_record<M: Medium>(
    alloc: Global,
    disk: &mut Disk<M>,
    target: &Target,
    lba: u64,
) -> Result<[u8; 512], ReadFault>
    requires quiet { IsQuiet disk.old }
    requires target { IsTargetOf disk.old target.now }
    requires inside { lba < target.now.blocks }
    ensures stays { AddsEntriesAlone disk.old (read_failures result) disk.new }
    ensures found { Finds disk.old target.now (λ bytes. record_read target.now.size lba ∷ [])
        (λ bytes block. block ≡ boot_record_at bytes target.now.size lba) result disk.new }
    ensures ends { ProbeEnds disk.old target.now
        (λ bytes. record_read target.now.size lba ∷ []) result disk.new }
{
    let bytes = read_bytes(alloc, disk, target, lba * u64::from(target.size), 512)?;
    let mut record = [0; 512];
    copy_part(&bytes, 0, &mut record);
    Ok(record)
}
