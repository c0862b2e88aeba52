ghost use Rattle.std.specs.Prelude.{◌≡◌, ◌↔◌, false, Some, IfNone, IfSome, IfErr, IsErrOf};
ghost use Rattle.history.specs.Eras.{is_present};
ghost use Rattle.partition_tables.specs.Table.{table_by, table_of};
ghost use Rattle.partition_children.specs.declared.probing.ProbeFault.{ProbeFault};
ghost use Rattle.partition_children.specs.Probing.{ProbeEnds, EndsProbe, Finds, IsProbeOf, IsQuiet, IsTargetOf, AddsEntriesAlone, read_failures, probe_failures};
ghost use Rattle.partition_children.specs.Reads.{probe_reads, reads_by};

use crate::gpt::gpt_table;
use crate::mbr::mbr_table;
use crate::reading::{ReadFault, Target, read_record};
use disk_core::Disk;
use disk_io2::whole;
use mbr_records::Mbr;
use medium::Medium;
use partition_tables::{Children, Table, TableKind};
use std::alloc::Global;

/// Why a disk's partition table could not be read.
#[derive(Clone, Copy, Debug, PartialEq, Eq)]
pub enum ProbeFault {
    /// No medium is in.
    NoMedia,
    /// A command of the device failed.
    Device,
    /// Memory ran out.
    Memory,
}

/// Reads the partition table of the medium that is in (UEFI 2.10, chapter 5, and own profile).
pub fn probe<M: Medium>(alloc: Global, disk: &mut Disk<M>) -> Result<Table, ProbeFault>
    requires { IsQuiet disk.old }
    ensures stays { AddsEntriesAlone disk.old (probe_failures result) disk.new }
    ensures no_media { IsErrOf result ProbeFault.NoMedia ↔ (is_present disk.old.entries ≡ false) }
    ensures found { IsProbeOf disk.old result disk.new }
    ensures ends { IfErr result (λ fault. EndsProbe disk.old fault disk.new) }
{
    let Some(target) = target_of(disk) else {
        return Err(ProbeFault::NoMedia);
    };
    match table_on(alloc, disk, &target) {
        Ok(table) => Ok(table),
        Err(ReadFault::Device) => Err(ProbeFault::Device),
        Err(ReadFault::Memory) => Err(ProbeFault::Memory),
    }
}

// The medium that is in, as it is probed.
fn target_of<M: Medium>(disk: &Disk<M>) -> Option<Target>
    ensures some { IfSome result (λ target. IsTargetOf disk.now target) }
    ensures none { IfNone result (is_present disk.now.entries ≡ false) }
{
    let view = whole(disk)?;
    let drive = disk.drive();
    let Some(blocks) = drive.blocks_of(drive.media_id()) else {
        unreachable!()
    };
    Some(Target {
        view,
        size: drive.size(),
        blocks,
    })
}

// The table of the medium that is probed.
fn table_on<M: Medium>(
    alloc: Global,
    disk: &mut Disk<M>,
    target: &Target,
) -> Result<Table, ReadFault>
    requires quiet { IsQuiet disk.old }
    requires target { IsTargetOf disk.old target.now }
    ensures stays { AddsEntriesAlone disk.old (read_failures result) disk.new }
    ensures found { Finds disk.old target.now (λ bytes. probe_reads bytes target.now.size)
        (λ bytes table. table ≡ table_of bytes target.now.size) result disk.new }
    ensures ends { ProbeEnds disk.old target.now (λ bytes. probe_reads bytes target.now.size) result disk.new }
{
    let block = read_record(alloc, disk, target, 0)?;
    match Mbr::read(&block) {
        None => Ok(Table {
            kind: TableKind::Plain,
            children: Children::from_vec(Vec::new(alloc)),
        }),
        Some(mbr) => table_by(alloc, disk, target, &mbr),
    }
}

// The table of a medium with this master boot record.
fn table_by<M: Medium>(
    alloc: Global,
    disk: &mut Disk<M>,
    target: &Target,
    mbr: &Mbr,
) -> Result<Table, ReadFault>
    requires quiet { IsQuiet disk.old }
    requires target { IsTargetOf disk.old target.now }
    ensures stays { AddsEntriesAlone disk.old (read_failures result) disk.new }
    ensures found { Finds disk.old target.now (λ bytes. reads_by bytes target.now.size (Some mbr.now))
        (λ bytes table. table ≡ table_by bytes target.now.size (Some mbr.now)) result disk.new }
    ensures ends { ProbeEnds disk.old target.now
        (λ bytes. reads_by bytes target.now.size (Some mbr.now)) result disk.new }
{
    if mbr.is_protective() {
        gpt_table(alloc, disk, target)
    } else {
        mbr_table(alloc, disk, target, mbr)
    }
}
