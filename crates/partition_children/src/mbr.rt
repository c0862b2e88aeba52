ghost use Rattle.std.specs.Prelude.{◌≡◌, ◌+◌, ◌≤◌, [], ◌++◌, IfOk, Some};
ghost use Rattle.std.specs.Option.{option_map_or};
ghost use Rattle.mbr_records.specs.Block.{Fields, extended_range, mbr_of, numbered_record};
ghost use Rattle.mbr_records.specs.Chain.{trail_of};
ghost use Rattle.partition_tables.specs.declared.table.Origin.{Origin};
ghost use Rattle.partition_tables.specs.declared.table.TableKind.{TableKind};
ghost use Rattle.partition_tables.specs.MbrTable.{logicals_of, mbr_children, primaries_of};
ghost use Rattle.partition_children.specs.Probing.{ProbeEnds, Finds, IsQuiet, IsTargetOf, AddsEntriesAlone, read_failures};
ghost use Rattle.partition_children.specs.Reads.{chain_reads};

use crate::child_list::add;
use crate::reading::{ReadFault, Target, read_record};
use disk_core::Disk;
use mbr_records::{Chain, Mbr, MbrRecord};
use medium::Medium;
use partition_tables::{Child, Children, Origin, Table, TableKind};
use std::alloc::{AllocError, Global};

// The number of the first logical child.
const FIRST_LOGICAL: u32 = 5;

/// The table of a master boot record that is not protective: the children of its records, and those of the chain of its extended
/// partition (UEFI 2.10, 5.2.1, and own profile).
pub fn mbr_table<M: Medium>(
    alloc: Global,
    disk: &mut Disk<M>,
    target: &Target,
    mbr: &Mbr,
) -> Result<Table, ReadFault>
    requires quiet { IsQuiet disk.old }
    requires target { IsTargetOf disk.old target.now }
    ensures stays { AddsEntriesAlone disk.old (read_failures result) disk.new }
    ensures found { Finds disk.old target.now (λ bytes. option_map_or
        (λ extended. chain_reads bytes target.now.size extended)
        (extended_range target.now.blocks mbr.now.records) [])
        (λ bytes table. table ≡ record {
          kind = TableKind.Mbr;
          children = mbr_children bytes target.now.size mbr.now;
        }) result disk.new }
    ensures ends { ProbeEnds disk.old target.now (λ bytes. option_map_or
        (λ extended. chain_reads bytes target.now.size extended)
        (extended_range target.now.blocks mbr.now.records) []) result disk.new }
{
    let mut children = primaries(alloc, target.blocks, mbr)?;
    if let Some((start, size)) = mbr.extended(target.blocks) {
        add_logicals(
            alloc,
            disk,
            target,
            mbr.signature(),
            Chain::begin(start, size),
            &mut children,
        )?;
    }
    Ok(Table {
        kind: TableKind::Mbr,
        children: Children::from_vec(children),
    })
}

// The children of the four records.
fn primaries(alloc: Global, blocks: u64, mbr: &Mbr) -> Result<Vec<Child>, AllocError>
    ensures { IfOk result (λ children. children.items ≡ primaries_of blocks mbr.now) }
{
    let flags = mbr.usable(blocks);
    let mut children = Vec::new(alloc);
    for (place, record) in mbr.records().iter().enumerate() {
        if flags[place] {
            let span = (u64::from(record.start), u64::from(record.size));
            add(
                &mut children,
                place as u32 + 1,
                span,
                origin_of(mbr.signature(), *record),
            )?;
        }
    }
    Ok(children)
}

// Adds the logical children of a chain, which are numbered in its order.
fn add_logicals<M: Medium>(
    alloc: Global,
    disk: &mut Disk<M>,
    target: &Target,
    signature: u32,
    mut chain: Chain,
    children: &mut Vec<Child>,
) -> Result<(), ReadFault>
    requires quiet { IsQuiet disk.old }
    requires target { IsTargetOf disk.old target.now }
    requires fresh { chain ≡ trail_of chain.start chain.size [] }
    requires inside { chain.start + chain.size ≤ target.now.blocks }
    ensures stays { AddsEntriesAlone disk.old (read_failures result) disk.new }
    ensures found { Finds disk.old target.now (λ bytes. chain_reads bytes target.now.size (chain.start, chain.size))
        (λ bytes done. children.new.items ≡ children.old.items
        ++ logicals_of bytes target.now.size signature (chain.start, chain.size)) result disk.new }
    ensures ends { ProbeEnds disk.old target.now
        (λ bytes. chain_reads bytes target.now.size (chain.start, chain.size)) result disk.new }
{
    let mut number = FIRST_LOGICAL;
    while let Some(own) = chain.next_block() {
        let block = read_record(alloc, disk, target, own)?;
        if let Some(span) = chain.feed(&block) {
            add(
                children,
                number,
                span,
                origin_of(signature, first_record(&block)),
            )?;
            number += 1;
        }
    }
    Ok(())
}

// The first record of an extended boot record; one of zeros where there is none.
fn first_record(block: &[u8; 512]) -> MbrRecord
    ensures { (ebr : Fields) → mbr_of block.now ≡ Some ebr → result ≡ numbered_record 0 ebr }
{
    match Mbr::read(block) {
        Some(ebr) => {
            let [first, _, _, _] = ebr.records();
            first
        }
        None => MbrRecord {
            boot: 0,
            os_type: 0,
            start: 0,
            size: 0,
        },
    }
}

// What a record tells of its child beside its place.
fn origin_of(signature: u32, entry: MbrRecord) -> Origin
    ensures { result ≡ Origin.Mbr entry.os_type signature entry.boot }
{
    Origin::Mbr {
        os_type: entry.os_type,
        signature,
        boot: entry.boot,
    }
}
