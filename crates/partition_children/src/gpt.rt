ghost use Rattle.std.specs.Prelude.{◌≡◌, ◌+◌, ◌-◌, ◌*◌, ◌^◌, ◌≤◌, ◌<◌, ◌==◌, ◌&&◌, not, nat_lt, IfOk, IfErr, None, option_map, slice_range, length, vec_len};
ghost use Rattle.gpt_headers.specs.Array.{array_range_of};
ghost use Rattle.partition_tables.specs.GptTable.{child_of_entry, array_entries, entry_children, good_header, gpt_children, gpt_table, gpt_table_by, header_with_array};
ghost use Rattle.partition_children.specs.declared.reading.ReadFault.{ReadFault};
ghost use Rattle.partition_children.specs.Probing.{ProbeEnds, Finds, IsQuiet, IsTargetOf, AddsEntriesAlone, read_failures, pair_of, part_read};
ghost use Rattle.partition_children.specs.Reads.{array_read, gpt_reads, header_reads};

use crate::child_list::add;
use crate::good_header::GoodHeader;
use crate::reading::{ReadFault, Target, read_block, read_bytes};
use disk_core::Disk;
use gpt_headers::{GptEntry, Header, array_ok, array_range, usable};
use medium::Medium;
use partition_tables::{Child, Children, Origin, Table, TableKind};
use std::alloc::{AllocError, Global};

/// The table behind a protective master boot record: that of the header at LBA 1, or else that of the header at the last LBA (UEFI
/// 2.10, 5.3.2; which headers are good: own profile).
pub fn gpt_table<M: Medium>(
    alloc: Global,
    disk: &mut Disk<M>,
    target: &Target,
) -> Result<Table, ReadFault>
    requires quiet { IsQuiet disk.old }
    requires target { IsTargetOf disk.old target.now }
    ensures stays { AddsEntriesAlone disk.old (read_failures result) disk.new }
    ensures found { Finds disk.old target.now (λ bytes. gpt_reads bytes target.now.size)
        (λ bytes table. table ≡ gpt_table bytes target.now.size) result disk.new }
    ensures ends { ProbeEnds disk.old target.now (λ bytes. gpt_reads bytes target.now.size) result disk.new }
{
    match good_header(alloc, disk, target, 1)? {
        Some(good) => table_by(alloc, target, TableKind::GptPrimary, &good),
        None => backup_table(alloc, disk, target),
    }
}

// The table of the header at the last LBA, where that at LBA 1 is bad.
fn backup_table<M: Medium>(
    alloc: Global,
    disk: &mut Disk<M>,
    target: &Target,
) -> Result<Table, ReadFault>
    requires quiet { IsQuiet disk.old }
    requires target { IsTargetOf disk.old target.now }
    ensures stays { AddsEntriesAlone disk.old (read_failures result) disk.new }
    ensures found { Finds disk.old target.now (λ bytes. header_reads bytes target.now.size (target.now.blocks - 1))
        (λ bytes table. table ≡ gpt_table_by target.now.blocks None
        (good_header bytes target.now.size (target.now.blocks - 1))) result disk.new }
    ensures ends { ProbeEnds disk.old target.now
        (λ bytes. header_reads bytes target.now.size (target.now.blocks - 1)) result disk.new }
{
    match good_header(alloc, disk, target, target.blocks - 1)? {
        Some(good) => table_by(alloc, target, TableKind::GptBackup, &good),
        None => Ok(Table {
            kind: TableKind::GptDamaged,
            children: Children::from_vec(Vec::new(alloc)),
        }),
    }
}

// The good header at this LBA. A place that is not on the medium, or is block 0, is not read.
fn good_header<M: Medium>(
    alloc: Global,
    disk: &mut Disk<M>,
    target: &Target,
    lba: u64,
) -> Result<Option<GoodHeader>, ReadFault>
    requires quiet { IsQuiet disk.old }
    requires target { IsTargetOf disk.old target.now }
    ensures stays { AddsEntriesAlone disk.old (read_failures result) disk.new }
    ensures found { Finds disk.old target.now (λ bytes. header_reads bytes target.now.size lba)
        (λ bytes good. option_map pair_of good ≡ good_header bytes target.now.size lba) result disk.new }
    ensures ends { ProbeEnds disk.old target.now
        (λ bytes. header_reads bytes target.now.size lba) result disk.new }
{
    if !is_header_place(target, lba) {
        return Ok(None);
    }
    let block = read_block(alloc, disk, target, lba)?;
    match Header::read(&block, lba) {
        Ok(header) => with_array(alloc, disk, target, header),
        Err(_) => Ok(None),
    }
}

// Whether a header may stand at this LBA: on the medium, and not in its first block.
fn is_header_place(target: &Target, lba: u64) -> bool
    ensures { result ≡ (not (lba == 0) && nat_lt lba target.now.blocks) }
{
    lba != 0 && lba < target.blocks
}

// The header with its array, where this lies on the medium and is good.
fn with_array<M: Medium>(
    alloc: Global,
    disk: &mut Disk<M>,
    target: &Target,
    header: Header,
) -> Result<Option<GoodHeader>, ReadFault>
    requires quiet { IsQuiet disk.old }
    requires target { IsTargetOf disk.old target.now }
    ensures stays { AddsEntriesAlone disk.old (read_failures result) disk.new }
    ensures found { Finds disk.old target.now (λ bytes. array_read
        (array_range_of header target.now.blocks target.now.size))
        (λ bytes good. option_map pair_of good ≡ header_with_array bytes target.now.size header) result disk.new }
    ensures ends { ProbeEnds disk.old target.now (λ bytes. array_read
        (array_range_of header target.now.blocks target.now.size)) result disk.new }
{
    let Some((at, length)) = array_range(&header, target.blocks, target.size) else {
        return Ok(None);
    };
    let array = read_array(alloc, disk, target, at, length as usize)?;
    if array_ok(&header, &array) {
        Ok(Some(GoodHeader { header, array }))
    } else {
        Ok(None)
    }
}

// The bytes of an array. An empty one is not read.
fn read_array<M: Medium>(
    alloc: Global,
    disk: &mut Disk<M>,
    target: &Target,
    at: u64,
    length: usize,
) -> Result<Vec<u8>, ReadFault>
    requires quiet { IsQuiet disk.old }
    requires target { IsTargetOf disk.old target.now }
    requires inside { at + length ≤ target.now.blocks * target.now.size }
    requires most { length ≤ 2 ^ 24 }
    ensures stays { AddsEntriesAlone disk.old (read_failures result) disk.new }
    ensures long { IfOk result (λ array. vec_len array ≡ length) }
    ensures found { Finds disk.old target.now (λ bytes. part_read at length)
        (λ bytes array. array.items ≡ slice_range bytes at (at + length)) result disk.new }
    ensures ends { ProbeEnds disk.old target.now (λ bytes. part_read at length) result disk.new }
{
    if length == 0 {
        return Ok(Vec::new(alloc));
    }
    read_bytes(alloc, disk, target, at, length)
}

// The table of a good header.
fn table_by(
    alloc: Global,
    target: &Target,
    kind: TableKind,
    good: &GoodHeader,
) -> Result<Table, ReadFault>
    ensures memory { IfErr result (λ fault. fault ≡ ReadFault.Memory) }
    ensures table { IfOk result (λ table. table ≡ record {
      kind = kind;
      children = gpt_children target.now.blocks (pair_of good.now);
    }) }
{
    let entries = entries_in(alloc, good)?;
    let children = entry_children(alloc, &good.header, &entries, target.blocks)?;
    Ok(Table {
        kind,
        children: Children::from_vec(children),
    })
}

// The entries of an array.
fn entries_in(alloc: Global, good: &GoodHeader) -> Result<Vec<GptEntry>, AllocError>
    ensures entries { IfOk result (λ entries.
        entries.items ≡ array_entries good.now.header good.now.array.items) }
    ensures few { IfOk result (λ entries. length entries.items < 2 ^ 32) }
{
    let size = good.header.entry_size() as usize;
    let mut entries = Vec::new(alloc);
    for i in 0..good.header.count() as usize {
        entries.push(GptEntry::read(&good.array[i * size..i * size + 128]))?;
    }
    Ok(entries)
}

// The children of the entries that give one, on a medium of so many blocks.
fn entry_children(
    alloc: Global,
    header: &Header,
    entries: &[GptEntry],
    blocks: u64,
) -> Result<Vec<Child>, AllocError>
    requires { length entries.now < 2 ^ 32 }
    ensures { IfOk result (λ children. children.items ≡ entry_children blocks header.now entries.now) }
{
    let flags = usable(alloc, header, entries, blocks)?;
    let mut children = Vec::new(alloc);
    for (place, entry) in entries.iter().enumerate() {
        if flags[place] {
            let child = child_of(place, entry);
            add(
                &mut children,
                child.number,
                (child.first, child.blocks),
                child.origin,
            )?;
        }
    }
    Ok(children)
}

// The child that the entry at this place gives.
fn child_of(place: usize, entry: &GptEntry) -> Child
    requires few { place + 1 < 2 ^ 32 }
    requires some { entry.now.first ≤ entry.now.last }
    requires fits { entry.now.last + 1 < 2 ^ 64 }
    ensures { result ≡ child_of_entry (place, entry.now) }
{
    Child {
        number: place as u32 + 1,
        first: entry.first,
        blocks: entry.last - entry.first + 1,
        origin: Origin::Gpt {
            kind: entry.kind,
            unique: entry.unique,
            attributes: entry.attributes,
        },
    }
}
