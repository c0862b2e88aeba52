ghost use Rattle.std.specs.Prelude.{◌+◌, ◌≤◌};

use super::*;
use byteorder::{ByteOrder, LittleEndian};
use crc_table::crc32;
use std::alloc::{AllocError, Global};
use std::process::Abort;
use std::test::Fail;
use uuid::Uuid;

/// The bytes of an array of 128 entries of 128 bytes.
const ARRAY: usize = 16384;

const DISK: &str = "00112233-4455-6677-8899-aabbccddeeff";

const EFI_SYSTEM: &str = "c12a7328-f81f-11d2-ba4b-00a0c93ec93b";

const LINUX_DATA: &str = "0fc63daf-8483-4772-8e79-3d69d8477de4";

/// Block 1 of a disk of 4,096 blocks of 512 bytes: its header, but for the array's fields, with its CRC32.
fn header_block(count: u32, entry_size: u32, array_crc: u32) -> Result<[u8; 512], Fail> {
    let disk = Uuid::parse_str(DISK)?;
    let mut block = [0; 512];
    block[..8].copy_from_slice(b"EFI PART");
    LittleEndian::write_u32(&mut block[8..12], 0x0001_0000);
    LittleEndian::write_u32(&mut block[12..16], 92);
    LittleEndian::write_u64(&mut block[24..32], 1);
    LittleEndian::write_u64(&mut block[32..40], 4095);
    LittleEndian::write_u64(&mut block[40..48], 34);
    LittleEndian::write_u64(&mut block[48..56], 4062);
    block[56..72].copy_from_slice(&disk.to_bytes_le());
    LittleEndian::write_u64(&mut block[72..80], 2);
    LittleEndian::write_u32(&mut block[80..84], count);
    LittleEndian::write_u32(&mut block[84..88], entry_size);
    LittleEndian::write_u32(&mut block[88..92], array_crc);
    let crc = crc32(&block[..92]);
    LittleEndian::write_u32(&mut block[16..20], crc);
    Ok(block)
}

/// An entry whose unique GUID has one byte 16 times.
fn entry_bytes(
    kind: &str,
    unique: u8,
    first: u64,
    last: u64,
    attributes: u64,
) -> Result<[u8; 128], Fail> {
    let stored = Uuid::parse_str(kind)?.to_bytes_le();
    let mut entry = [0; 128];
    entry[..16].copy_from_slice(&stored);
    entry[16..32].fill(unique);
    LittleEndian::write_u64(&mut entry[32..40], first);
    LittleEndian::write_u64(&mut entry[40..48], last);
    LittleEndian::write_u64(&mut entry[48..56], attributes);
    Ok(entry)
}

fn put(array: &mut [u8; ARRAY], at: usize, entry: [u8; 128])
    requires { at + 128 ≤ ARRAY }
{
    array[at..at + 128].copy_from_slice(&entry);
}

/// Headers with a byte changed, read as some LBA, with entries of some number and size: the fault of each.
#[test]
fn reads_headers(rt: HostRuntime) -> Result<(), Fail> {
    let rows: [(usize, u8, u64, u32, u32, Option<HeaderFault>); 16] = [
        (20, 0, 1, 128, 128, None),
        (20, 0, 2, 128, 128, Some(HeaderFault::Place)),
        (12, 91, 1, 128, 128, Some(HeaderFault::Size)),
        (13, 2, 1, 128, 128, Some(HeaderFault::Size)),
        (16, 0x19, 1, 128, 128, Some(HeaderFault::Crc)),
        (91, 0xF9, 1, 128, 128, Some(HeaderFault::Crc)),
        (0, 0x65, 1, 128, 128, Some(HeaderFault::Signature)),
        (12, 91, 2, 128, 384, Some(HeaderFault::Size)),
        (20, 1, 2, 128, 384, Some(HeaderFault::Crc)),
        (92, 1, 1, 128, 128, None),
        (20, 0, 2, 128, 384, Some(HeaderFault::Place)),
        (20, 0, 1, u32::MAX, 384, Some(HeaderFault::EntrySize)),
        (20, 0, 1, u32::MAX, 128, Some(HeaderFault::TooLarge)),
        (20, 0, 1, 8193, 128, Some(HeaderFault::TooLarge)),
        (20, 0, 1, 8192, 128, None),
        (20, 0, 1, 0, 2_147_483_648, None),
    ];
    for (place, byte, lba, count, entry_size, want) in rows {
        let mut block = header_block(count, entry_size, 0xF860_BFF9)?;
        assert!(rt; place < 512);
        block[place] = byte;
        let read = Header::read(&block, lba);
        assert_eq!(rt;
            read.err(),
            want,
            "byte {place} as {byte}, LBA {lba}, {count} entries of {entry_size}"
        );
    }
    Ok(())
}

/// The array of a disk with three entries.
fn disk_array() -> Result<[u8; ARRAY], Fail> {
    let mut array = [0; ARRAY];
    put(&mut array, 0, entry_bytes(EFI_SYSTEM, 0x11, 2048, 3071, 0)?);
    put(
        &mut array,
        128,
        entry_bytes(LINUX_DATA, 0x22, 3072, 4062, 5)?,
    );
    put(
        &mut array,
        256,
        entry_bytes(LINUX_DATA, 0x33, 1000, 1999, 2)?,
    );
    Ok(array)
}

/// The header of this disk, and where its array lies on media of other sizes.
#[test]
fn reads_a_disk(rt: HostRuntime) -> Result<(), Fail> {
    let mut array = disk_array()?;
    let block = header_block(128, 128, crc32(&array))?;
    assert_eq!(rt; &block[16..20], [0x18, 0x10, 0x8a, 0x09].as_slice());
    let header = Header::read(&block, 1)?;
    assert_eq!(rt; (header.count(), header.entry_size()), (128, 128));
    assert_eq!(rt; (header.first_usable(), header.last_usable()), (34, 4062));
    assert_eq!(rt; (header.array_lba(), header.alternate()), (2, 4095));
    assert_eq!(rt; header.array_crc(), 0xF860_BFF9);
    assert_eq!(rt; header.disk_guid(), Uuid::parse_str(DISK)?);
    assert!(rt; array_ok(&header, &array));
    array[ARRAY - 1] = 1;
    assert!(rt; !array_ok(&header, &array));
    let empty = Header::read(&header_block(0, 128, 0)?, 1)?;
    assert!(rt; array_ok(&empty, &[]));
    let rows = [
        (&header, 4096, Some((1024, 16384))),
        (&header, 34, Some((1024, 16384))),
        (&header, 33, None),
        (&empty, 2, Some((1024, 0))),
        (&empty, 1, None),
    ];
    for (header, blocks, want) in rows {
        assert_eq!(rt; array_range(header, blocks, 512), want, "{blocks} blocks");
    }
    Ok(())
}

/// The three entries of this disk.
fn reads_entries(rt: &impl Abort) -> Result<[GptEntry; 3], Fail> {
    let array = disk_array()?;
    let stored = [
        0x28, 0x73, 0x2a, 0xc1, 0x1f, 0xf8, 0xd2, 0x11, 0xba, 0x4b, 0x00, 0xa0, 0xc9, 0x3e, 0xc9,
        0x3b,
    ];
    assert_eq!(rt; &array[..16], stored.as_slice());
    let entry = GptEntry::read(&array);
    assert_eq!(rt; entry.kind, Uuid::parse_str(EFI_SYSTEM)?);
    assert_eq!(rt;
        entry.unique,
        Uuid::parse_str("11111111-1111-1111-1111-111111111111")?
    );
    assert_eq!(rt;
        (entry.first, entry.last, entry.attributes),
        (2048, 3071, 0)
    );
    let mut bytes = [0; 128];
    bytes[56] = 0x34;
    bytes[127] = 0x12;
    let named = GptEntry::read(&bytes);
    assert_eq!(rt; (named.name[0], named.name[35]), (0x34, 0x1200));
    Ok([
        entry,
        GptEntry::read(&array[128..]),
        GptEntry::read(&array[256..]),
    ])
}

/// Which entries give a partition of a medium of so many blocks: those of this disk, and others with a first and a last block and
/// attributes.
#[test]
fn sorts_out_entries(rt: HostRuntime) -> Result<(), Fail> {
    let header = Header::read(&header_block(128, 128, 0)?, 1)?;
    let disk = reads_entries(&rt)?;
    let flags = usable(rt.alloc(), &header, &disk, 4096)?;
    assert_eq!(rt; flags.as_slice(), [true, true, false].as_slice());
    let rows: [(u64, &[(u64, u64, u64)], &[bool]); 12] = [
        (
            3001,
            &[(2048, 3071, 0), (3072, 4062, 5)],
            &[false, false, false],
        ),
        (4096, &[(40, 50, 0), (50, 60, 0)], &[false, false, false]),
        (4096, &[(40, 50, 0), (51, 60, 0)], &[true, true, false]),
        (4096, &[(40, 50, 0), (45, 47, 2)], &[false, false, false]),
        (4096, &[(34, 34, 0), (33, 33, 0)], &[true, false, false]),
        (
            4096,
            &[(4062, 4062, 0), (4060, 4061, 0)],
            &[true, true, false],
        ),
        (4096, &[(4062, 4063, 0)], &[false, false]),
        (4096, &[(34, 60, 0), (50, 40, 0)], &[true, false, false]),
        (
            4096,
            &[(34, 99, 0), (200, 300, 0), (99, 150, 0)],
            &[false, true, false, false],
        ),
        (
            4096,
            &[(300, 310, 0), (34, 200, 0), (40, 50, 0), (60, 70, 0)],
            &[true, false, false, false, false],
        ),
        (
            4096,
            &[(100, 199, 0), (34, 99, 0), (200, 200, 0)],
            &[true, true, true, false],
        ),
        (
            4096,
            &[(34, 99, 0), (0, u64::MAX, 0)],
            &[false, false, false],
        ),
    ];
    for (blocks, row, want) in &rows {
        let entries = entries_of(rt.alloc(), &disk[0], row)?;
        let flags = usable(rt.alloc(), &header, &entries, *blocks)?;
        assert_eq!(rt; flags.as_slice(), *want, "of {row:?}");
    }
    Ok(())
}

/// These entries, and after them one that is not used, of all usable blocks.
fn entries_of(
    alloc: Global,
    used: &GptEntry,
    row: &[(u64, u64, u64)],
) -> Result<Vec<GptEntry>, AllocError> {
    let mut entries = Vec::new(alloc);
    for (first, last, attributes) in row {
        entries.push(GptEntry {
            first: *first,
            last: *last,
            attributes: *attributes,
            ..*used
        })?;
    }
    entries.push(GptEntry {
        kind: Uuid::nil(),
        first: 34,
        last: 4062,
        ..*used
    })?;
    Ok(entries)
}
