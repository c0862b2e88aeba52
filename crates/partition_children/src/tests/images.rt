//! The disk images of the tests, and disks over them.
ghost use Rattle.std.specs.Prelude.{◌≡◌, None, IfOk};
ghost use Rattle.disk_core.specs.Turns.{IsIdle};
ghost use Rattle.history.specs.Next.{first_open};

use crate::{probe, show};
use crc_table::crc32;
use disk_core::Disk;
use drive::Drive;
use history::{Command, Entry};
use image_store::MemSink;
use medium::{Faulty, MemMedium, Planned};
use partition_tables::Table;
use std::alloc::{AllocError, Global};
use uuid::Uuid;

const SYSTEM: &str = "c12a7328-f81f-11d2-ba4b-00a0c93ec93b";

const DATA: &str = "0fc63daf-8483-4772-8e79-3d69d8477de4";

/// A disk in memory whose commands fail as planned.
pub type TestDisk = Disk<Faulty<MemMedium>>;

/// A disk over these bytes, in blocks of 512.
pub fn disk_of(alloc: Global, bytes: Vec<u8>, plan: &[Planned]) -> Result<TestDisk, AllocError>
    ensures idle { IfOk result (λ disk. IsIdle disk.gates) }
    ensures drained { IfOk result (λ disk. first_open disk.setup disk.entries ≡ None) }
{
    if bytes.is_empty() || bytes.len() % 512 != 0 {
        return Err(AllocError);
    }
    let inner = MemMedium::make(alloc, bytes, 512)?;
    let mut media = Vec::new(alloc);
    media.push(Faulty::make(inner, Vec::from_slice(alloc, plan)?))?;
    match Disk::make(alloc, Drive::make(media, false, false, 1), 1) {
        Ok(disk) => Ok(disk),
        Err(_) => Err(AllocError),
    }
}

/// So many blocks of zeros.
pub fn blocks(alloc: Global, count: u16) -> Result<Vec<u8>, AllocError> {
    vec![in alloc; 0; usize::from(count) * 512]
}

/// Puts a piece at a place, where it lies in the bytes.
pub fn put(bytes: &mut [u8], at: u32, piece: &[u8]) {
    if let Some(rest) = bytes.get_mut(at as usize..) {
        for (place, byte) in rest.iter_mut().zip(piece.iter()) {
            *place = *byte;
        }
    }
}

/// Puts a record of a boot record in the block at an LBA.
pub fn put_record(bytes: &mut [u8], lba: u16, number: u8, os_type: u8, start: u32, size: u32) {
    let at = u32::from(lba) * 512 + 446 + u32::from(number) * 16;
    put(bytes, at + 4, &[os_type]);
    put(bytes, at + 8, &start.to_le_bytes());
    put(bytes, at + 12, &size.to_le_bytes());
    put(bytes, u32::from(lba) * 512 + 510, &[0x55, 0xAA]);
}

/// What a GPT header says, of a disk whose partitions may have the blocks 34 to 4062.
#[derive(Clone, Copy)]
pub struct TestHeader {
    pub lba: u16,
    pub alternate: u16,
    pub array: u16,
    pub count: u32,
    pub entry_size: u32,
    pub array_crc: u32,
}

/// Puts a GPT header of 92 bytes, with its CRC32, in its block.
pub fn put_header(bytes: &mut [u8], header: &TestHeader) {
    let mut text = [0; 92];
    put(&mut text, 0, b"EFI PART");
    put(&mut text, 8, &[0, 0, 1, 0, 92]);
    put(&mut text, 24, &u64::from(header.lba).to_le_bytes());
    put(&mut text, 32, &u64::from(header.alternate).to_le_bytes());
    put(&mut text, 40, &34_u64.to_le_bytes());
    put(&mut text, 48, &4062_u64.to_le_bytes());
    put(&mut text, 72, &u64::from(header.array).to_le_bytes());
    put(&mut text, 80, &header.count.to_le_bytes());
    put(&mut text, 84, &header.entry_size.to_le_bytes());
    put(&mut text, 88, &header.array_crc.to_le_bytes());
    let crc = crc32(&text);
    put(&mut text, 16, &crc.to_le_bytes());
    put(bytes, u32::from(header.lba) * 512, &text);
}

/// Puts an entry at a place of an array that begins at this LBA.
pub fn put_entry(
    bytes: &mut [u8],
    array: u16,
    place: u8,
    kind: &Uuid,
    unique: &Uuid,
    numbers: [u64; 3],
) {
    let at = u32::from(array) * 512 + u32::from(place) * 128;
    let [first, last, attributes] = numbers;
    put(bytes, at, &kind.to_bytes_le());
    put(bytes, at + 16, &unique.to_bytes_le());
    put(bytes, at + 32, &first.to_le_bytes());
    put(bytes, at + 40, &last.to_le_bytes());
    put(bytes, at + 48, &attributes.to_le_bytes());
}

// The GUID of which each byte is this one.
fn guid_of(byte: u8) -> Uuid {
    Uuid::from_bytes([byte; 16])
}

/// Three partitions of a GPT on 4,096 blocks: of the system, of data, and one that is hidden.
pub fn gpt_image(alloc: Global) -> Result<Vec<u8>, AllocError> {
    let mut bytes = blocks(alloc, 4096)?;
    put_record(&mut bytes, 0, 0, 0xEE, 1, 4095);
    let system = Uuid::parse_str(SYSTEM).unwrap_or(Uuid::nil());
    let data = Uuid::parse_str(DATA).unwrap_or(Uuid::nil());
    for array in [2, 4063] {
        put_entry(
            &mut bytes,
            array,
            0,
            &system,
            &guid_of(0x11),
            [2048, 3071, 0],
        );
        put_entry(&mut bytes, array, 1, &data, &guid_of(0x22), [3072, 4062, 5]);
        put_entry(&mut bytes, array, 2, &data, &guid_of(0x33), [1000, 1999, 2]);
    }
    for (lba, alternate, array) in [(1, 4095, 2), (4095, 1, 4063)] {
        put_header(
            &mut bytes,
            &TestHeader {
                lba,
                alternate,
                array,
                count: 128,
                entry_size: 128,
                array_crc: 0xF860_BFF9,
            },
        );
        put(
            &mut bytes,
            u32::from(lba) * 512 + 56,
            &[
                0x33, 0x22, 0x11, 0, 0x55, 0x44, 0x77, 0x66, 0x88, 0x99, 0xAA, 0xBB, 0xCC, 0xDD,
                0xEE, 0xFF,
            ],
        );
    }
    // The CRC32 of each header with its disk GUID.
    put(&mut bytes, 528, &0x098A_1018_u32.to_le_bytes());
    put(&mut bytes, 2_096_656, &0xFEF2_37DA_u32.to_le_bytes());
    Ok(bytes)
}

/// A primary and two logical partitions on 4,096 blocks; the second extended boot record names itself.
pub fn mbr_image(alloc: Global) -> Result<Vec<u8>, AllocError> {
    let mut bytes = blocks(alloc, 4096)?;
    put(&mut bytes, 440, &[0x78, 0x56, 0x34, 0x12]);
    put_record(&mut bytes, 0, 0, 0x83, 64, 64);
    put_record(&mut bytes, 0, 1, 0x05, 1000, 2000);
    put_record(&mut bytes, 1000, 0, 0x83, 1500, 100);
    put_record(&mut bytes, 1000, 1, 0x05, 500, 200);
    put_record(&mut bytes, 1500, 0, 0x83, 10, 50);
    put_record(&mut bytes, 1500, 1, 0x05, 500, 200);
    Ok(bytes)
}

/// What happened, in short: `a` and where and how much was asked for, `g` and the block and how many were got, `c` and the token that
/// was collected, `f` for a failure.
pub fn steps_of(alloc: Global, disk: &TestDisk) -> Result<Vec<(char, u64, u64)>, AllocError> {
    let mut steps = Vec::new(alloc);
    for entry in disk.history().entries() {
        steps.push(step_of(entry))?;
    }
    Ok(steps)
}

fn step_of(entry: &Entry) -> (char, u64, u64) {
    match entry {
        Entry::Accept { tag: 0, asked, .. } => ('a', asked.at, asked.length),
        Entry::Done {
            command: Command::Get { block, count },
            ..
        } => ('g', *block, u64::from(*count)),
        Entry::Collect { tag: 0, token } => ('c', *token, 0),
        Entry::Fault { token, .. } => ('f', *token, 0),
        _ => ('?', 0, 0),
    }
}

/// The lines of the table of these bytes, or what went wrong.
pub fn lines_of(alloc: Global, bytes: Vec<u8>) -> Result<Vec<u8>, AllocError> {
    let mut disk = disk_of(alloc, bytes, &[])?;
    match probe(alloc, &mut disk) {
        Ok(table) => shown(alloc, &table),
        Err(_) => Vec::from_slice(alloc, b"fault"),
    }
}

fn shown(alloc: Global, table: &Table) -> Result<Vec<u8>, AllocError> {
    let mut out = MemSink::make(alloc, Vec::new(alloc));
    match show(alloc, table, &mut out) {
        Ok(()) => Vec::from_slice(alloc, out.bytes()),
        Err(_) => Vec::from_slice(alloc, b"fault"),
    }
}
