ghost use Rattle.std.specs.Prelude.{◌≡◌, ◌≤◌, ◌*◌, ◌^◌, ◌↔◌, ℕ, IsTrue, IfOk, IfNone, length};
ghost use Rattle.std.specs.Result.{result_err};
ghost use Rattle.gpt_headers.specs.Array.{array_length};
ghost use Rattle.gpt_headers.specs.Limits.{least_entry, least_header, most_array};
ghost use Rattle.gpt_headers.specs.Header.{crc_of, header_fault, header_fields, has_crc, has_entry_size, has_place, begins_as_header, has_size, has_small_array, is_entry_size, header_size};

use crate::guid::read_guid;
use byteorder::{ByteOrder, LittleEndian};
use crc_table::Crc;
use std::marker::Model;
use uuid::Uuid;

/// What a header begins with (UEFI 2.10, 5.3.2).
const SIGNATURE: [u8; 8] = *b"EFI PART";

/// The least size of a header in bytes (UEFI 2.10, 5.3.2).
const LEAST_HEADER: usize = 92;

/// The least size of a partition entry in bytes (UEFI 2.10, 5.3.2).
const LEAST_ENTRY: u32 = 128;

/// How many bytes an array of partition entries has at most (own profile).
const MOST_ARRAY: u64 = 0x10_0000;

/// Why a block holds no GPT header: its first test that fails, in this order (UEFI 2.10, 5.3.2; the bounds are own profile).
#[derive(Clone, Copy, Debug, PartialEq, Eq)]
pub enum HeaderFault {
    /// The block does not begin with `EFI PART`.
    Signature,
    /// The header has fewer than 92 bytes, or more than the block.
    Size,
    /// Its CRC32 is not that of its bytes, with the four bytes of the CRC32 as zero.
    Crc,
    /// It is not the header of the block from which it was read.
    Place,
    /// The size of an entry is not 128 bytes times a power of two.
    EntrySize,
    /// The entries have more than 1 MiB.
    TooLarge,
}

/// A GPT header that passed every test (UEFI 2.10, 5.3.2).
#[derive(Drop)]
pub struct Header {
    alternate: u64,
    first_usable: u64,
    last_usable: u64,
    disk_guid: Uuid,
    array_lba: u64,
    count: u32,
    entry_size: u32,
    array_crc: u32,
}

impl Model for Header {
    ghost use Rattle.std.specs.Prelude.{◌≤◌, ◌*◌};
    ghost use Rattle.gpt_headers.specs.Fields.{HeaderFields};
    ghost use Rattle.gpt_headers.specs.Limits.{least_entry, most_array};

    ghost Value = { HeaderFields };

    ghost view = { λ h. record {
      alternate = h.alternate;
      first_usable = h.first_usable;
      last_usable = h.last_usable;
      disk_guid = h.disk_guid;
      array_lba = h.array_lba;
      count = h.count;
      entry_size = h.entry_size;
      array_crc = h.array_crc;
    } };

    ghost invariant = { λ h. (least_entry ≤ h.entry_size) × (h.count * h.entry_size ≤ most_array) };
}

impl Header {
    /// The header in a block that was read at this LBA. The error is the fault of the first test that fails. The block has its whole
    /// size, in bytes, of at least 92 (UEFI 2.10, 5.3.2).
    pub fn read(block: &[u8], lba: u64) -> Result<Header, HeaderFault>
        requires { least_header ≤ length block.now }
        ensures fault { result_err result ≡ header_fault lba block.now }
        ensures fields { IfOk result (λ h. h ≡ header_fields block.now) }
    {
        match first_fault(block, lba) {
            Some(fault) => Err(fault),
            None => Ok(Header::fields(block)),
        }
    }

    /// The header of a block that passed every test.
    #[tactic(auto, unfolding(crate::specs::Header::header_fields, crate::specs::Header::has_entry_size, crate::specs::Header::has_small_array))]
    fn fields(block: &[u8]) -> Header
        requires size { least_header ≤ length block.now }
        requires entry { IsTrue (has_entry_size block.now) }
        requires array { IsTrue (has_small_array block.now) }
        ensures { result ≡ header_fields block.now }
    {
        Header {
            alternate: LittleEndian::read_u64(&block[32..40]),
            first_usable: LittleEndian::read_u64(&block[40..48]),
            last_usable: LittleEndian::read_u64(&block[48..56]),
            disk_guid: read_guid(&block[56..72]),
            array_lba: LittleEndian::read_u64(&block[72..80]),
            count: LittleEndian::read_u32(&block[80..84]),
            entry_size: LittleEndian::read_u32(&block[84..88]),
            array_crc: LittleEndian::read_u32(&block[88..92]),
        }
    }

    /// The first block that a partition may have, an LBA (UEFI 2.10, 5.3.2).
    pub fn first_usable(&self) -> u64
        ensures { result ≡ self.now.first_usable }
    {
        self.first_usable
    }

    /// The last block that a partition may have, an LBA (UEFI 2.10, 5.3.2).
    pub fn last_usable(&self) -> u64
        ensures { result ≡ self.now.last_usable }
    {
        self.last_usable
    }

    /// The first block of the array of partition entries, an LBA (UEFI 2.10, 5.3.2).
    pub fn array_lba(&self) -> u64
        ensures { result ≡ self.now.array_lba }
    {
        self.array_lba
    }

    /// The block of the other header, an LBA (UEFI 2.10, 5.3.2).
    pub fn alternate(&self) -> u64
        ensures { result ≡ self.now.alternate }
    {
        self.alternate
    }

    /// The number of partition entries (UEFI 2.10, 5.3.2).
    pub fn count(&self) -> u32
        ensures { result ≡ self.now.count }
    {
        self.count
    }

    /// The size of a partition entry in bytes (UEFI 2.10, 5.3.2).
    pub fn entry_size(&self) -> u32
        ensures exact { result ≡ self.now.entry_size }
        ensures least { least_entry ≤ result }
    {
        self.entry_size
    }

    /// The CRC32 of the array of partition entries (UEFI 2.10, 5.3.2).
    pub fn array_crc(&self) -> u32
        ensures { result ≡ self.now.array_crc }
    {
        self.array_crc
    }

    /// How many bytes the array of partition entries has.
    pub(crate) fn array_length(&self) -> u64
        ensures exact { result ≡ array_length self.now }
        ensures small { result ≤ most_array }
    {
        u64::from(self.count) * u64::from(self.entry_size)
    }

    /// The GUID of the disk (UEFI 2.10, 5.3.2).
    pub fn disk_guid(&self) -> Uuid
        ensures { result ≡ self.now.disk_guid }
    {
        self.disk_guid
    }
}

/// The fault of the first test that fails of a header in a block that was read at this LBA.
#[tactic(auto, unfolding(crate::specs::Header::header_fault))]
fn first_fault(block: &[u8], lba: u64) -> Option<HeaderFault>
    requires { least_header ≤ length block.now }
    ensures exact { result ≡ header_fault lba block.now }
    ensures entry { IfNone result (IsTrue (has_entry_size block.now)) }
    ensures array { IfNone result (IsTrue (has_small_array block.now)) }
{
    if !has_signature(block) {
        Some(HeaderFault::Signature)
    } else if !has_size(block) {
        Some(HeaderFault::Size)
    } else if !has_crc(block) {
        Some(HeaderFault::Crc)
    } else if !has_place(block, lba) {
        Some(HeaderFault::Place)
    } else if !has_entry_size(block) {
        Some(HeaderFault::EntrySize)
    } else if !has_small_array(block) {
        Some(HeaderFault::TooLarge)
    } else {
        None
    }
}

/// Whether the block begins with the signature.
#[tactic(auto, unfolding(crate::specs::Header::begins_as_header))]
fn has_signature(block: &[u8]) -> bool
    ensures { result ≡ begins_as_header block.now }
{
    block.starts_with(&SIGNATURE)
}

/// How many bytes the header says that it has.
fn size(block: &[u8]) -> usize
    requires { least_header ≤ length block.now }
    ensures { result ≡ header_size block.now }
{
    LittleEndian::read_u32(&block[12..16]) as usize
}

/// Whether the header has a size in bytes that it can have.
#[tactic(auto, unfolding(crate::specs::Header::has_size))]
fn has_size(block: &[u8]) -> bool
    requires { least_header ≤ length block.now }
    ensures { result ≡ has_size block.now }
{
    LEAST_HEADER <= size(block) && size(block) <= block.len()
}

/// Whether the header has the CRC32 that it tells.
#[tactic(auto, unfolding(crate::specs::Header::has_size, crate::specs::Header::has_crc))]
fn has_crc(block: &[u8]) -> bool
    requires room { least_header ≤ length block.now }
    requires size { IsTrue (has_size block.now) }
    ensures { result ≡ has_crc block.now }
{
    header_crc(block, size(block)) == LittleEndian::read_u32(&block[16..20])
}

/// The CRC32 of so many bytes of the block, with the four bytes of the CRC32 as zero.
fn header_crc(block: &[u8], size: usize) -> u32
    requires start { 20 ≤ size }
    requires end { size ≤ length block.now }
    ensures { result ≡ crc_of size block.now }
{
    let mut crc = Crc::new();
    crc.update(&block[..16]);
    crc.update(&[0; 4]);
    crc.update(&block[20..size]);
    crc.value()
}

/// Whether the header says that it stands at this LBA.
#[tactic(auto, unfolding(crate::specs::Header::has_place))]
fn has_place(block: &[u8], lba: u64) -> bool
    requires { least_header ≤ length block.now }
    ensures { result ≡ has_place lba block.now }
{
    LittleEndian::read_u64(&block[24..32]) == lba
}

/// Whether an entry has a size in bytes that it can have.
#[tactic(auto, unfolding(crate::specs::Header::has_entry_size))]
fn has_entry_size(block: &[u8]) -> bool
    requires { least_header ≤ length block.now }
    ensures { result ≡ has_entry_size block.now }
{
    is_entry_size(LittleEndian::read_u32(&block[84..88]))
}

/// Whether a partition entry may have so many bytes: 128 times a power of two.
fn is_entry_size(size: u32) -> bool
    ensures exact { result ≡ is_entry_size size }
    ensures power { IsTrue result ↔ ((k : ℕ) × (size ≡ 128 * 2 ^ k)) }
{
    LEAST_ENTRY <= size && size.is_power_of_two()
}

/// Whether the entries have no more than 1 MiB.
#[tactic(auto, unfolding(crate::specs::Header::has_small_array))]
fn has_small_array(block: &[u8]) -> bool
    requires { least_header ≤ length block.now }
    ensures { result ≡ has_small_array block.now }
{
    let count = LittleEndian::read_u32(&block[80..84]);
    let entry_size = LittleEndian::read_u32(&block[84..88]);
    u64::from(count) * u64::from(entry_size) <= MOST_ARRAY
}
