ghost use Rattle.std.specs.Prelude.{ℕ, ◌≡◌, ◌+◌, ◌≤◌, true, IfSome, slice_get};
ghost use Rattle.mbr_records.specs.Block.{record_gives_partition, is_marked, overlaps_another_record, usable_records};

use crate::partition_record::MbrRecord;
use byteorder::{ByteOrder, LittleEndian};
use std::marker::Model;

/// A master boot record, or an extended boot record, which has the same fields (UEFI 2.10, 5.2.1).
#[derive(Drop)]
pub struct Mbr {
    signature: u32,
    records: [MbrRecord; 4],
}

impl Model for Mbr {
    ghost use Rattle.mbr_records.specs.Block.{Fields};

    ghost Value = { Fields };

    ghost view = { λ m. record { signature = m.signature; records = m.records } };
}

impl Mbr {
    ghost use Rattle.std.specs.List.{list_any};
    ghost use Rattle.mbr_records.specs.Record.{is_protective};
    ghost use Rattle.mbr_records.specs.Block.{extended_range, boot_fields, mbr_of};

    /// The record in the first 512 bytes of a block. None exactly where bytes 510 and 511 are not 55 AA (UEFI 2.10, 5.2.1).
    pub fn read(block: &[u8; 512]) -> Option<Mbr>
        ensures { result ≡ mbr_of block.now }
    {
        if !is_marked(block) {
            return None;
        }
        Some(Mbr::fields(block))
    }

    fn fields(block: &[u8; 512]) -> Mbr
        ensures { result ≡ boot_fields block.now }
    {
        Mbr {
            signature: LittleEndian::read_u32(&block[440..444]),
            records: [
                MbrRecord::read(&block[446..462]),
                MbrRecord::read(&block[462..478]),
                MbrRecord::read(&block[478..494]),
                MbrRecord::read(&block[494..510]),
            ],
        }
    }

    /// The four partition records, in their order.
    pub fn records(&self) -> [MbrRecord; 4]
        ensures { result ≡ self.now.records }
    {
        self.records
    }

    /// The disk signature.
    pub fn signature(&self) -> u32
        ensures { result ≡ self.now.signature }
    {
        self.signature
    }

    /// Whether some record has type EE and starting LBA 1 (UEFI 2.10, 5.2.3). Its size is not asked (own profile).
    pub fn is_protective(&self) -> bool
        ensures { result ≡ list_any is_protective self.now.records }
    {
        self.records.iter().any(|entry| entry.is_protective())
    }

    /// Which records give a partition of a medium of so many blocks: a used record of a type other than 05, 0F and EE, whose end
    /// is at most the medium's and which shares no block with another used record (own profile).
    pub fn usable(&self, blocks: u64) -> [bool; 4]
        ensures exact { result ≡ usable_records blocks self.now.records }
        ensures inside { (i : ℕ) → slice_get result i ≡ Some true →
            IfSome (slice_get self.now.records i) (λ r. r.start + r.size ≤ blocks) }
    {
        usable_flags(&self.records, blocks)
    }

    /// The first block and the number of blocks of the extended partition: the first used record of type 05 or 0F whose end is at
    /// most that of a medium of so many blocks. None exactly where there is no such record (own profile).
    pub fn extended(&self, blocks: u64) -> Option<(u64, u64)>
        ensures exact { result ≡ extended_range blocks self.now.records }
        ensures inside { IfSome result (λ p. p.0 + p.1 ≤ blocks) }
    {
        self.records
            .iter()
            .find(|entry| entry.is_extended() && entry.is_on_medium(blocks))
            .map(|entry| (u64::from(entry.start), u64::from(entry.size)))
    }
}

/// Whether bytes 510 and 511 are 55 AA (UEFI 2.10, 5.2.1).
fn is_marked(block: &[u8; 512]) -> bool
    ensures { result ≡ is_marked block.now }
{
    block[510] == 0x55 && block[511] == 0xAA
}

/// Which of the four records give a partition of a medium of so many blocks.
fn usable_flags(records: &[MbrRecord; 4], blocks: u64) -> [bool; 4]
    ensures { result ≡ usable_records blocks records.now }
{
    let [first, second, third, fourth] = *records;
    [
        gives_partition(records, blocks, 0, first),
        gives_partition(records, blocks, 1, second),
        gives_partition(records, blocks, 2, third),
        gives_partition(records, blocks, 3, fourth),
    ]
}

/// Whether the record at this place gives a partition.
fn gives_partition(records: &[MbrRecord; 4], blocks: u64, place: usize, entry: MbrRecord) -> bool
    ensures { result ≡ record_gives_partition blocks records.now place entry }
{
    entry.is_data() && entry.is_on_medium(blocks) && !overlaps_another(records, place, entry)
}

/// Whether the record at this place shares a block with another used record.
fn overlaps_another(records: &[MbrRecord; 4], place: usize, entry: MbrRecord) -> bool
    ensures { result ≡ overlaps_another_record records.now place entry }
{
    records.iter().enumerate().any(|(i, other)| i != place
        && other.is_used()
        && entry.shares_block(*other))
}
