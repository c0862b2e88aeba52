ghost use Rattle.std.specs.Prelude.{◌≡◌, ◌↔◌, ◌≤◌, ℕ, length, IsTrue};

use byteorder::{ByteOrder, LittleEndian};

/// The OS type of a record that is not used.
const UNUSED: u8 = 0x00;

/// The OS type of an extended partition.
const EXTENDED: u8 = 0x05;

/// The OS type of an extended partition that is addressed by LBA.
const EXTENDED_LBA: u8 = 0x0F;

/// The OS type of the record that covers a disk with a GPT (UEFI 2.10, 5.2.2).
const GPT_PROTECTIVE: u8 = 0xEE;

/// A partition record (UEFI 2.10, 5.2.1), without its CHS fields.
#[derive(Clone, Copy, Debug, PartialEq, Eq)]
pub struct MbrRecord {
    /// The boot indicator, of any value.
    pub boot: u8,
    /// The OS type; 00 where the record is not used.
    pub os_type: u8,
    /// The first block, an LBA; in an extended boot record it is relative.
    pub start: u32,
    /// The number of blocks.
    pub size: u32,
}

impl MbrRecord {
    ghost use Rattle.mbr_records.specs.Record.{IsBlockOfRecord, has_extended_type, is_data, is_extended, is_on_medium, is_protective, is_used_record, record_of, records_share_block};

    /// The record in the first 16 bytes (UEFI 2.10, 5.2.1).
    #[tactic(auto, unfolding(crate::specs::Record::record_of))]
    pub(crate) fn read(bytes: &[u8]) -> MbrRecord
        requires { 16 ≤ length bytes.now }
        ensures { result ≡ record_of bytes.now }
    {
        MbrRecord {
            boot: bytes[0],
            os_type: bytes[4],
            start: LittleEndian::read_u32(&bytes[8..12]),
            size: LittleEndian::read_u32(&bytes[12..16]),
        }
    }

    /// Whether it describes some blocks (own profile).
    pub(crate) fn is_used(self) -> bool
        ensures { result ≡ is_used_record self }
    {
        self.os_type != UNUSED && self.size != 0
    }

    /// Whether it is the cover of a disk with a GPT, of any size (UEFI 2.10, 5.2.3).
    pub(crate) fn is_protective(self) -> bool
        ensures { result ≡ is_protective self }
    {
        self.os_type == GPT_PROTECTIVE && self.start == 1
    }

    fn has_extended_type(self) -> bool
        ensures { result ≡ has_extended_type self }
    {
        self.os_type == EXTENDED || self.os_type == EXTENDED_LBA
    }

    /// Whether it describes an extended partition (own profile).
    pub(crate) fn is_extended(self) -> bool
        ensures { result ≡ is_extended self }
    {
        self.is_used() && self.has_extended_type()
    }

    /// Whether it describes a partition that holds data (own profile).
    pub(crate) fn is_data(self) -> bool
        ensures { result ≡ is_data self }
    {
        self.is_used() && !self.has_extended_type() && self.os_type != GPT_PROTECTIVE
    }

    /// Whether its end is at most that of a medium of so many blocks (own profile).
    pub(crate) fn is_on_medium(self, blocks: u64) -> bool
        ensures { result ≡ is_on_medium blocks self }
    {
        u64::from(self.start) + u64::from(self.size) <= blocks
    }

    /// Whether some block is one of both (own profile).
    pub(crate) fn shares_block(self, other: MbrRecord) -> bool
        ensures exact { result ≡ records_share_block self other }
        ensures block { IsTrue result ↔ ((block : ℕ) × IsBlockOfRecord self block × IsBlockOfRecord other block) }
    {
        let end = u64::from(self.start) + u64::from(self.size);
        let other_end = u64::from(other.start) + u64::from(other.size);
        u64::from(self.start.max(other.start)) < end.min(other_end)
    }
}
