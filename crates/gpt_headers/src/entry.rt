ghost use Rattle.std.specs.Prelude.{◌≡◌, ◌≤◌, ◌↔◌, ℕ, length, IsTrue};
ghost use Rattle.gpt_headers.specs.Name.{name_units};

use crate::guid::read_guid;
use byteorder::{ByteOrder, LittleEndian};
use uuid::Uuid;

/// The attribute bit of a partition of which firmware makes no block device (UEFI 2.10, 5.3.3).
const NO_BLOCK_IO: u64 = 1 << 1;

/// A partition entry (UEFI 2.10, 5.3.3).
#[derive(Clone, Copy, Debug, PartialEq, Eq)]
pub struct GptEntry {
    /// The type, zero where the entry is not used.
    pub kind: Uuid,
    /// The GUID of this partition alone.
    pub unique: Uuid,
    /// The first block, an LBA.
    pub first: u64,
    /// The last block, an LBA; it is the partition's own.
    pub last: u64,
    /// The attribute bits.
    pub attributes: u64,
    /// The name in UTF-16 units.
    pub name: [u16; 36],
}

impl GptEntry {
    ghost use Rattle.std.specs.Int.{IsBitSet};
    ghost use Rattle.gpt_headers.specs.Entry.{entry_in, has_blocks, is_hidden, is_used_entry};

    /// The entry in the first 128 bytes (UEFI 2.10, 5.3.3).
    #[tactic(auto, unfolding(crate::specs::Entry::entry_in))]
    pub fn read(b: &[u8]) -> GptEntry
        requires { 128 ≤ length b.now }
        ensures { result ≡ entry_in b.now }
    {
        GptEntry {
            kind: read_guid(&b[0..16]),
            unique: read_guid(&b[16..32]),
            first: LittleEndian::read_u64(&b[32..40]),
            last: LittleEndian::read_u64(&b[40..48]),
            attributes: LittleEndian::read_u64(&b[48..56]),
            name: read_name(&b[56..128]),
        }
    }

    /// Whether its type is not zero (UEFI 2.10, 5.3.3).
    pub(crate) fn is_used(&self) -> bool
        ensures { result ≡ is_used_entry self.now }
    {
        !self.kind.is_nil()
    }

    /// Whether it is used, and its first block is at most its last (own profile).
    pub(crate) fn has_blocks(&self) -> bool
        ensures { result ≡ has_blocks self.now }
    {
        self.is_used() && self.first <= self.last
    }

    /// Whether attribute bit 1 is set (UEFI 2.10, 5.3.3).
    pub(crate) fn is_hidden(&self) -> bool
        ensures exact { result ≡ is_hidden self.now }
        ensures bit { IsTrue result ↔ IsBitSet self.now.attributes 1 }
    {
        self.attributes & NO_BLOCK_IO != 0
    }
}

/// The 36 units of UTF-16 in these 72 bytes (UEFI 2.10, 5.3.3).
fn read_name(bytes: &[u8]) -> [u16; 36]
    requires { length bytes.now ≡ 72 }
    ensures { result ≡ name_units bytes.now }
{
    let mut name = [0; 36];
    LittleEndian::read_u16_into(bytes, &mut name);
    name
}
