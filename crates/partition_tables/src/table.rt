ghost use Rattle.std.specs.Prelude.{◌≡◌};

use std::marker::Model;
use uuid::Uuid;

/// What kind of partition table a medium has (UEFI 2.10, chapter 5; which of them counts is own profile).
#[derive(Clone, Copy, Debug, PartialEq, Eq)]
pub enum TableKind {
    /// None: its first block has no 55 AA.
    Plain,
    /// A master boot record that is not protective.
    Mbr,
    /// A GPT behind a protective master boot record, of which the header at LBA 1 and its array are good.
    GptPrimary,
    /// The same where these are bad, and the header at the last LBA and its array are good.
    GptBackup,
    /// The same where both are bad.
    GptDamaged,
}

/// What a partition table says of a child beside its place.
#[derive(Clone, Copy, Debug, PartialEq, Eq)]
pub enum Origin {
    /// A record of a master boot record or an extended boot record (UEFI 2.10, 5.2.1).
    Mbr {
        /// The OS type.
        os_type: u8,
        /// The signature of the disk's master boot record.
        signature: u32,
        /// The boot indicator.
        boot: u8,
    },
    /// A partition entry (UEFI 2.10, 5.3.3).
    Gpt {
        /// The type.
        kind: Uuid,
        /// The GUID of this partition alone.
        unique: Uuid,
        /// The attribute bits.
        attributes: u64,
    },
}

/// A partition that is offered as a disk of its own.
#[derive(Clone, Copy, Debug, PartialEq, Eq)]
pub struct Child {
    /// Its number: of a record 1 to 4, of a logical partition from 5 on, of an entry from 1 on.
    pub number: u32,
    /// Its first block, an LBA of the medium.
    pub first: u64,
    /// How many blocks it has.
    pub blocks: u64,
    /// What the table says of it beside.
    pub origin: Origin,
}

/// The children of a table in order of number, seen as a list.
#[derive(Drop)]
pub struct Children {
    kept: Vec<Child>,
}

impl Model for Children {
    ghost use Rattle.std.specs.Prelude.{List};
    ghost use Rattle.partition_tables.specs.declared.table.Child.{Child};

    ghost Value = { List Child };

    ghost view = { λ children. children.kept.items };
}

impl Children {
    /// The children of a vector, which takes no memory.
    pub fn from_vec(kept: Vec<Child>) -> Children
        ensures { result ≡ kept.items }
    {
        Children { kept }
    }

    /// Gives the vector back, which takes no memory.
    pub fn into_vec(self) -> Vec<Child>
        ensures { result.items ≡ self }
    {
        let Children { kept } = self;
        kept
    }

    /// The children themselves.
    pub fn as_slice(&self) -> &[Child]
        ensures { result.now ≡ self.now }
    {
        &self.kept
    }
}

/// A medium's partition table: its kind and its children.
#[derive(Drop)]
pub struct Table {
    /// Its kind.
    pub kind: TableKind,
    /// Its children in order of number.
    pub children: Children,
}
