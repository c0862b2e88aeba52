use uuid::Uuid;

/// The kind of partition table that names the partition (UEFI 2.10, 10.3.5.1).
#[derive(Clone, Copy, Debug, PartialEq, Eq)]
pub enum Format {
    /// A master boot record, or an extended one.
    Mbr,
    /// A GUID partition table.
    Gpt,
}

/// The signature by which the partition's disk, or the partition itself, is known (UEFI 2.10, 10.3.5.1).
#[derive(Clone, Copy, Debug, PartialEq, Eq)]
pub enum Sign {
    /// No signature.
    None,
    /// The disk signature of the master boot record.
    Mbr(u32),
    /// The unique GUID of the partition.
    Guid(Uuid),
}

/// A partition of a hard drive, as a device path names it (UEFI 2.10, 10.3.5.1).
#[derive(Clone, Copy, Debug, PartialEq, Eq)]
pub struct HardDrive {
    /// The number of the partition in its table.
    pub number: u32,
    /// The first block, an LBA.
    pub start: u64,
    /// The number of blocks.
    pub size: u64,
    /// The kind of its table.
    pub format: Format,
    /// The signature.
    pub sign: Sign,
}
