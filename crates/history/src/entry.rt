use byte_lists::Bytes;
use efi_status::Status;

/// The part of a medium that a request is for: a partition, or the whole medium (UEFI 2.10, 13.7 and 13.9).
#[derive(Clone, Copy, Debug, PartialEq, Eq)]
pub struct View {
    /// Its first byte on the medium.
    pub start: u64,
    /// Its length in bytes.
    pub length: u64,
    /// The id of its medium, from 1.
    pub media_id: u32,
    /// The number of the partition, or 0 for the whole medium.
    pub index: u32,
}

/// What a request does.
#[derive(Clone, Copy, Debug, PartialEq, Eq)]
pub enum Kind {
    Read,
    Write,
    Flush,
    /// Makes whole blocks zero (own profile).
    Erase,
}

/// Whether a request counts its place in bytes (Disk I/O) or in blocks (Block I/O).
#[derive(Clone, Copy, Debug, PartialEq, Eq)]
pub enum UnitKind {
    Bytes,
    Blocks,
}

/// What a request asks for. A flush has the unit bytes and zeros, and an erase the unit blocks.
#[derive(Clone, Copy, Debug, PartialEq, Eq)]
pub struct Asked {
    pub kind: Kind,
    pub unit: UnitKind,
    /// The place in the view: a byte offset, or an LBA where the unit is blocks.
    pub at: u64,
    /// The length in bytes.
    pub length: u64,
}

/// A command to the block device. A block is an LBA of the medium.
#[derive(Clone, Copy, Debug, PartialEq, Eq)]
pub enum Command {
    /// Reads a group, named by its first block, of which some bytes are to be changed.
    Fetch { block: u64 },
    /// Writes such a group back with the bytes put in.
    Store { block: u64 },
    /// Writes 1 to 64 whole blocks.
    Put { block: u64, count: u32 },
    /// Reads 1 to 64 blocks.
    Get { block: u64, count: u32 },
    /// Makes 1 to 64 whole blocks zero.
    Wipe { block: u64, count: u32 },
    /// Flushes the device's cache.
    Sync,
}

/// Something that happened. Token t is the t-th accepted request, from 0 (own profile).
#[derive(Drop)]
pub enum Entry {
    /// A request was accepted. The bytes are a write's, and none for other kinds.
    Accept {
        tag: u32,
        view: View,
        asked: Asked,
        bytes: Bytes,
    },
    /// A request was refused with this status.
    Refuse {
        tag: u32,
        view: View,
        asked: Asked,
        media_id: u32,
        status: Status,
    },
    /// A command was done.
    Done {
        token: u64,
        command: Command,
    },
    /// A command failed after so many blocks.
    Fault {
        token: u64,
        command: Command,
        done: u32,
    },
    /// An ended request was handed back to its caller.
    Collect {
        tag: u32,
        token: u64,
    },
    /// The outstanding requests of a view were ended.
    Cancel {
        tag: u32,
        view: View,
    },
    /// All outstanding requests were ended.
    Reset {
        tag: u32,
    },
    /// The medium was taken out.
    Eject {
        tag: u32,
    },
    /// The next medium was put in.
    Insert {
        tag: u32,
        media_id: u32,
    },
    /// Write protection was set or lifted.
    Protect {
        tag: u32,
        on: bool,
    },
}
