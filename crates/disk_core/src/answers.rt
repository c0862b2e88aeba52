use block_gate::Work;
use drive::Drive;
use efi_status::Status;
use event_cell::Event;

/// What a caller asks of a disk (UEFI 2.10, 13.7 and 13.9; erase: own profile).
#[derive(Drop)]
pub enum Ask {
    /// Reads into the buffer from byte `at` of the view on.
    Read { at: u64, buffer: Vec<u8> },
    /// Writes the buffer from byte `at` of the view on.
    Write { at: u64, buffer: Vec<u8> },
    /// Reads whole blocks into the buffer from block `lba` of the view on.
    ReadBlocks { lba: u64, buffer: Vec<u8> },
    /// Writes the buffer as whole blocks from block `lba` of the view on.
    WriteBlocks { lba: u64, buffer: Vec<u8> },
    /// Makes what was written stay.
    Flush,
    /// Makes whole blocks zero from block `lba` of the view on: `length` bytes.
    EraseBlocks { lba: u64, length: u64 },
}

/// Why a request was not accepted.
#[derive(Clone, Copy, Debug, PartialEq, Eq)]
pub enum Why {
    /// The request is refused with this status.
    Status(Status),
    /// Memory ran out, and nothing was recorded.
    Memory,
}

/// A request that was not accepted, with the buffer that came with it.
#[derive(Drop)]
pub struct Refused {
    pub why: Why,
    pub buffer: Vec<u8>,
}

/// An accepted request.
#[derive(Drop)]
pub struct Token {
    /// How many requests were accepted before.
    pub number: u64,
    /// Its event, which is signalled once, as the request ends.
    pub event: Event,
}

/// What a step did.
pub enum Step {
    /// It made a command, and that was no fetch or a fetch that failed.
    Did,
    /// It fetched a group, which the work has to change and `store` has to write.
    Lent(Work),
    /// Requests are outstanding, and none of their units may run now.
    Idle,
    /// No request is outstanding.
    Drained,
}

/// What a store did.
pub enum Stored {
    /// It wrote the group, or failed to.
    Did,
    /// The work's ticket holds no gate any more. Its buffers were taken back.
    Stale,
    /// The work is not one of this disk's.
    Foreign(Work),
    /// The work is not its copy with the request's bytes put in: the least place that differs, the byte expected there,
    /// and the byte found.
    Strange(Work, usize, u8, u8),
}

/// What a store from the kept copy did.
#[derive(Clone, Copy, Debug, PartialEq, Eq)]
pub enum HeldStored {
    /// It wrote the group, or failed to.
    Did,
    /// The ticket holds no gate.
    Stale,
}

/// Why no medium was ejected.
#[derive(Clone, Copy, Debug, PartialEq, Eq)]
pub enum EjectRefused {
    /// None is in.
    NoMedia,
}

/// A drive that could not be made a disk for want of memory.
#[derive(Drop)]
pub struct NotMade<M> {
    pub drive: Drive<M>,
}
