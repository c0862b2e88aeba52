use block_gate::Gates;
use disk_split::Geometry;
use history::History;
use subtask_queue::Queue;
use token_table::Tokens;

/// Which request holds a gate.
#[derive(Clone, Copy, Debug, PartialEq, Eq)]
pub struct Holder {
    pub ticket: u64,
    pub token: u64,
}

/// What a disk keeps beside its drive.
#[derive(Drop)]
pub struct Core {
    /// Whether writes were refused at the beginning.
    pub protected_at_first: bool,
    /// The blocks and groups of its media.
    pub blocks: Geometry,
    pub history: History,
    /// The entries that the history must still have room for, at most.
    pub owed: u64,
    /// How many requests were accepted.
    pub accepted: u64,
    /// How many fetches were made, done or failed: the ticket of the next one.
    pub fetched: u64,
    /// The accepted requests that were not handed back.
    pub tokens: Tokens,
    /// The unfinished units of the outstanding requests.
    pub queue: Queue,
    /// The gates of fetched groups. The work of each is out.
    pub gates: Gates,
    /// The requests that hold them, with a place for each buffer set.
    pub holders: Vec<Holder>,
    /// One group, to read into or to write from.
    pub group: Vec<u8>,
    /// The zero bytes of 64 blocks.
    pub zeros: Vec<u8>,
}
