use crate::{Client, Desk, DiskName, Seat, SharedDisk};
use disk_core::{Disk, Step, Token};
use medium::Medium;

/// What a client's next line did.
#[derive(Drop)]
pub enum Line {
    /// The line was done. It carries a token exactly where a request was accepted.
    Did(Option<Token>),
    /// The line is a wait: the least uncollected token of the client was collected, and the line is still the next one.
    Collected(u64),
    /// The line is a wait, and a token of the client is outstanding. Nothing has changed.
    NotYet,
    /// No line is left.
    Ended,
    /// Memory ran out, and nothing has changed.
    Memory,
}

/// What a worker's step did.
pub struct Turn {
    pub step: Step,
    /// Whether no client had a line left.
    pub over: bool,
}

/// A disk that could not be made a desk for want of memory, with its clients.
#[derive(Drop)]
pub struct DeskRefused<M: Medium> {
    pub disk: Disk<M>,
    pub clients: Vec<Client>,
}

/// A desk that could not be shared for want of memory.
#[derive(Drop)]
pub struct ShareRefused<M: Medium> {
    pub desk: Desk<M>,
}

/// How a shared disk was closed.
pub enum Closed<M: Medium, N: DiskName> {
    /// The count of the lock is the sum of the seats' counts, which are spent.
    Whole(Desk<M>, u64),
    /// It differs: the lock's count comes first, and then the sum. Nothing has changed.
    Short(SharedDisk<M, N>, Vec<Seat<N>>, u64, u64),
}
