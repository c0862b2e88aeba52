use crate::language::names::Name;
use history::Order;

/// What may follow the first words of a disk.
#[derive(Clone, Copy)]
pub struct Flags {
    pub cached: bool,
    pub protected: bool,
    /// How many blocks a group has.
    pub physical: u32,
}

/// What a line says by its words alone.
#[derive(Drop)]
pub enum Line {
    /// A further disk.
    Disk {
        image: Name,
        size: u64,
        workers: u64,
        flags: Flags,
    },
    /// A further medium of the last disk.
    Spare {
        image: Name,
    },
    /// A further client of the last disk, on this part of it.
    Client {
        part: Option<u32>,
    },
    /// A further line of the last client, with the number of its last word `@K`.
    Asks {
        order: Order,
        mark: Option<u32>,
    },
}
