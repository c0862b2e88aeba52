//! Disk I/O 2 over the views of a disk: requests by the byte, with a token or to their end.
#![tactic(auto)]

mod blocking;
mod disk_io;
mod views;

pub use blocking::carry_out;
pub use disk_io::{
    cancel, flush_disk, flush_disk_ex, read_disk, read_disk_ex, write_disk, write_disk_ex,
};
pub use views::{views_are_kept, whole};

#[cfg(test)]
mod tests;
