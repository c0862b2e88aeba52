//! Block I/O and Block I/O 2 over the views of a disk: what is told of a view's medium, and requests by the block, with a
//! token or to their end.
#![tactic(auto)]

mod block_io;
mod media;

pub use block_io::{
    erase_blocks, erase_blocks_ex, flush_blocks, flush_blocks_ex, read_blocks, read_blocks_ex,
    write_blocks, write_blocks_ex,
};
pub use media::{Media, media_of};

#[cfg(test)]
mod tests;
