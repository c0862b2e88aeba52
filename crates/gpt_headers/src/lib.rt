//! GPT headers, the array of partition entries, and the entries that give a partition (UEFI 2.10, 5.3, and this project's own profile).
#![tactic(auto)]

mod array;
mod entry;
mod guid;
mod header;
mod law;
mod partitions;
mod spans;

pub use array::{array_ok, array_range};
pub use entry::GptEntry;
pub use header::{Header, HeaderFault};
pub use law::shared_blocks_tell;
pub use partitions::usable;

#[cfg(test)]
mod tests;
