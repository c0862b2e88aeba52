//! The media of one disk: which of them is in, the spares, and the drive's protection.
#![tactic(auto)]

mod answers;
mod drive;
#[cfg(test)]
mod tests;

pub use answers::InsertFault;
pub use drive::Drive;
