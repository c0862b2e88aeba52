//! Block devices: the trait that a disk stands on, a medium in memory, and one with planned faults.
#![tactic(auto)]

mod block_failed;
mod block_map;
mod device;
mod faulty;
mod file_medium;
mod mem_medium;
mod place;
mod saving;
mod volatile;

pub use block_failed::BlockFailed;
pub use device::Medium;
pub use faulty::{Faulty, Planned};
pub use file_medium::FileMedium;
pub use mem_medium::MemMedium;
pub use volatile::Volatile;

#[cfg(test)]
mod tests;
