//! The unfinished parts and runs of outstanding requests, by token and byte (units: UEFI 2.10, 13.7; the queue: own profile).
#![tactic(auto)]

mod firsts;
mod linked;
mod making;
mod nodes;
mod queue;
mod room;
mod sub;
#[cfg(test)]
mod tests;
mod units;

pub use queue::Queue;
pub use sub::Sub;
