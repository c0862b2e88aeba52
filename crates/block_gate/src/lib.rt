//! Gates that hold blocks between a fetch and its store, while the buffer is with a worker.
#![tactic(auto)]

mod back;
mod finding;
mod gates;
mod relinking;
mod set;
mod work;

pub use back::Back;
pub use gates::Gates;
pub use work::Work;

#[cfg(test)]
mod tests;
