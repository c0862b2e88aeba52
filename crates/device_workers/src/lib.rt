//! Serves the lines of a shared disk's clients by the plain schedule, and finishes what threads have left.
#![tactic(auto)]

mod finishing;
mod laws;
mod plain_run;

pub use finishing::finish;
pub use laws::rounds_are_enough;
pub use plain_run::plain;

#[cfg(test)]
mod tests;
