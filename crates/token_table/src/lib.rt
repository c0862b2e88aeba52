//! The records of accepted requests, by number, each with the signaller of its event (UEFI 2.10, 13.8: a token's event and status;
//! the table is own profile).
#![tactic(auto)]

mod record;
#[cfg(test)]
mod tests;
mod tokens;

pub use record::{Done, Mark, NotAdded, NotThere, Request};
pub use tokens::Tokens;
