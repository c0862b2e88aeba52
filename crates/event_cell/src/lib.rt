//! Events: a word that changes once, from 0 to a status. One end signals it, any number of ends check it, and all may stand in
//! threads of their own (the token of UEFI 2.10, 13.8, has an event and a status; the word is own profile).
#![tactic(auto)]

mod ends;
mod numbers;
mod rule;
mod sends;
#[cfg(test)]
mod tests;

pub use ends::{Event, Signaller, make_event};
