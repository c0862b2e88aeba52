//! One disk: requests are accepted or refused, moved step by step, ended, and handed back.
#![tactic(auto)]

mod accepting;
mod answers;
mod collecting;
mod commands;
mod covering;
mod disk;
mod ending;
mod entering;
mod fetching;
mod later;
mod making;
mod media;
mod parts;
mod pieces;
mod plain_schedule;
mod reading;
mod refusing;
mod stepping;
mod storing;
#[cfg(test)]
mod tests;

pub use answers::{Ask, EjectRefused, HeldStored, NotMade, Refused, Step, Stored, Token, Why};
pub use disk::Disk;
pub use later::{calls_go_on, changes_go_on, rest_comes_back};
pub use plain_schedule::{gates_stay_idle, steps_are_turns};
