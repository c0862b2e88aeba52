//! What happened on one disk: its entries in order, and every definition that speaks of them.
#![tactic(auto)]

mod entry;
mod history;
mod order;

pub use entry::{Asked, Command, Entry, Kind, UnitKind, View};
pub use history::History;
pub use order::{Order, Payload};
