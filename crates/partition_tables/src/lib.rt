//! The partition table of a medium: its kind and its children, as a function of the medium's bytes.
#![tactic(auto)]

mod law;
mod table;

pub use law::{chain_is_followed, children_lie_on_the_medium, numbers_ascend};
pub use table::{Child, Children, Origin, Table, TableKind};

#[cfg(test)]
mod tests;
