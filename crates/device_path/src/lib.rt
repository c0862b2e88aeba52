//! The hard drive node of a device path, as bytes and as text, both ways (UEFI 2.10, 10.3.5.1; the spelling of the text is this
//! project's own).
#![tactic(auto)]

mod hard_drive;
mod node;
mod text;

pub use hard_drive::{Format, HardDrive, Sign};
pub use node::{NodeFault, read_node, write_node};
pub use text::{read_text, write_text};

#[cfg(test)]
mod tests;
