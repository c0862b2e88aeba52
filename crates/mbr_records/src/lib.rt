//! Master boot records, and the chain of extended boot records (UEFI 2.10, 5.2, and this project's own profile).
#![tactic(auto)]

mod chain;
mod mbr;
mod partition_record;

pub use chain::Chain;
pub use mbr::Mbr;
pub use partition_record::MbrRecord;

#[cfg(test)]
mod tests;
