//! What a script does to its disks.
#![tactic(auto)]

mod clients;
mod desk_run;
mod disk_runs;
mod end_lines;
mod exit;
mod generated_run;
mod generator;
mod listing;
mod parts;
mod probe_run;
mod probing;
mod program;
mod putting;
mod reading;
mod refusal;
mod refusing;
mod reporting;
mod serving;
mod summary;
mod taking;
mod wanted;
mod words;

pub use exit::end_program;
pub use generator::generate;
pub use program::run_plain;

#[cfg(test)]
mod tests;
