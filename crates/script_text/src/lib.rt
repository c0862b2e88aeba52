//! What a script says, and the text of a report.
#![tactic(auto)]

mod language;
mod report;

pub use language::limits::{
    ALL_REQUEST_BYTES, CLIENTS, DISKS, MEDIA, NAME_BYTES, REQUEST_BYTES, SCRIPT_BYTES, WORKERS,
    limits_are_defined,
};
pub use language::names::{Items, Name};
pub use language::plans::{ClientPlan, DiskPlan, Script};
pub use language::reader::ScriptReader;
pub use language::refusal::{Reason, ScriptRefused};
pub use language::whole::{read_pieces, read_script};
pub use report::law::{lines_tell_entries, reports_tell_entries};
pub use report::parts::{KeptMedium, ReportFault, TokenLine};
pub use report::table_writer::{report_table, report_unread};
pub use report::writer::{report_body, report_head};

#[cfg(test)]
mod tests;
