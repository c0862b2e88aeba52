//! The text of a report.

pub mod entries;
pub mod hexadecimal;
pub mod law;
pub mod parts;
pub mod pieces;
pub mod table_writer;
pub mod tables;
pub mod tokens;
pub mod writer;
