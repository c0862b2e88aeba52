//! What a script says.

mod aims;
mod draft;
mod ended;
mod feeding;
mod forms;
pub mod limits;
mod line;
pub mod names;
mod planning;
pub mod plans;
pub mod reader;
pub mod refusal;
mod single_words;
pub mod whole;
mod words;
