//! Scripts of clients, with what happens and what a token gives; and a log with its notes.

mod bench;
mod pens;
mod rows;
