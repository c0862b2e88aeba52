//! The desk: clients take the lines of a script on one disk, and their buffers are kept. And the plate, the pen and the notes of
//! the log that the threads share who use one disk.
#![tactic(auto)]

mod answers;
mod aside;
mod asking;
mod books;
mod clients;
mod collecting;
mod desk;
mod hands;
mod held;
mod holding;
mod laws;
mod log_rule;
mod making;
mod name;
mod pens;
mod plate;
mod requesting;
mod seating;
mod seats;
mod sends;
mod shared;
mod taking;
mod waiting;

pub use answers::{Closed, DeskRefused, Line, ShareRefused, Turn};
pub use books::{Buffer, Slot};
pub use clients::{Client, Stand};
pub use desk::Desk;
pub use hands::Hand;
pub use laws::lines_stand_at_places;
pub use name::DiskName;
pub use plate::Plate;
pub use seats::Seat;
pub use shared::SharedDisk;

#[cfg(test)]
mod tests;
