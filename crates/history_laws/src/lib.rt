//! Laws of histories: what follows from a list of entries alone, with no disk, no medium and no record of either.
#![tactic(auto)]

mod media;
mod room;
mod tokens;
mod units;

pub use media::{held_groups_stay, media_stay, pieces_lie_inside};
pub use room::{entries_lower_room, histories_are_long};
pub use tokens::{entries_concern_tokens, entries_end_tokens, tokens_end_once};
pub use units::{
    fetches_have_tickets, groups_have_one_holder, next_is_runnable, units_are_left, units_finish,
};
