//! The rule of the table that holds the word of an event, and the steps that keep it.
use atomic_table::{Join, Play, Split, TableRule};

/// What a seat of the table knows. No value of it is made.
pub(crate) struct SeatView {
    /// Whether it is the signaller's.
    pub(crate) signals: bool,
    /// What the signaller has put into the word.
    pub(crate) told: u64,
    /// What was read from the word last, or 0.
    pub(crate) seen: u64,
}

/// The word is what its one signaller has told, and what was seen of it is 0 or the word.
pub(crate) struct ChangesOnce;

impl TableRule<(), SeatView, ()> for ChangesOnce {
    ghost use Rattle.event_cell.specs.Rule.{IsKept, signaller_view};

    ghost holds = { λ _. IsKept };

    ghost first = { λ _. signaller_view };
}

/// The signaller puts a number into the word.
pub(crate) struct Tells;

impl Play<(), SeatView> for Tells {
    ghost use Rattle.event_cell.specs.Rule.{HasTold};

    ghost then = { λ _ before found after. HasTold before.0 found after.0 };
}

/// An event reads the word.
pub(crate) struct Sees;

impl Play<(), SeatView> for Sees {
    ghost use Rattle.event_cell.specs.Rule.{HasSeen};

    ghost then = { λ _ before found after. HasSeen before.0 found after.0 };
}

/// The first event has seen nothing yet.
pub(crate) struct Births;

impl Split<SeatView> for Births {
    ghost use Rattle.event_cell.specs.Rule.{blank_view};

    ghost left = { λ v. v };

    ghost right = { λ _. blank_view };
}

/// A twin has seen what its origin has.
pub(crate) struct Twins;

impl Split<SeatView> for Twins {
    ghost use Rattle.event_cell.specs.Rule.{twin_view};

    ghost left = { λ v. v };

    ghost right = { twin_view };
}

/// The signaller hears what another seat has seen, which is then spent.
pub(crate) struct Hears;

impl Join<SeatView> for Hears {
    ghost use Rattle.event_cell.specs.Rule.{heard_view, blank_view};

    ghost both = { heard_view };

    ghost spent = { blank_view };
}

/// The signaller compares what it heard with what it told.
pub(crate) struct Compares;

impl Play<(), SeatView> for Compares {
    ghost use Rattle.event_cell.specs.Rule.{HasCompared};

    ghost then = { λ _ before _ after. HasCompared before.0 after.0 };
}
