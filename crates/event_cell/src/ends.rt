//! The two kinds of end of an event's word.
ghost use Rattle.std.specs.Prelude.{◌≡◌, ◌≢◌, ◌⊎◌, IfOk, IfNone, IfSome};
ghost use Rattle.efi_status.specs.declared.Status.{Status};
ghost use Rattle.event_cell.specs.EventWord.{word_of};

use crate::numbers::{status_in, word_of};
use crate::rule::{Births, ChangesOnce, Compares, Hears, SeatView, Sees, Tells, Twins};
use atomic_table::{Seat, Table};
use efi_status::Status;
use std::alloc::{AllocError, Global};
use std::marker::Model;
use std::sync::Arc;

/// The table of an event: one word and no slot.
type WordTable = Table<(), SeatView, (), ChangesOnce, Global>;

/// The end that signals, once. It may move to another thread (own profile).
#[derive(Drop)]
pub struct Signaller {
    table: Arc<WordTable, Global>,
    seat: Seat<(), SeatView>,
}

impl Model for Signaller {
    ghost use Rattle.std.specs.Prelude.{◌≡◌, true};
    ghost use Rattle.std.specs.Arc.{arc_value};
    ghost use Rattle.event_cell.specs.Ends.{SignallerEnd};

    ghost Value = { SignallerEnd };

    ghost view = { λ e. record { word = e.seat.table_id; told = e.seat.me.0.told } };

    ghost invariant = { λ e. (e.seat.table_id ≡ (arc_value e.table).shared.table_id) × (e.seat.table_id.words ≡ 1) × (e.seat.me.0.signals ≡ true) };
}

/// An end that checks. It may move to another thread (own profile).
#[derive(Drop)]
pub struct Event {
    table: Arc<WordTable, Global>,
    seat: Seat<(), SeatView>,
}

impl Model for Event {
    ghost use Rattle.std.specs.Prelude.{◌≡◌};
    ghost use Rattle.std.specs.Arc.{arc_value};
    ghost use Rattle.event_cell.specs.Ends.{EventEnd};

    ghost Value = { EventEnd };

    ghost view = { λ e. record { word = e.seat.table_id; seen = e.seat.me.0.seen } };

    ghost invariant = { λ e. (e.seat.table_id ≡ (arc_value e.table).shared.table_id) × (e.seat.table_id.words ≡ 1) };
}

/// A word that was not signalled, with its signaller and an event. The error is want of memory.
pub fn make_event(alloc: Global) -> Result<(Signaller, Event), AllocError>
    ensures word { IfOk result (λ ends. ends.1.word ≡ ends.0.word) }
    ensures told { IfOk result (λ ends. ends.0.told ≡ 0) }
    ensures seen { IfOk result (λ ends. ends.1.seen ≡ 0) }
{
    let (table, mut seat) = WordTable::of_words(alloc, &[0], &())?;
    let table = Arc::new(alloc, table)?;
    let other = Arc::try_clone(&table)?;
    let event = Event {
        seat: table.shared.split_seat::<Births>(&mut seat),
        table: other,
    };
    Ok((Signaller { table, seat }, event))
}

impl Signaller {
    /// Signals the word with this status. It has not signalled before. It takes no memory and waits for nobody.
    pub fn signal(&mut self, status: Status)
        requires { self.old.told ≡ 0 }
        ensures { self.new ≡ record self.old { told = word_of status } }
    {
        self.table
            .shared
            .store::<Tells>(&mut self.seat, 0, word_of(status));
    }

    /// What an event of this word has seen is what was told, or nothing yet. Neither end changes: it is a law for proofs.
    pub fn agrees(&mut self, event: &mut Event)
        requires { event.old.word ≡ self.old.word }
        ensures same { (self.new ≡ self.old) × (event.new ≡ event.old) }
        ensures agrees { (event.old.seen ≡ 0) ⊎ (event.old.seen ≡ self.old.told) }
    {
        let shared = &self.table.shared;
        let heard = shared.split_seat::<Twins>(&mut event.seat);
        shared.join_seat::<Hears>(&mut self.seat, heard);
        shared.load::<Compares>(&mut self.seat, 0);
    }
}

impl Event {
    /// The status that was signalled. None exactly where the word read 0 at this load. It takes no memory and waits for nobody.
    pub fn check(&mut self) -> Option<Status>
        ensures word { self.new.word ≡ self.old.word }
        ensures none { IfNone result (self.new.seen ≡ 0) }
        ensures some { IfSome result (λ status. self.new.seen ≡ word_of status) }

        // The word changes once: a status that was seen is seen again.
        ensures once { self.old.seen ≢ 0 → self.new.seen ≡ self.old.seen }
        ensures again { (status : Status) → self.old.seen ≡ word_of status → result ≡ Some status }
    {
        match self.table.shared.load::<Sees>(&mut self.seat, 0) {
            0 => None,
            word => Some(status_in(word)),
        }
    }

    /// A second event of the word, which has seen what this one has. The error is want of memory.
    pub fn twin(&mut self) -> Result<Event, AllocError>
        ensures same { self.new ≡ self.old }
        ensures twin { IfOk result (λ event. event ≡ self.old) }
    {
        let table = Arc::try_clone(&self.table)?;
        let seat = self.table.shared.split_seat::<Twins>(&mut self.seat);
        Ok(Event { table, seat })
    }
}
