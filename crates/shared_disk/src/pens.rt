//! The pen, which adds items to the log of a shared disk, and notes, which have seen a beginning of it.
ghost use Rattle.std.specs.Prelude.{◌≡◌, ◌+◌, ◌^◌, ◌<◌, ◌∷◌, ◌++◌, length, IfOk};
ghost use Rattle.shared_disk.specs.declared.log_rule.Item.TheVariants.{Happened, LineOf};
ghost use Rattle.shared_disk.specs.Log.{IsOld};
ghost use Rattle.shared_disk.specs.Pens.{PenEnd, NoteEnd};

use crate::log_rule::{Adds, Counts, CountsItems, ItemsName, LogView, Looks, Meets, Notes};
use atomic_table::{Seat, Table};
use history::Entry;
use std::alloc::{AllocError, Global};
use std::marker::{Brand, Model};
use std::mem;

/// The table of a log: one word and no slot.
type LogTable = Table<(), LogView, (), CountsItems, Global>;

/// The pen of a log, of which there is one. It stands in the lock of a shared disk (own profile).
#[derive(Drop)]
pub struct Pen {
    table: LogTable,
    seat: Seat<(), LogView>,
}

impl Model for Pen {
    ghost use Rattle.std.specs.Prelude.{◌≡◌, true};
    ghost use Rattle.shared_disk.specs.Pens.{PenEnd};

    ghost Value = { PenEnd };

    ghost view = { λ p. record { table = p.seat.table_id; log = p.seat.me.0.log } };

    ghost invariant = { λ p. (p.seat.table_id ≡ p.table.shared.table_id) × (p.seat.table_id.words ≡ 1) × (p.seat.me.0.pens ≡ true) };
}

/// What was seen of a log. A seat or a hand of a shared disk holds it (own profile).
#[derive(Drop)]
pub struct Note {
    seat: Seat<(), LogView>,
}

impl Model for Note {
    ghost use Rattle.std.specs.Prelude.{◌≡◌, []};
    ghost use Rattle.shared_disk.specs.Pens.{NoteEnd};

    ghost Value = { NoteEnd };

    ghost view = { λ n. record { table = n.seat.table_id; seen = n.seat.me.0.seen } };

    ghost invariant = { λ n. n.seat.me.1 ≡ [] };
}

/// The pen of a new log, which begins with so many items. What they tell of is for the proof alone. The error is want
/// of memory.
pub(crate) fn make_pen<N: ItemsName, T>(
    alloc: Global,
    items: u64,
    told: &T,
) -> Result<Pen, AllocError>
    requires { items ≡ length N.items }
    ensures { IfOk result (λ pen. pen.log ≡ N.items) }
{
    let (table, seat) = LogTable::of_words(alloc, &[0], &())?;
    let mut pen = Pen { table, seat };
    pen.add::<N, T>(items, told);
    Ok(pen)
}

impl Pen {
    /// The number of items of the log.
    pub fn items(&mut self) -> u64
        ensures same { self.new ≡ self.old }
        ensures items { result ≡ length self.old.log }
    {
        let table = &self.table;
        table.shared.load::<Counts>(&mut self.seat, 0)
    }

    /// Adds items to the log, so many as are counted. What they tell of is for the proof alone.
    fn add<N: ItemsName, T>(&mut self, count: u64, _told: &T)
        requires counted { count ≡ length N.items }
        requires room { length self.old.log + count < 2 ^ 64 }
        ensures { self.new ≡ record self.old { log = N.items ++ self.old.log } }
    {
        let before = self.items();
        let table = &self.table;
        table
            .shared
            .store::<Adds<N>>(&mut self.seat, 0, before + count);
    }

    /// Adds an entry to the log. It takes no memory and waits for nobody.
    pub fn enter(&mut self, entry: &Entry)
        requires room { length self.old.log + 1 < 2 ^ 64 }
        ensures { self.new ≡ record self.old { log = Happened entry.now ∷ self.old.log } }
    {
        self.add::<Brand, Entry>(1, entry);
    }

    /// Adds a line done of the client with this tag. It takes no memory and waits for nobody.
    pub fn enter_line(&mut self, client: u32)
        requires room { length self.old.log + 1 < 2 ^ 64 }
        ensures { self.new ≡ record self.old { log = LineOf client ∷ self.old.log } }
    {
        self.add::<Brand, u32>(1, &client);
    }

    /// A note that has seen the whole log.
    pub fn note(&mut self) -> Note
        ensures same { self.new ≡ self.old }
        ensures note { result ≡ record { table = self.old.table; seen = self.old.log } }
    {
        let table = &self.table;
        Note {
            seat: table.shared.split_seat::<Notes>(&mut self.seat),
        }
    }

    /// Takes a note in: what it had seen is a beginning of the log.
    pub fn meet(&mut self, old: Note)
        requires { old.table ≡ self.old.table }
        ensures same { self.new ≡ self.old }
        ensures older { IsOld old.seen self.old.log }
    {
        let Note { seat } = old;
        let table = &self.table;
        table.shared.join_seat::<Meets>(&mut self.seat, seat);
        table.shared.load::<Looks>(&mut self.seat, 0);
    }

    /// Renews a note: it has seen the whole log, and what it had seen before is a beginning of it.
    pub fn renew(&mut self, note: &mut Note)
        requires { note.old.table ≡ self.old.table }
        ensures same { self.new ≡ self.old }
        ensures note { note.new ≡ record note.old { seen = self.old.log } }
        ensures older { IsOld note.old.seen self.old.log }
    {
        let new = self.note();
        let old = mem::replace(note, new);
        self.meet(old);
    }
}
