//! The rule of the table whose word counts the items of a shared disk's log, and the steps that keep it.
use atomic_table::{Join, Play, Split, TableRule};
use history::Entry;
use std::collections::LinkedList;
use std::marker::{Brand, PhantomData};

/// An item of the log of a shared disk (own profile). No value of it is made.
pub enum Item {
    /// An entry came to the history.
    Happened(Entry),
    /// The client with this tag has done a line.
    LineOf(u32),
}

/// What a seat of the table knows of the log. No value of it is made, and lists stand newest first.
pub(crate) struct LogView {
    /// Whether it is the pen's.
    pub(crate) pens: bool,
    /// The log, as the pen knows it.
    pub(crate) log: LinkedList<Item>,
    /// What was seen of it by each note that the pen took in.
    pub(crate) olds: LinkedList<LinkedList<Item>>,
    /// What a note has seen of it.
    pub(crate) seen: LinkedList<Item>,
}

/// The word is the number of items of the pen's log, and what was seen is a beginning of it.
pub(crate) struct CountsItems;

impl TableRule<(), LogView, ()> for CountsItems {
    ghost use Rattle.shared_disk.specs.Pens.{IsLogKept, first_view};

    ghost holds = { λ _. IsLogKept };

    ghost first = { λ _. first_view };
}

/// A name for items that proofs pick at a call.
pub(crate) trait ItemsName {
    ghost use Rattle.std.specs.Prelude.{List};
    ghost use Rattle.shared_disk.specs.declared.log_rule.Item.{Item};

    ghost items: { List Item };
}

impl ItemsName for Brand {
    ghost use Rattle.std.specs.Prelude.{[]};

    ghost items = { [] };
}

/// The pen adds items to the log.
pub(crate) struct Adds<N: ItemsName>(PhantomData<N>);

impl<N: ItemsName> Play<(), LogView> for Adds<N> {
    ghost use Rattle.shared_disk.specs.Pens.{HasAdded};

    ghost then = { λ _ before _ after. HasAdded N.items before.0 after.0 };
}

/// The pen reads how many items there are.
pub(crate) struct Counts;

impl Play<(), LogView> for Counts {
    ghost use Rattle.shared_disk.specs.Pens.{HasCounted};

    ghost then = { λ _ before found after. HasCounted before.0 found after.0 };
}

/// A new note has seen the whole log.
pub(crate) struct Notes;

impl Split<LogView> for Notes {
    ghost use Rattle.shared_disk.specs.Pens.{note_view};

    ghost left = { λ v. v };

    ghost right = { note_view };
}

/// The pen takes a note in, which is then spent.
pub(crate) struct Meets;

impl Join<LogView> for Meets {
    ghost use Rattle.shared_disk.specs.Pens.{met_view, spent_view};

    ghost both = { met_view };

    ghost spent = { spent_view };
}

/// The pen looks whether what the notes had seen is a beginning of the log.
pub(crate) struct Looks;

impl Play<(), LogView> for Looks {
    ghost use Rattle.shared_disk.specs.Pens.{HasLooked};

    ghost then = { λ _ before _ after. HasLooked before.0 after.0 };
}
