ghost use Rattle.std.specs.Prelude.{◌≡◌, ℕ, ◌+◌, ◌^◌, ◌<◌, ◌≤◌, max, [], ◌∷◌, reverse, length, slice_get, option_copied, IfOk, OnOk, OnErr, ◌==◌};

use crate::Entry;
use std::alloc::{AllocError, Global};
use std::marker::Model;

/// Entries and spare places stay below this number together.
const MOST: u64 = 1 << 63;

/// The entries of a disk, with places for more that were taken beforehand.
#[derive(Drop)]
pub struct History {
    kept: Vec<Entry>,
    spare: u64,
}

impl Model for History {
    ghost use Rattle.std.specs.Prelude.{◌+◌, ◌^◌, ◌<◌, ◌≤◌, reverse, vec_len, vec_capacity};
    ghost use Rattle.history.specs.Log.{Log};

    ghost Value = { Log };

    ghost view = { λ h. record { entries = reverse h.kept.items; spare = h.spare } };

    ghost invariant = { λ h. (vec_len h.kept + h.spare ≤ vec_capacity h.kept) × (vec_len h.kept + h.spare < 2 ^ 63) };
}

impl History {
    /// An empty history with this many spare places. The error is want of memory.
    pub fn make(alloc: Global, spare: u64) -> Result<History, AllocError>
        ensures entries { IfOk result (λ h. h.entries ≡ []) }
        ensures spare { IfOk result (λ h. h.spare ≡ spare) }
    {
        let mut history = History {
            kept: Vec::new(alloc),
            spare: 0,
        };
        history.reserve(spare)?;
        Ok(history)
    }

    /// Makes the spare places at least `places`. The error is want of memory, and nothing has then changed.
    pub fn reserve(&mut self, places: u64) -> Result<(), AllocError>
        ensures entries { self.new.entries ≡ self.old.entries }
        ensures spare { OnOk result (self.new.spare ≡ max self.old.spare places) }
        ensures err { OnErr result (self.new.spare ≡ self.old.spare) }
        ensures bound { length self.new.entries + self.new.spare < 2 ^ 63 }
    {
        if places <= self.spare {
            return Ok(());
        }
        if places >= MOST - self.kept.len() as u64 {
            return Err(AllocError);
        }
        self.kept.reserve(places as usize)?;
        self.spare = places;
        Ok(())
    }

    /// Adds an entry in a spare place.
    pub fn push(&mut self, entry: Entry)
        requires { 0 < self.old.spare }
        ensures entries { self.new.entries ≡ entry ∷ self.old.entries }
        ensures spare { self.new.spare + 1 ≡ self.old.spare }
    {
        self.kept.push_reserved(entry);
        self.spare -= 1;
    }

    /// The number of entries.
    pub fn len(&self) -> u64
        ensures value { result ≡ length self.now.entries }
        ensures bound { result + self.now.spare < 2 ^ 63 }
    {
        self.kept.len() as u64
    }

    /// Whether nothing has happened yet.
    pub fn is_empty(&self) -> bool
        ensures { result ≡ (length self.now.entries == 0) }
    {
        self.kept.is_empty()
    }

    /// The number of spare places.
    pub fn spare(&self) -> u64
        ensures { result ≡ self.now.spare }
    {
        self.spare
    }

    /// Entry `place`, from 0 for the oldest. None exactly past the end.
    pub fn get(&self, place: u64) -> Option<&Entry>
        ensures { option_copied result ≡ slice_get (reverse self.now.entries) place }
    {
        self.kept.get(place as usize)
    }

    /// All entries, the oldest first.
    pub fn entries(&self) -> &[Entry]
        ensures { result.now ≡ reverse self.now.entries }
    {
        &self.kept
    }
}
