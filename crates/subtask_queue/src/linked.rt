ghost use Rattle.std.specs.Prelude.{◌≡◌, ℕ, ◌<◌, ◌≤◌, ◌++◌, [], true, false, None, find, length, nat_lt, IfOk, OnOk, OnErr};
ghost use Rattle.std.specs.List.{count_by};
ghost use Rattle.std.specs.Option.{option_map};
ghost use Rattle.block_gate.specs.Gates.{is_block_held};
ghost use Rattle.subtask_queue.specs.Firsts.{first_at, HasSlot};
ghost use Rattle.subtask_queue.specs.Owned.{AreOf};
ghost use Rattle.subtask_queue.specs.Subs.{token_of, is_unit, is_of, is_from, may_run, without_first, without_token, AreBelow};

use crate::firsts::Firsts;
use crate::sub::Sub;
use crate::units::Units;
use block_gate::Gates;
use std::alloc::{AllocError, Global};
use std::marker::Model;

/// The unfinished units as linked nodes, and the first one of each outstanding token.
#[derive(Drop)]
pub struct Linked {
    units: Units,
    firsts: Firsts,
}

impl Model for Linked {
    ghost use Rattle.std.specs.Prelude.{List};
    ghost use Rattle.subtask_queue.specs.declared.sub.Sub.{Sub};

    ghost Value = { List Sub };

    ghost use Rattle.subtask_queue.specs.Owned.{subs_in};
    ghost use Rattle.subtask_queue.specs.Firsts.{AreLed};

    ghost view = { λ l. subs_in l.units };

    ghost invariant = { λ l. AreLed l.units l.firsts };
}

impl Linked {
    /// No units. The error is want of memory.
    pub fn make(alloc: Global) -> Result<Linked, AllocError>
        ensures { IfOk result (λ linked. linked ≡ []) }
    {
        Ok(Linked {
            units: Units::make(alloc)?,
            firsts: Firsts::make(alloc)?,
        })
    }

    /// Appends some units of one token, which is above those that stand here. The error is want of memory, and no unit has
    /// then changed.
    pub fn add(&mut self, token: u64, subs: &[Sub]) -> Result<(), AllocError>
        requires above { AreBelow token self.old }
        requires some { 0 < length subs.now }
        requires own { AreOf token subs.now }
        ensures ok { OnOk result (self.new ≡ self.old ++ subs.now) }
        ensures err { OnErr result (self.new ≡ self.old) }
    {
        let empty = self.units.is_empty();
        place_for(&mut self.firsts, empty, token)?;
        let first = self.units.append(subs)?;
        self.firsts.set(token, first);
        Ok(())
    }

    /// The first unit that may run now.
    pub fn next_runnable(&self, gates: &Gates) -> Option<Sub>
        ensures { result ≡ find (may_run (is_block_held gates.now.held) (nat_lt 0 gates.now.free)) self.now }
    {
        self.units.next_runnable(gates)
    }

    /// The least token from this one on that has a unit.
    pub fn token_from(&self, token: u64) -> Option<u64>
        ensures { result ≡ option_map token_of (find (is_from token) self.now) }
    {
        self.firsts.token_from(token)
    }

    /// Takes the first unit with this token and this first block out, if there is one.
    pub fn finish(&mut self, token: u64, block: u64)
        ensures { self.new ≡ without_first (is_unit token block) self.old }
    {
        let Some(first) = self.firsts.first(token) else {
            return;
        };
        let next = self.units.finish(first, token, block);
        self.firsts.set(token, next);
    }

    /// Takes all units of a token out, and answers their number.
    pub fn drop_token(&mut self, token: u64) -> u64
        ensures count { result ≡ count_by (is_of token) self.old }
        ensures value { self.new ≡ without_token token self.old }
    {
        let Some(first) = self.firsts.first(token) else {
            return 0;
        };
        let count = self.units.drop_token(first, token);
        self.firsts.set(token, None);
        count
    }
}

/// Makes a place for a token, and it is the first one where no token has a unit. The error is want of memory.
fn place_for(firsts: &mut Firsts, empty: bool, token: u64) -> Result<(), AllocError>
    requires none { empty ≡ true → (t : ℕ) → first_at firsts.old t ≡ None }
    requires base { empty ≡ false → firsts.old.base ≤ token }
    ensures same { (t : ℕ) → first_at firsts.new t ≡ first_at firsts.old t }
    ensures ok { OnOk result (HasSlot firsts.new token) }
{
    if empty {
        firsts.restart(token);
        return firsts.reserve(token);
    }
    firsts.reserve(token)
}
