ghost use Rattle.std.specs.Prelude.{◌≡◌, ℕ, ◌+◌, ◌<◌, ◌^◌, ◌++◌, [], length, nat_lt, OnOk, OnErr};
ghost use Rattle.std.specs.List.{find, filter, count_by};
ghost use Rattle.block_gate.specs.Gates.{is_block_held};
ghost use Rattle.disk_split.specs.Units.{IsGeometry};
ghost use Rattle.std.specs.Option.{option_map};
ghost use Rattle.subtask_queue.specs.Owned.{waiting_in, AreOf};
ghost use Rattle.subtask_queue.specs.Subs.{token_of, block_of, is_unit, is_of, is_from, may_run, without_first, without_token, subs_of_request, AreParts, AreBelow};

use crate::linked::Linked;
use crate::making::units;
use crate::sub::Sub;
use block_gate::Gates;
use disk_split::{Geometry, Parts};
use history::Kind;
use std::alloc::{AllocError, Global};
use std::marker::Model;

/// The unfinished units of all outstanding requests, by token and byte. They are linked nodes, which the first request
/// brings (own profile).
#[derive(Drop)]
pub struct Queue {
    alloc: Global,
    linked: Option<Linked>,
}

impl Model for Queue {
    ghost use Rattle.std.specs.Prelude.{List};
    ghost use Rattle.subtask_queue.specs.declared.sub.Sub.{Sub};

    ghost Value = { List Sub };

    ghost use Rattle.subtask_queue.specs.Owned.{waiting_in};

    ghost view = { λ q. waiting_in q.linked };
}

impl Queue {
    /// An empty queue, which takes no memory.
    pub fn make(alloc: Global) -> Queue
        ensures { result ≡ [] }
    {
        Queue {
            alloc,
            linked: None,
        }
    }

    /// Appends the units of a request, whose token is above those that stand in the queue. The parts are those that `split`
    /// makes of the request's range with a whole group as its block. The error is want of memory, and nothing has then
    /// changed.
    pub fn add(
        &mut self,
        token: u64,
        kind: Kind,
        parts: &Parts,
        blocks: Geometry,
    ) -> Result<(), AllocError>
        requires sized { IsGeometry blocks }
        requires parts { (a : ℕ) × (z : ℕ) × (z < 2 ^ 64) × AreParts blocks a z parts.now }
        requires above { AreBelow token self.old }
        ensures ok { OnOk result (self.new ≡ self.old ++ subs_of_request blocks token kind parts.now) }
        ensures err { OnErr result (self.new ≡ self.old) }
        ensures below { AreBelow (token + 1) self.new }
    {
        let units = units(self.alloc, token, kind, parts, blocks)?;
        if units.len() == 0 {
            return Ok(());
        }
        append(self.alloc, &mut self.linked, token, &units)
    }

    /// The unit of least token and, within it, of least byte that may run now. None exactly where none may.
    pub fn next_runnable(&self, gates: &Gates) -> Option<Sub>
        ensures { result ≡ find (may_run (is_block_held gates.now.held) (nat_lt 0 gates.now.free)) self.now }
    {
        match &self.linked {
            Some(linked) => linked.next_runnable(gates),
            None => None,
        }
    }

    /// The least token from this one on that has an unfinished unit. None exactly where no such token has one.
    pub fn token_from(&self, token: u64) -> Option<u64>
        ensures { result ≡ option_map token_of (find (is_from token) self.now) }
    {
        match &self.linked {
            Some(linked) => linked.token_from(token),
            None => None,
        }
    }

    /// Takes a unit out: the first one with this token and this first block. Where there is none nothing changes.
    pub fn finish(&mut self, sub: &Sub)
        ensures { self.new ≡ without_first (is_unit (token_of sub.now) (block_of sub.now)) self.old }
    {
        let (token, block) = (sub.token(), sub.block());
        if let Some(linked) = &mut self.linked {
            linked.finish(token, block);
        }
    }

    /// Takes all units of a token out, and answers their number.
    pub fn drop_request(&mut self, token: u64) -> u64
        ensures count { result ≡ count_by (is_of token) self.old }
        ensures value { self.new ≡ without_token token self.old }
    {
        match &mut self.linked {
            Some(linked) => linked.drop_token(token),
            None => 0,
        }
    }
}

/// Makes the links, where there are none yet. The error is want of memory.
fn make_links(alloc: Global, linked: &mut Option<Linked>) -> Result<(), AllocError>
    ensures { waiting_in linked.new ≡ waiting_in linked.old }
{
    if linked.is_none() {
        *linked = Some(Linked::make(alloc)?);
    }
    Ok(())
}

/// Appends some units of one token to those that are linked. The error is want of memory, and no unit has then changed.
fn append(
    alloc: Global,
    linked: &mut Option<Linked>,
    token: u64,
    subs: &[Sub],
) -> Result<(), AllocError>
    requires above { AreBelow token (waiting_in linked.old) }
    requires some { 0 < length subs.now }
    requires own { AreOf token subs.now }
    ensures ok { OnOk result (waiting_in linked.new ≡ waiting_in linked.old ++ subs.now) }
    ensures err { OnErr result (waiting_in linked.new ≡ waiting_in linked.old) }
{
    make_links(alloc, linked)?;
    match linked {
        Some(linked) => linked.add(token, subs),
        None => Err(AllocError),
    }
}
