ghost use Rattle.std.specs.Prelude.{◌≡◌, ℕ, ◌+◌, ◌<◌, ◌≤◌, ◌++◌, [], Some, true, false, not, find, filter, length, slice_get, nat_lt, IfOk, OnErr};
ghost use Rattle.std.specs.List.{count_by};
ghost use Rattle.block_gate.specs.Gates.{is_block_held};
ghost use Rattle.subtask_queue.specs.Owned.{subs_in, is_own, is_node, first_node, without_one, AreRising, AreAppended};
ghost use Rattle.subtask_queue.specs.Subs.{may_run};

use crate::nodes::{WAITING, find_runnable, find_unit, second_own, set_free};
use crate::room::{grow, put_all};
use crate::sub::Sub;
use block_gate::Gates;
use index_links::Links;
use std::alloc::{AllocError, Global};
use std::marker::Model;

/// The unfinished units as nodes of two lists: those that wait, by token and byte, and nodes that are free.
#[derive(Drop)]
pub struct Units {
    links: Links,
    subs: Vec<Sub>,
    spare: u32,
}

impl Model for Units {
    ghost use Rattle.std.specs.Prelude.{ℕ, List};
    ghost use Rattle.subtask_queue.specs.declared.sub.Sub.{Sub};

    ghost Value = { List (ℕ × Sub) };

    ghost use Rattle.index_links.specs.Lists.{list_at};
    ghost use Rattle.subtask_queue.specs.Owned.{units_at, AreNodes};

    ghost view = { λ u. units_at u.subs.items (list_at u.links 0) };

    ghost invariant = { λ u. AreNodes u.subs.items u.links u.spare };
}

impl Units {
    /// No units. The error is want of memory.
    pub fn make(alloc: Global) -> Result<Units, AllocError>
        ensures { IfOk result (λ units. units ≡ []) }
    {
        Ok(Units {
            links: Links::make(alloc, 0, 2)?,
            subs: Vec::new(alloc),
            spare: 0,
        })
    }

    /// Whether there is none.
    pub fn is_empty(&self) -> bool
        ensures none { result ≡ true → self.now ≡ [] }
        ensures some { result ≡ false → 0 < length self.now }
    {
        self.links.first(WAITING).is_none()
    }

    /// The first that may run now. The walk ends at it.
    pub fn next_runnable(&self, gates: &Gates) -> Option<Sub>
        ensures { result ≡ find (may_run (is_block_held gates.now.held) (nat_lt 0 gates.now.free)) (subs_in self.now) }
    {
        find_runnable(&self.subs, &self.links, gates)
    }

    /// Takes the first unit of a token out, which is in this node, and answers the node of the next one.
    fn take_first(&mut self, first: u32, token: u64) -> Option<u32>
        requires rising { AreRising 0 self.old }
        requires first { first_node (is_own token) self.old ≡ Some first }
        ensures value { self.new ≡ without_one (is_own token) self.old }
        ensures next { result ≡ first_node (is_own token) self.new }
    {
        let next = second_own(&self.subs, &self.links, first, token);
        set_free(&mut self.links, first);
        self.spare = self.spare.saturating_add(1);
        next
    }

    /// Takes the unit of a token with this first block out, where it stands, and answers the node of the token's first unit.
    pub fn finish(&mut self, first: u32, token: u64, block: u64) -> Option<u32>
        requires rising { AreRising 0 self.old }
        requires first { first_node (is_own token) self.old ≡ Some first }
        ensures value { self.new ≡ without_one (is_node token block) self.old }
        ensures next { result ≡ first_node (is_own token) self.new }
    {
        let sub = self.subs[first as usize];
        if block == sub.block() {
            return self.take_first(first, token);
        }
        if let Some(node) = find_unit(&self.subs, &self.links, first, token, block) {
            set_free(&mut self.links, node);
            self.spare = self.spare.saturating_add(1);
        }
        Some(first)
    }

    /// Takes all units of a token out, from its first node on, and answers their number.
    pub fn drop_token(&mut self, first: u32, token: u64) -> u64
        requires rising { AreRising 0 self.old }
        requires first { first_node (is_own token) self.old ≡ Some first }
        ensures count { result ≡ count_by (is_own token) self.old }
        ensures value { self.new ≡ filter (λ e. not (is_own token e)) self.old }
    {
        let mut count: u64 = 0;
        let mut at = Some(first);
        let most = self.subs.len();
        for _ in 0..most {
            let Some(node) = at else {
                return count;
            };
            at = self.take_first(node, token);
            count += 1;
        }
        count
    }

    /// Appends some units, for which there are nodes or memory for more, and answers the node of the first one. The error is
    /// want of memory, or that there would be 2^32 nodes, and no unit has then changed.
    pub fn append(&mut self, units: &[Sub]) -> Result<Option<u32>, AllocError>
        ensures ok { IfOk result (λ first. AreAppended units.now first self.old self.new) }
        ensures err { OnErr result (self.new ≡ self.old) }
    {
        let count = u32::try_from(units.len()).map_err(|_| AllocError)?;
        let more = count.saturating_sub(self.spare);
        grow(&mut self.links, &mut self.subs, more)?;
        self.spare = self.spare.saturating_sub(count);
        Ok(put_all(&mut self.links, &mut self.subs, units))
    }
}
