ghost use Rattle.std.specs.Prelude.{◌≡◌, ℕ, ◌+◌, ◌-◌, ◌<◌, ◌≤◌, true, false, [], None, Some, length, is_some, option_map, option_copied, IfOk, OnErr};
ghost use Rattle.std.specs.List.{refill};
ghost use Rattle.std.specs.Borrow.{Lends, Array, sem, u8 as byte};
ghost use Rattle.index_links.specs.Lists.{is_among};
ghost use Rattle.block_gate.specs.Gates.{Gate, gate_of, is_block_held, is_range_held, least_ticket, is_lent, outs, idle_gates, with_gate, with_work_out, without_hold, with_new_sets, AreSound};
ghost use Rattle.block_gate.specs.Back.{IsGivenBack};

use crate::back::Back;
use crate::finding::{Sought, count_sets, find_set, holder, least_of};
use crate::relinking::{FREE, GONE, HELD, first_gone, first_of, free_links, relink};
use crate::set::{Set, make_sets, rest_of};
use crate::work::Work;
use index_links::Links;
use std::alloc::{AllocError, Global};
use std::marker::Model;

/// Gates and their buffer sets. A gate holds one block for one ticket, from a fetch to its store. Sizes are in bytes.
#[derive(Drop)]
pub struct Gates {
    alloc: Global,
    sets: Vec<Set>,
    links: Links,
    size: u32,
}

impl Model for Gates {
    ghost use Rattle.block_gate.specs.Gates.{Gates};

    ghost Value = { Gates };

    ghost use Rattle.block_gate.specs.Sets.{gates_of, AreSets};

    ghost view = { λ s. gates_of s.sets.items s.links s.size };

    ghost invariant = { λ s. AreSets s.sets.items s.links s.size };
}

impl Gates {
    ghost use Rattle.block_gate.specs.contracts.gates.Gates.{the_row};

    /// Gates with 1 to 64 buffer sets, for blocks of `size` bytes. The error is want of memory.
    pub fn make(alloc: Global, sets: u32, size: u32) -> Result<Gates, AllocError>
        requires some { 0 < sets }
        requires few { sets ≤ 64 }
        ensures value { IfOk result (λ gates. gates ≡ idle_gates sets size) }
        ensures sound { IfOk result AreSound }
    {
        Ok(Gates {
            alloc,
            sets: make_sets(alloc, sets as usize, size as usize)?,
            links: free_links(alloc, sets)?,
            size,
        })
    }

    /// Holds a block for a new ticket, and lends the copy buffer for filling.
    pub fn hold(&mut self, block: u64, ticket: u64) -> &mut [u8]
        requires unheld { is_block_held self.old.held block ≡ false }
        requires free { 0 < self.old.free }
        requires fresh { gate_of self.old.held ticket ≡ None }
        requires unknown { is_among self.old.gone ticket ≡ false }
        ensures* writes_back { sem 𝓛 (Lends the_row (Array byte 0) self.entry result (λ w. with_gate self.entry.now block ticket (refill (length result.now) result.now w))) }
        ensures long { length result.now ≡ self.old.size }
    {
        let node = first_of(&self.links, FREE);
        relink(&mut self.links, node, HELD);
        self.sets[node as usize].hold(block, ticket);
        self.sets[node as usize].copy_mut()
    }

    /// The work of a ticket that holds a gate and was not lent. Its bytes are the kept copy.
    pub fn lend(&mut self, ticket: u64, from: u32, patch: &[u8]) -> Work
        requires held { is_some (gate_of self.old.held ticket) ≡ true }
        requires inside { is_lent (gate_of self.old.held ticket) ≡ false }
        requires fits { from + length patch.now ≤ self.old.size }
        ensures gates { self.new ≡ with_work_out self.old ticket }
        ensures work { (g : Gate) → gate_of self.old.held ticket ≡ Some g → result ≡ record { ticket = ticket; block = g.block; from = from; bytes = g.copy; patch = patch.now } }
        ensures sound { AreSound self.new }
    {
        let node = holder(&self.sets, &self.links, ticket);
        self.sets[node as usize].lend(from, patch)
    }

    /// The kept copy. None exactly where the ticket holds no gate.
    pub fn copy(&self, ticket: u64) -> Option<&[u8]>
        ensures value { option_copied result ≡ option_map (λ g. g.copy) (gate_of self.now.held ticket) }
        ensures sound { AreSound self.now }
    {
        let sought = Sought::Ticket(ticket);
        let Some(node) = find_set(&self.sets, &self.links, HELD, sought) else {
            return None;
        };
        Some(self.sets[node as usize].copy())
    }

    /// The block that a ticket holds. None exactly where it holds no gate.
    pub fn block(&self, ticket: u64) -> Option<u64>
        ensures value { result ≡ option_map (λ g. g.block) (gate_of self.now.held ticket) }
        ensures sound { AreSound self.now }
    {
        let sought = Sought::Ticket(ticket);
        let Some(node) = find_set(&self.sets, &self.links, HELD, sought) else {
            return None;
        };
        Some(self.sets[node as usize].block())
    }

    /// Whether a block is held.
    pub fn is_held(&self, block: u64) -> bool
        ensures { result ≡ is_block_held self.now.held block }
    {
        self.is_any_held(block, 1)
    }

    /// Whether one of `count` blocks, from this one on, is held.
    pub fn is_any_held(&self, block: u64, count: u32) -> bool
        ensures { result ≡ is_range_held self.now.held block count }
    {
        find_set(&self.sets, &self.links, HELD, Sought::Blocks(block, count)).is_some()
    }

    /// The least ticket that holds a gate. None exactly where no block is held.
    pub fn least_held(&self) -> Option<u64>
        ensures { result ≡ least_ticket self.now.held }
    {
        least_of(&self.sets, &self.links, HELD)
    }

    /// How many works are out.
    pub fn out(&self) -> u32
        ensures { result ≡ outs self.now }
    {
        works_out(self)
    }

    /// How many sets are free.
    pub fn free(&self) -> u32
        ensures value { result ≡ self.now.free }
        ensures sound { AreSound self.now }
    {
        count_sets(&self.sets, &self.links, FREE, false)
    }

    /// Ends the gate of a ticket that holds one. The block is no longer held, and the set is free where its work is in.
    pub fn release(&mut self, ticket: u64)
        requires { is_some (gate_of self.old.held ticket) ≡ true }
        ensures value { self.new ≡ without_hold self.old ticket }
        ensures sound { AreSound self.new }
    {
        let node = holder(&self.sets, &self.links, ticket);
        let list = rest_of(&self.sets[node as usize]);
        relink(&mut self.links, node, list);
    }

    /// Releases the gate of a ticket, if it holds one, and says whether it does.
    pub fn revoke(&mut self, ticket: u64) -> bool
        ensures held { result ≡ is_some (gate_of self.old.held ticket) }
        ensures released { result ≡ true → self.new ≡ without_hold self.old ticket }
        ensures unchanged { result ≡ false → self.new ≡ self.old }
        ensures sound { AreSound self.new }
    {
        let sought = Sought::Ticket(ticket);
        let Some(node) = find_set(&self.sets, &self.links, HELD, sought) else {
            return false;
        };
        let rest = rest_of(&self.sets[node as usize]);
        relink(&mut self.links, node, rest);
        true
    }

    /// Takes a work back. Foreign exactly where its ticket is not out here or its block has another size.
    pub fn give_back(&mut self, work: Work) -> Back
        ensures value { IsGivenBack self.old work result self.new }
        ensures sound { AreSound self.new }
    {
        if work.bytes().len() != self.size as usize {
            return Back::Foreign(work);
        }
        let ticket = Sought::Ticket(work.ticket());
        if let Some(node) = find_set(&self.sets, &self.links, GONE, ticket) {
            self.sets[node as usize].take_back(work);
            relink(&mut self.links, node, FREE);
            return Back::Home;
        }
        if let Some(node) = find_set(&self.sets, &self.links, HELD, ticket) {
            if self.sets[node as usize].is_out() {
                self.sets[node as usize].take_back(work);
                return Back::Home;
            }
        }
        Back::Foreign(work)
    }

    /// Makes new buffers for the sets that are out under a revoked ticket, forgets these tickets, and answers their
    /// number. Where no gate is held, a set is free then. The error is want of memory, and some of them were then refitted,
    /// the first ones first.
    pub fn refit(&mut self) -> Result<u32, AllocError>
        ensures all { IfOk result (λ count. count ≡ length self.old.gone) }
        ensures ok { IfOk result (λ count. self.new ≡ with_new_sets self.old count) }
        ensures err { OnErr result (self.new ≡ with_new_sets self.old (length self.old.gone - length self.new.gone)) }
        ensures some { IfOk result (λ _. self.new.held ≡ [] → 0 < self.new.free) }
        ensures left { OnErr result (0 < length self.new.gone) }
        ensures sound { AreSound self.new }
    {
        let mut count: u32 = 0;
        for _ in 0..self.sets.len() {
            let Some(node) = first_gone(&self.links) else {
                return Ok(count);
            };
            self.sets[node as usize].refit(self.alloc)?;
            relink(&mut self.links, node, FREE);
            count += 1;
        }
        Ok(count)
    }
}

/// How many works are out: those of held sets, and those of sets that are out under a revoked ticket.
fn works_out(gates: &Gates) -> u32
    ensures { result ≡ outs gates.now }
{
    let lent = count_sets(&gates.sets, &gates.links, HELD, true);
    lent + count_sets(&gates.sets, &gates.links, GONE, true)
}
