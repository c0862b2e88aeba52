ghost use Rattle.std.specs.Prelude.{◌≡◌, ℕ, ◌+◌, ◌≤◌, ◌<◌, cond, nat_eq, true, None, is_some, length, IfSome, OnOk, IfOk, IfNone};
ghost use Rattle.subtask_queue.specs.Firsts.{first_at, HasSlot, IsLeast};

use crate::nodes::{FREE, relink};
use index_links::Links;
use std::alloc::{AllocError, Global};
use std::marker::Model;

/// The list of the nodes of tokens with a unit, by token.
const LIVE: u32 = 0;

/// The tokens as nodes of two lists: those that have a unit, by token, and those that are free. The node of a token is its
/// number less that of the token which came when none had a unit, so a look-up takes a constant number of steps. With each
/// node stands that of its token's first unit.
#[derive(Drop)]
pub struct Firsts {
    base: u64,
    nodes: Vec<Option<u32>>,
    links: Links,
}

impl Model for Firsts {
    ghost use Rattle.subtask_queue.specs.Firsts.{FirstNodes, AreLive};

    ghost Value = { FirstNodes };

    ghost view = { λ f. record { base = f.base; nodes = f.nodes.items } };

    ghost invariant = { λ f. AreLive f.base f.nodes.items f.links };
}

impl Firsts {
    /// No token has a unit. The error is want of memory.
    pub fn make(alloc: Global) -> Result<Firsts, AllocError>
        ensures { IfOk result (λ firsts. (t : ℕ) → first_at firsts t ≡ None) }
    {
        Ok(Firsts {
            base: 0,
            nodes: Vec::new(alloc),
            links: Links::make(alloc, 0, 2)?,
        })
    }

    /// The node of a token's first unit. None exactly where it has no unit.
    pub fn first(&self, token: u64) -> Option<u32>
        ensures { result ≡ first_at self.now token }
    {
        if token < self.base || token - self.base >= self.nodes.len() as u64 {
            return None;
        }
        self.nodes[(token - self.base) as usize]
    }

    /// Lets the places begin with this token, where no token has a unit.
    pub fn restart(&mut self, token: u64)
        requires { (t : ℕ) → first_at self.old t ≡ None }
        ensures none { (t : ℕ) → first_at self.new t ≡ None }
        ensures base { self.new.base ≡ token }
    {
        self.base = token;
    }

    /// Makes a place for a token from the first one on. The error is want of memory, or that there would be 2^32 nodes.
    pub fn reserve(&mut self, token: u64) -> Result<(), AllocError>
        requires { self.old.base ≤ token }
        ensures same { (t : ℕ) → first_at self.new t ≡ first_at self.old t }
        ensures ok { OnOk result (HasSlot self.new token) }
    {
        let place = (token - self.base) as usize;
        let long = self.nodes.len();
        if place < long {
            return Ok(());
        }
        for _ in long..place {
            self.add_node()?;
        }
        self.add_node()
    }

    // Adds a free node. The error is want of memory, or that there would be 2^32 nodes, and nothing has then changed.
    fn add_node(&mut self) -> Result<(), AllocError>
        ensures base { self.new.base ≡ self.old.base }
        ensures same { (t : ℕ) → first_at self.new t ≡ first_at self.old t }
        ensures ok { OnOk result (length self.new.nodes ≡ length self.old.nodes + 1) }
    {
        let long = self.nodes.len();
        if long >= u32::MAX as usize {
            return Err(AllocError);
        }
        self.nodes.reserve(1)?;
        self.links.grow(1)?;
        self.links.push_back(FREE, long as u32);
        self.nodes.push_reserved(None);
        Ok(())
    }

    /// Sets the node of a token's first unit, or that it has no unit. A token that had none is above those that have one.
    pub fn set(&mut self, token: u64, node: Option<u32>)
        requires place { HasSlot self.old token }
        requires last { first_at self.old token ≡ None → (t : ℕ) → token ≤ t → first_at self.old t ≡ None }
        ensures { (t : ℕ) → first_at self.new t ≡ cond (nat_eq t token) node (first_at self.old t) }
    {
        let place = (token - self.base) as usize;
        let was_live = self.nodes[place].is_some();
        let is_live = node.is_some();
        self.nodes[place] = node;
        if was_live == is_live {
            return;
        }
        if was_live {
            relink(&mut self.links, FREE, place as u32);
            return;
        }
        relink(&mut self.links, LIVE, place as u32);
    }

    /// The least token from this one on that has a unit. None exactly where no such token has one.
    pub fn token_from(&self, token: u64) -> Option<u64>
        ensures some { IfSome result (λ k. IsLeast (first_at self.now) token k) }
        ensures none { IfNone result ((t : ℕ) → token ≤ t → first_at self.now t ≡ None) }
    {
        let Some(least) = self.links.first(LIVE) else {
            return None;
        };
        let begin = (token.saturating_sub(self.base) as usize).max(least as usize);
        for place in begin..self.nodes.len() {
            if self.nodes[place].is_some() {
                return Some(self.base + place as u64);
            }
        }
        None
    }
}
