ghost use Rattle.std.specs.Prelude.{◌≡◌, ℕ, ◌+◌, ◌<◌, ◌^◌, cond, eqb, length, OnOk, OnErr, []};
ghost use Rattle.index_links.specs.Rings.{after_at, before_at, exchange, node_of, AreRings};

use std::alloc::{AllocError, Global};
use std::marker::Model;

/// The neighbours of a place in its ring.
#[derive(Clone, Copy)]
pub struct Link {
    before: usize,
    after: usize,
}

/// Places that lie in rings.
#[derive(Drop)]
pub struct Rings {
    links: Vec<Link>,
}

impl Model for Rings {
    ghost use Rattle.std.specs.Prelude.{List};
    ghost use Rattle.index_links.specs.declared.rings.Link.{Link};

    ghost Value = { List Link };

    ghost view = { λ r. r.links.items };
}

impl Rings {
    /// No places, which take no memory.
    pub fn new(alloc: Global) -> Rings
        ensures value { result ≡ [] }
        ensures rings { AreRings result }
    {
        Rings {
            links: Vec::new(alloc),
        }
    }

    /// Adds places that are rings alone. The error is want of memory, and nothing has then changed.
    pub fn grow(&mut self, count: usize) -> Result<(), AllocError>
        requires { AreRings self.old }
        ensures rings { AreRings self.new }
        ensures after { (p : ℕ) → after_at self.new p ≡ after_at self.old p }
        ensures long { OnOk result (length self.new ≡ length self.old + count) }
        ensures err { OnErr result (self.new ≡ self.old) }
    {
        self.links.reserve(count)?;
        for _ in 0..count {
            let place = self.links.len();
            self.links.push_reserved(Link {
                before: place,
                after: place,
            });
        }
        Ok(())
    }

    /// The place after this one in its ring.
    pub fn after(&self, place: usize) -> usize
        requires { place < length self.now }
        ensures value { result ≡ after_at self.now place }
        ensures inside { AreRings self.now → result < length self.now }
    {
        self.links[place].after
    }

    /// The place before this one in its ring.
    pub fn before(&self, place: usize) -> usize
        requires { place < length self.now }
        ensures { result ≡ before_at self.now place }
    {
        self.links[place].before
    }

    // Lets `next` come after the place.
    fn set_after(&mut self, place: usize, next: usize)
        requires { place < length self.old }
        ensures after { (p : ℕ) → after_at self.new p ≡ cond (eqb p place) next (after_at self.old p) }
        ensures before { (p : ℕ) → before_at self.new p ≡ before_at self.old p }
        ensures long { length self.new ≡ length self.old }
    {
        self.links[place].after = next;
    }

    // Lets `previous` come before the place.
    fn set_before(&mut self, place: usize, previous: usize)
        requires { place < length self.old }
        ensures before { (p : ℕ) → before_at self.new p ≡ cond (eqb p place) previous (before_at self.old p) }
        ensures after { (p : ℕ) → after_at self.new p ≡ after_at self.old p }
        ensures long { length self.new ≡ length self.old }
    {
        self.links[place].before = previous;
    }

    /// Exchanges what comes after the two places. This joins their rings, or parts the ring that they share.
    pub fn splice(&mut self, left: usize, right: usize)
        requires rings { AreRings self.old }
        requires left { left < length self.old }
        requires right { right < length self.old }
        ensures rings { AreRings self.new }
        ensures after { (p : ℕ) → after_at self.new p ≡ after_at self.old (exchange left right p) }
        ensures long { length self.new ≡ length self.old }
    {
        let after_left = self.after(left);
        let after_right = self.after(right);
        self.set_after(left, after_right);
        self.set_after(right, after_left);
        self.set_before(after_left, right);
        self.set_before(after_right, left);
    }
}

/// The node at a place. None exactly for a head.
#[tactic(auto, unfolding(crate::specs::Rings::node_of))]
pub fn node_at(place: usize, heads: usize) -> Option<u32>
    requires { place < heads + 2 ^ 32 }
    ensures { result ≡ node_of heads place }
{
    if place < heads {
        return None;
    }
    Some((place - heads) as u32)
}
