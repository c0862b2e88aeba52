ghost use Rattle.std.specs.Prelude.{◌≡◌, ◌≢◌, ℕ, ◌+◌, ◌<◌, ◌^◌, true, false, length, slice_get, IfOk, IfSome, OnOk, OnErr};
ghost use Rattle.index_links.specs.Lists.{list_at, is_among, is_listed, empty_lists, with_more_nodes, with_node_at_end, without_node, with_list_at_end, AreApart};

use crate::moves::{append, extend, is_in_list, join, take_out};
use crate::rings::{Rings, node_at};
use std::alloc::{AllocError, Global};
use std::marker::Model;

/// Lists of nodes. Nodes and lists are numbered from 0, and a node stands in at most one list. A list is a ring of links
/// with a head: the heads are the first places, and node `n` is the place `n` after them.
#[derive(Drop)]
pub struct Links {
    rings: Rings,
    heads: usize,
}

impl Model for Links {
    ghost use Rattle.index_links.specs.Lists.{LinkedLists};

    ghost Value = { LinkedLists };

    ghost use Rattle.index_links.specs.Rings.{lists_of, AreLinked};

    ghost view = { λ s. lists_of s.rings s.heads };

    ghost invariant = { λ s. AreLinked s.rings s.heads };
}

impl Links {
    /// `nodes` nodes and `lists` empty lists. The error is want of memory.
    pub fn make(alloc: Global, nodes: u32, lists: u32) -> Result<Links, AllocError>
        ensures value { IfOk result (λ links. links ≡ empty_lists nodes lists) }
        ensures apart { IfOk result AreApart }
    {
        let mut rings = Rings::new(alloc);
        rings.grow(lists as usize + nodes as usize)?;
        Ok(Links {
            rings,
            heads: lists as usize,
        })
    }

    /// Adds `nodes` nodes, which are in no list. The error is want of memory, and nothing has then changed.
    pub fn grow(&mut self, nodes: u32) -> Result<(), AllocError>
        requires { self.old.nodes + nodes < 2 ^ 32 }
        ensures ok { OnOk result (self.new ≡ with_more_nodes self.old nodes) }
        ensures err { OnErr result (self.new ≡ self.old) }
        ensures apart { AreApart self.new }
    {
        extend(&mut self.rings, self.heads, nodes)
    }

    /// Puts a node at the end of a list, in a constant number of steps.
    pub fn push_back(&mut self, list: u32, node: u32)
        requires list { list < length self.old.lists }
        requires node { node < self.old.nodes }
        requires unlisted { is_listed self.old node ≡ false }
        ensures value { self.new ≡ with_node_at_end self.old list node }
        ensures apart { AreApart self.new }
    {
        append(&mut self.rings, self.heads, list, node);
    }

    /// Takes a node out of its list, in a constant number of steps. True exactly where it was in one.
    pub fn unlink(&mut self, node: u32) -> bool
        requires { node < self.old.nodes }
        ensures listed { result ≡ is_listed self.old node }
        ensures value { self.new ≡ without_node self.old node }
        ensures apart { AreApart self.new }
    {
        let listed = is_in_list(&self.rings, self.heads, node);
        take_out(&mut self.rings, self.heads, node);
        listed
    }

    /// The first node of a list. None exactly where the list is empty.
    pub fn first(&self, list: u32) -> Option<u32>
        requires { list < length self.now.lists }
        ensures value { result ≡ slice_get (list_at self.now list) 0 }
        ensures apart { AreApart self.now }
    {
        node_at(self.rings.after(list as usize), self.heads)
    }

    /// The node after this one in its list. None exactly at the end.
    pub fn next(&self, node: u32) -> Option<u32>
        requires { is_listed self.now node ≡ true }
        ensures value { (l i : ℕ) → slice_get (list_at self.now l) i ≡ Some node → result ≡ slice_get (list_at self.now l) (i + 1) }
        ensures apart { AreApart self.now }
    {
        let place = self.heads + node as usize;
        node_at(self.rings.after(place), self.heads)
    }

    #[tactic(auto, using(crate::proofs::Calls::apart_of, crate::proofs::Calls::head_there))]
    /// Appends the nodes of one list to another and leaves the one empty, in a constant number of steps.
    pub fn move_all(&mut self, from: u32, to: u32)
        requires from { from < length self.old.lists }
        requires to { to < length self.old.lists }
        requires differ { from ≢ to }
        ensures value { self.new ≡ with_list_at_end self.old from to }
        ensures apart { AreApart self.new }
    {
        join(&mut self.rings, self.heads, from, to);
    }
}
