//! What each call makes of a linked table, over its links and the number of its heads.
ghost use Rattle.std.specs.Prelude.{◌≡◌, ◌≢◌, ℕ, ◌+◌, ◌<◌, ◌^◌, false, OnOk, OnErr};
ghost use Rattle.index_links.specs.Lists.{is_listed, with_more_nodes, with_node_at_end, without_node, with_list_at_end};
ghost use Rattle.index_links.specs.Rings.{lists_of, AreLinked};

use crate::rings::Rings;
use std::alloc::AllocError;

/// Adds nodes that are in no list. The error is want of memory, and nothing has then changed.
pub fn extend(rings: &mut Rings, heads: usize, nodes: u32) -> Result<(), AllocError>
    requires linked { AreLinked rings.old heads }
    requires few { (lists_of rings.old heads).nodes + nodes < 2 ^ 32 }
    ensures linked { AreLinked rings.new heads }
    ensures ok { OnOk result (lists_of rings.new heads ≡ with_more_nodes (lists_of rings.old heads) nodes) }
    ensures err { OnErr result (rings.new ≡ rings.old) }
{
    rings.grow(nodes as usize)?;
    Ok(())
}

/// Puts a node of no list at the end of a list.
pub fn append(rings: &mut Rings, heads: usize, list: u32, node: u32)
    requires linked { AreLinked rings.old heads }
    requires list { list < heads }
    requires node { node < (lists_of rings.old heads).nodes }
    requires unlisted { is_listed (lists_of rings.old heads) node ≡ false }
    ensures linked { AreLinked rings.new heads }
    ensures lists { lists_of rings.new heads ≡ with_node_at_end (lists_of rings.old heads) list node }
{
    let last = rings.before(list as usize);
    rings.splice(last, heads + node as usize);
}

/// Whether a node is in a list: its ring then has another place.
pub fn is_in_list(rings: &Rings, heads: usize, node: u32) -> bool
    requires linked { AreLinked rings.now heads }
    requires node { node < (lists_of rings.now heads).nodes }
    ensures { result ≡ is_listed (lists_of rings.now heads) node }
{
    let place = heads + node as usize;
    let before = rings.before(place);
    before != place
}

/// Takes a node out of its list, if it is in one.
pub fn take_out(rings: &mut Rings, heads: usize, node: u32)
    requires linked { AreLinked rings.old heads }
    requires node { node < (lists_of rings.old heads).nodes }
    ensures linked { AreLinked rings.new heads }
    ensures lists { lists_of rings.new heads ≡ without_node (lists_of rings.old heads) node }
{
    let place = heads + node as usize;
    let before = rings.before(place);
    rings.splice(before, place);
}

/// Appends the nodes of one list to another and leaves the one empty.
pub fn join(rings: &mut Rings, heads: usize, from: u32, to: u32)
    requires linked { AreLinked rings.old heads }
    requires from { from < heads }
    requires to { to < heads }
    requires differ { from ≢ to }
    ensures linked { AreLinked rings.new heads }
    ensures lists { lists_of rings.new heads ≡ with_list_at_end (lists_of rings.old heads) from to }
{
    let (from, to) = (from as usize, to as usize);
    let last = rings.before(to);
    let last_moved = rings.before(from);
    if last_moved != from {
        rings.splice(last, last_moved);
        rings.splice(last, from);
    }
}
