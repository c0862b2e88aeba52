//! Nodes for more units.
ghost use Rattle.std.specs.Prelude.{◌≡◌, ◌+◌, ◌≤◌, ◌<◌, ◌++◌, ◌∷◌, [], true, length, OnOk, OnErr};
ghost use Rattle.index_links.specs.Lists.{list_at, is_among};
ghost use Rattle.subtask_queue.specs.Owned.{units_at, AreNodes, AreAppended};

use crate::nodes::{FREE, take_free};
use crate::sub::Sub;
use index_links::Links;
use std::alloc::AllocError;

/// Adds so many free nodes. The error is want of memory, or that there would be 2^32 nodes, and no node was then added.
pub fn grow(links: &mut Links, subs: &mut Vec<Sub>, more: u32) -> Result<(), AllocError>
    requires nodes { AreNodes subs.old.items links.old 0 }
    ensures nodes { AreNodes subs.new.items links.new 0 }
    ensures units { units_at subs.new.items (list_at links.new 0) ≡ units_at subs.old.items (list_at links.old 0) }
    ensures ok { OnOk result (length (list_at links.new 1) ≡ length (list_at links.old 1) + more) }
    ensures err { OnErr result (list_at links.new 1 ≡ list_at links.old 1) }
{
    let fits = subs.len() as u64 + more as u64 <= u32::MAX as u64;
    if !fits {
        return Err(AllocError);
    }
    subs.reserve(more as usize)?;
    links.grow(more)?;
    for _ in 0..more {
        links.push_back(FREE, subs.len() as u32);
        subs.push_reserved(Sub::Sync { token: 0 });
    }
    Ok(())
}

/// Puts a unit into a free node, behind those that wait, and answers the node.
fn put(links: &mut Links, subs: &mut Vec<Sub>, sub: Sub) -> u32
    requires nodes { AreNodes subs.old.items links.old 1 }
    ensures nodes { AreNodes subs.new.items links.new 0 }
    ensures free { length (list_at links.old 1) ≡ length (list_at links.new 1) + 1 }
    ensures units { units_at subs.new.items (list_at links.new 0) ≡ units_at subs.old.items (list_at links.old 0) ++ (result, sub) ∷ [] }
{
    let node = take_free(links);
    subs[node as usize] = sub;
    node
}

/// Puts some units into free nodes, behind those that wait, and answers the node of the first one.
pub fn put_all(links: &mut Links, subs: &mut Vec<Sub>, units: &[Sub]) -> Option<u32>
    requires nodes { AreNodes subs.old.items links.old (length units.now) }
    ensures nodes { AreNodes subs.new.items links.new 0 }
    ensures free { length (list_at links.old 1) ≡ length (list_at links.new 1) + length units.now }
    ensures units { AreAppended units.now result (units_at subs.old.items (list_at links.old 0)) (units_at subs.new.items (list_at links.new 0)) }
{
    let mut first = None;
    for sub in units {
        let node = put(links, subs, *sub);
        first = first.or(Some(node));
    }
    first
}
