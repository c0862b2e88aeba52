ghost use Rattle.std.specs.Prelude.{◌≡◌, ℕ, ◌+◌, ◌<◌, ◌≤◌, [], Some, true, false, length, slice_get, IfOk};
ghost use Rattle.index_links.specs.Lists.{list_at, with_node_at_end, without_node, AreApart};

use index_links::Links;
use std::alloc::{AllocError, Global};

/// The list of the sets that are free.
pub const FREE: u32 = 0;
/// The list of the sets that are held.
pub const HELD: u32 = 1;
/// The list of the sets that are out under a revoked ticket.
pub const GONE: u32 = 2;

/// Puts a set at the end of another list.
pub fn relink(links: &mut Links, node: u32, list: u32)
    requires node { node < links.old.nodes }
    requires list { list < length links.old.lists }
    ensures value { links.new ≡ with_node_at_end (without_node links.old node) list node }
    ensures apart { AreApart links.new }
{
    links.unlink(node);
    links.push_back(list, node);
}

/// The first set of a list that has one.
pub fn first_of(links: &Links, list: u32) -> u32
    requires list { list < length links.now.lists }
    requires some { 0 < length (list_at links.now list) }
    ensures { slice_get (list_at links.now list) 0 ≡ Some result }
{
    let Some(node) = links.first(list) else {
        unreachable!()
    };
    node
}

/// The first set that is out under a revoked ticket, if there is one.
pub fn first_gone(links: &Links) -> Option<u32>
    requires { 2 < length links.now.lists }
    ensures { result ≡ slice_get (list_at links.now 2) 0 }
{
    links.first(GONE)
}

/// So many sets, all free. The error is want of memory.
pub fn free_links(alloc: Global, count: u32) -> Result<Links, AllocError>
    ensures nodes { IfOk result (λ links. links.nodes ≡ count) }
    ensures lists { IfOk result (λ links. length links.lists ≡ 3) }
    ensures free { IfOk result (λ links. length (list_at links 0) ≡ count) }
    ensures held { IfOk result (λ links. list_at links 1 ≡ []) }
    ensures gone { IfOk result (λ links. list_at links 2 ≡ []) }
    ensures apart { IfOk result AreApart }
{
    let mut links = Links::make(alloc, count, 3)?;
    for node in 0..count {
        links.push_back(FREE, node);
    }
    Ok(links)
}
