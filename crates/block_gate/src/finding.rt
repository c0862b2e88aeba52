ghost use Rattle.std.specs.Prelude.{◌≡◌, ◌+◌, ◌<◌, ◌≤◌, ◌^◌, true, Some, length, option_map, is_some, IfSome};
ghost use Rattle.std.specs.List.{find, filter};
ghost use Rattle.index_links.specs.Lists.{list_at, is_among};
ghost use Rattle.block_gate.specs.Gates.{gate_of, lesser, least_ticket};
ghost use Rattle.block_gate.specs.Sets.{gate_at, gates_in, is_so, is_sought};

use crate::relinking::HELD;
use crate::set::Set;
use index_links::Links;

/// The gate that a search is for.
#[derive(Clone, Copy)]
pub enum Sought {
    /// of this ticket
    Ticket(u64),
    /// of one of the blocks from this one on, so many of them
    Blocks(u64, u32),
}

#[tactic(auto, unfolding(crate::specs::Sets::is_sought))]
// Whether a set's gate is the one.
fn fits(sought: Sought, set: &Set) -> bool
    ensures { result ≡ is_sought sought set.now }
{
    match sought {
        Sought::Ticket(ticket) => ticket == set.ticket(),
        Sought::Blocks(first, count) => {
            first <= set.block() && set.block() - first < count as u64
        }
    }
}

/// The first set of a list whose gate is the one that is sought. None exactly where there is none.
pub fn find_set(sets: &[Set], links: &Links, list: u32, sought: Sought) -> Option<u32>
    requires list { list < length links.now.lists }
    requires nodes { links.now.nodes ≡ length sets.now }
    ensures among { IfSome result (λ n. is_among (list_at links.now list) n ≡ true) }
    ensures value { option_map (gate_at sets.now) result ≡ find (is_sought sought) (gates_in sets.now (list_at links.now list)) }
{
    let mut at = links.first(list);
    for _ in 0..sets.len() {
        let Some(node) = at else {
            return None;
        };
        if fits(sought, &sets[node as usize]) {
            return Some(node);
        }
        at = links.next(node);
    }
    None
}

#[tactic(auto, unfolding(crate::specs::Gates::lesser))]
// The lesser of a ticket and what else there is.
fn lesser_of(ticket: u64, least: Option<u64>) -> Option<u64>
    ensures { result ≡ lesser ticket least }
{
    match least {
        None => Some(ticket),
        Some(other) => Some(ticket.min(other)),
    }
}

/// The least ticket of the sets of a list. None exactly where the list is empty.
pub fn least_of(sets: &[Set], links: &Links, list: u32) -> Option<u64>
    requires list { list < length links.now.lists }
    requires nodes { links.now.nodes ≡ length sets.now }
    ensures { result ≡ least_ticket (gates_in sets.now (list_at links.now list)) }
{
    let mut least = None;
    let mut at = links.first(list);
    for _ in 0..sets.len() {
        let Some(node) = at else {
            return least;
        };
        least = lesser_of(sets[node as usize].ticket(), least);
        at = links.next(node);
    }
    least
}

#[tactic(auto, unfolding(crate::specs::Sets::is_so))]
// Whether a set's work is out, or in.
fn is_so(out: bool, set: &Set) -> bool
    ensures { result ≡ is_so out set.now }
{
    if out { set.is_out() } else { !set.is_out() }
}

/// How many sets of a list have their work out, or in.
pub fn count_sets(sets: &[Set], links: &Links, list: u32, out: bool) -> u32
    requires list { list < length links.now.lists }
    requires nodes { links.now.nodes ≡ length sets.now }
    requires few { length sets.now ≤ 64 }
    ensures value { result ≡ length (filter (is_so out) (gates_in sets.now (list_at links.now list))) }
    ensures few { result ≤ 64 }
{
    let mut count: u32 = 0;
    let mut at = links.first(list);
    for _ in 0..sets.len() {
        let Some(node) = at else {
            return count;
        };
        if is_so(out, &sets[node as usize]) {
            count += 1;
        }
        at = links.next(node);
    }
    count
}

/// The set of a ticket that holds a gate.
pub fn holder(sets: &[Set], links: &Links, ticket: u64) -> u32
    requires lists { 1 < length links.now.lists }
    requires nodes { links.now.nodes ≡ length sets.now }
    requires held { is_some (gate_of (gates_in sets.now (list_at links.now 1)) ticket) ≡ true }
    ensures among { is_among (list_at links.now 1) result ≡ true }
    ensures ticket { (gate_at sets.now result).ticket ≡ ticket }
    ensures gate { gate_of (gates_in sets.now (list_at links.now 1)) ticket ≡ Some (gate_at sets.now result) }
{
    let Some(node) = find_set(sets, links, HELD, Sought::Ticket(ticket)) else {
        unreachable!()
    };
    node
}
