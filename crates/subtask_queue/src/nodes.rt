//! What is asked of the nodes of units, and what is made of them. Those of list 0 wait, and those of list 1 are free.
ghost use Rattle.std.specs.Prelude.{◌≡◌, ◌≢◌, ℕ, ◌+◌, ◌<◌, ◌++◌, ◌∷◌, [], Some, true, false, find, length, nat_lt, OnOk, OnErr};
ghost use Rattle.block_gate.specs.Gates.{is_block_held};
ghost use Rattle.index_links.specs.Lists.{list_at, is_among, without, AreApart};
ghost use Rattle.subtask_queue.specs.Owned.{subs_in, units_at, is_own, is_node, first_node, without_one, AreRising};
ghost use Rattle.subtask_queue.specs.Subs.{may_run};

use crate::sub::Sub;
use block_gate::Gates;
use index_links::Links;

/// The list of the nodes whose units wait, by token and byte.
pub const WAITING: u32 = 0;
/// The list of the nodes without a unit.
pub const FREE: u32 = 1;

/// Puts a node at the end of a list, in whichever list it was, in a constant number of steps.
pub fn relink(links: &mut Links, list: u32, node: u32)
    requires lists { length links.old.lists ≡ 2 }
    requires list { list < 2 }
    requires node { node < links.old.nodes }
    ensures nodes { links.new.nodes ≡ links.old.nodes }
    ensures lists { length links.new.lists ≡ 2 }
    ensures here { list_at links.new list ≡ without node (list_at links.old list) ++ node ∷ [] }
    ensures others { (l : ℕ) → l ≢ list → list_at links.new l ≡ without node (list_at links.old l) }
    ensures apart { AreApart links.new }
{
    links.unlink(node);
    links.push_back(list, node);
}

/// Makes a node free that waits, in a constant number of steps.
pub fn set_free(links: &mut Links, node: u32)
    requires lists { length links.old.lists ≡ 2 }
    requires apart { AreApart links.old }
    requires waits { is_among (list_at links.old 0) node ≡ true }
    ensures nodes { links.new.nodes ≡ links.old.nodes }
    ensures lists { length links.new.lists ≡ 2 }
    ensures waiting { list_at links.new 0 ≡ without node (list_at links.old 0) }
    ensures free { length (list_at links.new 1) ≡ length (list_at links.old 1) + 1 }
    ensures apart { AreApart links.new }
{
    relink(links, FREE, node);
}

/// Puts the first free node behind those that wait, in a constant number of steps.
pub fn take_free(links: &mut Links) -> u32
    requires lists { length links.old.lists ≡ 2 }
    requires apart { AreApart links.old }
    requires some { 0 < length (list_at links.old 1) }
    ensures nodes { links.new.nodes ≡ links.old.nodes }
    ensures lists { length links.new.lists ≡ 2 }
    ensures waiting { list_at links.new 0 ≡ list_at links.old 0 ++ result ∷ [] }
    ensures free { length (list_at links.old 1) ≡ length (list_at links.new 1) + 1 }
    ensures apart { AreApart links.new }
    ensures fresh { is_among (list_at links.old 0) result ≡ false }
    ensures inside { result < links.old.nodes }
{
    let Some(node) = links.first(FREE) else {
        unreachable!()
    };
    relink(links, WAITING, node);
    node
}

/// The first unit that may run now. None exactly where none may.
pub fn find_runnable(subs: &[Sub], links: &Links, gates: &Gates) -> Option<Sub>
    requires lists { 0 < length links.now.lists }
    requires nodes { links.now.nodes ≡ length subs.now }
    ensures { result ≡ find (may_run (is_block_held gates.now.held) (nat_lt 0 gates.now.free)) (subs_in (units_at subs.now (list_at links.now 0))) }
{
    let mut at = links.first(WAITING);
    for _ in 0..subs.len() {
        let Some(node) = at else {
            return None;
        };
        let sub = subs[node as usize];
        if sub.may_run(gates) {
            return Some(sub);
        }
        at = links.next(node);
    }
    None
}

/// The node of a token's unit with this first block. The walk goes from the token's first unit on, to its last one at most.
pub fn find_unit(subs: &[Sub], links: &Links, first: u32, token: u64, block: u64) -> Option<u32>
    requires nodes { links.now.nodes ≡ length subs.now }
    requires apart { AreApart links.now }
    requires rising { AreRising 0 (units_at subs.now (list_at links.now 0)) }
    requires first { first_node (is_own token) (units_at subs.now (list_at links.now 0)) ≡ Some first }
    ensures { result ≡ first_node (is_node token block) (units_at subs.now (list_at links.now 0)) }
{
    let mut at = Some(first);
    for _ in 0..subs.len() {
        let Some(node) = at else {
            return None;
        };
        let sub = subs[node as usize];
        if token != sub.token() {
            return None;
        }
        if block == sub.block() {
            return Some(node);
        }
        at = links.next(node);
    }
    None
}

/// The node that holds the first unit of a token once the first one is taken out.
pub fn second_own(subs: &[Sub], links: &Links, first: u32, token: u64) -> Option<u32>
    requires nodes { links.now.nodes ≡ length subs.now }
    requires apart { AreApart links.now }
    requires rising { AreRising 0 (units_at subs.now (list_at links.now 0)) }
    requires first { first_node (is_own token) (units_at subs.now (list_at links.now 0)) ≡ Some first }
    ensures { result ≡ first_node (is_own token) (without_one (is_own token) (units_at subs.now (list_at links.now 0))) }
{
    let Some(next) = links.next(first) else {
        return None;
    };
    if token == subs[next as usize].token() {
        return Some(next);
    }
    None
}
