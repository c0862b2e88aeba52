ghost use Rattle.std.specs.Prelude.{◌≡◌, ◌*◌, ◌^◌, ◌<◌, IfSome};
ghost use Rattle.stack_run.specs.Parts.{children_of, is_countable, is_child, child_with, is_missing, first_missing, stand_in};

use partition_children::view_of;
use partition_tables::{Child, Table};
use script_text::ClientPlan;
use shared_disk::Stand;

// The children of a table that was read.
pub fn children_of(table: &Option<Table>) -> &[Child]
    ensures { result.now ≡ children_of table.now }
{
    match table {
        None => &[],
        Some(table) => table.children.as_slice(),
    }
}

// Whether a child's first byte and its length are below 2^64.
fn is_countable(child: &Child, size: u32) -> bool
    ensures { result ≡ is_countable size child.now }
{
    let first = child.first.checked_mul(u64::from(size)).is_some();
    let blocks = child.blocks.checked_mul(u64::from(size)).is_some();
    first && blocks
}

// Whether it is so, and has this number.
fn is_child(child: &Child, size: u32, number: u32) -> bool
    ensures { result ≡ is_child size number child.now }
{
    child.number == number && is_countable(child, size)
}

// The first such child with this number.
fn child_with(children: &[Child], size: u32, number: u32) -> Option<Child>
    ensures value { result ≡ child_with size number children.now }
    ensures first { IfSome result (λ child. child.first * size < 2 ^ 64) }
    ensures blocks { IfSome result (λ child. child.blocks * size < 2 ^ 64) }
{
    for child in children {
        if is_child(child, size, number) {
            return Some(*child);
        }
    }
    None
}

// Whether a client's part is none of these children.
fn is_missing(children: &[Child], size: u32, part: Option<u32>) -> bool
    ensures { result ≡ is_missing size children.now part }
{
    match part {
        None => false,
        Some(number) => child_with(children, size, number).is_none(),
    }
}

// The line of the first client whose part is none of these children.
pub fn first_missing(children: &[Child], size: u32, clients: &[ClientPlan]) -> Option<u64>
    ensures { result ≡ first_missing size children.now clients.now }
{
    for client in clients {
        if is_missing(children, size, client.part) {
            return Some(client.line);
        }
    }
    None
}

// The part of the disk that a client's lines are for.
pub fn stand_in(children: &[Child], size: u32, part: Option<u32>) -> Stand
    ensures { result ≡ stand_in size children.now part }
{
    match part {
        None => Stand::Whole,
        Some(number) => match child_with(children, size, number) {
            None => Stand::Whole,
            Some(child) => Stand::Child(view_of(&child, 1, size)),
        },
    }
}
