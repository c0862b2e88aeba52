ghost use Rattle.std.specs.Prelude.{◌≡◌, ℕ, ◌<◌, ◌≤◌, true, false, Some, slice_get, length};
ghost use Rattle.history.specs.Tokens.{token_count, was_collected};
ghost use Rattle.history.specs.Marks.{is_outstanding};
ghost use Rattle.shared_disk.specs.declared.books.Slot.{Slot};
ghost use Rattle.shared_disk.specs.Desk.{LastSays, TakesBack};
ghost use Rattle.shared_disk.specs.Inside.{AreBooksOf, is_awaited, desk_state};

use crate::books::{Books, Buffer, Slot};
use disk_core::Disk;
use medium::Medium;
use token_table::Mark;

// Collects a token that has ended, and keeps its buffer.
pub fn collect_token<M: Medium>(disk: &mut Disk<M>, books: &mut Books, tag: u32, number: u64)
    requires sound { AreBooksOf disk.old books.old }
    requires there { number < token_count disk.old.entries }
    requires uncollected { was_collected disk.old.entries number ≡ false }
    requires ended { is_outstanding disk.old.setup disk.old.entries number ≡ false }
    ensures takes { TakesBack (desk_state disk.old books.old) tag number (desk_state disk.new books.new) }
    ensures sound { AreBooksOf disk.new books.new }
{
    match disk.collect(tag, number) {
        Ok(done) => books.keep(number as usize, done),
        Err(_) => unreachable!(),
    }
}

// The first token from this one on that is outstanding, and their number where none is.
fn first_open<M: Medium>(disk: &Disk<M>, from: usize, count: usize) -> usize
    requires count { count ≡ token_count disk.now.entries }
    requires from { from ≤ count }
    ensures within { from ≤ result }
    ensures most { result ≤ count }
    ensures before { (t : ℕ) → from ≤ t → t < result
        → is_outstanding disk.now.setup disk.now.entries t ≡ false }
    ensures here { result < count → is_outstanding disk.now.setup disk.now.entries result ≡ true }
{
    // Its facts say that a token that was handed back has ended.
    disk.history();
    for number in from..count {
        if let Mark::Outstanding = disk.mark(number as u64) {
            return number;
        }
    }
    count
}

// The first token from this one on that was not collected, and their number where all were.
fn first_awaited(slots: &[Slot], from: usize) -> usize
    requires { from ≤ length slots.now }
    ensures within { from ≤ result }
    ensures most { result ≤ length slots.now }
    ensures before { (t : ℕ) (s : Slot) → from ≤ t → t < result → slice_get slots.now t ≡ Some s
        → is_awaited s.buffer ≡ false }
    ensures here { (s : Slot) → slice_get slots.now result ≡ Some s → is_awaited s.buffer ≡ true }
{
    for number in from..slots.len() {
        if let Buffer::Awaited = slots[number].buffer {
            return number;
        }
    }
    slots.len()
}

/// Collects the least uncollected token with its own tag. None exactly where a client has a line left, a token is
/// outstanding, or every token was collected.
pub fn collect_least<M: Medium>(disk: &mut Disk<M>, books: &mut Books) -> Option<u64>
    requires { AreBooksOf disk.old books.old }
    ensures says { LastSays (desk_state disk.old books.old) result (desk_state disk.new books.new) }
    ensures sound { AreBooksOf disk.new books.new }
{
    if !books.is_over() {
        return None;
    }
    let count = books.slots.len();
    books.ended = first_open(disk, books.ended, count);
    if books.ended < count {
        return None;
    }
    books.collected = first_awaited(&books.slots, books.collected);
    if books.collected == count {
        return None;
    }
    let number = books.collected as u64;
    let tag = books.slots[books.collected].tag;
    collect_token(disk, books, tag, number);
    Some(number)
}
