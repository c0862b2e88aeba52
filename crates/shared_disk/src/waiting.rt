ghost use Rattle.std.specs.Prelude.{◌≡◌, ℕ, ◌+◌, ◌-◌, ◌<◌, ◌≤◌, true, false, Some, slice_get, length, is_some};
ghost use Rattle.history.specs.declared.order.Order.{Order};
ghost use Rattle.history.specs.Tokens.{token_count};
ghost use Rattle.history.specs.Marks.{is_outstanding};
ghost use Rattle.shared_disk.specs.declared.books.Slot.{Slot};
ghost use Rattle.shared_disk.specs.Lines.{first_own_open, first_own_left};
ghost use Rattle.shared_disk.specs.Desk.{LineSays};
ghost use Rattle.shared_disk.specs.Inside.{AreBooksOf, AreSame, is_awaited, order_in, desk_state};

use crate::answers::Line;
use crate::books::{Books, Buffer, Slot};
use crate::collecting::collect_token;
use disk_core::Disk;
use medium::Medium;
use token_table::Mark;

// The place of the first of these tokens, from this place on, that is outstanding, and their number where none is.
fn first_outstanding<M: Medium>(disk: &Disk<M>, tokens: &[u64], from: usize) -> usize
    requires from { from ≤ length tokens.now }
    requires accepted { (j t : ℕ) → slice_get tokens.now j ≡ Some t
        → t < token_count disk.now.entries }
    ensures within { from ≤ result }
    ensures most { result ≤ length tokens.now }
    ensures before { (j t : ℕ) → from ≤ j → j < result → slice_get tokens.now j ≡ Some t
        → is_outstanding disk.now.setup disk.now.entries t ≡ false }
    ensures here { (t : ℕ) → slice_get tokens.now result ≡ Some t
        → is_outstanding disk.now.setup disk.now.entries t ≡ true }
{
    // Its facts say that a token that was handed back has ended.
    disk.history();
    for place in from..tokens.len() {
        if let Mark::Outstanding = disk.mark(tokens[place]) {
            return place;
        }
    }
    tokens.len()
}

// The place of the first of these tokens, from this place on, that was not collected, and their number where all were.
fn first_uncollected(slots: &[Slot], tokens: &[u64], from: usize) -> usize
    requires from { from ≤ length tokens.now }
    requires there { (j t : ℕ) → slice_get tokens.now j ≡ Some t → t < length slots.now }
    ensures within { from ≤ result }
    ensures most { result ≤ length tokens.now }
    ensures before { (j t : ℕ) (s : Slot) → from ≤ j → j < result → slice_get tokens.now j ≡ Some t
        → slice_get slots.now t ≡ Some s → is_awaited s.buffer ≡ false }
    ensures here { (t : ℕ) (s : Slot) → slice_get tokens.now result ≡ Some t
        → slice_get slots.now t ≡ Some s → is_awaited s.buffer ≡ true }
{
    for place in from..tokens.len() {
        if let Buffer::Awaited = slots[tokens[place] as usize].buffer {
            return place;
        }
    }
    tokens.len()
}

// The least uncollected token of a client.
fn next_collect<M: Medium>(disk: &Disk<M>, books: &mut Books, place: usize) -> Option<u64>
    requires sound { AreBooksOf disk.now books.old }
    requires there { place < length books.old.courses.items }
    ensures value { result ≡ first_own_left disk.now.entries (place + 1) }
    ensures same { AreSame books.old books.new }
    ensures sound { AreBooksOf disk.now books.new }
{
    let course = &mut books.courses[place];
    course.collected = first_uncollected(&books.slots, &course.tokens, course.collected);
    course.token(course.collected)
}

// Whether a token of a client is outstanding.
fn is_waiting<M: Medium>(disk: &Disk<M>, books: &mut Books, place: usize) -> bool
    requires sound { AreBooksOf disk.now books.old }
    requires there { place < length books.old.courses.items }
    ensures value { result ≡ is_some (first_own_open disk.now.setup disk.now.entries (place + 1)) }
    ensures same { AreSame books.old books.new }
    ensures sound { AreBooksOf disk.now books.new }
{
    let course = &mut books.courses[place];
    course.ended = first_outstanding(disk, &course.tokens, course.ended);
    course.ended < course.tokens.len()
}

/// Takes a wait of a client, counted from 1.
pub fn take_wait<M: Medium>(disk: &mut Disk<M>, books: &mut Books, client: u32) -> Line
    requires some { 1 ≤ client }
    requires sound { AreBooksOf disk.old books.old }
    requires there { client ≤ length books.old.clients.items }
    requires next { order_in books.old (client - 1) ≡ Some Order.Wait }
    ensures says { LineSays (desk_state disk.old books.old) (client - 1) result
        (desk_state disk.new books.new) }
    ensures sound { AreBooksOf disk.new books.new }
{
    let place = client as usize - 1;
    if is_waiting(disk, books, place) {
        return Line::NotYet;
    }
    match next_collect(disk, books, place) {
        Some(number) => {
            collect_token(disk, books, client, number);
            Line::Collected(number)
        }
        None => {
            let before = disk.history().len();
            books.add_place(place, before);
            Line::Did(None)
        }
    }
}
