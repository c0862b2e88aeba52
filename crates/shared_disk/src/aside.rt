//! Calls of the disk that are no line's.
ghost use Rattle.std.specs.Prelude.{◌≡◌, ◌≤◌, ◌^◌, length};
ghost use Rattle.history.specs.declared.entry.Entry.{Entry};
ghost use Rattle.disk_core.specs.Calls.{asked_of, buffer_of as buffer_in, SubmitSays, CollectSays, EndSays};
ghost use Rattle.shared_disk.specs.Seats.{BesideLines};
ghost use Rattle.shared_disk.specs.Inside.{AreBooksOf, desk_state};

use crate::books::Books;
use disk_core::{Ask, Disk, Refused, Token, Why};
use history::View;
use medium::Medium;
use std::alloc::Global;
use token_table::{Done, NotThere};

// The buffer that came with a request.
fn buffer_of(alloc: Global, ask: Ask) -> Vec<u8>
    ensures { result.items ≡ buffer_in ask }
{
    match ask {
        Ask::Read { buffer, .. } => buffer,
        Ask::Write { buffer, .. } => buffer,
        Ask::ReadBlocks { buffer, .. } => buffer,
        Ask::WriteBlocks { buffer, .. } => buffer,
        Ask::Flush => Vec::new(alloc),
        Ask::EraseBlocks { .. } => Vec::new(alloc),
    }
}

/// Submits a request of a client, counted from 1, beside its lines.
pub fn submit_aside<M: Medium>(
    alloc: Global,
    disk: &mut Disk<M>,
    books: &mut Books,
    client: u32,
    view: &View,
    media_id: u32,
    ask: Ask,
) -> Result<Token, Refused>
    requires some { 1 ≤ client }
    requires there { client ≤ length books.old.clients.items }
    requires most { (asked_of ask).length ≤ 2 ^ 24 }
    requires sound { AreBooksOf disk.old books.old }
    ensures says { BesideLines (desk_state disk.old books.old) (desk_state disk.new books.new)
        (λ old new. SubmitSays old client view.now media_id ask result new) }
    ensures sound { AreBooksOf disk.new books.new }
{
    let place = client as usize - 1;
    if books.make_room(place).is_err() {
        return Err(Refused {
            why: Why::Memory,
            buffer: buffer_of(alloc, ask),
        });
    }
    match disk.submit(client, view, media_id, ask) {
        Ok(token) => {
            books.add_token(place, client, token.number);
            Ok(token)
        }
        Err(refused) => Err(refused),
    }
}

/// Collects a token for a caller who gets its buffer.
pub fn collect_aside<M: Medium>(
    disk: &mut Disk<M>,
    books: &mut Books,
    tag: u32,
    number: u64,
) -> Result<Done, NotThere>
    requires { AreBooksOf disk.old books.old }
    ensures says { BesideLines (desk_state disk.old books.old) (desk_state disk.new books.new)
        (λ old new. CollectSays old tag number result new) }
    ensures sound { AreBooksOf disk.new books.new }
{
    match disk.collect(tag, number) {
        Ok(done) => {
            books.let_go(number as usize);
            Ok(done)
        }
        Err(fault) => Err(fault),
    }
}

/// Ends the outstanding requests of a view beside the lines, and answers their number.
pub fn cancel_aside<M: Medium>(disk: &mut Disk<M>, books: &Books, tag: u32, view: &View) -> u64
    requires { AreBooksOf disk.old books.now }
    ensures says { BesideLines (desk_state disk.old books.now) (desk_state disk.new books.now)
        (λ old new. EndSays old (Entry.Cancel tag view.now) result new) }
    ensures sound { AreBooksOf disk.new books.now }
{
    disk.cancel(tag, view)
}
