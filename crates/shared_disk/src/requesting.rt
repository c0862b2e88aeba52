ghost use Rattle.std.specs.Prelude.{◌≡◌, ◌≤◌, ◌^◌, Some, IfOk, OnErr, length};
ghost use Rattle.history.specs.Rules.{refusal_of};
ghost use Rattle.disk_core.specs.Calls.{asked_of, bytes_of};
ghost use Rattle.shared_disk.specs.Lines.{answer_of};
ghost use Rattle.shared_disk.specs.Inside.{AreBooksOf, AreSame, DoesOn};

use crate::books::Books;
use disk_core::{Ask, Disk, Token, Why};
use history::View;
use medium::Medium;
use std::alloc::AllocError;

/// Submits a request of a client, counted from 1. It is accepted and answers its token, or refused and answers none. The
/// error is want of memory.
pub fn submit_request<M: Medium>(
    disk: &mut Disk<M>,
    books: &mut Books,
    client: u32,
    view: &View,
    media_id: u32,
    ask: Ask,
) -> Result<Option<Token>, AllocError>
    requires some { 1 ≤ client }
    requires there { client ≤ length books.old.clients.items }
    requires most { (asked_of ask).length ≤ 2 ^ 24 }
    requires sound { AreBooksOf disk.old books.old }
    ensures does { IfOk result (DoesOn disk.old books.old disk.new books.new
        (Some (answer_of client view.now (asked_of ask) (bytes_of ask) media_id
        (refusal_of disk.old.setup disk.old.entries view.now (asked_of ask) media_id)))) }
    ensures disk { OnErr result (disk.new ≡ disk.old) }
    ensures same { OnErr result (AreSame books.old books.new) }
    ensures sound { OnErr result (AreBooksOf disk.old books.new) }
{
    let place = client as usize - 1;
    books.make_room(place)?;
    match disk.submit(client, view, media_id, ask) {
        Ok(token) => {
            books.add_token(place, client, token.number);
            Ok(Some(token))
        }
        Err(refused) => match refused.why {
            Why::Status(_) => Ok(None),
            Why::Memory => Err(AllocError),
        },
    }
}
