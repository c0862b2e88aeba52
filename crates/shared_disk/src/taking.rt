ghost use Rattle.std.specs.Prelude.{◌≡◌, ◌≢◌, ◌-◌, ◌≤◌, Some, IfOk, OnErr, IsSome, length};
ghost use Rattle.history.specs.declared.order.Order.{Order};
ghost use Rattle.shared_disk.specs.Desk.{LineSays};
ghost use Rattle.shared_disk.specs.Inside.{AreBooksOf, AreSame, DoesOrder, order_in, desk_state, MayWantMemory};

use crate::answers::Line;
use crate::asking::{line_ask, line_view};
use crate::books::Books;
use crate::requesting::submit_request;
use crate::waiting::take_wait;
use disk_core::{Disk, Token};
use history::Order;
use medium::Medium;
use std::alloc::{AllocError, Global};

// Does the next line of a client, which is no wait. It answers a token exactly where a request was accepted. The error is
// want of memory.
fn do_line<M: Medium>(
    alloc: Global,
    disk: &mut Disk<M>,
    books: &mut Books,
    client: u32,
) -> Result<Option<Token>, AllocError>
    requires some { 1 ≤ client }
    requires there { client ≤ length books.old.clients.items }
    requires sound { AreBooksOf disk.old books.old }
    requires left { IsSome (order_in books.old (client - 1)) }
    requires other { order_in books.old (client - 1) ≢ Some Order.Wait }
    ensures does { IfOk result (DoesOrder disk.old books.old (client - 1) disk.new books.new) }
    ensures wants { OnErr result (MayWantMemory (order_in books.old (client - 1))) }
    ensures disk { OnErr result (disk.new ≡ disk.old) }
    ensures same { OnErr result (AreSame books.old books.new) }
    ensures sound { OnErr result (AreBooksOf disk.old books.new) }
{
    let place = client as usize - 1;
    let stand = books.clients[place].stand;
    match books.next(place) {
        Some(
            Order::Request {
                asked,
                payload,
                media_id,
            },
        ) => {
            let media_id = *media_id;
            let ask = line_ask(alloc, asked, payload)?;
            let view = line_view(disk, &stand, media_id);
            submit_request(disk, books, client, &view, media_id, ask)
        }
        Some(Order::Cancel { media_id }) => {
            let view = line_view(disk, &stand, *media_id);
            disk.cancel(client, &view);
            Ok(None)
        }
        Some(Order::Reset) => {
            disk.reset(client);
            Ok(None)
        }
        Some(Order::Eject) => {
            let _ = disk.eject(client);
            Ok(None)
        }
        Some(Order::Insert) => {
            let _ = disk.insert(client);
            Ok(None)
        }
        Some(Order::Protect { on }) => {
            disk.protect(client, *on)?;
            Ok(None)
        }
        Some(Order::Wait) => unreachable!(),
        None => unreachable!(),
    }
}

/// Takes the next line of a client, counted from 1.
pub fn take_line<M: Medium>(
    alloc: Global,
    disk: &mut Disk<M>,
    books: &mut Books,
    client: u32,
) -> Line
    requires some { 1 ≤ client }
    requires there { client ≤ length books.old.clients.items }
    requires sound { AreBooksOf disk.old books.old }
    ensures says { LineSays (desk_state disk.old books.old) (client - 1) result
        (desk_state disk.new books.new) }
    ensures sound { AreBooksOf disk.new books.new }
{
    let place = client as usize - 1;
    match books.next(place) {
        None => return Line::Ended,
        Some(Order::Wait) => return take_wait(disk, books, client),
        Some(_) => {}
    }
    let before = disk.history().len();
    match do_line(alloc, disk, books, client) {
        Ok(token) => {
            books.add_place(place, before);
            Line::Did(token)
        }
        Err(_) => Line::Memory,
    }
}
