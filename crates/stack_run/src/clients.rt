ghost use Rattle.std.specs.Prelude.{◌≡◌, ◌<◌, ◌^◌, sum_by, IfOk};
ghost use Rattle.script_text.specs.Planned.{client_lines};
ghost use Rattle.shared_disk.specs.Lines.{role_of, roles_of};
ghost use Rattle.stack_run.specs.Clients.{role_in, script_roles};

use crate::parts::stand_in;
use byte_lists::Bytes;
use history::{Order, Payload};
use partition_tables::Child;
use script_text::ClientPlan;
use shared_disk::Client;
use std::alloc::{AllocError, Global};

// A copy of what a line brings. The error is want of memory.
fn payload_copy(alloc: Global, payload: &Payload) -> Result<Payload, AllocError>
    ensures { IfOk result (λ copy. copy ≡ payload.now) }
{
    match payload {
        Payload::Given(bytes) => {
            let copy = Bytes::copy_of(alloc, bytes.as_slice())?;
            Ok(Payload::Given(copy))
        }
        Payload::Fill(byte) => Ok(Payload::Fill(*byte)),
        Payload::Nothing => Ok(Payload::Nothing),
    }
}

// A copy of a line. The error is want of memory.
fn order_copy(alloc: Global, order: &Order) -> Result<Order, AllocError>
    ensures { IfOk result (λ copy. copy ≡ order.now) }
{
    match order {
        Order::Request {
            asked,
            payload,
            media_id,
        } => {
            let payload = payload_copy(alloc, payload)?;
            Ok(Order::Request {
                asked: *asked,
                payload,
                media_id: *media_id,
            })
        }
        Order::Wait => Ok(Order::Wait),
        Order::Cancel { media_id } => Ok(Order::Cancel {
            media_id: *media_id,
        }),
        Order::Reset => Ok(Order::Reset),
        Order::Eject => Ok(Order::Eject),
        Order::Insert => Ok(Order::Insert),
        Order::Protect { on } => Ok(Order::Protect { on: *on }),
    }
}

// Copies of lines. The error is want of memory.
fn orders_copy(alloc: Global, orders: &[Order]) -> Result<Vec<Order>, AllocError>
    ensures { IfOk result (λ copy. copy.items ≡ orders.now) }
{
    let mut copy = Vec::with_capacity(alloc, orders.len())?;
    for order in orders {
        copy.push(order_copy(alloc, order)?)?;
    }
    Ok(copy)
}

// A client on its part of a disk, with copies of its lines. The error is want of memory.
fn client_in(
    alloc: Global,
    children: &[Child],
    size: u32,
    plan: &ClientPlan,
) -> Result<Client, AllocError>
    ensures { IfOk result (λ client. role_of client ≡ role_in size children.now plan.now) }
{
    let orders = orders_copy(alloc, plan.orders.as_slice())?;
    Ok(Client {
        stand: stand_in(children, size, plan.part),
        orders,
    })
}

// The clients of a disk with these children, each on its part of it, with copies of their lines. The error is want of
// memory.
pub fn clients_in(
    alloc: Global,
    children: &[Child],
    size: u32,
    plans: &[ClientPlan],
) -> Result<Vec<Client>, AllocError>
    ensures { IfOk result (λ clients. roles_of clients.items
        ≡ script_roles size children.now plans.now) }
{
    let mut clients = Vec::with_capacity(alloc, plans.len())?;
    for plan in plans {
        clients.push(client_in(alloc, children, size, plan)?)?;
    }
    Ok(clients)
}

// How many lines the clients have.
pub fn count_lines(plans: &[ClientPlan]) -> usize
    requires { sum_by client_lines plans.now < 2 ^ 64 }
    ensures { result ≡ sum_by client_lines plans.now }
{
    let mut count = 0;
    for plan in plans {
        count += plan.orders.as_slice().len();
    }
    count
}
