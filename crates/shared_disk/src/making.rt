ghost use Rattle.std.specs.Prelude.{◌≡◌, ◌<◌, ◌≤◌, ◌^◌, length, reverse, replicate, IfOk, IfErr};
ghost use Rattle.history.specs.Tokens.{token_count};
ghost use Rattle.shared_disk.specs.declared.books.Buffer.{Buffer};
ghost use Rattle.shared_disk.specs.Lines.{roles_of};
ghost use Rattle.shared_disk.specs.Script.{IsOpening};
ghost use Rattle.shared_disk.specs.Desk.{AreDeskClients, Keeps, desk_over};
ghost use Rattle.shared_disk.specs.Inside.{AreNew, AreBooksOf, desk_state};

use crate::books::{Books, Buffer, Course, Slot};
use crate::clients::Client;
use disk_core::Disk;
use history::Entry;
use medium::Medium;
use std::alloc::{AllocError, Global};

// How many requests were accepted.
fn count_tokens(entries: &[Entry]) -> u64
    requires { length entries.now < 2 ^ 63 }
    ensures value { result ≡ token_count (reverse entries.now) }
    ensures few { result < 2 ^ 63 }
{
    let mut count: u64 = 0;
    for entry in entries {
        if let Entry::Accept { .. } = entry {
            count += 1;
        }
    }
    count
}

// The tokens of the opening history: another caller has their buffers.
fn past_slots(alloc: Global, count: usize) -> Result<Vec<Slot>, AllocError>
    ensures { IfOk result
        (λ slots. slots.items ≡ replicate count (record { tag = 0; buffer = Buffer.Gone })) }
{
    let mut slots = Vec::with_capacity(alloc, count)?;
    while slots.len() < count {
        slots.push_reserved(Slot {
            tag: 0,
            buffer: Buffer::Gone,
        });
    }
    Ok(slots)
}

// Courses of which no line is done, with a place for each line.
fn new_courses(alloc: Global, clients: &[Client]) -> Result<Vec<Course>, AllocError>
    ensures { IfOk result (λ courses. AreNew clients.now courses.items) }
{
    let mut courses = Vec::with_capacity(alloc, clients.len())?;
    for client in clients {
        courses.push_reserved(Course {
            places: Vec::with_capacity(alloc, client.orders.len())?,
            tokens: Vec::new(alloc),
            ended: 0,
            collected: 0,
        });
    }
    Ok(courses)
}

/// The books of a new desk. The error is want of memory, with the clients.
pub fn new_books<M: Medium>(
    alloc: Global,
    disk: &Disk<M>,
    clients: Vec<Client>,
) -> Result<Books, Vec<Client>>
    requires clients { AreDeskClients clients.items }
    requires opening { IsOpening disk.now.entries }
    ensures state { IfOk result
        (λ books. desk_state disk.now books ≡ desk_over disk.now (roles_of clients.items)) }
    ensures sound { IfOk result (AreBooksOf disk.now) }
    ensures keeps { IfOk result (λ books. Keeps (desk_state disk.now books)) }
    ensures back { IfErr result (λ back. back ≡ clients) }
{
    let entries = disk.history().entries();
    let tokens = count_tokens(entries);
    let Ok(slots) = past_slots(alloc, tokens as usize) else {
        return Err(clients);
    };
    let Ok(courses) = new_courses(alloc, &clients) else {
        return Err(clients);
    };
    Ok(Books {
        opened: entries.len() as u64,
        clients,
        courses,
        slots,
        ended: 0,
        collected: 0,
    })
}
