//! How a shared disk is made, and how it is closed.
ghost use Rattle.std.specs.Prelude.{◌≡◌, ◌≢◌, ◌+◌, ◌≤◌, ◌<◌, ◌^◌, [], length, replicate, sum_by, IfOk, IfErr, vec_len, vec_capacity};
ghost use Rattle.shared_disk.specs.Desk.{Keeps};
ghost use Rattle.shared_disk.specs.Plate.{IsLogOf};
ghost use Rattle.shared_disk.specs.Seats.{AreNewSeats};
ghost use Rattle.shared_disk.specs.Closing.{ClosesAs, IsClosedWhole};

use crate::answers::{Closed, ShareRefused};
use crate::desk::Desk;
use crate::hands::Hand;
use crate::held::Held;
use crate::name::DiskName;
use crate::pens::Pen;
use crate::plate::Plate;
use crate::seats::Seat;
use crate::shared::SharedDisk;
use medium::Medium;
use std::alloc::{AllocError, Global};
use std::sync::Mutex;
use std::sync::ledger::Share;

/// So many hands, which have seen the whole log.
pub fn new_hands<N: DiskName>(
    alloc: Global,
    pen: &mut Pen,
    count: u32,
) -> Result<Vec<Hand<N>>, AllocError>
    requires { pen.old.table ≡ N.table }
    ensures same { pen.new ≡ pen.old }
    ensures hands { IfOk result (λ hands. hands.items ≡ replicate count pen.old.log) }
{
    let mut hands = Vec::with_capacity(alloc, count as usize)?;
    for _ in 0..count {
        hands.push_reserved(Hand::new(pen));
    }
    Ok(hands)
}

/// A seat for each client, with one part of the ledger. There is room for them.
#[tactic(auto, using(crate::proofs::SeatLemmas::no_seats, crate::proofs::SeatLemmas::one_seat_more))]
pub fn new_seats<N: DiskName>(
    room: Vec<Seat<N>>,
    pen: &mut Pen,
    rest: &mut Share<N>,
    count: u32,
) -> Vec<Seat<N>>
    requires table { pen.old.table ≡ N.table }
    requires count { count ≡ length N.script.roles }
    requires empty { vec_len room ≡ 0 }
    requires room { count ≤ vec_capacity room }
    requires parts { rest.old.parts ≡ count + 1 }
    requires none { rest.old.amount ≡ 0 }
    ensures same { pen.new ≡ pen.old }
    ensures seats { AreNewSeats count pen.old.log result.items }
    ensures part { rest.new.parts ≡ 1 }
    ensures left { rest.new.amount ≡ 0 }
{
    let mut seats = room;
    for client in 0..count {
        let share = rest.split_off(1, 0);
        seats.push_reserved(Seat::new(client + 1, pen, share));
    }
    seats
}

impl<M: Medium, N: DiskName> SharedDisk<M, N> {
    /// A desk behind a lock, a seat for each of its clients, in order, and at most 16 hands. The plate is this desk's, N is
    /// the plate's name, and the desk keeps its script. The error is want of memory, and the plate is then gone.
    pub fn make(
        alloc: Global,
        plate: Plate,
        desk: Desk<M>,
        hands: u32,
    ) -> Result<(SharedDisk<M, N>, Vec<Seat<N>>, Vec<Hand<N>>), ShareRefused<M>>
        requires few { hands ≤ 16 }
        requires of_desk { IsLogOf desk plate.log }
        requires table { plate.table ≡ N.table }
        requires ledger { plate.ledger ≡ N.name }
        requires parts { plate.parts ≡ N.parts }
        requires one_each { N.parts ≡ length N.script.roles + 1 }
        requires setup { desk.disk.setup ≡ N.setup }
        requires script { desk.script ≡ N.script }
        requires keeps { Keeps desk }
        ensures seats { IfOk result (λ made. AreNewSeats (length N.script.roles) plate.log made.1.items) }
        ensures hands { IfOk result (λ made. made.2.items ≡ replicate hands plate.log) }
        ensures back { IfErr result (λ refused. refused.desk ≡ desk) }
    {
        let Plate { mut pen, blank } = plate;
        let Ok(hands) = new_hands(alloc, &mut pen, hands) else {
            return Err(ShareRefused { desk });
        };
        let clients = desk.clients();
        let Ok(room) = Vec::with_capacity(alloc, clients as usize) else {
            return Err(ShareRefused { desk });
        };
        let (book, mut rest) = blank.open::<N>();
        let seats = new_seats(room, &mut pen, &mut rest, clients);
        let held = Held {
            desk,
            pen,
            count: 0,
            book,
            rest,
        };
        let lock = Mutex::new(held);
        Ok((SharedDisk { lock }, seats, hands))
    }

    /// Takes the lock apart where the sum of the seats' counts is the lock's, as it is with the seats of all clients.
    pub fn close(self, seats: Vec<Seat<N>>) -> Closed<M, N>
        requires one_each { N.parts ≡ length N.script.roles + 1 }
        ensures says { ClosesAs N.setup N.script seats.items result }
        ensures whole { length seats.items ≡ length N.script.roles → IsClosedWhole result }
    {
        let SharedDisk { lock } = self;
        let mut held = lock.into_inner();
        let mut seats = seats;
        let sum = held.sum(&mut seats);
        if sum == held.count {
            spend_all(seats);
            let Held { desk, .. } = held;
            return Closed::Whole(desk, sum);
        }
        let count = held.count;
        let lock = Mutex::new(held);
        Closed::Short(SharedDisk { lock }, seats, count, sum)
    }
}

// Spends the seats.
fn spend_all<N: DiskName>(seats: Vec<Seat<N>>) {
    let mut seats = seats;
    while let Some(seat) = seats.pop() {
        seat.spend();
    }
    seats.destroy_empty();
}
