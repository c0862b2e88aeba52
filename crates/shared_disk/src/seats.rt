//! What a client of a shared disk holds.
ghost use Rattle.std.specs.Prelude.{◌≡◌, ◌+◌, ◌<◌, ◌≤◌, ◌^◌, length, sum_by};
ghost use Rattle.shared_disk.specs.Log.{IsOld};

use crate::name::DiskName;
use crate::pens::{Note, Pen};
use std::marker::Model;
use std::sync::ledger::{Book, Share};

/// A client's seat at the shared disk with this name: what it has seen of the log, and how many entries were added
/// through it that are no line's (own profile). It must be spent.
pub struct Seat<N: DiskName> {
    client: u32,
    count: u64,
    note: Note,
    share: Share<N>,
}

impl<N: DiskName> Model for Seat<N> {
    ghost use Rattle.std.specs.Prelude.{◌≡◌, ◌≤◌, length};
    ghost use Rattle.shared_disk.specs.Seats.{SeatState};

    ghost Value = { SeatState };

    ghost view = { λ s. record { client = s.client; count = s.count; seen = s.note.seen } };

    ghost invariant = { λ s. (s.note.table ≡ N.table) × (s.share.amount ≡ s.count) × (s.share.parts ≡ 1) × (1 ≤ s.client) × (s.client ≤ length N.script.roles) };
}

impl<N: DiskName> Seat<N> {
    /// A seat of the client with this tag, which has seen the whole log.
    pub(crate) fn new(client: u32, pen: &mut Pen, share: Share<N>) -> Seat<N>
        requires table { pen.old.table ≡ N.table }
        requires part { share.parts ≡ 1 }
        requires none { share.amount ≡ 0 }
        requires some { 1 ≤ client }
        requires there { client ≤ length N.script.roles }
        ensures same { pen.new ≡ pen.old }
        ensures seat { result ≡ record { client = client; count = 0; seen = pen.old.log } }
    {
        Seat {
            client,
            count: 0,
            note: pen.note(),
            share,
        }
    }

    /// The tag of its client.
    pub fn client(&self) -> u32
        ensures tag { result ≡ self.now.client }
        ensures some { 1 ≤ result }
        ensures there { result ≤ length N.script.roles }
    {
        self.client
    }

    /// Renews its note at the pen.
    pub(crate) fn renew(&mut self, pen: &mut Pen)
        requires { pen.old.table ≡ N.table }
        ensures same { pen.new ≡ pen.old }
        ensures seen { self.new ≡ record self.old { seen = pen.old.log } }
        ensures older { IsOld self.old.seen pen.old.log }
    {
        pen.renew(&mut self.note);
    }

    /// Counts so many entries more.
    pub(crate) fn count_more(&mut self, book: &mut Book<N>, entries: u64)
        requires { book.old.total + entries < 2 ^ 64 }
        ensures total { book.new.total ≡ book.old.total + entries }
        ensures count { self.new ≡ record self.old { count = self.old.count + entries } }
    {
        book.audit(&mut self.share);
        book.add(&mut self.share, entries);
        self.count += entries;
    }

    /// Spends the seat.
    pub(crate) fn spend(self) {
        let Seat {
            client: _,
            count: _,
            note: _,
            share: _,
        } = self;
    }
}

/// The sum of what was counted through these seats, from a sum that the share has. Each lends its part to the share
/// meanwhile, and where the share then has all parts, the sum is the book's total.
pub(crate) fn sum_seats<N: DiskName>(
    book: &mut Book<N>,
    share: &mut Share<N>,
    seats: &mut [Seat<N>],
    sum: u64,
) -> u64
    requires part { 0 < share.old.parts }
    requires amount { share.old.amount ≡ sum }
    requires fits { book.old.total < 2 ^ 64 }
    ensures same { seats.new ≡ seats.old }
    ensures total { book.new.total ≡ book.old.total }
    ensures parts { share.new.parts ≡ share.old.parts }
    ensures amount { share.new.amount ≡ share.old.amount }
    ensures sum { result ≡ sum + sum_by (λ s. s.count) seats.old }
    ensures whole { share.old.parts + length seats.old ≡ N.parts → result ≡ book.old.total }
{
    match seats.split_first_mut() {
        None => {
            book.audit(share);
            sum
        }
        Some((seat, rest)) => {
            let Seat {
                count,
                share: own,
                ..
            } = seat;
            own.give(share, 1, *count);
            book.audit(share);
            let all = sum_seats(book, share, rest, sum + *count);
            share.give(own, 1, *count);
            all
        }
    }
}
