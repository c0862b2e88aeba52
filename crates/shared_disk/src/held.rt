//! What lies behind the lock of a shared disk.
ghost use Rattle.std.specs.Prelude.{◌≡◌, ◌+◌, ◌-◌, ◌≤◌, ◌^◌, true, false, None, length, sum_by};
ghost use Rattle.history.specs.declared.entry.Entry.{Entry};
ghost use Rattle.disk_core.specs.Calls.{asked_of, SubmitSays, StepSays, StoreSays, HeldStoreSays, CollectSays, EndSays};
ghost use Rattle.shared_disk.specs.Desk.{OnDisk, LineSays};
ghost use Rattle.shared_disk.specs.Seats.{Sees, IsOverBy, IsLeftBy, line_done, BesideLines, submit_count, collect_count, cancel_count};

use crate::answers::{Line, Turn};
use crate::desk::Desk;
use crate::hands::Hand;
use crate::holding::{
    cancel_logged, collect_logged, line_logged, step_logged, store_held_logged, store_logged,
    submit_logged,
};
use crate::name::DiskName;
use crate::pens::Pen;
use crate::seats::{Seat, sum_seats};
use block_gate::Work;
use disk_core::{Ask, HeldStored, Refused, Stored, Token};
use history::View;
use medium::Medium;
use std::marker::Model;
use std::sync::ledger::{Book, Share};
use token_table::{Done, NotThere};

/// The desk of a shared disk, the pen of its log, and how many entries were added that are no line's (own profile).
#[derive(Drop)]
pub struct Held<M: Medium, N: DiskName> {
    pub(crate) desk: Desk<M>,
    pub(crate) pen: Pen,
    pub(crate) count: u64,
    pub(crate) book: Book<N>,
    pub(crate) rest: Share<N>,
}

impl<M: Medium, N: DiskName> Model for Held<M, N> {
    ghost use Rattle.std.specs.Prelude.{◌≡◌};
    ghost use Rattle.shared_disk.specs.Seats.{LockState, IsShared};
    ghost use Rattle.shared_disk.specs.Holding.{IsCounted};

    ghost Value = { LockState };

    ghost view = { λ h. record { desk = h.desk; log = h.pen.log; count = h.count } };

    ghost invariant = { λ h. (h.pen.table ≡ N.table) × IsShared N.setup N.script (record { desk = h.desk; log = h.pen.log; count = h.count }) × IsCounted h.book.total h.rest.parts h.rest.amount (record { desk = h.desk; log = h.pen.log; count = h.count }) };
}

impl<M: Medium, N: DiskName> Held<M, N> {
    /// Makes the next command for a worker.
    pub fn step(&mut self, hand: &mut Hand<N>) -> Turn
        ensures sees { Sees N.setup N.script hand.old None hand.new
            (λ old new. OnDisk old new (λ a b. StepSays a result.step b)) }
        ensures over { result.over ≡ true → IsOverBy N.script hand.new }
        ensures left { result.over ≡ false → IsLeftBy N.script hand.new }
    {
        hand.renew(&mut self.pen);
        let step = step_logged(&mut self.desk, &mut self.pen);
        hand.renew(&mut self.pen);
        Turn {
            step,
            over: self.desk.over(),
        }
    }

    /// Writes the group of a worker's work.
    pub fn store(&mut self, hand: &mut Hand<N>, work: Work) -> Stored
        ensures { Sees N.setup N.script hand.old None hand.new
            (λ old new. OnDisk old new (λ a b. StoreSays a work result b)) }
    {
        hand.renew(&mut self.pen);
        let stored = store_logged(&mut self.desk, &mut self.pen, work);
        hand.renew(&mut self.pen);
        stored
    }

    /// Writes the group of a ticket from the kept copy.
    pub fn store_held(&mut self, hand: &mut Hand<N>, ticket: u64) -> HeldStored
        ensures { Sees N.setup N.script hand.old None hand.new
            (λ old new. OnDisk old new (λ a b. HeldStoreSays a ticket result b)) }
    {
        hand.renew(&mut self.pen);
        let stored = store_held_logged(&mut self.desk, &mut self.pen, ticket);
        hand.renew(&mut self.pen);
        stored
    }

    /// Takes the next line of a seat's client.
    pub fn line(&mut self, seat: &mut Seat<N>) -> Line
        ensures sees { Sees N.setup N.script seat.old.seen (line_done seat.old.client result) seat.new.seen
            (λ old new. LineSays old (seat.old.client - 1) result new) }
        ensures client { seat.new.client ≡ seat.old.client }
        ensures count { seat.new.count ≡ seat.old.count }
    {
        seat.renew(&mut self.pen);
        let line = line_logged(&mut self.desk, &mut self.pen, seat.client());
        seat.renew(&mut self.pen);
        line
    }

    /// Submits a request of a seat's client beside its lines, and counts its entry.
    pub fn submit(
        &mut self,
        seat: &mut Seat<N>,
        view: &View,
        media_id: u32,
        ask: Ask,
    ) -> Result<Token, Refused>
        requires { (asked_of ask).length ≤ 2 ^ 24 }
        ensures sees { Sees N.setup N.script seat.old.seen None seat.new.seen
            (λ old new. BesideLines old new
            (λ a b. SubmitSays a seat.old.client view.now media_id ask result b)) }
        ensures client { seat.new.client ≡ seat.old.client }
        ensures count { seat.new.count ≡ seat.old.count + submit_count result }
    {
        seat.renew(&mut self.pen);
        let before = self.desk.disk().history().len();
        let answer = submit_logged(
            &mut self.desk,
            &mut self.pen,
            seat.client(),
            view,
            media_id,
            ask,
        );
        let added = self.desk.disk().history().len() - before;
        seat.count_more(&mut self.book, added);
        self.count += added;
        seat.renew(&mut self.pen);
        answer
    }

    /// Collects a token with the tag of a seat's client beside its lines, and counts its entry.
    pub fn collect(&mut self, seat: &mut Seat<N>, number: u64) -> Result<Done, NotThere>
        ensures sees { Sees N.setup N.script seat.old.seen None seat.new.seen
            (λ old new. BesideLines old new
            (λ a b. CollectSays a seat.old.client number result b)) }
        ensures client { seat.new.client ≡ seat.old.client }
        ensures count { seat.new.count ≡ seat.old.count + collect_count result }
    {
        seat.renew(&mut self.pen);
        let before = self.desk.disk().history().len();
        let answer = collect_logged(&mut self.desk, &mut self.pen, seat.client(), number);
        let added = self.desk.disk().history().len() - before;
        seat.count_more(&mut self.book, added);
        self.count += added;
        seat.renew(&mut self.pen);
        answer
    }

    /// Ends the outstanding requests of a view beside the lines, and counts its entry.
    pub fn cancel(&mut self, seat: &mut Seat<N>, view: &View) -> u64
        ensures sees { Sees N.setup N.script seat.old.seen None seat.new.seen
            (λ old new. BesideLines old new
            (λ a b. EndSays a (Entry.Cancel seat.old.client view.now) result b)) }
        ensures client { seat.new.client ≡ seat.old.client }
        ensures count { seat.new.count ≡ seat.old.count + cancel_count result }
    {
        seat.renew(&mut self.pen);
        let before = self.desk.disk().history().len();
        let answer = cancel_logged(&mut self.desk, &mut self.pen, seat.client(), view);
        let added = self.desk.disk().history().len() - before;
        seat.count_more(&mut self.book, added);
        self.count += added;
        seat.renew(&mut self.pen);
        answer
    }

    /// The sum of what was counted through these seats. With the seats of all clients it is the count.
    pub fn sum(&mut self, seats: &mut [Seat<N>]) -> u64
        requires one_each { N.parts ≡ length N.script.roles + 1 }
        ensures same { self.new ≡ self.old }
        ensures seats { seats.new ≡ seats.old }
        ensures sum { result ≡ sum_by (λ s. s.count) seats.old }
        ensures whole { length seats.old ≡ length N.script.roles → result ≡ self.old.count }
    {
        sum_seats(&mut self.book, &mut self.rest, seats, 0)
    }
}
