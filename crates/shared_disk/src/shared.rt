//! A disk that threads share.
ghost use Rattle.std.specs.Prelude.{◌≡◌, ◌+◌, ◌-◌, ◌≤◌, ◌^◌, true, false, None};
ghost use Rattle.history.specs.declared.entry.Entry.{Entry};
ghost use Rattle.history.specs.Rules.{IsLegal};
ghost use Rattle.disk_core.specs.Calls.{asked_of, SubmitSays, StepSays, StoreSays, HeldStoreSays, CollectSays, EndSays};
ghost use Rattle.shared_disk.specs.Log.{logged_entries, IsOld};
ghost use Rattle.shared_disk.specs.Desk.{OnDisk, LineSays};
ghost use Rattle.shared_disk.specs.Seats.{Sees, IsOverBy, IsLeftBy, line_done, BesideLines, submit_count, collect_count, cancel_count};

use crate::answers::{Line, Turn};
use crate::hands::Hand;
use crate::held::Held;
use crate::name::DiskName;
use crate::seats::Seat;
use block_gate::Work;
use disk_core::{Ask, HeldStored, Refused, Stored, Token};
use history::View;
use medium::Medium;
use std::sync::{Mutex, Wait};
use token_table::{Done, NotThere};

/// A disk with its clients, which threads share. Each call takes the lock once (own profile).
#[derive(Drop)]
pub struct SharedDisk<M: Medium, N: DiskName> {
    pub(crate) lock: Mutex<Held<M, N>>,
}

impl<M: Medium, N: DiskName> SharedDisk<M, N> {
    /// Makes the command of the first unit that may run, by token and byte. A fetch lends its work.
    pub fn step_as<R: Wait>(&self, rt: &R, hand: &mut Hand<N>) -> Turn
        ensures sees { Sees N.setup N.script hand.old None hand.new
            (λ old new. OnDisk old new (λ a b. StepSays a result.step b)) }
        ensures older { IsOld hand.old hand.new }
        ensures legal { IsLegal N.setup (logged_entries hand.new) }
        ensures over { result.over ≡ true → IsOverBy N.script hand.new }
        ensures left { result.over ≡ false → IsLeftBy N.script hand.new }
    {
        self.lock.lock(rt).step(hand)
    }

    /// Writes the group of a work: it has to be the kept copy with the request's bytes put in.
    pub fn store_as<R: Wait>(&self, rt: &R, hand: &mut Hand<N>, work: Work) -> Stored
        ensures sees { Sees N.setup N.script hand.old None hand.new
            (λ old new. OnDisk old new (λ a b. StoreSays a work result b)) }
        ensures older { IsOld hand.old hand.new }
        ensures legal { IsLegal N.setup (logged_entries hand.new) }
    {
        self.lock.lock(rt).store(hand, work)
    }

    /// Writes the group of a ticket from the kept copy with the request's bytes put in. The lent work is then stale.
    pub fn store_held_as<R: Wait>(&self, rt: &R, hand: &mut Hand<N>, ticket: u64) -> HeldStored
        ensures sees { Sees N.setup N.script hand.old None hand.new
            (λ old new. OnDisk old new (λ a b. HeldStoreSays a ticket result b)) }
        ensures older { IsOld hand.old hand.new }
        ensures legal { IsLegal N.setup (logged_entries hand.new) }
    {
        self.lock.lock(rt).store_held(hand, ticket)
    }

    /// Takes the next line of the seat's client. Ended exactly where no line is left. At a wait NotYet exactly where a token
    /// of the client is outstanding, else Collected exactly where one is uncollected. Memory only at a request and a change
    /// of protection.
    pub fn line_as<R: Wait>(&self, rt: &R, seat: &mut Seat<N>) -> Line
        ensures sees { Sees N.setup N.script seat.old.seen (line_done seat.old.client result) seat.new.seen
            (λ old new. LineSays old (seat.old.client - 1) result new) }
        ensures older { IsOld seat.old.seen seat.new.seen }
        ensures legal { IsLegal N.setup (logged_entries seat.new.seen) }
        ensures client { seat.new.client ≡ seat.old.client }
        ensures count { seat.new.count ≡ seat.old.count }
    {
        self.lock.lock(rt).line(seat)
    }

    /// Submits a request with the tag of the seat's client, which asks for at most 16 MiB. It is counted, where it is
    /// accepted or refused. Want of memory records nothing.
    pub fn submit_as<R: Wait>(
        &self,
        rt: &R,
        seat: &mut Seat<N>,
        view: &View,
        media_id: u32,
        ask: Ask,
    ) -> Result<Token, Refused>
        requires { (asked_of ask).length ≤ 2 ^ 24 }
        ensures sees { Sees N.setup N.script seat.old.seen None seat.new.seen
            (λ old new. BesideLines old new
            (λ a b. SubmitSays a seat.old.client view.now media_id ask result b)) }
        ensures older { IsOld seat.old.seen seat.new.seen }
        ensures legal { IsLegal N.setup (logged_entries seat.new.seen) }
        ensures client { seat.new.client ≡ seat.old.client }
        ensures count { seat.new.count ≡ seat.old.count + submit_count result }
    {
        self.lock.lock(rt).submit(seat, view, media_id, ask)
    }

    /// Hands an ended request back, once, with the tag of the seat's client. Outstanding exactly where it has not ended;
    /// Unknown exactly where no request has the number or it was handed back. It is counted where it is handed back.
    pub fn collect_as<R: Wait>(
        &self,
        rt: &R,
        seat: &mut Seat<N>,
        number: u64,
    ) -> Result<Done, NotThere>
        ensures sees { Sees N.setup N.script seat.old.seen None seat.new.seen
            (λ old new. BesideLines old new
            (λ a b. CollectSays a seat.old.client number result b)) }
        ensures older { IsOld seat.old.seen seat.new.seen }
        ensures legal { IsLegal N.setup (logged_entries seat.new.seen) }
        ensures client { seat.new.client ≡ seat.old.client }
        ensures count { seat.new.count ≡ seat.old.count + collect_count result }
    {
        self.lock.lock(rt).collect(seat, number)
    }

    /// Ends the outstanding requests of a view with Aborted, and answers their number. Where it is 0 no entry is added;
    /// else it is counted.
    pub fn cancel_as<R: Wait>(&self, rt: &R, seat: &mut Seat<N>, view: &View) -> u64
        ensures sees { Sees N.setup N.script seat.old.seen None seat.new.seen
            (λ old new. BesideLines old new
            (λ a b. EndSays a (Entry.Cancel seat.old.client view.now) result b)) }
        ensures older { IsOld seat.old.seen seat.new.seen }
        ensures legal { IsLegal N.setup (logged_entries seat.new.seen) }
        ensures client { seat.new.client ≡ seat.old.client }
        ensures count { seat.new.count ≡ seat.old.count + cancel_count result }
    {
        self.lock.lock(rt).cancel(seat, view)
    }
}
