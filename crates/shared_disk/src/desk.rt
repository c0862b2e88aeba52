ghost use Rattle.std.specs.Prelude.{◌≡◌, ℕ, ◌+◌, ◌-◌, ◌<◌, ◌≤◌, ◌^◌, true, false, length, sum_by, IfOk, IfErr, option_copied, is_some, Some, IfSome};
ghost use Rattle.block_gate.specs.Gates.{least_ticket};
ghost use Rattle.disk_core.specs.Calls.{asked_of, SubmitSays, StepSays, StoreSays, HeldStoreSays, RefitSays, CollectSays, EndSays};
ghost use Rattle.history.specs.declared.entry.Entry.{Entry};
ghost use Rattle.disk_core.specs.Facts.{AreFacts};
ghost use Rattle.history.specs.Marks.{mark_of};
ghost use Rattle.history.specs.Setup.{IsSetup};
ghost use Rattle.shared_disk.specs.Lines.{roles_of};
ghost use Rattle.shared_disk.specs.Script.{IsOpening};
ghost use Rattle.shared_disk.specs.Desk.{AreDeskClients, desk_over};
ghost use Rattle.shared_disk.specs.Seats.{BesideLines};

use crate::answers::{DeskRefused, Line};
use crate::aside::{cancel_aside, collect_aside, submit_aside};
use crate::books::{Books, Slot};
use crate::clients::Client;
use crate::collecting::collect_least;
use crate::making::new_books;
use crate::taking::take_line;
use block_gate::Work;
use disk_core::{Ask, Disk, HeldStored, Refused, Step, Stored, Token};
use efi_status::Status;
use history::View;
use medium::Medium;
use std::alloc::{AllocError, Global};
use std::marker::Model;
use token_table::{Done, NotThere};

/// A disk and its clients, who take their lines in order; and the buffers of the requests that they collected (own
/// profile).
#[derive(Drop)]
pub struct Desk<M: Medium> {
    alloc: Global,
    disk: Disk<M>,
    books: Books,
}

impl<M: Medium> Model for Desk<M> {
    ghost use Rattle.shared_disk.specs.Desk.{DeskState};
    ghost use Rattle.shared_disk.specs.Inside.{desk_state, AreBooksOf};

    ghost Value = { DeskState };

    ghost view = { λ d. desk_state d.disk d.books };

    ghost invariant = { λ d. AreBooksOf d.disk d.books };
}

impl<M: Medium> Desk<M> {
    ghost use Rattle.shared_disk.specs.Slots.{AreSlots, buffers_of};
    ghost use Rattle.shared_disk.specs.Desk.{DeskState, HasNoLine, HasLine, given_at, Keeps, OnDisk, LineSays, LastSays, AreGivenBack};

    /// A desk over a disk, for at most 64 clients with at most 2^32 lines together, none of which is done. No entry of
    /// the disk has the tag of a client, and each of its tokens was collected. The error is want of memory.
    pub fn make(
        alloc: Global,
        disk: Disk<M>,
        clients: Vec<Client>,
    ) -> Result<Desk<M>, DeskRefused<M>>
        requires clients { AreDeskClients clients.items }
        requires opening { IsOpening disk.entries }
        ensures desk { IfOk result (λ desk. desk ≡ desk_over disk (roles_of clients.items)) }
        ensures keeps { IfOk result Keeps }
        ensures disk { IfErr result (λ back. back.disk ≡ disk) }
        ensures clients { IfErr result (λ back. back.clients ≡ clients) }
    {
        match new_books(alloc, &disk, clients) {
            Ok(books) => Ok(Desk { alloc, disk, books }),
            Err(clients) => Err(DeskRefused { disk, clients }),
        }
    }

    /// Takes the next line of a client, from 1. Ended exactly where no line is left. At a wait NotYet exactly where a
    /// token of the client is outstanding, else Collected exactly where one is uncollected. Memory only at a request and
    /// a change of protection.
    pub fn line(&mut self, client: u32) -> Line
        requires some { 1 ≤ client }
        requires there { client ≤ length self.old.script.roles }
        ensures says { LineSays self.old (client - 1) result self.new }
        ensures keeps { Keeps self.old → Keeps self.new }
    {
        take_line(self.alloc, &mut self.disk, &mut self.books, client)
    }

    /// Makes the command of the first unit that may run, by token and byte. A fetch lends its work.
    pub fn step(&mut self) -> Step
        ensures says { OnDisk self.old self.new (λ old new. StepSays old result new) }
        ensures keeps { Keeps self.old → Keeps self.new }
    {
        self.disk.step()
    }

    /// Writes the group of a work: it has to be the kept copy with the request's bytes put in.
    pub fn store(&mut self, work: Work) -> Stored
        ensures says { OnDisk self.old self.new (λ old new. StoreSays old work result new) }
        ensures keeps { Keeps self.old → Keeps self.new }
    {
        self.disk.store(work)
    }

    /// Writes the group of a ticket from the kept copy with the request's bytes put in. The lent work is then stale.
    pub fn store_held(&mut self, ticket: u64) -> HeldStored
        ensures says { OnDisk self.old self.new (λ old new. HeldStoreSays old ticket result new) }
        ensures keeps { Keeps self.old → Keeps self.new }
    {
        self.disk.store_held(ticket)
    }

    /// The least ticket that holds a gate. None exactly where none does.
    pub fn held(&self) -> Option<u64>
        ensures { result ≡ least_ticket self.now.disk.gates.held }
    {
        self.disk.held()
    }

    /// Makes new buffers for the sets whose works are out under a revoked ticket, and answers their number. The error is
    /// want of memory, and some of them were then made.
    pub fn refit(&mut self) -> Result<u32, AllocError>
        ensures says { OnDisk self.old self.new (λ old new. RefitSays old result new) }
        ensures keeps { Keeps self.old → Keeps self.new }
    {
        self.disk.refit()
    }

    /// Submits a request of a client, from 1, beside its lines.
    pub(crate) fn submit(
        &mut self,
        client: u32,
        view: &View,
        media_id: u32,
        ask: Ask,
    ) -> Result<Token, Refused>
        requires some { 1 ≤ client }
        requires there { client ≤ length self.old.script.roles }
        requires most { (asked_of ask).length ≤ 2 ^ 24 }
        ensures { BesideLines self.old self.new
            (λ old new. SubmitSays old client view.now media_id ask result new) }
    {
        submit_aside(
            self.alloc,
            &mut self.disk,
            &mut self.books,
            client,
            view,
            media_id,
            ask,
        )
    }

    /// Collects a token beside the lines, for a caller who gets its buffer.
    pub(crate) fn collect(&mut self, tag: u32, number: u64) -> Result<Done, NotThere>
        ensures { BesideLines self.old self.new (λ old new. CollectSays old tag number result new) }
    {
        collect_aside(&mut self.disk, &mut self.books, tag, number)
    }

    /// Ends the outstanding requests of a view beside the lines, and answers their number.
    pub(crate) fn cancel(&mut self, tag: u32, view: &View) -> u64
        ensures { BesideLines self.old self.new
            (λ old new. EndSays old (Entry.Cancel tag view.now) result new) }
    {
        cancel_aside(&mut self.disk, &self.books, tag, view)
    }

    /// Collects the least uncollected token with the tag of its client, and answers its number. None exactly where a
    /// client has a line left, a token is outstanding, or every token was collected.
    pub fn collect_last(&mut self) -> Option<u64>
        ensures says { LastSays self.old result self.new }
        ensures keeps { Keeps self.old → Keeps self.new }
    {
        collect_least(&mut self.disk, &mut self.books)
    }

    /// The number of its clients.
    pub fn clients(&self) -> u32
        ensures { result ≡ length self.now.script.roles }
    {
        self.books.clients.len() as u32
    }

    /// How many lines all clients have done.
    pub fn done_lines(&self) -> u64
        ensures lines { result ≡ sum_by length self.now.places }
        ensures few { result ≤ 2 ^ 32 }
    {
        self.books.done_lines()
    }

    /// Its places are few, and there is a list of them for each client. It does nothing else than to carry these facts.
    pub(crate) fn place_bounds(&self)
        ensures few { sum_by length self.now.places ≤ 2 ^ 32 }
        ensures paired { length self.now.places ≡ length self.now.script.roles }
    {
        let _opened = self.books.opened;
    }

    /// Whether no client has a line left.
    pub fn over(&self) -> bool
        ensures over { result ≡ true → HasNoLine self.now }
        ensures left { result ≡ false → HasLine self.now }
    {
        self.books.is_over()
    }

    /// The buffer of a token. None exactly where the desk has collected no such token.
    pub fn given(&self, token: u64) -> Option<&[u8]>
        ensures buffer { option_copied result ≡ given_at self.now.given token }
        ensures back { AreGivenBack self.now }
    {
        self.books.given(token)
    }

    /// How a token ended that the desk has collected. None exactly where it has not.
    pub fn ended(&self, token: u64) -> Option<Status>
        ensures status { IfSome result
            (λ status. mark_of self.now.disk.setup self.now.disk.entries token ≡ Some status) }
        ensures there { is_some result ≡ is_some (given_at self.now.given token) }
    {
        self.books.ended(token)
    }

    /// The disk.
    pub fn disk(&self) -> &Disk<M>
        ensures { result.now ≡ self.now.disk }
    {
        &self.disk
    }

    /// The disk, and what is kept of each token: the buffers of those that the desk has collected. It takes no memory.
    pub fn into_parts(self) -> (Disk<M>, Vec<Slot>)
        ensures disk { result.0 ≡ self.disk }
        ensures slots { AreSlots self.disk.setup self.disk.entries result.1.items }
        ensures buffers { buffers_of result.1.items ≡ self.given }
    {
        let Desk { disk, books, .. } = self;
        let Books { slots, .. } = books;
        (disk, slots)
    }

    /// The disk, whose buffers that were collected are gone.
    pub fn into_disk(self) -> Disk<M>
        ensures { result ≡ self.disk }
    {
        let Desk { disk, .. } = self;
        disk
    }
}
