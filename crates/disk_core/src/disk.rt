ghost use Rattle.std.specs.Prelude.{◌≡◌, ℕ, ◌+◌, ◌*◌, ◌^◌, ◌<◌, ◌≤◌, [], map, length, IfOk, IfErr};
ghost use Rattle.medium.specs.Device.{Device};
ghost use Rattle.drive.specs.Drives.{FitTheDrive, IsFreshDrive, devices_of};
ghost use Rattle.history.specs.Setup.{IsSetup};
ghost use Rattle.history.specs.Eras.{media_id_of, is_present, is_protected};
ghost use Rattle.history.specs.Room.{AreFewCommands};
ghost use Rattle.history.specs.Rules.{IsLegal};
ghost use Rattle.history.specs.declared.entry.Entry.{Entry};
ghost use Rattle.disk_core.specs.Calls.{asked_of as asked_in, buffer_of as buffer_in};
ghost use Rattle.block_gate.specs.Gates.{least_ticket, outs, idle_gates};

use crate::accepting::accept;
use crate::answers::{Ask, EjectRefused, HeldStored, NotMade, Refused, Step, Stored, Token};
use crate::collecting::collect_from;
use crate::ending::{cancel_view, reset_all};
use crate::making::new_core;
use crate::media::{eject_medium, insert_medium, protect_drive};
use crate::parts::Core;
use crate::refusing::{refusal, refuse};
use crate::stepping::step_first;
use crate::storing::{store_copy, store_work};
use block_gate::Work;
use drive::{Drive, InsertFault};
use history::{Asked, History, Kind, UnitKind, View};
use medium::Medium;
use std::alloc::{AllocError, Global};
use std::marker::Model;
use token_table::{Done, Mark, NotThere};

/// One disk: the media of a drive, and the requests for them (UEFI 2.10, 13.7 to 13.10; steps, works and history: own
/// profile).
#[derive(Drop)]
pub struct Disk<M: Medium> {
    alloc: Global,
    drive: Drive<M>,
    core: Core,
}

impl<M: Medium> Model for Disk<M> {
    ghost use Rattle.disk_core.specs.State.{State, setup_of};
    ghost use Rattle.disk_core.specs.Inside.{IsSound};

    ghost Value = { State };

    ghost use Rattle.disk_core.specs.Parts.{state_of};

    ghost view = { λ d. state_of M.device d.drive d.core };

    ghost invariant = { λ d. IsSound M.device M.prepared (setup_of M.device d.drive d.core.protected_at_first) d.drive d.core };
}

// What is asked of the medium in the words of a history.
fn moving(kind: Kind, unit: UnitKind, at: u64, length: u64) -> Asked
    ensures { result ≡ record { kind = kind; unit = unit; at = at; length = length } }
{
    Asked {
        kind,
        unit,
        at,
        length,
    }
}

// What is asked, and the buffer that came with it.
fn take_apart(alloc: Global, ask: Ask) -> (Asked, Vec<u8>)
    ensures asked { result.0 ≡ asked_in ask }
    ensures buffer { result.1.items ≡ buffer_in ask }
{
    match ask {
        Ask::Read { at, buffer } => {
            let length = buffer.len() as u64;
            (moving(Kind::Read, UnitKind::Bytes, at, length), buffer)
        }
        Ask::Write { at, buffer } => {
            let length = buffer.len() as u64;
            (moving(Kind::Write, UnitKind::Bytes, at, length), buffer)
        }
        Ask::ReadBlocks { lba, buffer } => {
            let length = buffer.len() as u64;
            (moving(Kind::Read, UnitKind::Blocks, lba, length), buffer)
        }
        Ask::WriteBlocks { lba, buffer } => {
            let length = buffer.len() as u64;
            (moving(Kind::Write, UnitKind::Blocks, lba, length), buffer)
        }
        Ask::Flush => (moving(Kind::Flush, UnitKind::Bytes, 0, 0), Vec::new(alloc)),
        Ask::EraseBlocks { lba, length } => {
            (
                moving(Kind::Erase, UnitKind::Blocks, lba, length),
                Vec::new(alloc),
            )
        }
    }
}

impl<M: Medium> Disk<M> {
    ghost use Rattle.disk_core.specs.State.{State, setup_of};
    ghost use Rattle.disk_core.specs.Facts.{AreFacts};
    ghost use Rattle.disk_core.specs.Calls.{asked_of, SubmitSays, StepSays, StoreSays, HeldStoreSays, RefitSays, CollectSays, EndSays, EjectSays, InsertSays, ProtectSays, MarkSays};

    #[tactic(auto, unfolding(crate::specs::Parts::state_of, crate::specs::Parts::kept_of, crate::specs::State::setup_of))]
    /// A disk over a drive to which nothing has happened, with 1 to 64 buffer sets. The error is want of memory, with the
    /// drive.
    pub fn make(alloc: Global, drive: Drive<M>, sets: u32) -> Result<Disk<M>, NotMade<M>>
        requires some { 0 < sets }
        requires few { sets ≤ 64 }
        requires fit { FitTheDrive M.device drive }
        requires fresh { IsFreshDrive M.device drive }
        ensures setup { IfOk result (λ disk. disk.setup ≡ setup_of M.device drive drive.protected) }
        ensures entries { IfOk result (λ disk. disk.entries ≡ []) }
        ensures kept { IfOk result (λ disk. disk.kept ≡ []) }
        ensures gates { IfOk result
            (λ disk. disk.gates ≡ idle_gates sets (drive.size * drive.per)) }
        ensures devices { IfOk result (λ disk. disk.devices ≡ devices_of M.device drive) }
        ensures back { IfErr result (λ back. back.drive ≡ drive) }
    {
        match new_core(alloc, &drive, sets) {
            Ok(core) => Ok(Disk { alloc, drive, core }),
            Err(_) => Err(NotMade { drive }),
        }
    }

    /// Accepts a request, or refuses it with the status that the rules give. It asks for at most 16 MiB. The buffer comes
    /// back with a refusal. Memory that the request can ever need is taken now; for want of it nothing is recorded.
    pub fn submit(
        &mut self,
        tag: u32,
        view: &View,
        media_id: u32,
        ask: Ask,
    ) -> Result<Token, Refused>
        requires { (asked_of ask).length ≤ 2 ^ 24 }
        ensures { SubmitSays self.old tag view.now media_id ask result self.new }
    {
        let (asked, buffer) = take_apart(self.alloc, ask);
        match refusal(&self.drive, &self.core, view, media_id, asked) {
            Some(status) => refuse(
                &self.drive,
                &mut self.core,
                tag,
                view,
                media_id,
                asked,
                status,
                buffer,
            ),
            None => {
                accept(
                    self.alloc,
                    &mut self.drive,
                    &mut self.core,
                    tag,
                    view,
                    asked,
                    buffer,
                )
            }
        }
    }

    /// Makes the command of the first unit that may run, by token and byte. A fetch lends its work.
    pub fn step(&mut self) -> Step
        ensures { StepSays self.old result self.new }
    {
        step_first(&mut self.drive, &mut self.core)
    }

    /// Writes the group of a work: it has to be the kept copy with the request's bytes put in.
    pub fn store(&mut self, work: Work) -> Stored
        ensures { StoreSays self.old work result self.new }
    {
        store_work(&mut self.drive, &mut self.core, work)
    }

    /// Writes the group of a ticket from the kept copy with the request's bytes put in. The lent work is then stale.
    pub fn store_held(&mut self, ticket: u64) -> HeldStored
        ensures { HeldStoreSays self.old ticket result self.new }
    {
        store_copy(&mut self.drive, &mut self.core, ticket)
    }

    /// The least ticket that holds a gate. None exactly where none does.
    #[tactic(auto, unfolding(crate::specs::Parts::state_of, crate::specs::Parts::kept_of))]
    pub fn held(&self) -> Option<u64>
        ensures { result ≡ least_ticket self.now.gates.held }
    {
        self.core.gates.least_held()
    }

    /// How many works are out.
    #[tactic(auto, unfolding(crate::specs::Parts::state_of, crate::specs::Parts::kept_of))]
    pub fn works_out(&self) -> u32
        ensures { result ≡ outs self.now.gates }
    {
        self.core.gates.out()
    }

    /// How many buffer sets are free.
    #[tactic(auto, unfolding(crate::specs::Parts::state_of, crate::specs::Parts::kept_of))]
    pub fn free_sets(&self) -> u32
        ensures { result ≡ self.now.gates.free }
    {
        self.core.gates.free()
    }

    /// Makes new buffers for the sets whose works are out under a revoked ticket, and answers their number. The error is
    /// want of memory, and some of them were then made.
    #[tactic(auto, unfolding(crate::specs::Parts::state_of, crate::specs::Parts::kept_of))]
    pub fn refit(&mut self) -> Result<u32, AllocError>
        ensures { RefitSays self.old result self.new }
    {
        self.core.gates.refit()
    }

    /// Hands an ended request back, once. Outstanding exactly where it has not ended; Unknown exactly where no request
    /// has the number or it was handed back.
    pub fn collect(&mut self, tag: u32, number: u64) -> Result<Done, NotThere>
        ensures { CollectSays self.old tag number result self.new }
    {
        collect_from(&mut self.core, tag, number)
    }

    /// Ends the outstanding requests of a view with Aborted, and answers their number. Where it is 0 no entry is added.
    pub fn cancel(&mut self, tag: u32, view: &View) -> u64
        ensures { EndSays self.old (Entry.Cancel tag view.now) result self.new }
    {
        cancel_view(&self.drive, &mut self.core, tag, view)
    }

    /// Ends all outstanding requests with Aborted, and answers their number. Where it is 0 no entry is added.
    pub fn reset(&mut self, tag: u32) -> u64
        ensures { EndSays self.old (Entry.Reset tag) result self.new }
    {
        reset_all(&self.drive, &mut self.core, tag)
    }

    /// Takes the medium out, which ends all outstanding requests with NoMedia, and answers their number. NoMedia exactly
    /// where none is in.
    pub fn eject(&mut self, tag: u32) -> Result<u64, EjectRefused>
        ensures { EjectSays self.old tag result self.new }
    {
        eject_medium(&mut self.drive, &mut self.core, tag)
    }

    /// Puts the next medium in, and answers its id. Occupied exactly where a medium is in, else NoSpare exactly where no
    /// spare is left.
    pub fn insert(&mut self, tag: u32) -> Result<u32, InsertFault>
        ensures { InsertSays self.old tag result self.new }
    {
        insert_medium(&mut self.drive, &mut self.core, tag)
    }

    /// Sets or lifts the protection. Set, it ends the outstanding writes and erases with WriteProtected; their number is
    /// answered. The error is want of memory, and nothing has then changed.
    pub fn protect(&mut self, tag: u32, on: bool) -> Result<u64, AllocError>
        ensures { ProtectSays self.old tag on result self.new }
    {
        protect_drive(&mut self.drive, &mut self.core, tag, on)
    }

    /// How the request with this number stands.
    pub fn mark(&self, number: u64) -> Mark
        ensures { MarkSays self.now number result }
    {
        self.core.tokens.mark(number)
    }

    /// What has happened on the disk. It is legal, no token has more than four commands beside its runs, and all facts
    /// of the disk hold of it.
    #[tactic(auto, unfolding(crate::specs::Parts::state_of, crate::specs::Parts::kept_of))]
    pub fn history(&self) -> &History
        ensures entries { result.now.entries ≡ self.now.entries }
        ensures setup { IsSetup self.now.setup }
        ensures facts { AreFacts self.now }
        ensures few_commands { AreFewCommands self.now.setup self.now.entries }
    {
        &self.core.history
    }

    /// The drive, which follows the history; the setup is read off it, but for the protection at the beginning.
    #[tactic(auto, unfolding(crate::specs::Parts::state_of, crate::specs::Parts::kept_of, crate::specs::State::setup_of))]
    pub fn drive(&self) -> &Drive<M>
        ensures setup { IsSetup self.now.setup }
        ensures read_off { self.now.setup ≡ setup_of M.device result.now self.now.setup.protected }
        ensures fit { FitTheDrive M.device result.now }
        ensures devices { devices_of M.device result.now ≡ self.now.devices }
        ensures media_id { result.now.media_id ≡ media_id_of self.now.entries }
        ensures present { result.now.present ≡ is_present self.now.entries }
        ensures protected { result.now.protected ≡ is_protected self.now.setup self.now.entries }
        ensures facts { AreFacts self.now }
    {
        &self.drive
    }

    /// The media in order of their ids, which follow the history, and the history, which is legal.
    #[tactic(auto, unfolding(crate::specs::Parts::state_of, crate::specs::Parts::kept_of))]
    pub fn into_media(self) -> (Vec<M>, History)
        ensures media { map M.device result.0.items ≡ self.devices }
        ensures count { length result.0.items ≡ length self.setup.media }
        ensures entries { result.1.entries ≡ self.entries }
        ensures facts { AreFacts self }
        ensures few_commands { AreFewCommands self.setup self.entries }
    {
        let Disk { drive, core, .. } = self;
        let Core { history, .. } = core;
        (drive.into_media(), history)
    }
}
