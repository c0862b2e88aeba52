//! The fetch of a part of a write or an erase, whose group is lent as a work.
ghost use Rattle.std.specs.Prelude.{◌≡◌, ℕ, ◌+◌, ◌-◌, ◌*◌, ◌^◌, ◌<◌, ◌≤◌, [], ◌∷◌, ◌++◌, true, false, None, Some, length, is_some, vec_capacity, IfSome};
ghost use Rattle.block_gate.specs.Gates.{Gate, gate_of, with_gate, with_work_out, AreSound};
ghost use Rattle.history.specs.Tasks.{Todo};
ghost use Rattle.subtask_queue.specs.declared.sub.Sub.TheVariants.{Part as PartOf, Run as RunOf, Sync as SyncOf};
ghost use Rattle.token_table.specs.declared.record.Request.{Request as Kept};
ghost use Rattle.token_table.specs.Records.{request_at};
ghost use Rattle.disk_core.specs.Calls.{StepSays};
ghost use Rattle.disk_core.specs.Moves.{IsDisk, IsFirst, Reaches, MayHold, MayLend, lent_of};

use crate::answers::Step;
use crate::commands::read_from;
use crate::entering::{enter, fail};
use crate::parts::{Core, Holder};
use crate::pieces::{bytes_at, range_in};
use block_gate::Work;
use drive::Drive;
use history::{Command, Entry};
use medium::Medium;

// Holds a group, whose bytes are in the group's buffer, by this ticket.
fn hold(core: &mut Core, token: u64, block: u64, ticket: u64)
    requires { MayHold core.old block ticket }
    ensures gates { core.new.gates ≡ with_gate core.old.gates block ticket core.old.group.items }
    ensures holders { core.new.holders.items
        ≡ core.old.holders.items ++ record { ticket = ticket; token = token } ∷ [] }
    ensures places { vec_capacity core.new.holders ≡ vec_capacity core.old.holders }
    ensures rest { core.new
        ≡ record core.old { gates = core.new.gates; holders = core.new.holders } }
{
    core.gates.hold(block, ticket).copy_from_slice(&core.group);
    core.holders.push_reserved(Holder { ticket, token });
}

// Lends the work of a group that is held by this ticket.
fn lend(core: &mut Core, token: u64, block: u64, ticket: u64) -> Work
    requires { (q : Kept) × MayLend core.old token block ticket q }
    ensures core { core.new ≡ record core.old { gates = with_work_out core.old.gates ticket } }
    ensures sound { AreSound core.new.gates }
    ensures work { (g : Gate) → gate_of core.old.gates.held ticket ≡ Some g
        → IfSome (request_at core.old.tokens token)
        (λ q. result ≡ lent_of q g block core.old.blocks ticket) }
{
    let Some(request) = core.tokens.find(token) else {
        unreachable!()
    };
    let range = range_in(request, block, core.blocks.per, core.blocks);
    let from = (range.low - block * u64::from(core.blocks.size)) as u32;
    let patch = bytes_at(request, &core.zeros, range);
    core.gates.lend(ticket, from, patch)
}

/// Fetches the group of a part of a write or an erase.
pub fn fetch<M: Medium>(drive: &mut Drive<M>, core: &mut Core, token: u64, block: u64) -> Step
    requires sound { IsDisk M.device M.prepared drive.old core.old }
    requires next { (todo : Todo) × (low : ℕ) × (count : ℕ)
        × IsFirst M.device drive.old core.old (PartOf token block low count true) todo }
    ensures { Reaches M.device M.prepared drive.old core.old drive.new core.new
        (λ s s'. StepSays s result s') }
{
    let ticket = core.fetched;
    core.fetched += 1;
    let command = Command::Fetch { block };
    match read_from(drive, block, &mut core.group) {
        Ok(()) => {
            enter(core, Entry::Done { token, command }, 1);
            hold(core, token, block, ticket);
            Step::Lent(lend(core, token, block, ticket))
        }
        Err(failed) => {
            fail(core, token, command, failed.done);
            Step::Did
        }
    }
}
