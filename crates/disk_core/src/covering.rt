//! The puts of a write and the wipes of an erase, which write whole blocks.
ghost use Rattle.std.specs.Prelude.{◌≡◌, ℕ, ◌+◌, ◌*◌, ◌<◌, ◌≤◌, true, false, IsSome, IfSome};
ghost use Rattle.medium.specs.Device.{IsWrite};
ghost use Rattle.history.specs.Tasks.{Todo};
ghost use Rattle.subtask_queue.specs.declared.sub.Sub.TheVariants.{Part as PartOf, Run as RunOf, Sync as SyncOf};
ghost use Rattle.token_table.specs.declared.record.Request.{Request as Kept};
ghost use Rattle.token_table.specs.Records.{request_at};
ghost use Rattle.disk_core.specs.Calls.{StepSays};
ghost use Rattle.disk_core.specs.Commands.{OnMedium};
ghost use Rattle.disk_core.specs.Moves.{IsDisk, IsFirst, Reaches, MayPut, blocks_bytes, cover_by};

use crate::answers::Step;
use crate::commands::write_to;
use crate::entering::settle;
use crate::parts::Core;
use crate::pieces::{bytes_at, range_in};
use drive::Drive;
use history::{Command, Kind};
use medium::{BlockFailed, Medium};
use subtask_queue::Sub;

// Writes the bytes of a write or an erase in these blocks.
fn write_run<M: Medium>(
    drive: &mut Drive<M>,
    core: &Core,
    token: u64,
    block: u64,
    count: u32,
) -> Result<(), BlockFailed>
    requires { (q : Kept) × MayPut M.device M.prepared drive.old core.now token block count q }
    ensures { IfSome (request_at core.now.tokens token)
        (λ q. OnMedium M.device M.prepared drive.old drive.new
        (λ d d'. IsWrite d block (blocks_bytes q block count core.now.blocks.size) result d')) }
{
    let Some(request) = core.tokens.find(token) else {
        unreachable!()
    };
    let range = range_in(request, block, count, core.blocks);
    let bytes = bytes_at(request, &core.zeros, range);
    write_to(drive, block, bytes)
}

// The command that writes whole blocks for a token.
fn command_for(core: &Core, token: u64, block: u64, count: u32) -> Command
    requires { IsSome (request_at core.now.tokens token) }
    ensures { IfSome (request_at core.now.tokens token)
        (λ q. result ≡ cover_by q.asked.kind block count) }
{
    let Some(request) = core.tokens.find(token) else {
        unreachable!()
    };
    match request.asked.kind {
        Kind::Read => Command::Put { block, count },
        Kind::Write => Command::Put { block, count },
        Kind::Flush => Command::Put { block, count },
        Kind::Erase => Command::Wipe { block, count },
    }
}

/// Writes a run of a write or an erase.
pub fn cover<M: Medium>(
    drive: &mut Drive<M>,
    core: &mut Core,
    unit: &Sub,
    block: u64,
    count: u32,
) -> Step
    requires sound { IsDisk M.device M.prepared drive.old core.old }
    requires next { (todo : Todo) × IsFirst M.device drive.old core.old unit.now todo }
    requires run { (token : ℕ) × (unit.now ≡ RunOf token block count true) }
    ensures { Reaches M.device M.prepared drive.old core.old drive.new core.new
        (λ s s'. StepSays s result s') }
{
    let token = unit.token();
    let command = command_for(core, token, block, count);
    let bytes = u64::from(count) * u64::from(core.blocks.size);
    let answer = write_run(drive, core, token, block, count);
    settle(core, unit, command, bytes, answer);
    Step::Did
}
