//! The gets of a read.
ghost use Rattle.std.specs.Prelude.{◌≡◌, ℕ, ◌+◌, ◌-◌, ◌*◌, ◌^◌, ◌<◌, ◌≤◌, length, take, drop, true, false, Some, IsSome, IfSome};
ghost use Rattle.history.specs.Tasks.{Todo};
ghost use Rattle.subtask_queue.specs.declared.sub.Sub.TheVariants.{Part as PartOf, Run as RunOf, Sync as SyncOf};
ghost use Rattle.disk_core.specs.Calls.{StepSays};
ghost use Rattle.medium.specs.Device.{IsTransfer};
ghost use Rattle.drive.specs.Drives.{medium_in};
ghost use Rattle.token_table.specs.declared.record.Mark.{Mark};
ghost use Rattle.token_table.specs.declared.record.Request.{Request as Kept};
ghost use Rattle.token_table.specs.Records.{mark_at, request_at, with_change};
ghost use Rattle.disk_core.specs.Commands.{OfMedium};
ghost use Rattle.disk_core.specs.Moves.{IsDisk, IsFirst, Reaches, HasBytesIn, IsTarget, GetsInto, with_bytes_in};

use crate::answers::Step;
use crate::commands::read_from;
use crate::entering::settle;
use crate::parts::Core;
use crate::pieces::{Range, range_in};
use byte_lists::copy_part;
use disk_split::Geometry;
use drive::Drive;
use history::Command;
use medium::{BlockFailed, Medium};
use subtask_queue::Sub;
use token_table::Tokens;

// The bytes of a read's unit on the medium, and where they go in its buffer.
#[derive(Clone, Copy)]
struct Target {
    range: Range,
    place: usize,
    count: usize,
}

// Where the bytes of a read's unit lie, and where they go.
fn target_of(tokens: &Tokens, token: u64, block: u64, count: u32, blocks: Geometry) -> Target
    requires { (q : Kept) × (request_at tokens.now token ≡ Some q)
        × HasBytesIn q block count blocks.size }
    ensures { IfSome (request_at tokens.now token)
        (λ q. IsTarget q block count blocks.size result) }
{
    let Some(request) = tokens.find(token) else {
        unreachable!()
    };
    let range = range_in(request, block, count, blocks);
    Target {
        range,
        place: (range.low - request.at) as usize,
        count: (range.high - range.low) as usize,
    }
}

// Reads whole blocks straight into the buffer of a read.
fn read_run<M: Medium>(
    drive: &mut Drive<M>,
    core: &mut Core,
    token: u64,
    block: u64,
    target: &Target,
) -> Result<(), BlockFailed>
    requires present { IsSome (medium_in drive.old) }
    requires transfer { OfMedium drive.old (λ m. IsTransfer (M.device m) block target.now.count) }
    requires begins { OfMedium drive.old (λ m. target.now.range.low ≡ block * (M.device m).size) }
    requires outstanding { mark_at core.old.tokens token ≡ Mark.Outstanding }
    requires fits { IfSome (request_at core.old.tokens token)
        (λ q. target.now.place + target.now.count ≤ length q.buffer) }
    ensures { GetsInto M.device M.prepared drive.old drive.new core.old core.new token target.now.range.low target.now.place target.now.count result }
{
    let buffer = core.tokens.buffer_mut(token);
    let place = target.place;
    read_from(drive, block, &mut buffer[place..place + target.count])
}

// Copies the bytes that a read is for out of the group's buffer into its own.
fn copy_out(core: &mut Core, token: u64, skip: usize, target: &Target)
    requires outstanding { mark_at core.old.tokens token ≡ Mark.Outstanding }
    requires inside { skip + target.now.count ≤ length core.old.group.items }
    requires fits { IfSome (request_at core.old.tokens token)
        (λ q. target.now.place + target.now.count ≤ length q.buffer) }
    ensures { core.new
        ≡ record core.old {
          tokens = with_change
              (with_bytes_in target.now.place
              (take target.now.count (drop skip core.old.group.items))) core.old.tokens token;
        } }
{
    let buffer = core.tokens.buffer_mut(token);
    let place = target.place;
    copy_part(&core.group, skip, &mut buffer[place..place + target.count]);
}

// Reads a group and copies the bytes that a read is for into its buffer.
fn read_part<M: Medium>(
    drive: &mut Drive<M>,
    core: &mut Core,
    token: u64,
    block: u64,
    target: &Target,
) -> Result<(), BlockFailed>
    requires present { IsSome (medium_in drive.old) }
    requires transfer { OfMedium drive.old
        (λ m. IsTransfer (M.device m) block (length core.old.group.items)) }
    requires sized { OfMedium drive.old (λ m. core.old.blocks.size ≡ (M.device m).size) }
    requires begins { block * core.old.blocks.size ≤ target.now.range.low }
    requires ends { target.now.range.low + target.now.count ≤ block * core.old.blocks.size + length core.old.group.items }
    requires bounded { block * core.old.blocks.size < 2 ^ 64 }
    requires outstanding { mark_at core.old.tokens token ≡ Mark.Outstanding }
    requires fits { IfSome (request_at core.old.tokens token)
        (λ q. target.now.place + target.now.count ≤ length q.buffer) }
    ensures { GetsInto M.device M.prepared drive.old drive.new core.old core.new token target.now.range.low target.now.place target.now.count result }
{
    let skip = (target.range.low - block * u64::from(core.blocks.size)) as usize;
    match read_from(drive, block, &mut core.group) {
        Ok(()) => {
            copy_out(core, token, skip, target);
            Ok(())
        }
        Err(failed) => Err(failed),
    }
}

/// Gets a run of a read.
pub fn get_run<M: Medium>(
    drive: &mut Drive<M>,
    core: &mut Core,
    unit: &Sub,
    block: u64,
    count: u32,
) -> Step
    requires sound { IsDisk M.device M.prepared drive.old core.old }
    requires next { (todo : Todo) × IsFirst M.device drive.old core.old unit.now todo }
    requires run { (token : ℕ) × (unit.now ≡ RunOf token block count false) }
    ensures { Reaches M.device M.prepared drive.old core.old drive.new core.new
        (λ s s'. StepSays s result s') }
{
    let token = unit.token();
    let command = Command::Get { block, count };
    let target = target_of(&core.tokens, token, block, count, core.blocks);
    let answer = read_run(drive, core, token, block, &target);
    settle(core, unit, command, target.count as u64, answer);
    Step::Did
}

/// Gets the group of a part of a read.
pub fn get_part<M: Medium>(drive: &mut Drive<M>, core: &mut Core, unit: &Sub, block: u64) -> Step
    requires sound { IsDisk M.device M.prepared drive.old core.old }
    requires next { (todo : Todo) × IsFirst M.device drive.old core.old unit.now todo }
    requires part { (token : ℕ) × (low : ℕ) × (count : ℕ)
        × (unit.now ≡ PartOf token block low count false) }
    ensures { Reaches M.device M.prepared drive.old core.old drive.new core.new
        (λ s s'. StepSays s result s') }
{
    let token = unit.token();
    let count = core.blocks.per;
    let command = Command::Get { block, count };
    let target = target_of(&core.tokens, token, block, count, core.blocks);
    let answer = read_part(drive, core, token, block, &target);
    settle(core, unit, command, target.count as u64, answer);
    Step::Did
}
