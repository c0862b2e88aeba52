//! A step: the command of the first unit that may run.
ghost use Rattle.std.specs.Prelude.{◌≡◌, ℕ, ◌+◌, ◌*◌, ◌<◌, ◌≤◌, true, false};
ghost use Rattle.history.specs.Tasks.{Todo};
ghost use Rattle.subtask_queue.specs.declared.sub.Sub.TheVariants.{Part as PartOf, Run as RunOf, Sync as SyncOf};
ghost use Rattle.disk_core.specs.Calls.{StepSays};
ghost use Rattle.disk_core.specs.Moves.{rest_of, IsDisk, IsFirst, Reaches};

use crate::answers::Step;
use crate::commands::sync_in;
use crate::covering::cover;
use crate::entering::settle;
use crate::fetching::fetch;
use crate::parts::Core;
use crate::reading::{get_part, get_run};
use drive::Drive;
use history::Command;
use medium::Medium;
use subtask_queue::Sub;

// Makes the sync of a flush.
fn sync<M: Medium>(drive: &mut Drive<M>, core: &mut Core, unit: &Sub) -> Step
    requires sound { IsDisk M.device M.prepared drive.old core.old }
    requires next { (todo : Todo) × IsFirst M.device drive.old core.old unit.now todo }
    requires sync { (token : ℕ) × (unit.now ≡ SyncOf token) }
    ensures { Reaches M.device M.prepared drive.old core.old drive.new core.new
        (λ s s'. StepSays s result s') }
{
    let answer = sync_in(drive);
    settle(core, unit, Command::Sync, 1, answer);
    Step::Did
}

// Makes the command of a unit that may run.
fn step_unit<M: Medium>(drive: &mut Drive<M>, core: &mut Core, unit: &Sub) -> Step
    requires sound { IsDisk M.device M.prepared drive.old core.old }
    requires next { (todo : Todo) × IsFirst M.device drive.old core.old unit.now todo }
    ensures { Reaches M.device M.prepared drive.old core.old drive.new core.new
        (λ s s'. StepSays s result s') }
{
    match unit {
        Sub::Part {
            token,
            block,
            write,
            ..
        } => {
            if *write {
                fetch(drive, core, *token, *block)
            } else {
                get_part(drive, core, unit, *block)
            }
        }
        Sub::Run {
            block,
            count,
            write,
            ..
        } => {
            if *write {
                cover(drive, core, unit, *block, *count)
            } else {
                get_run(drive, core, unit, *block, *count)
            }
        }
        Sub::Sync { .. } => sync(drive, core, unit),
    }
}

// What a step answers where no unit may run.
fn rest(core: &Core) -> Step
    ensures { result ≡ rest_of core.now.queue }
{
    match core.queue.token_from(0) {
        Some(_) => Step::Idle,
        None => Step::Drained,
    }
}

/// Makes the command of the first unit that may run.
pub fn step_first<M: Medium>(drive: &mut Drive<M>, core: &mut Core) -> Step
    requires { IsDisk M.device M.prepared drive.old core.old }
    ensures { Reaches M.device M.prepared drive.old core.old drive.new core.new
        (λ s s'. StepSays s result s') }
{
    match core.queue.next_runnable(&core.gates) {
        Some(unit) => step_unit(drive, core, &unit),
        None => rest(core),
    }
}
