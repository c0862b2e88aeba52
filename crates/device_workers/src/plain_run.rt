ghost use Rattle.std.specs.Prelude.{◌≡◌, ◌≤◌, ◌-◌, length, None, IfOk, OnOk, OnErr};
ghost use Rattle.history.specs.Next.{first_open};
ghost use Rattle.disk_core.specs.Turns.{IsIdle};
ghost use Rattle.shared_disk.specs.Script.{RunsWholeScript};
ghost use Rattle.shared_disk.specs.Desk.{HasNoLine, Keeps};
ghost use Rattle.device_workers.specs.Serving.{IsAtOpening, KeepsScriptAndGates, WantsMemory, TakesLine, TakesLines, StepsOnce, RunsRound, RunsRounds, CollectsRest, IsPlain, IsFaultlessPlain, IsPlainFront, Untaken, StopsIn, StopsAfter};

use disk_core::{Step, Stored};
use medium::Medium;
use shared_disk::{Desk, Line};
use std::alloc::AllocError;

// Takes the next line of a client, from 1: a wait for which none of its requests is outstanding is done with all its
// collects. The error is want of memory, and the line is then still to be done.
fn take_line<M: Medium>(desk: &mut Desk<M>, client: u32) -> Result<(), AllocError>
    requires some { 1 ≤ client }
    requires there { client ≤ length desk.old.script.roles }
    requires keeps { Keeps desk.old }
    requires idle { IsIdle desk.old.disk.gates }
    ensures stays { KeepsScriptAndGates desk.old desk.new }
    ensures keeps { Keeps desk.new }
    ensures takes { OnOk result (TakesLine desk.old (client - 1) desk.new) }
    ensures memory { OnErr result (WantsMemory desk.new) }
    ensures untaken { OnErr result (Untaken desk.old desk.new) }
{
    loop {
        match desk.line(client) {
            Line::Collected(_) => {}
            Line::Did(_) => return Ok(()),
            Line::NotYet => return Ok(()),
            Line::Ended => return Ok(()),
            Line::Memory => return Err(AllocError),
        }
    }
}

// Takes the next line of each client that has one left, in order of number. The error is want of memory.
pub(crate) fn take_lines<M: Medium>(desk: &mut Desk<M>) -> Result<(), AllocError>
    requires keeps { Keeps desk.old }
    requires idle { IsIdle desk.old.disk.gates }
    ensures stays { KeepsScriptAndGates desk.old desk.new }
    ensures keeps { Keeps desk.new }
    ensures takes { OnOk result (TakesLines desk.old (length desk.old.script.roles) desk.new) }
    ensures memory { OnErr result (WantsMemory desk.new) }
    ensures stops { OnErr result (StopsIn desk.old desk.new) }
{
    for i in 0..desk.clients() {
        take_line(desk, i + 1)?;
    }
    Ok(())
}

// One step of the schedule: a command, and a fetched block is stored at once. False exactly where no request is outstanding.
fn step_once<M: Medium>(desk: &mut Desk<M>) -> bool
    requires keeps { Keeps desk.old }
    requires idle { IsIdle desk.old.disk.gates }
    ensures steps { StepsOnce desk.old result desk.new }
    ensures keeps { Keeps desk.new }
{
    // Its facts say that a step is the next turn.
    desk.disk().history();
    match desk.step() {
        Step::Did => true,
        Step::Drained => false,
        Step::Idle => unreachable!(),
        Step::Lent(mut work) => {
            work.merge();
            match desk.store(work) {
                Stored::Did => true,
                Stored::Stale => unreachable!(),
                Stored::Foreign(work) => {
                    work.discard();
                    unreachable!()
                }
                Stored::Strange(work, _, _, _) => {
                    work.discard();
                    unreachable!()
                }
            }
        }
    }
}

// A round: each client takes its next line, and a step follows. False exactly where no request is outstanding after the
// lines. The error is want of memory.
fn run_round<M: Medium>(desk: &mut Desk<M>) -> Result<bool, AllocError>
    requires keeps { Keeps desk.old }
    requires idle { IsIdle desk.old.disk.gates }
    ensures stays { KeepsScriptAndGates desk.old desk.new }
    ensures keeps { Keeps desk.new }
    ensures round { IfOk result (λ some. RunsRound desk.old some desk.new) }
    ensures memory { OnErr result (WantsMemory desk.new) }
    ensures stops { OnErr result (StopsIn desk.old desk.new) }
{
    take_lines(desk)?;
    Ok(step_once(desk))
}

// Rounds until no client has a line left and no request is outstanding. The error is want of memory.
fn run_rounds<M: Medium>(desk: &mut Desk<M>) -> Result<(), AllocError>
    requires keeps { Keeps desk.old }
    requires idle { IsIdle desk.old.disk.gates }
    ensures stays { KeepsScriptAndGates desk.old desk.new }
    ensures keeps { Keeps desk.new }
    ensures rounds { OnOk result (RunsRounds desk.old desk.new) }
    ensures memory { OnErr result (WantsMemory desk.new) }
    ensures stops { OnErr result (StopsAfter desk.old desk.new) }
{
    // Its facts say that each command lowers what is still owed.
    desk.disk().history();
    loop {
        if !run_round(desk)? && desk.over() {
            return Ok(());
        }
    }
}

// Collects what is left, in order of number.
fn collect_rest<M: Medium>(desk: &mut Desk<M>)
    requires keeps { Keeps desk.old }
    requires over { HasNoLine desk.old }
    requires drained { first_open desk.old.disk.setup desk.old.disk.entries ≡ None }
    ensures stays { KeepsScriptAndGates desk.old desk.new }
    ensures keeps { Keeps desk.new }
    ensures collects { CollectsRest desk.old desk.new }
{
    while let Some(_) = desk.collect_last() {}
}

/// Serves all lines of a desk by the plain schedule (own profile), where no work is out and no gate is held. In each round
/// every client with a line left takes its next one, in order of number, and one step follows, with its store at once; a
/// wait asks for the requests of its own client. At the end what is left is collected in order of number. The error is want
/// of memory at a client's next line, which is then still to be done; the desk keeps its script, and may be served again.
pub fn plain<M: Medium>(desk: &mut Desk<M>) -> Result<(), AllocError>
    requires keeps { Keeps desk.old }
    requires idle { IsIdle desk.old.disk.gates }
    ensures stays { KeepsScriptAndGates desk.old desk.new }
    ensures keeps { Keeps desk.new }
    ensures whole { OnOk result (RunsWholeScript desk.old.disk.setup desk.old.script desk.new.disk.entries) }
    ensures plain { OnOk result (IsAtOpening desk.old → IsPlain desk.old.disk.setup desk.old.script desk.new.disk.entries) }
    ensures faultless { OnOk result (IsAtOpening desk.old → IsFaultlessPlain desk.old.disk.setup desk.old.script desk.new.disk.entries) }
    ensures memory { OnErr result (WantsMemory desk.new) }
    ensures front { OnErr result (IsAtOpening desk.old → IsPlainFront desk.old.disk.setup desk.old.script desk.new.disk.entries) }
{
    // Its facts say that no token of the opening history is outstanding.
    desk.disk().history();
    run_rounds(desk)?;
    collect_rest(desk);
    Ok(())
}
