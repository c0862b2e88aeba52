ghost use Rattle.std.specs.Prelude.{◌≡◌, ◌⊎◌, [], OnOk, OnErr};
ghost use Rattle.disk_core.specs.Turns.{IsIdle};
ghost use Rattle.shared_disk.specs.Script.{RunsWholeScript};
ghost use Rattle.shared_disk.specs.Desk.{Keeps};
ghost use Rattle.device_workers.specs.Serving.{WantsMemory};
ghost use Rattle.device_workers.specs.Finishing.{KeepsScriptAndSetup, HasLateWorks};

use crate::plain_run::plain;
use medium::Medium;
use shared_disk::Desk;
use std::alloc::AllocError;

// Writes each group that is held, from its kept copy with the request's bytes put in. A work of it that is out is late then.
fn store_all<M: Medium>(desk: &mut Desk<M>)
    requires keeps { Keeps desk.old }
    ensures stays { KeepsScriptAndSetup desk.old desk.new }
    ensures keeps { Keeps desk.new }
    ensures none { desk.new.disk.gates.held ≡ [] }
{
    // Its facts say that each command lowers what is still owed.
    desk.disk().history();
    while let Some(ticket) = desk.held() {
        desk.store_held(ticket);
    }
}

// Makes the buffers of works that are still out anew, where no group is held.
fn make_buffers_anew<M: Medium>(desk: &mut Desk<M>) -> Result<(), AllocError>
    requires keeps { Keeps desk.old }
    requires none { desk.old.disk.gates.held ≡ [] }
    ensures stays { KeepsScriptAndSetup desk.old desk.new }
    ensures keeps { Keeps desk.new }
    ensures idle { OnOk result (IsIdle desk.new.disk.gates) }
    ensures memory { OnErr result (HasLateWorks desk.new) }
{
    match desk.refit() {
        Ok(_) => Ok(()),
        Err(error) => Err(error),
    }
}

/// Finishes what threads have left of a desk (own profile): each group that is held is stored, the buffers of works that are
/// still out are made anew, and the rest is served by the plain schedule until every line is done, and every request has
/// ended and was collected. The error is want of memory, for such a buffer or at a client's next line; the desk keeps its
/// script in either case, and may be finished again.
pub fn finish<M: Medium>(desk: &mut Desk<M>) -> Result<(), AllocError>
    requires keeps { Keeps desk.old }
    ensures stays { KeepsScriptAndSetup desk.old desk.new }
    ensures keeps { Keeps desk.new }
    ensures whole { OnOk result (RunsWholeScript desk.old.disk.setup desk.old.script desk.new.disk.entries) }
    ensures idle { OnOk result (IsIdle desk.new.disk.gates) }
    ensures memory { OnErr result (WantsMemory desk.new ⊎ HasLateWorks desk.new) }
{
    store_all(desk);
    make_buffers_anew(desk)?;
    plain(desk)
}
