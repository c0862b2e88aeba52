//! Ejection, insertion and protection.
ghost use Rattle.std.specs.Prelude.{◌≡◌, ℕ, true};
ghost use Rattle.efi_status.specs.declared.Status.TheVariants.{WriteProtected};
ghost use Rattle.disk_core.specs.declared.ending.Meant.TheVariants.{Changes};
ghost use Rattle.disk_core.specs.Calls.{EjectSays, InsertSays, ProtectSays};
ghost use Rattle.disk_core.specs.Closing.{HasToEnd, EndsChanges};
ghost use Rattle.disk_core.specs.Moves.{IsDisk, Reaches};

use crate::answers::EjectRefused;
use crate::ending::{Meant, end_meant};
use crate::entering::{enter, make_room};
use crate::parts::Core;
use drive::{Drive, InsertFault};
use efi_status::Status;
use history::Entry;
use medium::Medium;
use std::alloc::AllocError;

/// Takes the medium out, which ends all outstanding requests with NoMedia, and answers their number.
pub fn eject_medium<M: Medium>(
    drive: &mut Drive<M>,
    core: &mut Core,
    tag: u32,
) -> Result<u64, EjectRefused>
    requires { IsDisk M.device M.prepared drive.old core.old }
    ensures { Reaches M.device M.prepared drive.old core.old drive.new core.new
        (λ s s'. EjectSays s tag result s') }
{
    match drive.eject() {
        Ok(()) => {
            enter(core, Entry::Eject { tag }, 1);
            Ok(end_meant(core, Meant::All, Status::NoMedia, 0))
        }
        Err(_) => Err(EjectRefused::NoMedia),
    }
}

/// Puts the next medium in, and answers its id.
pub fn insert_medium<M: Medium>(
    drive: &mut Drive<M>,
    core: &mut Core,
    tag: u32,
) -> Result<u32, InsertFault>
    requires { IsDisk M.device M.prepared drive.old core.old }
    ensures { Reaches M.device M.prepared drive.old core.old drive.new core.new
        (λ s s'. InsertSays s tag result s') }
{
    match drive.insert() {
        Ok(media_id) => {
            enter(core, Entry::Insert { tag, media_id }, 1);
            Ok(media_id)
        }
        Err(fault) => Err(fault),
    }
}

// Ends the outstanding writes and erases where protection is set.
fn end_changes(core: &mut Core, on: bool) -> u64
    requires { on ≡ true → HasToEnd Changes WriteProtected core.old }
    ensures { EndsChanges on core.old core.new result }
{
    if on {
        end_meant(core, Meant::Changes, Status::WriteProtected, 0)
    } else {
        0
    }
}

/// Sets or lifts the protection. Set, it ends the outstanding writes and erases, and their number is answered.
pub fn protect_drive<M: Medium>(
    drive: &mut Drive<M>,
    core: &mut Core,
    tag: u32,
    on: bool,
) -> Result<u64, AllocError>
    requires { IsDisk M.device M.prepared drive.old core.old }
    ensures { Reaches M.device M.prepared drive.old core.old drive.new core.new
        (λ s s'. ProtectSays s tag on result s') }
{
    match make_room(core, 1) {
        Ok(()) => {
            enter(core, Entry::Protect { tag, on }, 0);
            drive.protect(on);
            Ok(end_changes(core, on))
        }
        Err(failed) => Err(failed),
    }
}
