//! The calls that end requests: cancel and reset, and what ejection and protection end.
ghost use Rattle.std.specs.Prelude.{◌≡◌, ℕ, ◌+◌, ◌<◌, ◌≤◌};
ghost use Rattle.history.specs.declared.entry.Entry.{Entry as EntryOf};
ghost use Rattle.token_table.specs.Records.{request_at};
ghost use Rattle.subtask_queue.specs.Subs.{AreBelow};
ghost use Rattle.disk_core.specs.Calls.{EndSays};
ghost use Rattle.disk_core.specs.Closing.{is_meant_in, is_some_meant, IsNextMeant, AreSorted, HasToEnd, EndsMeant, IsAbort, NoneMeantBefore};
ghost use Rattle.disk_core.specs.Moves.{IsDisk, Reaches};

use crate::entering::{end_token, enter};
use crate::parts::Core;
use drive::Drive;
use efi_status::Status;
use history::{Entry, Kind, View};
use medium::Medium;

/// Which outstanding requests are meant.
#[derive(Clone, Copy)]
pub enum Meant {
    OfView(View),
    Changes,
    All,
}

// Whether a request with this view and kind is meant.
fn is_meant_of(meant: Meant, view: View, kind: Kind) -> bool
    ensures { result ≡ is_meant_in meant view kind }
{
    match meant {
        Meant::OfView(other) => view == other,
        Meant::Changes => match kind {
            Kind::Write | Kind::Erase => true,
            Kind::Read | Kind::Flush => false,
        },
        Meant::All => true,
    }
}

// Whether a request that was not handed back is meant.
fn is_meant(core: &Core, meant: Meant, token: u64) -> bool
    ensures { result ≡ is_some_meant meant (request_at core.now.tokens token) }
{
    let Some(request) = core.tokens.find(token) else {
        return false;
    };
    is_meant_of(meant, request.view, request.asked.kind)
}

// The least request from this token on that has a unit in the queue and is meant.
fn next_meant(core: &Core, meant: Meant, from: u64) -> Option<u64>
    requires sorted { AreSorted core.now.queue }
    requires below { AreBelow core.now.accepted core.now.queue }
    ensures { IsNextMeant core.now meant from result }
{
    let mut at = from;
    for _step in 0..core.accepted {
        let Some(token) = core.queue.token_from(at) else {
            return None;
        };
        if is_meant(core, meant, token) {
            return Some(token);
        }
        at = token + 1;
    }
    None
}

/// Ends all outstanding requests that are meant with this status, and answers their number. None before `first` is meant.
pub fn end_meant(core: &mut Core, meant: Meant, status: Status, first: u64) -> u64
    requires to_end { HasToEnd meant status core.old }
    requires first { NoneMeantBefore core.old meant first }
    requires within { first ≤ core.old.accepted }
    ensures { EndsMeant meant status core.old core.new result }
{
    let mut count = 0;
    let mut from = first;
    for _step in 0..core.accepted {
        let Some(token) = next_meant(core, meant, from) else {
            return count;
        };
        end_token(core, token, status);
        from = token + 1;
        count += 1;
    }
    count
}

// Enters a cancel or a reset and ends the requests that are meant, where there are any.
fn abort<M: Medium>(_drive: &Drive<M>, core: &mut Core, meant: Meant, entry: Entry) -> u64
    requires sound { IsDisk M.device M.prepared _drive.now core.old }
    requires abort { IsAbort meant entry }
    ensures { Reaches M.device M.prepared _drive.now core.old _drive.now core.new
        (λ s s'. EndSays s entry result s') }
{
    let Some(first) = next_meant(core, meant, 0) else {
        return 0;
    };
    enter(core, entry, 0);
    end_meant(core, meant, Status::Aborted, first)
}

/// Ends the outstanding requests of a view with Aborted, and answers their number. Where there is none it adds no entry.
pub fn cancel_view<M: Medium>(drive: &Drive<M>, core: &mut Core, tag: u32, view: &View) -> u64
    requires { IsDisk M.device M.prepared drive.now core.old }
    ensures { Reaches M.device M.prepared drive.now core.old drive.now core.new
        (λ s s'. EndSays s (EntryOf.Cancel tag view.now) result s') }
{
    let entry = Entry::Cancel { tag, view: *view };
    abort(drive, core, Meant::OfView(*view), entry)
}

/// Ends all outstanding requests with Aborted, and answers their number. Where there is none it adds no entry.
pub fn reset_all<M: Medium>(drive: &Drive<M>, core: &mut Core, tag: u32) -> u64
    requires { IsDisk M.device M.prepared drive.now core.old }
    ensures { Reaches M.device M.prepared drive.now core.old drive.now core.new
        (λ s s'. EndSays s (EntryOf.Reset tag) result s') }
{
    abort(drive, core, Meant::All, Entry::Reset { tag })
}
