//! Which requests are refused (UEFI 2.10, 13.7 and 13.9; the order: own profile).
ghost use Rattle.std.specs.Prelude.{◌≡◌, ℕ, ◌+◌, ◌*◌, ◌-◌, ◌^◌, ◌<◌, ◌≤◌, ◌||◌, nat_lt, List, Some, IfSome, IfNone};
ghost use Rattle.history.specs.Rules.{is_ragged, refusal_of, IsWellAsked};
ghost use Rattle.history.specs.Tokens.{in_bytes, changes_bytes};
ghost use Rattle.drive.specs.Drives.{FitTheDrive, medium_with};
ghost use Rattle.disk_core.specs.State.{setup_of};
ghost use Rattle.disk_core.specs.Calls.{SubmitsAsked};
ghost use Rattle.disk_core.specs.Moves.{range_refusal_by, IsDisk, Reaches};

use crate::answers::{Refused, Token, Why};
use crate::entering::{enter, make_room};
use crate::parts::Core;
use drive::Drive;
use efi_status::Status;
use history::{Asked, Entry, Kind, UnitKind, View};
use medium::Medium;

// Where a request begins in its view, in bytes. None exactly where that does not fit a u64.
fn offset_of(size: u64, asked: Asked) -> Option<u64>
    requires { 0 < size }
    ensures some { IfSome result (λ offset. offset ≡ in_bytes size asked.unit asked.at) }
    ensures none { IfNone result (2 ^ 64 ≤ in_bytes size asked.unit asked.at) }
{
    match asked.unit {
        UnitKind::Bytes => Some(asked.at),
        UnitKind::Blocks => asked.at.checked_mul(size),
    }
}

// Whether the range leaves a view of so many bytes. Nothing wraps.
fn is_past(length: u64, size: u64, asked: Asked) -> bool
    requires { 0 < size }
    ensures { result ≡ (nat_lt length (in_bytes size asked.unit asked.at) || nat_lt (length - in_bytes size asked.unit asked.at) asked.length) }
{
    match offset_of(size, asked) {
        Some(offset) => offset > length || asked.length > length - offset,
        None => true,
    }
}

// Whether the view leaves a medium of so many bytes, or the range leaves the view. Nothing wraps.
fn is_outside(total: u64, size: u64, view: &View, asked: Asked) -> bool
    requires { 0 < size }
    ensures { result ≡ (nat_lt total (view.now.start + view.now.length) || (nat_lt view.now.length (in_bytes size asked.unit asked.at) || nat_lt (view.now.length - in_bytes size asked.unit asked.at) asked.length)) }
{
    view.length > total || view.start > total - view.length || is_past(view.length, size, asked)
}

// Whether the unit is blocks and the length is no whole number of them.
fn is_ragged(size: u64, asked: Asked) -> bool
    requires { 0 < size }
    ensures { result ≡ is_ragged size asked.unit asked.length }
{
    match asked.unit {
        UnitKind::Bytes => false,
        UnitKind::Blocks => asked.length % size != 0,
    }
}

/// Whether a request of this kind changes bytes of the medium.
pub fn is_change(kind: Kind) -> bool
    ensures { result ≡ changes_bytes kind }
{
    match kind {
        Kind::Write | Kind::Erase => true,
        Kind::Read | Kind::Flush => false,
    }
}

// How many bytes the medium with this id has, and 0 where there is none.
fn bytes_of<M: Medium>(drive: &Drive<M>, media_id: u32) -> u64
    requires { FitTheDrive M.device drive.now }
    ensures { (m : M) → medium_with drive.now media_id ≡ Some m
        → result ≡ (M.device m).blocks * drive.now.size }
{
    match drive.blocks_of(media_id) {
        Some(blocks) => blocks * u64::from(drive.size()),
        None => 0,
    }
}

// The refusals of a read, write or erase that need the medium, in their order.
fn range_refusal<M: Medium>(drive: &Drive<M>, view: &View, asked: Asked) -> Option<Status>
    requires sized { 0 < drive.now.size }
    requires fit { FitTheDrive M.device drive.now }
    ensures { (m : M) → medium_with drive.now drive.now.media_id ≡ Some m
        → result ≡ range_refusal_by drive.now.protected drive.now.size
        ((M.device m).blocks * drive.now.size) view.now asked }
{
    let size = u64::from(drive.size());
    if is_change(asked.kind) && drive.read_only() {
        return Some(Status::WriteProtected);
    }
    if is_ragged(size, asked) {
        return Some(Status::BadBufferSize);
    }
    if is_outside(bytes_of(drive, drive.media_id()), size, view, asked) {
        return Some(Status::InvalidParameter);
    }
    None
}

/// The status with which a request is refused, and None where it is accepted.
pub fn refusal<M: Medium>(
    drive: &Drive<M>,
    _core: &Core,
    view: &View,
    media_id: u32,
    asked: Asked,
) -> Option<Status>
    requires { IsDisk M.device M.prepared drive.now _core.now }
    ensures { result ≡ refusal_of (setup_of M.device drive.now _core.now.protected_at_first) _core.now.history.entries view.now asked media_id }
{
    if !drive.present() {
        return Some(Status::NoMedia);
    }
    if media_id != drive.media_id() || view.media_id != drive.media_id() {
        return Some(Status::MediaChanged);
    }
    match asked.kind {
        Kind::Flush => None,
        Kind::Read | Kind::Write | Kind::Erase => range_refusal(drive, view, asked),
    }
}

/// Records that a request is refused with this status, where there is memory for the entry.
pub fn refuse<M: Medium>(
    drive: &Drive<M>,
    core: &mut Core,
    tag: u32,
    view: &View,
    media_id: u32,
    asked: Asked,
    status: Status,
    buffer: Vec<u8>,
) -> Result<Token, Refused>
    requires sound { IsDisk M.device M.prepared drive.now core.old }
    requires refused { refusal_of (setup_of M.device drive.now core.old.protected_at_first) core.old.history.entries view.now asked media_id ≡ Some status }
    requires well_asked { IsWellAsked asked }
    ensures { (bytes : List ℕ)
        → Reaches M.device M.prepared drive.now core.old drive.now core.new
        (λ s s'. SubmitsAsked s tag view.now media_id asked bytes buffer.items result s') }
{
    match make_room(core, 1) {
        Ok(()) => {
            let entry = Entry::Refuse {
                tag,
                view: *view,
                asked,
                media_id,
                status,
            };
            enter(core, entry, 0);
            let why = Why::Status(status);
            Err(Refused { why, buffer })
        }
        Err(_) => {
            let why = Why::Memory;
            Err(Refused { why, buffer })
        }
    }
}
