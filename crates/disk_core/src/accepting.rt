//! An accepted request takes all that it can ever need.
ghost use Rattle.std.specs.Prelude.{◌≡◌, ℕ, ◌+◌, ◌*◌, ◌/◌, ◌%◌, ◌^◌, ◌<◌, ◌≤◌, true, length, IsSome, IfOk, IfErr, OnOk, OnErr};
ghost use Rattle.disk_split.specs.Units.{IsGeometry};
ghost use Rattle.drive.specs.Drives.{medium_in};
ghost use Rattle.history.specs.Tokens.{in_bytes, changes_bytes};
ghost use Rattle.history.specs.Rules.{IsWellAsked};
ghost use Rattle.history.specs.declared.entry.Entry.TheVariants.{Accept as AcceptOf};
ghost use Rattle.token_table.specs.declared.record.Mark.{Mark as MarkOf};
ghost use Rattle.token_table.specs.Records.{mark_at};
ghost use Rattle.subtask_queue.specs.Subs.{AreBelow};
ghost use Rattle.disk_core.specs.Facts.{buffer_length};
ghost use Rattle.disk_core.specs.Commands.{OfMedium};
ghost use Rattle.disk_core.specs.Calls.{SubmitsAsked};
ghost use Rattle.history_laws.specs.Costs.{left_at_first, cost_by};
ghost use Rattle.disk_core.specs.Admission.{payload_of, parts_count, after_accept, after_empty_end, after_keep, IsRoom, IsUnrefused, AreMadeReady, AreReadyFor, start_at, StaysBut};
ghost use Rattle.disk_core.specs.Moves.{with_spare, HasPlace, IsDisk, Reaches};

use crate::answers::{Refused, Token, Why};
use crate::commands::prepare_in;
use crate::entering::{enter, make_room};
use crate::parts::Core;
use crate::refusing::is_change;
use byte_lists::Bytes;
use disk_split::{Geometry, Parts, runs, split};
use drive::Drive;
use efi_status::Status;
use event_cell::{Event, Signaller, make_event};
use history::{Asked, Entry, Kind, UnitKind, View};
use medium::Medium;
use std::alloc::{AllocError, Global};
use token_table::Request;

// The first byte of a view.
fn start_in(view: &View) -> u64
    ensures { result ≡ view.now.start }
{
    view.start
}

// The first byte of a request's range on the medium, in a view that begins here.
fn start_of(start: u64, asked: Asked, size: u32) -> u64
    requires { start + in_bytes size asked.unit asked.at < 2 ^ 64 }
    ensures { result ≡ start + in_bytes size asked.unit asked.at }
{
    match asked.unit {
        UnitKind::Bytes => start + asked.at,
        UnitKind::Blocks => start + asked.at * u64::from(size),
    }
}

// The bytes that the entry of an accepted request has: a write's.
fn payload(alloc: Global, kind: Kind, buffer: &[u8]) -> Result<Bytes, AllocError>
    ensures { IfOk result (λ bytes. bytes ≡ payload_of kind buffer.now) }
{
    match kind {
        Kind::Write => Bytes::copy_of(alloc, buffer),
        Kind::Read | Kind::Flush | Kind::Erase => Ok(Bytes::from_vec(Vec::new(alloc))),
    }
}

// How many parts a range has.
fn parts_in(parts: &Parts) -> u64
    ensures value { result ≡ parts_count parts.now }
    ensures few { result ≤ 2 }
{
    u64::from(parts.under.is_some()) + u64::from(parts.over.is_some())
}

// How many commands a request may need: a part of a write or an erase is fetched and stored.
fn cost_of(kind: Kind, parts: &Parts, per: u32) -> u64
    requires { parts.now.whole * per < 2 ^ 64 }
    ensures value { result
        ≡ cost_by kind (parts_count parts.now) ((parts.now.whole * per + 63) / 64) }
    ensures few { result ≤ 2 ^ 58 + 4 }
{
    let runs = runs(parts.whole * u64::from(per));
    match kind {
        Kind::Flush => 1,
        Kind::Read => parts_in(parts) + runs,
        Kind::Write | Kind::Erase => 2 * parts_in(parts) + runs,
    }
}

// What is left of a new request: its bytes, and 1 for a flush.
fn left_of(asked: Asked) -> u64
    ensures { result ≡ left_at_first asked.kind asked.length }
{
    match asked.kind {
        Kind::Flush => 1,
        Kind::Read | Kind::Write | Kind::Erase => asked.length,
    }
}

// Makes every block of each group ready in which some bytes have one. The error is want of memory.
fn prepare_groups<M: Medium>(
    alloc: Global,
    drive: &mut Drive<M>,
    from: u64,
    length: u64,
    blocks: Geometry,
) -> Result<(), AllocError>
    requires present { IsSome (medium_in drive.old) }
    requires sized { IsGeometry blocks }
    requires some { 0 < length }
    requires fits { from + length < 2 ^ 64 }
    requires inside { OfMedium drive.old (λ m. from + length ≤ (M.device m).blocks * blocks.size) }
    requires whole { OfMedium drive.old (λ m. (M.device m).blocks % blocks.per ≡ 0) }
    ensures same { StaysBut M.device M.prepared drive.old drive.new }
    ensures ready { OnOk result (AreMadeReady M.prepared drive.new blocks from length) }
{
    let per = u64::from(blocks.per);
    let group = u64::from(blocks.size) * per;
    let first = from / group;
    let last = (from + length - 1) / group;
    prepare_in(alloc, drive, first * per, (last + 1 - first) * per)
}

// The same for an accepted request, where it changes bytes.
fn prepare_for<M: Medium>(
    alloc: Global,
    drive: &mut Drive<M>,
    kind: Kind,
    from: u64,
    length: u64,
    blocks: Geometry,
) -> Result<(), AllocError>
    requires present { IsSome (medium_in drive.old) }
    requires sized { IsGeometry blocks }
    requires fits { from + length < 2 ^ 64 }
    requires inside { changes_bytes kind ≡ true
        → OfMedium drive.old (λ m. from + length ≤ (M.device m).blocks * blocks.size) }
    requires whole { OfMedium drive.old (λ m. (M.device m).blocks % blocks.per ≡ 0) }
    ensures same { StaysBut M.device M.prepared drive.old drive.new }
    ensures ready { OnOk result (AreReadyFor M.prepared drive.new blocks kind from length) }
{
    if is_change(kind) && length > 0 {
        prepare_groups(alloc, drive, from, length, blocks)
    } else {
        Ok(())
    }
}

// What an accepted request keeps, taken beforehand.
#[derive(Drop)]
struct Room {
    from: u64,
    parts: Parts,
    bytes: Bytes,
    signaller: Signaller,
    event: Event,
    /// The entries that it owes behind its accept, at most.
    owed: u64,
}

// Takes the memory of a request but for its entries, its record and its units. The error is want of memory.
fn room_for(
    alloc: Global,
    from: u64,
    asked: Asked,
    buffer: &[u8],
    blocks: Geometry,
) -> Result<Room, AllocError>
    requires sized { IsGeometry blocks }
    requires fits { from + asked.length < 2 ^ 64 }
    ensures room { IfOk result (IsRoom blocks from asked buffer.now) }
    ensures few { IfOk result (λ room. room.owed ≤ 2 ^ 59) }
{
    let parts = split(from, asked.length, blocks.size * blocks.per);
    let bytes = payload(alloc, asked.kind, buffer)?;
    let (signaller, event) = make_event(alloc)?;
    let owed = cost_of(asked.kind, &parts, blocks.per) + 2;
    Ok(Room {
        from,
        parts,
        bytes,
        signaller,
        event,
        owed,
    })
}

// Takes the memory of a request but for its record and its units. The error is want of memory.
#[tactic(auto, unfolding(crate::specs::Moves::with_spare))]
fn take_room<M: Medium>(
    alloc: Global,
    drive: &mut Drive<M>,
    core: &mut Core,
    view: &View,
    asked: Asked,
    buffer: &[u8],
) -> Result<Room, AllocError>
    requires sound { IsDisk M.device M.prepared drive.old core.old }
    requires admitted { (id : ℕ) × IsUnrefused M.device drive.old core.old view.now asked id }
    requires well_asked { IsWellAsked asked }
    ensures drive { StaysBut M.device M.prepared drive.old drive.new }
    ensures core { core.new ≡ with_spare core.old core.new.history.spare }
    ensures places { core.old.owed ≤ core.new.history.spare }
    ensures few { length core.old.history.entries + core.new.history.spare < 2 ^ 63 }
    ensures room { IfOk result (IsRoom core.old.blocks
        (start_at core.old.blocks.size view.now asked) asked buffer.now) }
    ensures place { IfOk result (λ room. core.old.owed + room.owed + 1 ≤ core.new.history.spare) }
    ensures ready { OnOk result (AreReadyFor M.prepared drive.new core.old.blocks asked.kind
        (start_at core.old.blocks.size view.now asked) asked.length) }
{
    let blocks = core.blocks;
    let from = start_of(start_in(view), asked, blocks.size);
    prepare_for(alloc, drive, asked.kind, from, asked.length, blocks)?;
    let room = room_for(alloc, from, asked, buffer, blocks)?;
    make_room(core, room.owed + 1)?;
    Ok(room)
}

// Enters an accepted request, whose record and units are kept.
#[tactic(auto, unfolding(crate::specs::Moves::with_entry, crate::specs::Admission::after_accept))]
fn enter_accept(core: &mut Core, tag: u32, view: &View, asked: Asked, bytes: Bytes, owed: u64)
    requires place { HasPlace core.old }
    requires few { core.old.accepted < 2 ^ 63 }
    requires owed { core.old.owed + owed < 2 ^ 64 }
    ensures { core.new ≡ after_accept core.old (AcceptOf tag view.now asked bytes) owed
        core.old.tokens core.old.queue }
{
    let entry = Entry::Accept {
        tag,
        view: *view,
        asked,
        bytes,
    };
    enter(core, entry, 0);
    core.accepted += 1;
    core.owed += owed;
}

// Ends a new request of which nothing is left. It has no units and holds no gate.
#[tactic(auto, unfolding(crate::specs::Admission::after_empty_end))]
fn end_empty(core: &mut Core, number: u64, left: u64)
    requires outstanding { mark_at core.old.tokens number ≡ MarkOf.Outstanding }
    requires owed { 1 ≤ core.old.owed }
    ensures { core.new ≡ after_empty_end left number core.old }
{
    if left == 0 {
        core.tokens.end(number, Status::Success);
        core.owed -= 1;
    }
}

// Keeps the record and the units of a request, or gives its buffer back for want of memory.
fn keep(
    core: &mut Core,
    tag: u32,
    view: &View,
    asked: Asked,
    room: Room,
    buffer: Vec<u8>,
) -> Result<Token, Vec<u8>>
    requires sized { IsGeometry core.old.blocks }
    requires room { IsRoom core.old.blocks
        (start_at core.old.blocks.size view.now asked) asked buffer.items room }
    requires above { AreBelow core.old.accepted core.old.queue }
    requires counted { core.old.accepted ≡ length core.old.tokens }
    requires few { core.old.accepted < 2 ^ 63 }
    requires place { HasPlace core.old }
    requires owed { core.old.owed + room.owed < 2 ^ 64 }
    ensures number { IfOk result (λ token. token.number ≡ core.old.accepted) }
    ensures event { IfOk result (λ token. token.event ≡ room.event) }
    ensures ok { OnOk result (core.new ≡ after_keep core.old tag view.now asked room buffer.items) }
    ensures err { OnErr result (core.new ≡ core.old) }
    ensures back { IfErr result (λ back. back.items ≡ buffer.items) }
{
    let Room {
        from,
        parts,
        bytes,
        signaller,
        event,
        owed,
    } = room;
    let number = core.accepted;
    let Ok(()) = core.queue.add(number, asked.kind, &parts, core.blocks) else {
        return Err(buffer);
    };
    let left = left_of(asked);
    let request = Request {
        tag,
        view: *view,
        asked,
        at: from,
        buffer: Bytes::from_vec(buffer),
        left,
    };
    match core.tokens.add(request, signaller) {
        Ok(_) => {
            enter_accept(core, tag, view, asked, bytes, owed);
            end_empty(core, number, left);
            Ok(Token { number, event })
        }
        Err(back) => {
            core.queue.drop_request(number);
            Err(back.request.buffer.into_vec())
        }
    }
}

/// Accepts a request that no rule refuses, where there is memory for it.
pub fn accept<M: Medium>(
    alloc: Global,
    drive: &mut Drive<M>,
    core: &mut Core,
    tag: u32,
    view: &View,
    asked: Asked,
    buffer: Vec<u8>,
) -> Result<Token, Refused>
    requires sound { IsDisk M.device M.prepared drive.old core.old }
    requires admitted { (id : ℕ) × IsUnrefused M.device drive.old core.old view.now asked id }
    requires well_asked { IsWellAsked asked }
    requires long { length buffer.items ≡ buffer_length asked.kind asked.length }
    ensures { (id : ℕ) → IsUnrefused M.device drive.old core.old view.now asked id
        → Reaches M.device M.prepared drive.old core.old drive.new core.new (λ s s'. SubmitsAsked s
        tag view.now id asked (payload_of asked.kind buffer.items) buffer.items result s') }
{
    let why = Why::Memory;
    match take_room(alloc, drive, core, view, asked, &buffer) {
        Ok(room) => match keep(core, tag, view, asked, room, buffer) {
            Ok(token) => Ok(token),
            Err(buffer) => Err(Refused { why, buffer }),
        },
        Err(_) => Err(Refused { why, buffer }),
    }
}
