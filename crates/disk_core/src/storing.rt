//! The store of a group that was fetched: from its work, or from the kept copy.
ghost use Rattle.std.specs.Prelude.{◌≡◌, ℕ, ◌+◌, ◌-◌, ◌*◌, ◌^◌, ◌<◌, ◌≤◌, true, length, None, IfNone, IfSome};
ghost use Rattle.block_gate.specs.Gates.{Gate, Gates as GatesState, gate_of, is_ours};
ghost use Rattle.history.specs.Tokens.{Request as Asking};
ghost use Rattle.history.specs.Next.{Outcome};
ghost use Rattle.disk_core.specs.State.{setup_of};
ghost use Rattle.disk_core.specs.Parts.{holder_of};
ghost use Rattle.disk_core.specs.Calls.{expected_copy, StoreSays, HeldStoreSays, Stores};
ghost use Rattle.disk_core.specs.Moves.{IsDisk, Reaches};
ghost use Rattle.disk_core.specs.Storage.{IsPartIn, IsStoring};

use crate::answers::{HeldStored, Stored};
use crate::commands::write_to;
use crate::entering::{fail, finish, release};
use crate::parts::{Core, Holder};
use crate::pieces::{Range, bytes_at, range_in};
use block_gate::{Back, Work};
use byte_lists::{first_difference, patch_into};
use drive::Drive;
use history::Command;
use medium::Medium;
use subtask_queue::Sub;

// A held group with the token that holds it, and the bytes that the token is for there.
#[derive(Clone, Copy)]
struct Part {
    ticket: u64,
    token: u64,
    block: u64,
    range: Range,
}

// The token that holds the gate of a ticket.
#[tactic(auto, unfolding(crate::specs::Parts::holder_of))]
fn holder_of(holders: &[Holder], ticket: u64) -> Option<u64>
    ensures { result ≡ holder_of holders.now ticket }
{
    let holder = holders.iter().find(|holder| ticket == holder.ticket)?;
    Some(holder.token)
}

// The part of a ticket that holds a gate.
fn part_of<M: Medium>(_drive: &Drive<M>, core: &Core, ticket: u64) -> Option<Part>
    requires { IsDisk M.device M.prepared _drive.now core.now }
    ensures ticket { IfSome result (λ part. part.ticket ≡ ticket) }
    ensures some { IfSome result
        (λ part. (g : Gate) × (q : Asking) × IsPartIn M.device _drive.now core.now part g q) }
    ensures none { IfNone result (gate_of core.now.gates.held ticket ≡ None) }
{
    let block = core.gates.block(ticket)?;
    let token = holder_of(&core.holders, ticket)?;
    let request = core.tokens.find(token)?;
    Some(Part {
        ticket,
        token,
        block,
        range: range_in(request, block, core.blocks.per, core.blocks),
    })
}

// The first byte of a part in its group.
fn place_in(part: &Part, size: u32) -> usize
    requires { part.now.block * size ≤ part.now.range.low }
    ensures { result ≡ part.now.range.low - part.now.block * size }
{
    let low = part.range.low;
    (low - part.block * u64::from(size)) as usize
}

// Puts the kept copy of a part with the token's bytes put in into the group's buffer.
fn compose<M: Medium>(_drive: &Drive<M>, core: &mut Core, part: &Part)
    requires sound { IsDisk M.device M.prepared _drive.now core.old }
    requires part { (g : Gate) × (q : Asking)
        × IsPartIn M.device _drive.now core.old part.now g q }
    ensures core { core.new ≡ record core.old { group = core.new.group } }
    ensures group { (g : Gate) (q : Asking) → IsPartIn M.device _drive.now core.old part.now g q
        → core.new.group.items
        ≡ expected_copy (setup_of M.device _drive.now core.old.protected_at_first) q g }
{
    let Some(copy) = core.gates.copy(part.ticket) else {
        unreachable!()
    };
    core.group.copy_from_slice(copy);
    let Some(request) = core.tokens.find(part.token) else {
        unreachable!()
    };
    let patch = bytes_at(request, &core.zeros, part.range);
    let place = place_in(part, core.blocks.size);
    patch_into(&mut core.group, place, patch);
}

// Writes the group's buffer to the part's group and enters the store. The gate is released either way.
fn write_part<M: Medium>(drive: &mut Drive<M>, core: &mut Core, part: &Part)
    requires { (before : GatesState) × (g : Gate) × (q : Asking)
        × IsStoring M.device M.prepared drive.old core.old before part.now g q }
    ensures { (before : GatesState) (g : Gate) (q : Asking)
        → IsStoring M.device M.prepared drive.old core.old before part.now g q
        → (outcome : Outcome) × Reaches M.device M.prepared
        drive.old (record core.old { gates = before }) drive.new core.new
        (λ s s'. Stores s core.old.gates part.now.ticket g part.now.token q outcome s') }
{
    let block = part.block;
    let command = Command::Store { block };
    let answer = write_to(drive, block, &core.group);
    release(core, part.ticket);
    match answer {
        Ok(()) => {
            let bytes = part.range.high - part.range.low;
            let unit = Sub::Part {
                token: part.token,
                block,
                from: place_in(part, core.blocks.size) as u32,
                count: bytes as u32,
                write: true,
            };
            finish(core, &unit, command, bytes);
        }
        Err(failed) => fail(core, part.token, command, failed.done),
    }
}

// Takes back a work whose ticket holds no gate.
fn take_late<M: Medium>(_drive: &Drive<M>, core: &mut Core, work: Work) -> Stored
    requires sound { IsDisk M.device M.prepared _drive.now core.old }
    requires late { gate_of core.old.gates.held work.ticket ≡ None }
    ensures { Reaches M.device M.prepared _drive.now core.old _drive.now core.new
        (λ s s'. StoreSays s work result s') }
{
    match core.gates.give_back(work) {
        Back::Home => Stored::Stale,
        Back::Foreign(back) => Stored::Foreign(back),
    }
}

// Writes a work that is the same as the group's buffer.
fn commit<M: Medium>(drive: &mut Drive<M>, core: &mut Core, work: Work, part: &Part) -> Stored
    requires storing { (g : Gate) × (q : Asking)
        × IsStoring M.device M.prepared drive.old core.old core.old.gates part.now g q }
    requires ticket { part.now.ticket ≡ work.ticket }
    requires ours { is_ours core.old.gates work ≡ true }
    requires same { work.bytes ≡ core.old.group.items }
    ensures { Reaches M.device M.prepared drive.old core.old drive.new core.new
        (λ s s'. StoreSays s work result s') }
{
    match core.gates.give_back(work) {
        Back::Home => {
            write_part(drive, core, part);
            Stored::Did
        }
        Back::Foreign(back) => Stored::Foreign(back),
    }
}

/// Writes the group of a work, which has to be the kept copy with the request's bytes put in.
pub fn store_work<M: Medium>(drive: &mut Drive<M>, core: &mut Core, work: Work) -> Stored
    requires { IsDisk M.device M.prepared drive.old core.old }
    ensures { Reaches M.device M.prepared drive.old core.old drive.new core.new
        (λ s s'. StoreSays s work result s') }
{
    let Some(part) = part_of(drive, core, work.ticket()) else {
        return take_late(drive, core, work);
    };
    if work.bytes().len() != core.group.len() {
        return Stored::Foreign(work);
    }
    compose(drive, core, &part);
    match first_difference(work.bytes(), &core.group) {
        Some(place) => {
            let found = work.bytes()[place];
            let expected = core.group[place];
            Stored::Strange(work, place, expected, found)
        }
        None => commit(drive, core, work, &part),
    }
}

/// Writes the group of a ticket from the kept copy, with the request's bytes put in.
pub fn store_copy<M: Medium>(drive: &mut Drive<M>, core: &mut Core, ticket: u64) -> HeldStored
    requires { IsDisk M.device M.prepared drive.old core.old }
    ensures { Reaches M.device M.prepared drive.old core.old drive.new core.new
        (λ s s'. HeldStoreSays s ticket result s') }
{
    let Some(part) = part_of(drive, core, ticket) else {
        return HeldStored::Stale;
    };
    compose(drive, core, &part);
    write_part(drive, core, &part);
    HeldStored::Did
}
