//! What becomes of the parts as a command is entered and as a request ends.
ghost use Rattle.std.specs.Prelude.{◌≡◌, ℕ, ◌+◌, ◌-◌, ◌^◌, ◌<◌, ◌≤◌, nat_eq, true, length, position, count_by, vec_capacity, is_some, IfSome, OnOk, OnErr};
ghost use Rattle.token_table.specs.declared.record.Mark.{Mark};
ghost use Rattle.token_table.specs.Records.{record_at, request_at, mark_at};
ghost use Rattle.block_gate.specs.Gates.{gate_of, without_hold};
ghost use Rattle.subtask_queue.specs.Subs.{token_of, is_of};
ghost use Rattle.disk_core.specs.Moves.{with_entry, after_finish, with_spare, others, without_gates_of, without_gate_of, after_pass, left_in, without_ticket_of, HasPlace, Ends, EntersDone, EntersFault, MayEnter, Settles};

use crate::parts::{Core, Holder};
use block_gate::Gates;
use efi_status::Status;
use history::{Command, Entry};
use medium::BlockFailed;
use std::alloc::AllocError;
use subtask_queue::Sub;
use token_table::Tokens;

/// Makes places for so many entries more than are owed. The error is want of memory, and nothing has then changed.
pub fn make_room(core: &mut Core, more: u64) -> Result<(), AllocError>
    requires { core.old.owed + more < 2 ^ 64 }
    ensures core { core.new ≡ with_spare core.old core.new.history.spare }
    ensures ok { OnOk result (core.old.owed + more ≤ core.new.history.spare) }
    ensures stay { core.old.history.spare ≤ core.new.history.spare }
    ensures err { OnErr result (core.new ≡ core.old) }
    ensures few { length core.old.history.entries + core.new.history.spare < 2 ^ 63 }
{
    core.history.reserve(core.owed + more)
}

/// Adds an entry in a free place. So many entries are owed no more.
pub fn enter(core: &mut Core, entry: Entry, paid: u64)
    requires place { HasPlace core.old }
    requires owed { paid ≤ core.old.owed }
    ensures { core.new ≡ with_entry core.old entry paid }
{
    core.history.push(entry);
    core.owed -= paid;
}

// Revokes the gate of a holder, if it is one of this token.
fn revoke_one(gates: &mut Gates, holder: &Holder, token: u64)
    ensures { gates.new ≡ without_gate_of token holder.now gates.old }
{
    if token == holder.token {
        gates.revoke(holder.ticket);
    }
}

// Revokes the gates of a token.
fn revoke_of(gates: &mut Gates, holders: &[Holder], token: u64)
    ensures { gates.new ≡ without_gates_of token holders.now gates.old }
{
    for holder in holders {
        revoke_one(gates, holder, token);
    }
}

// Passes the holder at this place, or takes it out if it is one of this token. Answers the place of the next one.
fn pass(holders: &mut Vec<Holder>, token: u64, at: usize) -> usize
    requires { at < length holders.old.items }
    ensures place { (result + length holders.old.items) ≡ (at + 1) + length holders.new.items }
    ensures passed { after_pass token result holders.new.items ≡ after_pass token at holders.old.items }
    ensures places { vec_capacity holders.new ≡ vec_capacity holders.old }
{
    if token == holders[at].token {
        holders.remove(at);
        at
    } else {
        at + 1
    }
}

// Takes the holders of a token out.
fn forget(holders: &mut Vec<Holder>, token: u64)
    ensures holders { holders.new.items ≡ others token holders.old.items }
    ensures places { vec_capacity holders.new ≡ vec_capacity holders.old }
{
    let mut at = 0;
    for _step in 0..holders.len() {
        at = pass(holders, token, at);
    }
}

/// Ends an outstanding request: its event is signalled, its units leave the queue, and its gates are revoked.
pub fn end_token(core: &mut Core, token: u64, status: Status)
    requires outstanding { mark_at core.old.tokens token ≡ Mark.Outstanding }
    requires owed { count_by (is_of token) core.old.queue + 1 ≤ core.old.owed }
    ensures { Ends core.old core.new token status }
{
    core.tokens.end(token, status);
    let units = core.queue.drop_request(token);
    // Each of its units owed a command at least, and the entry that ends it is owed no more.
    core.owed -= units;
    core.owed -= 1;
    revoke_of(&mut core.gates, &core.holders, token);
    forget(&mut core.holders, token);
}

// What is left of a request.
fn left_of(tokens: &Tokens, token: u64) -> u64
    ensures { result ≡ left_in (request_at tokens.now token) }
{
    match tokens.find(token) {
        Some(request) => request.left,
        None => 0,
    }
}

// Enters a done command that finished a unit of so many bytes.
#[tactic(auto, unfolding(crate::specs::Moves::with_entry, crate::specs::Moves::after_finish))]
fn finish_unit(core: &mut Core, unit: &Sub, command: Command, bytes: u64)
    requires outstanding { mark_at core.old.tokens (token_of unit.now) ≡ Mark.Outstanding }
    requires left { IfSome (request_at core.old.tokens (token_of unit.now)) (λ q. bytes ≤ q.left) }
    requires place { HasPlace core.old }
    requires owed { 1 ≤ core.old.owed }
    ensures { core.new ≡ after_finish core.old unit.now command bytes }
{
    let token = unit.token();
    enter(core, Entry::Done { token, command }, 1);
    core.queue.finish(unit);
    core.tokens.lower(token, bytes);
}

/// Enters a done command that finished a unit of so many bytes. The last one ends its request with success.
pub fn finish(core: &mut Core, unit: &Sub, command: Command, bytes: u64)
    requires outstanding { mark_at core.old.tokens (token_of unit.now) ≡ Mark.Outstanding }
    requires left { IfSome (request_at core.old.tokens (token_of unit.now)) (λ q. bytes ≤ q.left) }
    requires place { HasPlace core.old }
    requires owed { count_by (is_of (token_of unit.now)) core.old.queue + 2 ≤ core.old.owed }
    ensures { EntersDone core.old core.new unit.now command bytes }
{
    let token = unit.token();
    let left = left_of(&core.tokens, token);
    finish_unit(core, unit, command, bytes);
    if left == bytes {
        end_token(core, token, Status::Success);
    }
}

/// Enters a command that failed after so many blocks, which ends its request.
#[tactic(auto, unfolding(crate::specs::Moves::with_entry))]
pub fn fail(core: &mut Core, token: u64, command: Command, done: u32)
    requires outstanding { mark_at core.old.tokens token ≡ Mark.Outstanding }
    requires place { HasPlace core.old }
    requires owed { count_by (is_of token) core.old.queue + 1 ≤ core.old.owed }
    ensures { EntersFault core.old core.new token command done }
{
    let entry = Entry::Fault {
        token,
        command,
        done,
    };
    enter(core, entry, 0);
    end_token(core, token, Status::DeviceError);
}

/// Enters what became of a command of a unit with so many bytes.
pub fn settle(
    core: &mut Core,
    unit: &Sub,
    command: Command,
    bytes: u64,
    answer: Result<(), BlockFailed>,
)
    requires { MayEnter core.old unit.now bytes answer }
    ensures { Settles core.old core.new unit.now command bytes answer }
{
    match answer {
        Ok(()) => finish(core, unit, command, bytes),
        Err(failed) => fail(core, unit.token(), command, failed.done),
    }
}

// Where the first holder of this ticket stands, if there is one.
fn place_of(holders: &[Holder], ticket: u64) -> Option<usize>
    ensures { result ≡ position (λ h. nat_eq ticket h.ticket) holders.now }
{
    holders.iter().position(|holder| ticket == holder.ticket)
}

// Takes the first holder of a ticket out, if there is one.
#[tactic(auto, unfolding(crate::specs::Moves::without_ticket_of))]
fn forget_ticket(holders: &mut Vec<Holder>, ticket: u64)
    ensures holders { holders.new.items ≡ without_ticket_of ticket holders.old.items }
    ensures places { vec_capacity holders.new ≡ vec_capacity holders.old }
{
    if let Some(place) = place_of(holders, ticket) {
        holders.remove(place);
    }
}

/// Releases the gate of a ticket that holds one.
pub fn release(core: &mut Core, ticket: u64)
    requires { is_some (gate_of core.old.gates.held ticket) ≡ true }
    ensures gates { core.new.gates ≡ without_hold core.old.gates ticket }
    ensures holders { core.new.holders.items ≡ without_ticket_of ticket core.old.holders.items }
    ensures rest { core.new
        ≡ record core.old { gates = core.new.gates; holders = core.new.holders } }
    ensures places { vec_capacity core.new.holders ≡ vec_capacity core.old.holders }
{
    forget_ticket(&mut core.holders, ticket);
    core.gates.release(ticket);
}
