//! Calls on a desk whose items go into its log.
ghost use Rattle.std.specs.Prelude.{◌≡◌, ◌+◌, ◌-◌, ◌<◌, ◌≤◌, ◌^◌, length, None};
ghost use Rattle.history.specs.declared.entry.Entry.{Entry};
ghost use Rattle.disk_core.specs.Calls.{asked_of, SubmitSays, StepSays, StoreSays, HeldStoreSays, CollectSays, EndSays};
ghost use Rattle.shared_disk.specs.Log.{logged_entries};
ghost use Rattle.shared_disk.specs.Plate.{IsLogOf};
ghost use Rattle.shared_disk.specs.Desk.{Keeps, OnDisk, LineSays};
ghost use Rattle.shared_disk.specs.Seats.{line_done, with_line_done, BesideLines, submit_count, collect_count, cancel_count};
ghost use Rattle.shared_disk.specs.Holding.{Grows, HasLogged, Logs};

use crate::answers::Line;
use crate::desk::Desk;
use crate::pens::Pen;
use block_gate::Work;
use disk_core::{Ask, HeldStored, Refused, Step, Stored, Token};
use history::{History, View};
use medium::Medium;
use token_table::{Done, NotThere};

// Adds the entry to the log that the history has more than it had before, if it has one more.
fn log_entry(history: &History, pen: &mut Pen, before: u64)
    requires before { before ≡ length (logged_entries pen.old.log) }
    requires grown { Grows (logged_entries pen.old.log) history.now.entries }
    requires room { length pen.old.log + 1 < 2 ^ 64 }
    ensures table { pen.new.table ≡ pen.old.table }
    ensures logged { HasLogged (logged_entries pen.old.log) pen.old.log history.now.entries pen.new.log }
{
    match history.get(before) {
        Some(entry) => pen.enter(entry),
        None => {}
    }
}

/// Makes the next command, and logs it.
pub fn step_logged<M: Medium>(desk: &mut Desk<M>, pen: &mut Pen) -> Step
    requires { IsLogOf desk.old pen.old.log }
    ensures says { OnDisk desk.old desk.new (λ old new. StepSays old result new) }
    ensures logs { Logs desk.old pen.old.log None desk.new pen.new.log }
    ensures table { pen.new.table ≡ pen.old.table }
    ensures keeps { Keeps desk.old → Keeps desk.new }
{
    desk.place_bounds();
    let before = desk.disk().history().len();
    let step = desk.step();
    log_entry(desk.disk().history(), pen, before);
    step
}

/// Writes the group of a work, and logs it.
pub fn store_logged<M: Medium>(desk: &mut Desk<M>, pen: &mut Pen, work: Work) -> Stored
    requires { IsLogOf desk.old pen.old.log }
    ensures says { OnDisk desk.old desk.new (λ old new. StoreSays old work result new) }
    ensures logs { Logs desk.old pen.old.log None desk.new pen.new.log }
    ensures table { pen.new.table ≡ pen.old.table }
    ensures keeps { Keeps desk.old → Keeps desk.new }
{
    desk.place_bounds();
    let before = desk.disk().history().len();
    let stored = desk.store(work);
    log_entry(desk.disk().history(), pen, before);
    stored
}

/// Writes the group of a ticket from the kept copy, and logs it.
pub fn store_held_logged<M: Medium>(desk: &mut Desk<M>, pen: &mut Pen, ticket: u64) -> HeldStored
    requires { IsLogOf desk.old pen.old.log }
    ensures says { OnDisk desk.old desk.new (λ old new. HeldStoreSays old ticket result new) }
    ensures logs { Logs desk.old pen.old.log None desk.new pen.new.log }
    ensures table { pen.new.table ≡ pen.old.table }
    ensures keeps { Keeps desk.old → Keeps desk.new }
{
    desk.place_bounds();
    let before = desk.disk().history().len();
    let stored = desk.store_held(ticket);
    log_entry(desk.disk().history(), pen, before);
    stored
}

// Adds a line done of a client to the log, if its line was done.
fn log_line(pen: &mut Pen, client: u32, line: &Line)
    requires { length pen.old.log + 1 < 2 ^ 64 }
    ensures { pen.new ≡ record pen.old { log = with_line_done (line_done client line.now) pen.old.log } }
{
    match line {
        Line::Did(_) => pen.enter_line(client),
        Line::Collected(_) | Line::NotYet | Line::Ended | Line::Memory => {}
    }
}

/// Takes the next line of a client, counted from 1, and logs its entry and that it was done.
pub fn line_logged<M: Medium>(desk: &mut Desk<M>, pen: &mut Pen, client: u32) -> Line
    requires is_log { IsLogOf desk.old pen.old.log }
    requires some { 1 ≤ client }
    requires there { client ≤ length desk.old.script.roles }
    ensures says { LineSays desk.old (client - 1) result desk.new }
    ensures logs { Logs desk.old pen.old.log (line_done client result) desk.new pen.new.log }
    ensures table { pen.new.table ≡ pen.old.table }
    ensures keeps { Keeps desk.old → Keeps desk.new }
{
    desk.place_bounds();
    let before = desk.disk().history().len();
    let line = desk.line(client);
    log_entry(desk.disk().history(), pen, before);
    log_line(pen, client, &line);
    line
}

/// Submits a request of a client beside its lines, and logs it.
pub fn submit_logged<M: Medium>(
    desk: &mut Desk<M>,
    pen: &mut Pen,
    client: u32,
    view: &View,
    media_id: u32,
    ask: Ask,
) -> Result<Token, Refused>
    requires is_log { IsLogOf desk.old pen.old.log }
    requires some { 1 ≤ client }
    requires there { client ≤ length desk.old.script.roles }
    requires most { (asked_of ask).length ≤ 2 ^ 24 }
    ensures says { BesideLines desk.old desk.new
        (λ old new. SubmitSays old client view.now media_id ask result new) }
    ensures logs { Logs desk.old pen.old.log None desk.new pen.new.log }
    ensures grown { length desk.new.disk.entries
        ≡ length desk.old.disk.entries + submit_count result }
    ensures table { pen.new.table ≡ pen.old.table }
{
    desk.place_bounds();
    let before = desk.disk().history().len();
    let answer = desk.submit(client, view, media_id, ask);
    log_entry(desk.disk().history(), pen, before);
    answer
}

/// Collects a token beside the lines, and logs it.
pub fn collect_logged<M: Medium>(
    desk: &mut Desk<M>,
    pen: &mut Pen,
    tag: u32,
    number: u64,
) -> Result<Done, NotThere>
    requires { IsLogOf desk.old pen.old.log }
    ensures says { BesideLines desk.old desk.new
        (λ old new. CollectSays old tag number result new) }
    ensures logs { Logs desk.old pen.old.log None desk.new pen.new.log }
    ensures grown { length desk.new.disk.entries
        ≡ length desk.old.disk.entries + collect_count result }
    ensures table { pen.new.table ≡ pen.old.table }
{
    desk.place_bounds();
    let before = desk.disk().history().len();
    let answer = desk.collect(tag, number);
    log_entry(desk.disk().history(), pen, before);
    answer
}

/// Ends the outstanding requests of a view beside the lines, and logs it.
pub fn cancel_logged<M: Medium>(desk: &mut Desk<M>, pen: &mut Pen, tag: u32, view: &View) -> u64
    requires { IsLogOf desk.old pen.old.log }
    ensures says { BesideLines desk.old desk.new
        (λ old new. EndSays old (Entry.Cancel tag view.now) result new) }
    ensures logs { Logs desk.old pen.old.log None desk.new pen.new.log }
    ensures grown { length desk.new.disk.entries
        ≡ length desk.old.disk.entries + cancel_count result }
    ensures table { pen.new.table ≡ pen.old.table }
{
    desk.place_bounds();
    let before = desk.disk().history().len();
    let answer = desk.cancel(tag, view);
    log_entry(desk.disk().history(), pen, before);
    answer
}
