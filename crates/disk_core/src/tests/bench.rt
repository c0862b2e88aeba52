//! The calls of a row, and what they answer.
ghost use Rattle.std.specs.Prelude.{ℕ, ◌^◌, ◌≤◌};
ghost use Rattle.disk_core.specs.Calls.{asked_of};

use super::shapes::{Media, Shape, view_of};
use crate::{Ask, Disk, EjectRefused, HeldStored, Refused, Step, Stored, Token, Why};
use block_gate::Work;
use drive::InsertFault;
use efi_status::Status;
use event_cell::Event;
use history::View;
use std::alloc::Global;
use token_table::{Done, Mark, NotThere};

// A call of a disk. A request is for a place in bytes of the first medium.
#[derive(Clone, Copy)]
pub enum Call {
    // A write by a tag: from this place on this byte so often.
    Write(u32, u64, u8, u16),
    // A write of aabbccdd from this place on.
    WriteFour(u64),
    // A read of so many bytes from this place on, into a buffer full of 7.
    Read(u64, u16),
    Flush,
    // An erase of two blocks from the second one on.
    EraseTwo,
    Step,
    // A store of the work of this ticket, after its merge.
    Store(u64),
    // The same, with its byte 3 set to 7 between them.
    StoreSpoilt(u64),
    StoreHeld(u64),
    // Gives up the work of this ticket.
    Discard(u64),
    Held,
    WorksOut,
    FreeSets,
    Refit,
    Collect(u64),
    Mark(u64),
    // What the event of the newest token and its twin tell.
    Events,
    Cancel,
    Reset,
    Eject,
    Insert,
    Protect(bool),
}

// What a call answers. Of a buffer the first eight bytes are told, with zeros behind its end.
#[derive(Clone, Copy, Debug, PartialEq, Eq)]
pub enum Answer {
    Did,
    Lent(u64),
    Idle,
    Drained,
    Stale,
    Foreign,
    Strange(usize, u8, u8),
    Count(u64),
    Nothing,
    Back(Status, [u8; 8]),
    Stands(Mark),
    Shown(Option<Status>, Option<Status>),
    Refused(Status),
    NotInserted(InsertFault),
    NoMemory,
    NoWork,
}

// A disk, the works that are out of it, and the event of its newest token with a twin.
pub struct Bench {
    pub disk: Disk<Media>,
    view: View,
    first: Option<Work>,
    second: Option<Work>,
    event: Option<Event>,
    twin: Option<Event>,
}

pub fn bench_of(disk: Disk<Media>, shape: Shape) -> Bench {
    Bench {
        disk,
        view: view_of(shape),
        first: None,
        second: None,
        event: None,
        twin: None,
    }
}

fn discard(work: Option<Work>) {
    match work {
        Some(work) => work.discard(),
        None => {}
    }
}

// The disk, whose works never come back.
pub fn disk_in(bench: Bench) -> Disk<Media> {
    let Bench {
        disk,
        view: _,
        first,
        second,
        event: _event,
        twin: _twin,
    } = bench;
    discard(first);
    discard(second);
    disk
}

// Puts a work by.
fn put_by(bench: &mut Bench, work: Work) {
    if bench.first.is_none() {
        discard(bench.first.replace(work));
    } else {
        discard(bench.second.replace(work));
    }
}

// Whether a work of this ticket is there.
fn is_of(work: &Option<Work>, ticket: u64) -> bool {
    match work {
        Some(work) => work.ticket() == ticket,
        None => false,
    }
}

// Takes the work of a ticket.
fn take_work(bench: &mut Bench, ticket: u64) -> Option<Work> {
    if is_of(&bench.first, ticket) {
        bench.first.take()
    } else if is_of(&bench.second, ticket) {
        bench.second.take()
    } else {
        None
    }
}

// Gives the work of a ticket to another bench.
pub fn hand_over(from: &mut Bench, to: &mut Bench, ticket: u64) {
    match take_work(from, ticket) {
        Some(work) => put_by(to, work),
        None => {}
    }
}

fn keep_events(bench: &mut Bench, token: Token) -> Answer {
    let mut event = token.event;
    match event.twin() {
        Ok(twin) => {
            bench.twin = Some(twin);
            bench.event = Some(event);
            Answer::Count(token.number)
        }
        Err(_) => Answer::NoMemory,
    }
}

fn why(refused: Refused) -> Answer {
    match refused.why {
        Why::Status(status) => Answer::Refused(status),
        Why::Memory => Answer::NoMemory,
    }
}

fn submit(bench: &mut Bench, tag: u32, ask: Ask) -> Answer
    requires { (asked_of ask).length ≤ 2 ^ 24 }
{
    let view = bench.view;
    match bench.disk.submit(tag, &view, view.media_id, ask) {
        Ok(token) => keep_events(bench, token),
        Err(refused) => why(refused),
    }
}

fn write(alloc: Global, bench: &mut Bench, tag: u32, at: u64, byte: u8, count: u16) -> Answer {
    match vec![in alloc; byte; usize::from(count)] {
        Ok(buffer) => submit(bench, tag, Ask::Write { at, buffer }),
        Err(_) => Answer::NoMemory,
    }
}

fn write_four(alloc: Global, bench: &mut Bench, at: u64) -> Answer {
    match Vec::from_slice(alloc, &[0xaa, 0xbb, 0xcc, 0xdd]) {
        Ok(buffer) => submit(bench, 1, Ask::Write { at, buffer }),
        Err(_) => Answer::NoMemory,
    }
}

fn read(alloc: Global, bench: &mut Bench, at: u64, count: u16) -> Answer {
    match vec![in alloc; 7; usize::from(count)] {
        Ok(buffer) => submit(bench, 1, Ask::Read { at, buffer }),
        Err(_) => Answer::NoMemory,
    }
}

fn flush(bench: &mut Bench) -> Answer {
    submit(bench, 1, Ask::Flush)
}

fn erase_two(bench: &mut Bench) -> Answer {
    let ask = Ask::EraseBlocks {
        lba: 1,
        length: 1_024,
    };
    submit(bench, 1, ask)
}

fn step(bench: &mut Bench) -> Answer {
    match bench.disk.step() {
        Step::Did => Answer::Did,
        Step::Lent(work) => {
            let ticket = work.ticket();
            put_by(bench, work);
            Answer::Lent(ticket)
        }
        Step::Idle => Answer::Idle,
        Step::Drained => Answer::Drained,
    }
}

// Stores a work. One that comes back is put by.
fn store_work(bench: &mut Bench, work: Work) -> Answer {
    match bench.disk.store(work) {
        Stored::Did => Answer::Did,
        Stored::Stale => Answer::Stale,
        Stored::Foreign(work) => {
            put_by(bench, work);
            Answer::Foreign
        }
        Stored::Strange(work, place, expected, found) => {
            put_by(bench, work);
            Answer::Strange(place, expected, found)
        }
    }
}

fn store(bench: &mut Bench, ticket: u64) -> Answer {
    match take_work(bench, ticket) {
        Some(mut work) => {
            work.merge();
            store_work(bench, work)
        }
        None => Answer::NoWork,
    }
}

fn spoil(work: &mut Work) {
    work.merge();
    if let Some(byte) = work.bytes_mut().get_mut(3) {
        *byte = 7;
    }
}

fn store_spoilt(bench: &mut Bench, ticket: u64) -> Answer {
    match take_work(bench, ticket) {
        Some(mut work) => {
            spoil(&mut work);
            store_work(bench, work)
        }
        None => Answer::NoWork,
    }
}

fn give_up(bench: &mut Bench, ticket: u64) -> Answer {
    match take_work(bench, ticket) {
        Some(work) => {
            work.discard();
            Answer::Nothing
        }
        None => Answer::NoWork,
    }
}

fn store_held(disk: &mut Disk<Media>, ticket: u64) -> Answer {
    match disk.store_held(ticket) {
        HeldStored::Did => Answer::Did,
        HeldStored::Stale => Answer::Stale,
    }
}

fn held(disk: &Disk<Media>) -> Answer {
    match disk.held() {
        Some(ticket) => Answer::Count(ticket),
        None => Answer::Nothing,
    }
}

fn refit(disk: &mut Disk<Media>) -> Answer {
    match disk.refit() {
        Ok(count) => Answer::Count(u64::from(count)),
        Err(_) => Answer::NoMemory,
    }
}

fn front_of(bytes: &[u8]) -> [u8; 8] {
    let mut front = [0; 8];
    for (to, from) in front.iter_mut().zip(bytes) {
        *to = *from;
    }
    front
}

fn back(done: Done) -> Answer {
    Answer::Back(done.status, front_of(done.buffer.as_slice()))
}

fn collect(disk: &mut Disk<Media>, number: u64) -> Answer {
    match disk.collect(1, number) {
        Ok(done) => back(done),
        Err(NotThere::Outstanding) => Answer::Stands(Mark::Outstanding),
        Err(NotThere::Unknown) => Answer::Stands(Mark::Unknown),
    }
}

fn told_by(event: &mut Option<Event>) -> Option<Status> {
    match event {
        Some(event) => event.check(),
        None => None,
    }
}

fn events(bench: &mut Bench) -> Answer {
    let event = told_by(&mut bench.event);
    let twin = told_by(&mut bench.twin);
    Answer::Shown(event, twin)
}

fn eject(disk: &mut Disk<Media>) -> Answer {
    match disk.eject(2) {
        Ok(count) => Answer::Count(count),
        Err(EjectRefused::NoMedia) => Answer::Refused(Status::NoMedia),
    }
}

fn insert(disk: &mut Disk<Media>) -> Answer {
    match disk.insert(2) {
        Ok(media_id) => Answer::Count(u64::from(media_id)),
        Err(fault) => Answer::NotInserted(fault),
    }
}

fn protect(disk: &mut Disk<Media>, on: bool) -> Answer {
    match disk.protect(1, on) {
        Ok(count) => Answer::Count(count),
        Err(_) => Answer::NoMemory,
    }
}

fn cancel(bench: &mut Bench) -> Answer {
    let view = bench.view;
    Answer::Count(bench.disk.cancel(1, &view))
}

fn reset(disk: &mut Disk<Media>) -> Answer {
    Answer::Count(disk.reset(1))
}

fn works_out(disk: &Disk<Media>) -> Answer {
    Answer::Count(u64::from(disk.works_out()))
}

fn free_sets(disk: &Disk<Media>) -> Answer {
    Answer::Count(u64::from(disk.free_sets()))
}

fn mark(disk: &Disk<Media>, number: u64) -> Answer {
    Answer::Stands(disk.mark(number))
}

pub fn make(alloc: Global, bench: &mut Bench, call: Call) -> Answer {
    match call {
        Call::Write(tag, at, byte, count) => write(alloc, bench, tag, at, byte, count),
        Call::WriteFour(at) => write_four(alloc, bench, at),
        Call::Read(at, count) => read(alloc, bench, at, count),
        Call::Flush => flush(bench),
        Call::EraseTwo => erase_two(bench),
        Call::Step => step(bench),
        Call::Store(ticket) => store(bench, ticket),
        Call::StoreSpoilt(ticket) => store_spoilt(bench, ticket),
        Call::Discard(ticket) => give_up(bench, ticket),
        Call::StoreHeld(ticket) => store_held(&mut bench.disk, ticket),
        Call::Held => held(&bench.disk),
        Call::WorksOut => works_out(&bench.disk),
        Call::FreeSets => free_sets(&bench.disk),
        Call::Refit => refit(&mut bench.disk),
        Call::Collect(number) => collect(&mut bench.disk, number),
        Call::Mark(number) => mark(&bench.disk, number),
        Call::Events => events(bench),
        Call::Cancel => cancel(bench),
        Call::Reset => reset(&mut bench.disk),
        Call::Eject => eject(&mut bench.disk),
        Call::Insert => insert(&mut bench.disk),
        Call::Protect(on) => protect(&mut bench.disk, on),
    }
}
