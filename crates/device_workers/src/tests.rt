ghost use Rattle.std.specs.Prelude.{◌≡◌, ◌%◌, ◌<◌, ◌≤◌, false, [], All, IfOk, length, vec_len};
ghost use Rattle.medium.specs.Device.{IsFresh};
ghost use Rattle.disk_core.specs.Turns.{IsIdle};
ghost use Rattle.shared_disk.specs.Desk.{AreDeskClients, IsDeskOrder, Keeps};

use crate::plain_run::take_lines;
use crate::{finish, plain};
use disk_core::{Disk, Step};
use drive::Drive;
use efi_status::Status;
use history::{Asked, Command, Entry, Kind, Order, Payload, UnitKind};
use medium::{Medium, MemMedium};
use shared_disk::{Client, Desk, Stand};
use std::alloc::{AllocError, Global};
use std::test::Fail;

// A line of a client. Requests are for one byte of the first medium.
enum Act {
    Read(u64),
    Write(u64, u8),
    Wait,
    Eject,
    Insert,
    Protect,
}

// The lines of three clients, and what a plain run makes of them.
#[derive(Drop)]
struct Case {
    clients: [&'static [Act]; 3],
    entries: &'static [Seen],
}

fn order(act: &Act) -> Order
    ensures { IsDeskOrder result }
{
    match act {
        Act::Read(at) => Order::Request {
            asked: Asked {
                kind: Kind::Read,
                unit: UnitKind::Bytes,
                at: *at,
                length: 1,
            },
            payload: Payload::Nothing,
            media_id: 1,
        },
        Act::Write(at, byte) => Order::Request {
            asked: Asked {
                kind: Kind::Write,
                unit: UnitKind::Bytes,
                at: *at,
                length: 1,
            },
            payload: Payload::Fill(*byte),
            media_id: 1,
        },
        Act::Wait => Order::Wait,
        Act::Eject => Order::Eject,
        Act::Insert => Order::Insert,
        Act::Protect => Order::Protect { on: true },
    }
}

// What an entry is, but for views, bytes and what was asked.
#[derive(Clone, Copy, Debug, PartialEq, Eq)]
enum Seen {
    Accept(u32),
    Refuse(u32, Status),
    Did(u64, Command),
    Fault(u64, Command),
    Collect(u32, u64),
    Cancel(u32),
    Reset(u32),
    Eject(u32),
    Insert(u32, u32),
    Protect(u32, bool),
}

fn summary(entry: &Entry) -> Seen {
    match entry {
        Entry::Accept { tag, .. } => Seen::Accept(*tag),
        Entry::Refuse { tag, status, .. } => Seen::Refuse(*tag, *status),
        Entry::Done { token, command } => Seen::Did(*token, *command),
        Entry::Fault { token, command, .. } => Seen::Fault(*token, *command),
        Entry::Collect { tag, token } => Seen::Collect(*tag, *token),
        Entry::Cancel { tag, .. } => Seen::Cancel(*tag),
        Entry::Reset { tag } => Seen::Reset(*tag),
        Entry::Eject { tag } => Seen::Eject(*tag),
        Entry::Insert { tag, media_id } => Seen::Insert(*tag, *media_id),
        Entry::Protect { tag, on } => Seen::Protect(*tag, *on),
    }
}

// A medium of so many zero blocks.
fn medium_of(alloc: Global, blocks: u16) -> Result<MemMedium, AllocError>
    requires some { 0 < blocks }
    ensures fresh { IfOk result (λ m. IsFresh (⟦<MemMedium as Medium>⟧.device m)) }
    ensures size { IfOk result (λ m. (⟦<MemMedium as Medium>⟧.device m).size ≡ 512) }
    ensures cached { IfOk result (λ m. (⟦<MemMedium as Medium>⟧.device m).cached ≡ false) }
    ensures whole { IfOk result (λ m. (⟦<MemMedium as Medium>⟧.device m).blocks % 1 ≡ 0) }
{
    let bytes = vec![in alloc; 0; usize::from(blocks) * 512]?;
    MemMedium::make(alloc, bytes, 512)
}

// A medium of two blocks and a spare of one.
fn media_of(alloc: Global) -> Result<Vec<MemMedium>, AllocError>
    ensures count { IfOk result (λ media. vec_len media ≡ 2) }
    ensures fresh { IfOk result (λ media. All (λ m. IsFresh (⟦<MemMedium as Medium>⟧.device m)) media.items) }
    ensures size { IfOk result (λ media. All (λ m. (⟦<MemMedium as Medium>⟧.device m).size ≡ 512) media.items) }
    ensures cached { IfOk result (λ media. All (λ m. (⟦<MemMedium as Medium>⟧.device m).cached ≡ false) media.items) }
    ensures whole { IfOk result (λ media. All (λ m. (⟦<MemMedium as Medium>⟧.device m).blocks % 1 ≡ 0) media.items) }
{
    let mut media = Vec::new(alloc);
    media.push(medium_of(alloc, 2)?)?;
    media.push(medium_of(alloc, 1)?)?;
    Ok(media)
}

// A disk on which nothing has happened.
fn disk_of(alloc: Global) -> Result<Disk<MemMedium>, AllocError>
    ensures entries { IfOk result (λ disk. disk.entries ≡ []) }
    ensures idle { IfOk result (λ disk. IsIdle disk.gates) }
{
    let drive = Drive::make(media_of(alloc)?, false, false, 1);
    match Disk::make(alloc, drive, 1) {
        Ok(disk) => Ok(disk),
        Err(_) => Err(AllocError),
    }
}

// A desk over that disk.
fn desk_of(alloc: Global, clients: Vec<Client>) -> Result<Desk<MemMedium>, AllocError>
    requires clients { AreDeskClients clients.items }
    ensures keeps { IfOk result Keeps }
    ensures idle { IfOk result (λ desk. IsIdle desk.disk.gates) }
{
    match Desk::make(alloc, disk_of(alloc)?, clients) {
        Ok(desk) => Ok(desk),
        Err(_) => Err(AllocError),
    }
}

// At most eight lines of a client.
fn client_of(alloc: Global, acts: &[Act]) -> Result<Client, AllocError>
    ensures few { IfOk result (λ client. length client.orders.items ≤ 8) }
    ensures orders { IfOk result (λ client. All IsDeskOrder client.orders.items) }
{
    if acts.len() > 8 {
        return Err(AllocError);
    }
    let mut orders = Vec::new(alloc);
    for act in acts {
        orders.push(order(act))?;
    }
    Ok(Client {
        stand: Stand::Whole,
        orders,
    })
}

fn clients_of(alloc: Global, case: &Case) -> Result<Vec<Client>, AllocError>
    ensures { IfOk result (λ clients. AreDeskClients clients.items) }
{
    let [first, second, third] = case.clients;
    let first = client_of(alloc, first)?;
    let second = client_of(alloc, second)?;
    let third = client_of(alloc, third)?;
    Ok(vec![in alloc; first, second, third]?)
}

// What the entries of a desk are, oldest first.
fn seen_on(alloc: Global, desk: &Desk<MemMedium>) -> Result<Vec<Seen>, AllocError> {
    let mut all = Vec::new(alloc);
    for entry in desk.disk().history().entries() {
        all.push(summary(entry))?;
    }
    Ok(all)
}

// What a plain run enters.
fn run(alloc: Global, clients: Vec<Client>) -> Result<Vec<Seen>, AllocError>
    requires clients { AreDeskClients clients.items }
{
    let mut desk = desk_of(alloc, clients)?;
    plain(&mut desk)?;
    seen_on(alloc, &desk)
}

// Makes a command, and loses its work.
fn step_away(desk: &mut Desk<MemMedium>)
    requires keeps { Keeps desk.old }
    ensures keeps { Keeps desk.new }
{
    match desk.step() {
        Step::Lent(work) => work.discard(),
        Step::Did | Step::Idle | Step::Drained => {}
    }
}

// What is entered where each client has done a line, a work was lost, and the desk is finished then.
fn finish_rest(alloc: Global, clients: Vec<Client>) -> Result<Vec<Seen>, AllocError>
    requires clients { AreDeskClients clients.items }
{
    let mut desk = desk_of(alloc, clients)?;
    take_lines(&mut desk)?;
    step_away(&mut desk);
    finish(&mut desk)?;
    seen_on(alloc, &desk)
}

// Three clients with a protection; a medium that is ejected under a read; collects of the last round in order of number.
const CASES: &[Case] = &[
    Case {
        clients: [&[Act::Write(0, 17)], &[Act::Read(1)], &[Act::Protect]],
        entries: &[
            Seen::Accept(1),
            Seen::Accept(2),
            Seen::Protect(3, true),
            Seen::Did(1, Command::Get { block: 0, count: 1 }),
            Seen::Collect(1, 0),
            Seen::Collect(2, 1),
        ],
    },
    Case {
        clients: [
            &[Act::Read(0), Act::Wait, Act::Read(0)],
            &[Act::Eject, Act::Insert],
            &[],
        ],
        entries: &[
            Seen::Accept(1),
            Seen::Eject(2),
            Seen::Collect(1, 0),
            Seen::Insert(2, 2),
            Seen::Refuse(1, Status::MediaChanged),
        ],
    },
    Case {
        clients: [
            &[Act::Read(0), Act::Read(1)],
            &[Act::Write(512, 34), Act::Wait],
            &[],
        ],
        entries: &[
            Seen::Accept(1),
            Seen::Accept(2),
            Seen::Did(0, Command::Get { block: 0, count: 1 }),
            Seen::Accept(1),
            Seen::Did(1, Command::Fetch { block: 1 }),
            Seen::Did(1, Command::Store { block: 1 }),
            Seen::Collect(2, 1),
            Seen::Did(2, Command::Get { block: 0, count: 1 }),
            Seen::Collect(1, 0),
            Seen::Collect(1, 2),
        ],
    },
];

#[test]
fn serves_clients(rt: HostRuntime) -> Result<(), Fail> {
    let alloc = rt.alloc();
    for case in CASES {
        let ran = run(alloc, clients_of(alloc, case)?)?;
        assert_eq!(rt; ran.as_slice(), case.entries);
    }
    Ok(())
}

// A group whose work was lost is stored from its kept copy, and the rest is served.
const LOST: Case = Case {
    clients: [&[Act::Write(0, 17)], &[Act::Read(0)], &[]],
    entries: &[
        Seen::Accept(1),
        Seen::Accept(2),
        Seen::Did(0, Command::Fetch { block: 0 }),
        Seen::Did(0, Command::Store { block: 0 }),
        Seen::Did(1, Command::Get { block: 0, count: 1 }),
        Seen::Collect(1, 0),
        Seen::Collect(2, 1),
    ],
};

#[test]
fn finishes_what_is_held(rt: HostRuntime) -> Result<(), Fail> {
    let alloc = rt.alloc();
    let seen = finish_rest(alloc, clients_of(alloc, &LOST)?)?;
    assert_eq!(rt; seen.as_slice(), LOST.entries);
    Ok(())
}
