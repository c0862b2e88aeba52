//! Desks of the rows: which lines they have, and the plain schedule over them.

ghost use Rattle.std.specs.Prelude.{◌≡◌, ◌<◌, ◌≤◌, false, [], All, IfOk, length, vec_len};
ghost use Rattle.medium.specs.Device.{IsFresh};
ghost use Rattle.shared_disk.specs.Desk.{IsDeskOrder, AreDeskClients};

use crate::{Client, Desk, Line, Stand};
use byte_lists::Bytes;
use disk_core::{Disk, Step, Stored};
use drive::Drive;
use efi_status::Status;
use history::{Asked, Command, Entry, Kind, Order, Payload, UnitKind};
use medium::{Medium, MemMedium};
use std::alloc::{AllocError, Global};

// What a line asks, of medium 1.
#[derive(Clone, Copy)]
pub enum Ask {
    // Writes the bytes aa bb cc dd from this one on.
    Text(u16),
    // Writes one byte so many times.
    Fill(u16, u8, u16),
    Read(u16, u16),
    Flush,
    Wait,
    Cancel,
    Reset,
    Eject,
    Insert,
    Protect(bool),
}

// What an entry says.
#[derive(Clone, Copy, Debug, PartialEq, Eq)]
pub enum Seen {
    Accept(u32),
    Refuse(u32, Status),
    Done(u64, Command),
    Fault(u64),
    Collect(u32, u64),
    Cancel(u32),
    Reset(u32),
    Eject(u32),
    Insert(u32, u32),
    Protect(u32, bool),
}

// A request for bytes, or a flush.
fn request(kind: Kind, at: u16, length: u16, payload: Payload) -> Order
    ensures { result ≡ Order.Request
        (record { kind = kind; unit = UnitKind.Bytes; at = at; length = length }) payload 1 }
{
    Order::Request {
        asked: Asked {
            kind,
            unit: UnitKind::Bytes,
            at: u64::from(at),
            length: u64::from(length),
        },
        payload,
        media_id: 1,
    }
}

fn order_of(alloc: Global, ask: Ask) -> Result<Order, AllocError>
    ensures { IfOk result IsDeskOrder }
{
    Ok(match ask {
        Ask::Text(at) => {
            let bytes = Bytes::copy_of(alloc, &[0xaa, 0xbb, 0xcc, 0xdd])?;
            request(Kind::Write, at, 4, Payload::Given(bytes))
        }
        Ask::Fill(at, byte, length) => request(Kind::Write, at, length, Payload::Fill(byte)),
        Ask::Read(at, length) => request(Kind::Read, at, length, Payload::Nothing),
        Ask::Flush => request(Kind::Flush, 0, 0, Payload::Nothing),
        Ask::Wait => Order::Wait,
        Ask::Cancel => Order::Cancel { media_id: 1 },
        Ask::Reset => Order::Reset,
        Ask::Eject => Order::Eject,
        Ask::Insert => Order::Insert,
        Ask::Protect(on) => Order::Protect { on },
    })
}

// A client of the whole disk, with at most 16 lines.
fn client_of(alloc: Global, asks: &[Ask]) -> Result<Client, AllocError>
    ensures orders { IfOk result (λ client. All IsDeskOrder client.orders.items) }
    ensures few { IfOk result (λ client. length client.orders.items ≤ 16) }
{
    if asks.len() > 16 {
        return Err(AllocError);
    }
    let mut orders = Vec::new(alloc);
    for ask in asks {
        orders.push(order_of(alloc, *ask)?)?;
    }
    Ok(Client {
        stand: Stand::Whole,
        orders,
    })
}

// At most 4 clients.
fn clients_of(alloc: Global, rows: &[&[Ask]]) -> Result<Vec<Client>, AllocError>
    ensures { IfOk result (λ clients. AreDeskClients clients.items) }
{
    if rows.len() > 4 {
        return Err(AllocError);
    }
    let mut clients = Vec::new(alloc);
    for asks in rows {
        clients.push(client_of(alloc, asks)?)?;
    }
    Ok(clients)
}

// A medium of so many zero blocks.
fn medium_of(alloc: Global, blocks: u8) -> Result<MemMedium, AllocError>
    requires { 0 < blocks }
    ensures fresh { IfOk result (λ m. IsFresh (⟦<MemMedium as Medium>⟧.device m)) }
    ensures size { IfOk result (λ m. (⟦<MemMedium as Medium>⟧.device m).size ≡ 512) }
    ensures cached { IfOk result (λ m. (⟦<MemMedium as Medium>⟧.device m).cached ≡ false) }
{
    MemMedium::make(alloc, vec![in alloc; 0; usize::from(blocks) * 512]?, 512)
}

// Two media, of two blocks and of one.
fn media_of(alloc: Global) -> Result<Vec<MemMedium>, AllocError>
    ensures some { IfOk result (λ media. 0 < vec_len media) }
    ensures few { IfOk result (λ media. vec_len media ≤ 2) }
    ensures fresh { IfOk result
        (λ media. All (λ m. IsFresh (⟦<MemMedium as Medium>⟧.device m)) media.items) }
    ensures size { IfOk result
        (λ media. All (λ m. (⟦<MemMedium as Medium>⟧.device m).size ≡ 512) media.items) }
    ensures cached { IfOk result
        (λ media. All (λ m. (⟦<MemMedium as Medium>⟧.device m).cached ≡ false) media.items) }
{
    let mut media = Vec::new(alloc);
    media.push(medium_of(alloc, 2)?)?;
    media.push(medium_of(alloc, 1)?)?;
    Ok(media)
}

// A disk over these media.
fn disk_of(alloc: Global) -> Result<Disk<MemMedium>, AllocError>
    ensures { IfOk result (λ disk. disk.entries ≡ []) }
{
    let media = media_of(alloc)?;
    match Disk::make(alloc, Drive::make(media, false, false, 1), 1) {
        Ok(disk) => Ok(disk),
        Err(_) => Err(AllocError),
    }
}

// A desk over a disk of two blocks with a spare of one.
pub fn desk_of(alloc: Global, rows: &[&[Ask]]) -> Result<Desk<MemMedium>, AllocError> {
    let clients = clients_of(alloc, rows)?;
    match Desk::make(alloc, disk_of(alloc)?, clients) {
        Ok(desk) => Ok(desk),
        Err(_) => Err(AllocError),
    }
}

// The next line of a client. A client that is not there has none.
pub fn take(desk: &mut Desk<MemMedium>, client: u32) -> Line {
    if client == 0 || client > desk.clients() {
        return Line::Ended;
    }
    desk.line(client)
}

// The line of a client's turn: a wait collects what it may.
fn take_turn(desk: &mut Desk<MemMedium>, client: u32) {
    for _ in 0..8 {
        match take(desk, client) {
            Line::Collected(_) => {}
            _ => return,
        }
    }
}

// A command, and a fetched group is stored at once.
pub fn step(desk: &mut Desk<MemMedium>) {
    match desk.step() {
        Step::Lent(mut work) => {
            work.merge();
            match desk.store(work) {
                Stored::Did | Stored::Stale => {}
                Stored::Foreign(work) | Stored::Strange(work, _, _, _) => work.discard(),
            }
        }
        Step::Did | Step::Idle | Step::Drained => {}
    }
}

// The lines by the plain schedule, and the last collects.
pub fn run(desk: &mut Desk<MemMedium>) {
    for _ in 0..32 {
        for client in 1..5 {
            take_turn(desk, client);
        }
        step(desk);
    }
    for _ in 0..16 {
        desk.collect_last();
    }
}

fn named(entry: &Entry) -> Seen {
    match entry {
        Entry::Accept { tag, .. } => Seen::Accept(*tag),
        Entry::Refuse { tag, status, .. } => Seen::Refuse(*tag, *status),
        Entry::Done { token, command } => Seen::Done(*token, *command),
        Entry::Fault { token, .. } => Seen::Fault(*token),
        Entry::Collect { tag, token } => Seen::Collect(*tag, *token),
        Entry::Cancel { tag, .. } => Seen::Cancel(*tag),
        Entry::Reset { tag } => Seen::Reset(*tag),
        Entry::Eject { tag } => Seen::Eject(*tag),
        Entry::Insert { tag, media_id } => Seen::Insert(*tag, *media_id),
        Entry::Protect { tag, on } => Seen::Protect(*tag, *on),
    }
}

pub fn entries_of(alloc: Global, desk: &Desk<MemMedium>) -> Result<Vec<Seen>, AllocError> {
    let mut seen = Vec::new(alloc);
    for entry in desk.disk().history().entries() {
        seen.push(named(entry))?;
    }
    Ok(seen)
}
