//! A row: calls of a disk with their answers, its entries, and the bytes that it leaves.

use super::bench::{Answer, Bench, Call, bench_of, disk_in, make};
use super::shapes::{Media, Shape, disk_of, kept_bytes};
use crate::Disk;
use efi_status::Status;
use history::{Command, Entry};
use std::alloc::{AllocError, Global};
use std::process::Abort;

// An entry as the rows name it.
#[derive(Clone, Copy, Debug, PartialEq, Eq)]
pub enum Seen {
    Accept,
    Refuse(Status),
    Done(u64, Command),
    Fault(u64, Command, u32),
    Collect(u64),
    Cancel,
    Reset,
    Eject,
    Insert(u32),
    Protect(bool),
}

// The calls of a disk with their answers, its entries after them, and what its media keep, one after the other: from a place on
// so many times this byte.
#[derive(Clone, Copy)]
pub struct Row {
    pub shape: Shape,
    pub calls: &'static [(Call, Answer)],
    pub entries: &'static [Seen],
    pub kept: &'static [(usize, usize, u8)],
}

// Commands of the first two groups, where a group is one block.
pub const FETCH_0: Command = Command::Fetch { block: 0 };

pub const STORE_0: Command = Command::Store { block: 0 };

pub const FETCH_1: Command = Command::Fetch { block: 1 };

pub const STORE_1: Command = Command::Store { block: 1 };

fn named(entry: &Entry) -> Seen {
    match entry {
        Entry::Accept { .. } => Seen::Accept,
        Entry::Refuse { status, .. } => Seen::Refuse(*status),
        Entry::Done { token, command } => Seen::Done(*token, *command),
        Entry::Fault {
            token,
            command,
            done,
        } => Seen::Fault(*token, *command, *done),
        Entry::Collect { token, .. } => Seen::Collect(*token),
        Entry::Cancel { .. } => Seen::Cancel,
        Entry::Reset { .. } => Seen::Reset,
        Entry::Eject { .. } => Seen::Eject,
        Entry::Insert { media_id, .. } => Seen::Insert(*media_id),
        Entry::Protect { on, .. } => Seen::Protect(*on),
    }
}

fn entries_of(alloc: Global, disk: &Disk<Media>) -> Result<Vec<Seen>, AllocError> {
    let mut seen = Vec::new(alloc);
    for entry in disk.history().entries() {
        seen.push(named(entry))?;
    }
    Ok(seen)
}

// Whether so many bytes from a place on are there and are this byte.
fn are(bytes: &[u8], at: usize, count: usize, byte: u8) -> bool {
    let part = bytes.iter().skip(at).take(count);
    part.filter(|found| **found == byte).count() == count
}

// Makes the calls of the row, and compares their answers.
pub fn make_calls(rt: &impl Abort, alloc: Global, bench: &mut Bench, place: usize, row: &Row) {
    for (call, wanted) in row.calls {
        let answer = make(alloc, bench, *call);
        assert_eq!(rt; answer, *wanted, "row {place}");
    }
}

// Makes the calls of the row of this place in its table, and compares what it says.
pub fn compare(rt: &impl Abort, alloc: Global, place: usize, row: &Row) -> Result<(), AllocError> {
    let mut bench = bench_of(disk_of(alloc, row.shape)?, row.shape);
    make_calls(rt, alloc, &mut bench, place, row);
    let disk = disk_in(bench);
    let entries = entries_of(alloc, &disk)?;
    assert_eq!(rt; entries.as_slice(), row.entries, "row {place}");
    let kept = kept_bytes(alloc, disk).expect(rt, "bytes");
    for (at, count, byte) in row.kept {
        assert!(rt; are(&kept, *at, *count, *byte), "row {place}");
    }
    Ok(())
}
