use super::bench::Ask::{
    self, Cancel, Eject, Fill, Flush, Insert, Protect, Read, Reset, Text, Wait,
};
use super::bench::Seen::{self, Accept, Collect, Done, Refuse};
use super::bench::{desk_of, entries_of, run, step, take};
use crate::Line;
use disk_core::{HeldStored, Step};
use efi_status::Status::{MediaChanged, NoMedia};
use history::Command::{Fetch, Get, Store, Sync};
use std::test::Fail;

// The lines of each client, the entries, and what token 1 gives.
struct Row {
    clients: &'static [&'static [Ask]],
    entries: &'static [Seen],
    given: Option<&'static [u8]>,
}

const ROWS: [Row; 6] = [
    // Two whole blocks.
    Row {
        clients: &[&[Text(510), Wait, Read(508, 8)]],
        entries: &[
            Accept(1),
            Done(0, Fetch { block: 0 }),
            Done(0, Store { block: 0 }),
            Done(0, Fetch { block: 1 }),
            Done(0, Store { block: 1 }),
            Collect(1, 0),
            Accept(1),
            Done(1, Get { block: 0, count: 1 }),
            Done(1, Get { block: 1, count: 1 }),
            Collect(1, 1),
        ],
        given: Some(&[0, 0, 0xaa, 0xbb, 0xcc, 0xdd, 0, 0]),
    },
    // A spare.
    Row {
        clients: &[&[Read(0, 512), Wait, Read(0, 512)], &[Eject, Insert]],
        entries: &[
            Accept(1),
            Seen::Eject(2),
            Collect(1, 0),
            Seen::Insert(2, 2),
            Refuse(1, MediaChanged),
        ],
        given: None,
    },
    // Protection ends a write and lets a read go on.
    Row {
        clients: &[&[Fill(0, 0x11, 1)], &[Read(1, 1)], &[Protect(true)]],
        entries: &[
            Accept(1),
            Accept(2),
            Seen::Protect(3, true),
            Done(1, Get { block: 0, count: 1 }),
            Collect(1, 0),
            Collect(2, 1),
        ],
        given: Some(&[0]),
    },
    // Lines that may not come now add no entry.
    Row {
        clients: &[&[Insert, Reset, Cancel, Eject, Eject, Insert, Eject, Insert]],
        entries: &[Seen::Eject(1), Seen::Insert(1, 2), Seen::Eject(1)],
        given: None,
    },
    // A wait asks for the tokens of its own client.
    Row {
        clients: &[&[Flush, Flush], &[Wait, Read(0, 1)]],
        entries: &[
            Accept(1),
            Done(0, Sync),
            Accept(1),
            Accept(2),
            Done(1, Sync),
            Done(2, Get { block: 0, count: 1 }),
            Collect(1, 0),
            Collect(1, 1),
            Collect(2, 2),
        ],
        given: Some(&[]),
    },
    Row {
        clients: &[&[Read(0, 1), Cancel, Eject, Read(0, 1)]],
        entries: &[
            Accept(1),
            Done(0, Get { block: 0, count: 1 }),
            Seen::Eject(1),
            Refuse(1, NoMedia),
            Collect(1, 0),
        ],
        given: None,
    },
];

#[test]
fn runs_lines_plainly(rt: HostRuntime) -> Result<(), Fail> {
    let alloc = rt.alloc();
    for (place, row) in ROWS.iter().enumerate() {
        let mut desk = desk_of(alloc, row.clients)?;
        run(&mut desk);
        let entries = entries_of(alloc, &desk)?;
        assert_eq!(rt; entries.as_slice(), row.entries, "row {place}");
        assert_eq!(rt; desk.given(1), row.given, "row {place}");
        assert!(rt; desk.over(), "row {place}");
    }
    Ok(())
}

// A name for what a line did.
fn name_of(line: Line) -> &'static str {
    match line {
        Line::Did(Some(_)) => "accepted",
        Line::Did(None) => "done",
        Line::Collected(_) => "collected",
        Line::NotYet => "not yet",
        Line::Ended => "ended",
        Line::Memory => "memory",
    }
}

#[test]
fn answers_each_line(rt: HostRuntime) -> Result<(), Fail> {
    let alloc = rt.alloc();
    let mut desk = desk_of(alloc, &[&[Read(0, 1), Wait, Read(9, 9999)], &[Wait]])?;
    assert_eq!(rt; name_of(take(&mut desk, 1)), "accepted");
    assert_eq!(rt; name_of(take(&mut desk, 1)), "not yet");
    assert_eq!(rt; name_of(take(&mut desk, 2)), "done");
    step(&mut desk);
    assert_eq!(rt; name_of(take(&mut desk, 1)), "collected");
    assert_eq!(rt; name_of(take(&mut desk, 1)), "done");
    assert_eq!(rt; desk.collect_last(), None);
    assert_eq!(rt; name_of(take(&mut desk, 1)), "done");
    assert_eq!(rt; name_of(take(&mut desk, 1)), "ended");
    assert_eq!(rt; desk.clients(), 2);
    let (media, _) = desk.into_disk().into_media();
    assert_eq!(rt; media.len(), 2);
    Ok(())
}

// The work of a fetched group is lost: its set is made anew.
#[test]
fn stores_what_is_held(rt: HostRuntime) -> Result<(), Fail> {
    let alloc = rt.alloc();
    let mut desk = desk_of(alloc, &[&[Fill(0, 1, 1), Fill(512, 1, 1)]])?;
    take(&mut desk, 1);
    take(&mut desk, 1);
    match desk.step() {
        Step::Lent(work) => work.discard(),
        Step::Did | Step::Idle | Step::Drained => {}
    }
    assert_eq!(rt; desk.held(), Some(0));
    assert_eq!(rt; desk.store_held(0), HeldStored::Did);
    assert_eq!(rt; desk.refit(), Ok(1));
    step(&mut desk);
    assert_eq!(rt; desk.held(), None);
    assert_eq!(rt; desk.collect_last(), Some(0));
    assert_eq!(rt; desk.collect_last(), Some(1));
    Ok(())
}
