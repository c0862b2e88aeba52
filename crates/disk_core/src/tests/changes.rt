//! Media that go and come, protection, and the cache.

use super::bench::Answer::{Back, Count, Did, Drained, Lent, NotInserted, Refused};
use super::bench::Call::{Collect, Eject, Flush, Insert, Protect, Read, Step, Store, Write};
use super::rows::Seen::{self, Accept, Done, Fault};
use super::rows::{FETCH_0, Row, STORE_0, compare};
use super::shapes::{PLAIN, Shape};
use drive::InsertFault::{NoSpare, Occupied};
use efi_status::Status::{DeviceError, MediaChanged, NoMedia, Success, WriteProtected};
use history::Command::{Get, Sync};
use medium::Planned;
use std::test::Fail;

const CHANGES: [Row; 5] = [
    Row {
        shape: Shape {
            more_groups: 1,
            spare: true,
            ..PLAIN
        },
        calls: &[
            (Read(0, 512), Count(0)),
            (Insert, NotInserted(Occupied)),
            (Eject, Count(1)),
            (Eject, Refused(NoMedia)),
            (Collect(0), Back(NoMedia, [7, 7, 7, 7, 7, 7, 7, 7])),
            (Read(0, 512), Refused(NoMedia)),
            (Insert, Count(2)),
            (Read(0, 512), Refused(MediaChanged)),
            (Eject, Count(0)),
            (Insert, NotInserted(NoSpare)),
        ],
        entries: &[
            Accept,
            Seen::Eject,
            Seen::Collect(0),
            Seen::Refuse(NoMedia),
            Seen::Insert(2),
            Seen::Refuse(MediaChanged),
            Seen::Eject,
        ],
        kept: &[(0, 1_536, 0)],
    },
    // Protection ends a write and lets a read go on.
    Row {
        shape: PLAIN,
        calls: &[
            (Read(0, 1), Count(0)),
            (Write(1, 0, 1, 1), Count(1)),
            (Protect(true), Count(1)),
            (Write(1, 0, 1, 1), Refused(WriteProtected)),
            (Step, Did),
            (Step, Drained),
            (Collect(0), Back(Success, [0, 0, 0, 0, 0, 0, 0, 0])),
            (Collect(1), Back(WriteProtected, [1, 0, 0, 0, 0, 0, 0, 0])),
            (Protect(false), Count(0)),
            (Write(1, 0, 1, 1), Count(2)),
        ],
        entries: &[
            Accept,
            Accept,
            Seen::Protect(true),
            Seen::Refuse(WriteProtected),
            Done(0, Get { block: 0, count: 1 }),
            Seen::Collect(0),
            Seen::Collect(1),
            Seen::Protect(false),
            Accept,
        ],
        kept: &[(0, 512, 0)],
    },
    // What was written to the cache goes with the medium ..
    Row {
        shape: Shape {
            cached: true,
            ..PLAIN
        },
        calls: &[
            (Write(1, 0, 0x11, 1), Count(0)),
            (Step, Lent(0)),
            (Store(0), Did),
            (Step, Drained),
            (Eject, Count(0)),
        ],
        entries: &[Accept, Done(0, FETCH_0), Done(0, STORE_0), Seen::Eject],
        kept: &[(0, 512, 0)],
    },
    // .. and stays after a flush ..
    Row {
        shape: Shape {
            cached: true,
            ..PLAIN
        },
        calls: &[
            (Write(1, 0, 0x11, 1), Count(0)),
            (Step, Lent(0)),
            (Store(0), Did),
            (Collect(0), Back(Success, [0x11, 0, 0, 0, 0, 0, 0, 0])),
            (Flush, Count(1)),
            (Step, Did),
            (Collect(1), Back(Success, [0, 0, 0, 0, 0, 0, 0, 0])),
            (Eject, Count(0)),
        ],
        entries: &[
            Accept,
            Done(0, FETCH_0),
            Done(0, STORE_0),
            Seen::Collect(0),
            Accept,
            Done(1, Sync),
            Seen::Collect(1),
            Seen::Eject,
        ],
        kept: &[(0, 1, 0x11), (1, 511, 0)],
    },
    // .. whose sync did not fail.
    Row {
        shape: Shape {
            cached: true,
            plan: Some(Planned { call: 0, done: 0 }),
            ..PLAIN
        },
        calls: &[
            (Flush, Count(0)),
            (Step, Did),
            (Collect(0), Back(DeviceError, [0, 0, 0, 0, 0, 0, 0, 0])),
        ],
        entries: &[Accept, Fault(0, Sync, 0), Seen::Collect(0)],
        kept: &[(0, 512, 0)],
    },
];

#[test]
fn changes(rt: HostRuntime) -> Result<(), Fail> {
    for (place, row) in CHANGES.iter().enumerate() {
        compare(&rt, rt.alloc(), place, row)?;
    }
    Ok(())
}
