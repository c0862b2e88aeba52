//! A work that is out while its request ends: it is stale, and nothing of it is written.

use super::bench::Answer::{Back, Count, Did, Lent, Stale};
use super::bench::Call::{
    Cancel, Collect, Eject, Insert, Protect, Reset, Step, Store, WorksOut, Write, WriteFour,
};
use super::rows::Seen::{self, Accept, Done, Fault};
use super::rows::{FETCH_0, FETCH_1, Row, STORE_0, compare};
use super::shapes::{PLAIN, Shape};
use efi_status::Status::{self, Aborted, DeviceError, NoMedia, WriteProtected};
use medium::Planned;
use std::test::Fail;

const ZEROS: &[(usize, usize, u8)] = &[(0, 512, 0)];

const LATE: [Row; 5] = [
    Row {
        shape: PLAIN,
        calls: &[
            (Write(1, 0, 1, 1), Count(0)),
            (Step, Lent(0)),
            (Cancel, Count(1)),
            (WorksOut, Count(1)),
            (Store(0), Stale),
            (WorksOut, Count(0)),
            (Collect(0), Back(Aborted, [1, 0, 0, 0, 0, 0, 0, 0])),
        ],
        entries: &[Accept, Done(0, FETCH_0), Seen::Cancel, Seen::Collect(0)],
        kept: ZEROS,
    },
    Row {
        shape: PLAIN,
        calls: &[
            (Write(1, 0, 1, 1), Count(0)),
            (Step, Lent(0)),
            (Reset, Count(1)),
            (WorksOut, Count(1)),
            (Store(0), Stale),
            (WorksOut, Count(0)),
            (Collect(0), Back(Aborted, [1, 0, 0, 0, 0, 0, 0, 0])),
        ],
        entries: &[Accept, Done(0, FETCH_0), Seen::Reset, Seen::Collect(0)],
        kept: ZEROS,
    },
    Row {
        shape: Shape {
            spare: true,
            ..PLAIN
        },
        calls: &[
            (Write(1, 0, 1, 1), Count(0)),
            (Step, Lent(0)),
            (Eject, Count(1)),
            (Insert, Count(2)),
            (WorksOut, Count(1)),
            (Store(0), Stale),
            (WorksOut, Count(0)),
            (Collect(0), Back(NoMedia, [1, 0, 0, 0, 0, 0, 0, 0])),
        ],
        entries: &[
            Accept,
            Done(0, FETCH_0),
            Seen::Eject,
            Seen::Insert(2),
            Seen::Collect(0),
        ],
        kept: &[(0, 1_024, 0)],
    },
    Row {
        shape: PLAIN,
        calls: &[
            (Write(1, 0, 1, 1), Count(0)),
            (Step, Lent(0)),
            (Protect(true), Count(1)),
            (WorksOut, Count(1)),
            (Store(0), Stale),
            (WorksOut, Count(0)),
            (Collect(0), Back(WriteProtected, [1, 0, 0, 0, 0, 0, 0, 0])),
        ],
        entries: &[
            Accept,
            Done(0, FETCH_0),
            Seen::Protect(true),
            Seen::Collect(0),
        ],
        kept: ZEROS,
    },
    // The store of its first part fails.
    Row {
        shape: Shape {
            more_groups: 1,
            plan: Some(Planned { call: 2, done: 0 }),
            ..PLAIN
        },
        calls: &[
            (WriteFour(510), Count(0)),
            (Step, Lent(0)),
            (Step, Lent(1)),
            (Store(0), Did),
            (WorksOut, Count(1)),
            (Store(1), Stale),
            (WorksOut, Count(0)),
            (
                Collect(0),
                Back(DeviceError, [0xaa, 0xbb, 0xcc, 0xdd, 0, 0, 0, 0]),
            ),
        ],
        entries: &[
            Accept,
            Done(0, FETCH_0),
            Done(0, FETCH_1),
            Fault(0, STORE_0, 0),
            Seen::Collect(0),
        ],
        kept: &[(0, 1_024, 0)],
    },
];

#[test]
fn late(rt: HostRuntime) -> Result<(), Fail> {
    for (place, row) in LATE.iter().enumerate() {
        compare(&rt, rt.alloc(), place, row)?;
    }
    Ok(())
}
