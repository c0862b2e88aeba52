//! Works that come back merged, changed, late, to another disk, or never.

use super::bench::Answer::{
    Back, Count, Did, Drained, Foreign, Idle, Lent, Nothing, Shown, Stale, Stands, Strange,
};
use super::bench::Call::{
    Cancel, Collect, Discard, Events, FreeSets, Held, Mark, Refit, Step, Store, StoreHeld,
    StoreSpoilt, WorksOut, Write,
};
use super::bench::{bench_of, disk_in, hand_over, make};
use super::rows::Seen::{self, Accept, Done};
use super::rows::{FETCH_0, FETCH_1, Row, STORE_0, compare};
use super::shapes::{PLAIN, Shape, disk_of};
use efi_status::Status::Aborted;
use history::Command::Put;
use std::test::Fail;
use token_table::Mark::{Ended, Outstanding, Unknown};

const WORKS: [Row; 5] = [
    // The write of one request waits for that of another to the same block.
    Row {
        shape: PLAIN,
        calls: &[
            (Write(1, 0, 1, 10), Count(0)),
            (Write(2, 10, 2, 10), Count(1)),
            (Step, Lent(0)),
            (Step, Idle),
            (Collect(0), Stands(Outstanding)),
            (Collect(9), Stands(Unknown)),
            (Store(0), Did),
            (Step, Lent(1)),
            (Store(1), Did),
            (Step, Drained),
        ],
        entries: &[
            Accept,
            Accept,
            Done(0, FETCH_0),
            Done(0, STORE_0),
            Done(1, FETCH_0),
            Done(1, STORE_0),
        ],
        kept: &[(0, 10, 1), (10, 10, 2), (20, 492, 0)],
    },
    // So does that of a whole block.
    Row {
        shape: PLAIN,
        calls: &[
            (Write(1, 0, 1, 10), Count(0)),
            (Write(2, 0, 2, 512), Count(1)),
            (Step, Lent(0)),
            (Step, Idle),
            (Store(0), Did),
            (Step, Did),
        ],
        entries: &[
            Accept,
            Accept,
            Done(0, FETCH_0),
            Done(0, STORE_0),
            Done(1, Put { block: 0, count: 1 }),
        ],
        kept: &[(0, 512, 2)],
    },
    // A work with a wrong byte is refused, and the kept copy is written in its place.
    Row {
        shape: PLAIN,
        calls: &[
            (Write(1, 0, 0xff, 1), Count(0)),
            (Step, Lent(0)),
            (StoreSpoilt(0), Strange(3, 0, 7)),
            (Mark(0), Stands(Outstanding)),
            (StoreHeld(0), Did),
            (StoreHeld(0), Stale),
            (WorksOut, Count(1)),
            (Store(0), Stale),
            (WorksOut, Count(0)),
            (FreeSets, Count(2)),
        ],
        entries: &[Accept, Done(0, FETCH_0), Done(0, STORE_0)],
        kept: &[(0, 1, 0xff), (1, 511, 0)],
    },
    // The one set of a work that never comes back is made anew.
    Row {
        shape: Shape {
            more_groups: 1,
            second_set: false,
            ..PLAIN
        },
        calls: &[
            (Held, Nothing),
            (Write(1, 0, 1, 1), Count(0)),
            (Write(1, 512, 1, 1), Count(1)),
            (Step, Lent(0)),
            (Step, Idle),
            (Discard(0), Nothing),
            (Held, Count(0)),
            (StoreHeld(0), Did),
            (Step, Idle),
            (Refit, Count(1)),
            (Step, Lent(1)),
        ],
        entries: &[
            Accept,
            Accept,
            Done(0, FETCH_0),
            Done(0, STORE_0),
            Done(1, FETCH_1),
        ],
        kept: &[(0, 1, 1), (512, 1, 0)],
    },
    // The work of a cancelled request comes back late.
    Row {
        shape: PLAIN,
        calls: &[
            (Write(1, 4, 9, 4), Count(0)),
            (Events, Shown(None, None)),
            (Step, Lent(0)),
            (Cancel, Count(1)),
            (Events, Shown(Some(Aborted), Some(Aborted))),
            (Mark(0), Stands(Ended(Aborted))),
            (Store(0), Stale),
            (WorksOut, Count(0)),
            (Collect(0), Back(Aborted, [9, 9, 9, 9, 0, 0, 0, 0])),
            (Collect(0), Stands(Unknown)),
            (Cancel, Count(0)),
        ],
        entries: &[Accept, Done(0, FETCH_0), Seen::Cancel, Seen::Collect(0)],
        kept: &[(0, 512, 0)],
    },
];

#[test]
fn works(rt: HostRuntime) -> Result<(), Fail> {
    for (place, row) in WORKS.iter().enumerate() {
        compare(&rt, rt.alloc(), place, row)?;
    }
    Ok(())
}

#[test]
fn work_of_another_disk(rt: HostRuntime) -> Result<(), Fail> {
    let alloc = rt.alloc();
    let disk = disk_of(alloc, PLAIN)?;
    let mut other = bench_of(disk_of(alloc, PLAIN)?, PLAIN);
    let mut one = bench_of(disk, PLAIN);
    let accepted = make(alloc, &mut one, Write(1, 0, 1, 1));
    let lent = make(alloc, &mut one, Step);
    hand_over(&mut one, &mut other, 0);
    let stored = make(alloc, &mut other, Store(0));
    disk_in(one);
    disk_in(other);
    assert_eq!(rt; [accepted, lent, stored], [Count(0), Lent(0), Foreign]);
    Ok(())
}
