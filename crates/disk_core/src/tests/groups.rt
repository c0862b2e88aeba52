//! Groups of blocks, and erases.

use super::bench::Answer::{Count, Did, Drained, Idle, Lent};
use super::bench::Call::{EraseTwo, Step, Store, Write, WriteFour};
use super::rows::Seen::{Accept, Done, Fault};
use super::rows::{FETCH_0, Row, STORE_0, compare};
use super::shapes::{PLAIN, Per, Shape};
use history::Command::{Put, Wipe};
use medium::Planned;
use std::test::Fail;

const EIGHT: Shape = Shape {
    more_groups: 1,
    per: Per::Eight,
    ..PLAIN
};

const GROUPS: [Row; 7] = [
    Row {
        shape: EIGHT,
        calls: &[
            (WriteFour(510), Count(0)),
            (Step, Lent(0)),
            (Store(0), Did),
            (Step, Drained),
        ],
        entries: &[Accept, Done(0, FETCH_0), Done(0, STORE_0)],
        kept: &[
            (0, 510, 0),
            (510, 1, 0xaa),
            (511, 1, 0xbb),
            (512, 1, 0xcc),
            (513, 1, 0xdd),
            (514, 7_678, 0),
        ],
    },
    // The store fails after its first block.
    Row {
        shape: Shape {
            plan: Some(Planned { call: 1, done: 1 }),
            ..EIGHT
        },
        calls: &[
            (WriteFour(510), Count(0)),
            (Step, Lent(0)),
            (Store(0), Did),
            (Step, Drained),
        ],
        entries: &[Accept, Done(0, FETCH_0), Fault(0, STORE_0, 1)],
        kept: &[(0, 510, 0), (510, 1, 0xaa), (511, 1, 0xbb), (512, 7_680, 0)],
    },
    // Two blocks of one group.
    Row {
        shape: EIGHT,
        calls: &[
            (Write(1, 0, 1, 1), Count(0)),
            (Write(2, 512, 2, 1), Count(1)),
            (Step, Lent(0)),
            (Step, Idle),
            (Store(0), Did),
            (Step, Lent(1)),
        ],
        entries: &[
            Accept,
            Accept,
            Done(0, FETCH_0),
            Done(0, STORE_0),
            Done(1, FETCH_0),
        ],
        kept: &[(0, 1, 1), (1, 8_191, 0)],
    },
    // A whole group is one put, without a fetch.
    Row {
        shape: EIGHT,
        calls: &[
            (Write(1, 4_096, 3, 4_096), Count(0)),
            (Step, Did),
            (Step, Drained),
        ],
        entries: &[Accept, Done(0, Put { block: 8, count: 8 })],
        kept: &[(0, 4_096, 0), (4_096, 4_096, 3)],
    },
    Row {
        shape: Shape {
            more_groups: 3,
            byte: 0xff,
            ..PLAIN
        },
        calls: &[(EraseTwo, Count(0)), (Step, Did), (Step, Drained)],
        entries: &[Accept, Done(0, Wipe { block: 1, count: 2 })],
        kept: &[(0, 512, 0xff), (512, 1_024, 0), (1_536, 512, 0xff)],
    },
    Row {
        shape: Shape {
            more_groups: 3,
            byte: 0xff,
            plan: Some(Planned { call: 0, done: 1 }),
            ..PLAIN
        },
        calls: &[(EraseTwo, Count(0)), (Step, Did), (Step, Drained)],
        entries: &[Accept, Fault(0, Wipe { block: 1, count: 2 }, 1)],
        kept: &[(0, 512, 0xff), (512, 512, 0), (1_024, 1_024, 0xff)],
    },
    Row {
        shape: Shape {
            byte: 0xff,
            per: Per::Four,
            ..PLAIN
        },
        calls: &[
            (EraseTwo, Count(0)),
            (Step, Lent(0)),
            (Store(0), Did),
            (Step, Drained),
        ],
        entries: &[Accept, Done(0, FETCH_0), Done(0, STORE_0)],
        kept: &[(0, 512, 0xff), (512, 1_024, 0), (1_536, 512, 0xff)],
    },
];

#[test]
fn groups(rt: HostRuntime) -> Result<(), Fail> {
    for (place, row) in GROUPS.iter().enumerate() {
        compare(&rt, rt.alloc(), place, row)?;
    }
    Ok(())
}
