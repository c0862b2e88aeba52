//! A write and a read over the border of two blocks, of which each command fails in turn.

use super::bench::Answer::{Back, Count, Did, Drained, Lent};
use super::bench::Call::{Collect, Read, Step, Store, WriteFour};
use super::rows::Seen::{self, Accept, Done, Fault};
use super::rows::{FETCH_0, FETCH_1, Row, STORE_0, STORE_1, compare};
use super::shapes::{PLAIN, Shape};
use efi_status::Status::{DeviceError, Success};
use history::Command;
use medium::Planned;
use std::test::Fail;

const FOUR: [u8; 8] = [0xaa, 0xbb, 0xcc, 0xdd, 0, 0, 0, 0];

const GET_0: Command = Command::Get { block: 0, count: 1 };

const GET_1: Command = Command::Get { block: 1, count: 1 };

// The bytes round the border after no store, the first one, and both.
const NONE: &[(usize, usize, u8)] = &[(0, 1_024, 0)];

const HALF: &[(usize, usize, u8)] = &[(0, 510, 0), (510, 1, 0xaa), (511, 1, 0xbb), (512, 512, 0)];

const ALL: &[(usize, usize, u8)] = &[
    (0, 510, 0),
    (510, 1, 0xaa),
    (511, 1, 0xbb),
    (512, 1, 0xcc),
    (513, 1, 0xdd),
    (514, 510, 0),
];

const FAILURES: [Row; 6] = [
    Row {
        shape: Shape {
            more_groups: 1,
            plan: Some(Planned { call: 0, done: 0 }),
            ..PLAIN
        },
        calls: &[
            (WriteFour(510), Count(0)),
            (Step, Did),
            (Collect(0), Back(DeviceError, FOUR)),
            (Read(508, 8), Count(1)),
            (Step, Did),
            (Step, Did),
            (Step, Drained),
            (Collect(1), Back(Success, [0, 0, 0, 0, 0, 0, 0, 0])),
        ],
        entries: &[
            Accept,
            Fault(0, FETCH_0, 0),
            Seen::Collect(0),
            Accept,
            Done(1, GET_0),
            Done(1, GET_1),
            Seen::Collect(1),
        ],
        kept: NONE,
    },
    Row {
        shape: Shape {
            more_groups: 1,
            plan: Some(Planned { call: 1, done: 0 }),
            ..PLAIN
        },
        calls: &[
            (WriteFour(510), Count(0)),
            (Step, Lent(0)),
            (Store(0), Did),
            (Collect(0), Back(DeviceError, FOUR)),
            (Read(508, 8), Count(1)),
            (Step, Did),
            (Step, Did),
            (Step, Drained),
            (Collect(1), Back(Success, [0, 0, 0, 0, 0, 0, 0, 0])),
        ],
        entries: &[
            Accept,
            Done(0, FETCH_0),
            Fault(0, STORE_0, 0),
            Seen::Collect(0),
            Accept,
            Done(1, GET_0),
            Done(1, GET_1),
            Seen::Collect(1),
        ],
        kept: NONE,
    },
    Row {
        shape: Shape {
            more_groups: 1,
            plan: Some(Planned { call: 2, done: 0 }),
            ..PLAIN
        },
        calls: &[
            (WriteFour(510), Count(0)),
            (Step, Lent(0)),
            (Store(0), Did),
            (Step, Did),
            (Collect(0), Back(DeviceError, FOUR)),
            (Read(508, 8), Count(1)),
            (Step, Did),
            (Step, Did),
            (Step, Drained),
            (Collect(1), Back(Success, [0, 0, 0xaa, 0xbb, 0, 0, 0, 0])),
        ],
        entries: &[
            Accept,
            Done(0, FETCH_0),
            Done(0, STORE_0),
            Fault(0, FETCH_1, 0),
            Seen::Collect(0),
            Accept,
            Done(1, GET_0),
            Done(1, GET_1),
            Seen::Collect(1),
        ],
        kept: HALF,
    },
    Row {
        shape: Shape {
            more_groups: 1,
            plan: Some(Planned { call: 3, done: 0 }),
            ..PLAIN
        },
        calls: &[
            (WriteFour(510), Count(0)),
            (Step, Lent(0)),
            (Store(0), Did),
            (Step, Lent(1)),
            (Store(1), Did),
            (Collect(0), Back(DeviceError, FOUR)),
            (Read(508, 8), Count(1)),
            (Step, Did),
            (Step, Did),
            (Step, Drained),
            (Collect(1), Back(Success, [0, 0, 0xaa, 0xbb, 0, 0, 0, 0])),
        ],
        entries: &[
            Accept,
            Done(0, FETCH_0),
            Done(0, STORE_0),
            Done(0, FETCH_1),
            Fault(0, STORE_1, 0),
            Seen::Collect(0),
            Accept,
            Done(1, GET_0),
            Done(1, GET_1),
            Seen::Collect(1),
        ],
        kept: HALF,
    },
    Row {
        shape: Shape {
            more_groups: 1,
            plan: Some(Planned { call: 4, done: 0 }),
            ..PLAIN
        },
        calls: &[
            (WriteFour(510), Count(0)),
            (Step, Lent(0)),
            (Store(0), Did),
            (Step, Lent(1)),
            (Store(1), Did),
            (Collect(0), Back(Success, FOUR)),
            (Read(508, 8), Count(1)),
            (Step, Did),
            (Step, Drained),
            (Collect(1), Back(DeviceError, [7, 7, 7, 7, 7, 7, 7, 7])),
        ],
        entries: &[
            Accept,
            Done(0, FETCH_0),
            Done(0, STORE_0),
            Done(0, FETCH_1),
            Done(0, STORE_1),
            Seen::Collect(0),
            Accept,
            Fault(1, GET_0, 0),
            Seen::Collect(1),
        ],
        kept: ALL,
    },
    Row {
        shape: Shape {
            more_groups: 1,
            plan: Some(Planned { call: 5, done: 0 }),
            ..PLAIN
        },
        calls: &[
            (WriteFour(510), Count(0)),
            (Step, Lent(0)),
            (Store(0), Did),
            (Step, Lent(1)),
            (Store(1), Did),
            (Collect(0), Back(Success, FOUR)),
            (Read(508, 8), Count(1)),
            (Step, Did),
            (Step, Did),
            (Step, Drained),
            (
                Collect(1),
                Back(DeviceError, [0, 0, 0xaa, 0xbb, 7, 7, 7, 7]),
            ),
        ],
        entries: &[
            Accept,
            Done(0, FETCH_0),
            Done(0, STORE_0),
            Done(0, FETCH_1),
            Done(0, STORE_1),
            Seen::Collect(0),
            Accept,
            Done(1, GET_0),
            Fault(1, GET_1, 0),
            Seen::Collect(1),
        ],
        kept: ALL,
    },
];

#[test]
fn failures(rt: HostRuntime) -> Result<(), Fail> {
    for (place, row) in FAILURES.iter().enumerate() {
        compare(&rt, rt.alloc(), place, row)?;
    }
    Ok(())
}
