//! The worked rows, with values that were worked out by hand.
#![tactic(auto, unfolding(block_gate::specs::Gates::gate_of, block_gate::specs::Gates::is_block_held, block_gate::specs::Gates::idle_gates, block_gate::specs::Gates::with_gate, block_gate::specs::Gates::without_hold, block_gate::specs::Gates::without_ticket, index_links::specs::Lists::is_among, crate::specs::Subs::AreBelow))]

ghost use Rattle.std.specs.Prelude.{◌≡◌, ℕ, ◌+◌, ◌*◌, ◌<◌, ◌≤◌, ◌^◌, [], IfOk};
ghost use Rattle.disk_split.specs.Units.{IsGeometry};
ghost use Rattle.subtask_queue.specs.Subs.{AreBelow};

use crate::{Queue, Sub};
use block_gate::Gates;
use disk_split::{Geometry, split};
use history::Kind;
use std::alloc::{AllocError, Global};
use std::test::Fail;

const SINGLE: Geometry = Geometry { size: 512, per: 1 };

const GROUPS: Geometry = Geometry { size: 512, per: 8 };

/// Adds the units of a request for so many bytes from this one on.
fn add(
    queue: &mut Queue,
    token: u64,
    kind: Kind,
    range: (u64, u64),
    blocks: Geometry,
) -> Result<(), AllocError>
    requires sized { IsGeometry blocks }
    requires fits { range.0 + range.1 < 2 ^ 64 }
    requires above { AreBelow token queue.old }
    ensures { AreBelow (token + 1) queue.new }
{
    let (at, len) = range;
    let parts = split(at, len, blocks.size * blocks.per);
    queue.add(token, kind, &parts, blocks)
}

/// A part of a write.
fn part(token: u64, block: u64, from: u32, count: u32) -> Sub {
    Sub::Part {
        token,
        block,
        from,
        count,
        write: true,
    }
}

/// A run of a write.
fn run(token: u64, block: u64, count: u32) -> Sub {
    Sub::Run {
        token,
        block,
        count,
        write: true,
    }
}

/// A write across two blocks, then one of the whole first block, over gates that hold nothing.
#[test]
fn finds_the_first_that_may_run(rt: HostRuntime) -> Result<(), Fail> {
    let mut queue = Queue::make(rt.alloc());
    add(&mut queue, 0, Kind::Write, (510, 4), SINGLE)?;
    add(&mut queue, 1, Kind::Write, (0, 512), SINGLE)?;
    let gates = Gates::make(rt.alloc(), 1, 512)?;
    assert_eq!(rt; queue.next_runnable(&gates), Some(part(0, 0, 510, 2)));
    queue.finish(&part(0, 0, 510, 2));
    assert_eq!(rt; queue.next_runnable(&gates), Some(part(0, 1, 0, 2)));
    assert_eq!(rt; (queue.drop_request(0), queue.drop_request(0)), (1, 0));
    assert_eq!(rt; queue.next_runnable(&gates), Some(run(1, 0, 1)));
    Ok(())
}

/// A write across two blocks, and one of the whole first block.
fn two_writes(alloc: Global) -> Result<Queue, AllocError> {
    let mut queue = Queue::make(alloc);
    add(&mut queue, 0, Kind::Write, (510, 4), SINGLE)?;
    add(&mut queue, 1, Kind::Write, (0, 512), SINGLE)?;
    Ok(queue)
}

/// Two sets, one of which holds the first block.
fn first_held(alloc: Global) -> Result<Gates, AllocError> {
    let mut gates = Gates::make(alloc, 2, 512)?;
    gates.hold(0, 0).fill(0);
    Ok(gates)
}

/// Two sets, which hold the first two blocks.
fn both_held(alloc: Global) -> Result<Gates, AllocError> {
    let mut gates = Gates::make(alloc, 2, 512)?;
    gates.hold(0, 0).fill(0);
    gates.hold(1, 1).fill(0);
    Ok(gates)
}

/// The same, after the first block was released.
fn second_held(alloc: Global) -> Result<Gates, AllocError> {
    let mut gates = Gates::make(alloc, 2, 512)?;
    gates.hold(0, 0).fill(0);
    gates.hold(1, 1).fill(0);
    gates.release(0);
    Ok(gates)
}

/// No free set: the only one holds a block that no unit needs.
fn none_free(alloc: Global) -> Result<Gates, AllocError> {
    let mut gates = Gates::make(alloc, 1, 512)?;
    gates.hold(5, 0).fill(0);
    Ok(gates)
}

/// Held blocks bar the units that touch them, and parts wait for a set.
#[test]
fn passes_over_what_may_not_run(rt: HostRuntime) -> Result<(), Fail> {
    let queue = two_writes(rt.alloc())?;
    let first = first_held(rt.alloc())?;
    assert_eq!(rt; queue.next_runnable(&first), Some(part(0, 1, 0, 2)));
    let both = both_held(rt.alloc())?;
    assert_eq!(rt; queue.next_runnable(&both), None);
    let second = second_held(rt.alloc())?;
    assert_eq!(rt; queue.next_runnable(&second), Some(part(0, 0, 510, 2)));
    let none = none_free(rt.alloc())?;
    assert_eq!(rt; queue.next_runnable(&none), Some(run(1, 0, 1)));
    Ok(())
}

/// A flush, an erase, and what a drop answers.
#[test]
fn drops_all_units_of_a_token(rt: HostRuntime) -> Result<(), Fail> {
    let mut queue = Queue::make(rt.alloc());
    let gates = Gates::make(rt.alloc(), 1, 512)?;
    add(&mut queue, 3, Kind::Write, (100, 33000), SINGLE)?;
    add(&mut queue, 4, Kind::Flush, (0, 0), SINGLE)?;
    add(&mut queue, 5, Kind::Erase, (0, 66560), SINGLE)?;
    assert_eq!(rt; queue.next_runnable(&gates), Some(part(3, 0, 100, 412)));
    assert_eq!(rt; queue.drop_request(3), 3);
    assert_eq!(rt; queue.drop_request(3), 0);
    assert_eq!(rt; queue.next_runnable(&gates), Some(Sub::Sync { token: 4 }));
    queue.finish(&Sub::Sync { token: 4 });
    assert_eq!(rt; queue.next_runnable(&gates), Some(run(5, 0, 64)));
    queue.finish(&run(5, 0, 64));
    assert_eq!(rt; queue.next_runnable(&gates), Some(run(5, 64, 64)));
    Ok(())
}

/// Groups of eight blocks.
#[test]
fn cuts_at_the_borders_of_groups(rt: HostRuntime) -> Result<(), Fail> {
    let mut queue = Queue::make(rt.alloc());
    let gates = Gates::make(rt.alloc(), 1, 4096)?;
    add(&mut queue, 0, Kind::Write, (4000, 200), GROUPS)?;
    add(&mut queue, 1, Kind::Write, (4096, 4096), GROUPS)?;
    assert_eq!(rt; queue.next_runnable(&gates), Some(part(0, 0, 4000, 96)));
    queue.finish(&part(0, 0, 4000, 96));
    assert_eq!(rt; queue.next_runnable(&gates), Some(part(0, 8, 0, 104)));
    queue.finish(&part(0, 8, 0, 104));
    assert_eq!(rt; queue.next_runnable(&gates), Some(run(1, 8, 8)));
    Ok(())
}
