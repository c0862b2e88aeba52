//! The worked rows, with values that were worked out by hand.
#![tactic(auto, unfolding(crate::specs::Gates::gate_of, crate::specs::Gates::is_block_held, crate::specs::Gates::is_lent, crate::specs::Gates::idle_gates, crate::specs::Gates::with_gate, crate::specs::Gates::with_work_out, crate::specs::Gates::without_hold, crate::specs::Gates::with_out, crate::specs::Gates::without_ticket, index_links::specs::Lists::is_among))]

use crate::{Back, Gates, Work};
use std::test::Fail;

// Whether a work was taken; another one is discarded.
fn is_home(back: Back) -> bool {
    match back {
        Back::Home => true,
        Back::Foreign(work) => {
            work.discard();
            false
        }
    }
}

// The ticket, block and place of a work that came back with these bytes and this patch.
fn came_back(back: Back, bytes: &[u8], patch: &[u8]) -> Option<(u64, u64, u32)> {
    match back {
        Back::Home => None,
        Back::Foreign(work) => {
            let same = work.bytes() == bytes && work.patch() == patch;
            let place = (work.ticket(), work.block(), work.from());
            work.discard();
            if same { Some(place) } else { None }
        }
    }
}

// A work goes to another thread only where its type can.
fn moved<T: Send>(value: T) -> T {
    value
}

#[test]
fn merged_work_comes_home(rt: HostRuntime) -> Result<(), Fail> {
    let mut gates = Gates::make(rt.alloc(), 2, 4)?;
    gates.hold(7, 0).copy_from_slice(&[1, 2, 3, 4]);
    assert_eq!(rt; gates.is_held(7), true);
    assert_eq!(rt; gates.is_held(8), false);
    assert_eq!(rt; gates.is_any_held(5, 3), true);
    assert_eq!(rt; gates.is_any_held(5, 2), false);
    assert_eq!(rt; gates.least_held(), Some(0));
    assert_eq!(rt; gates.block(0), Some(7));
    assert_eq!(rt; gates.block(1), None);
    let mut work: Work = moved(gates.lend(0, 1, &[9, 8]));
    work.merge();
    assert_eq!(rt; work.bytes(), [1, 9, 8, 4].as_slice());
    assert_eq!(rt; gates.copy(0), Some([1, 2, 3, 4].as_slice()));
    assert_eq!(rt; gates.out(), 1);
    gates.release(0);
    assert_eq!(rt; gates.free(), 1);
    assert_eq!(rt; gates.out(), 1);
    assert_eq!(rt; is_home(gates.give_back(work)), true);
    assert_eq!(rt; gates.free(), 2);
    Ok(())
}

#[test]
fn both_sets_are_held(rt: HostRuntime) -> Result<(), Fail> {
    let mut gates = Gates::make(rt.alloc(), 2, 4)?;
    gates.hold(7, 0).fill(1);
    assert_eq!(rt; gates.free(), 1);
    gates.hold(8, 1).fill(2);
    assert_eq!(rt; gates.free(), 0);
    Ok(())
}

#[test]
fn work_of_another_ticket_is_foreign(rt: HostRuntime) -> Result<(), Fail> {
    let mut gates = Gates::make(rt.alloc(), 2, 2)?;
    let mut others = Gates::make(rt.alloc(), 2, 2)?;
    others.hold(7, 5).copy_from_slice(&[8, 9]);
    assert_eq!(rt; others.free(), 1);
    let back = gates.give_back(others.lend(5, 1, &[6]));
    assert_eq!(rt; came_back(back, &[8, 9], &[6]), Some((5, 7, 1)));
    Ok(())
}

#[test]
fn work_of_another_size_is_foreign(rt: HostRuntime) -> Result<(), Fail> {
    let mut gates = Gates::make(rt.alloc(), 2, 2)?;
    gates.hold(7, 0).copy_from_slice(&[1, 2]);
    gates.lend(0, 0, &[5]).discard();
    let mut others = Gates::make(rt.alloc(), 2, 4)?;
    others.hold(7, 0).copy_from_slice(&[1, 2, 3, 4]);
    let back = gates.give_back(others.lend(0, 3, &[6]));
    assert_eq!(rt; came_back(back, &[1, 2, 3, 4], &[6]), Some((0, 7, 3)));
    Ok(())
}

#[test]
fn set_of_a_lost_work_is_refitted(rt: HostRuntime) -> Result<(), Fail> {
    let mut gates = Gates::make(rt.alloc(), 2, 2)?;
    gates.hold(7, 0).copy_from_slice(&[1, 2]);
    gates.lend(0, 0, &[5]).discard();
    assert_eq!(rt; gates.revoke(0), true);
    assert_eq!(rt; gates.revoke(0), false);
    assert_eq!(rt; gates.out(), 1);
    assert_eq!(rt; gates.refit()?, 1);
    assert_eq!(rt; gates.out(), 0);
    assert_eq!(rt; gates.free(), 2);
    Ok(())
}
