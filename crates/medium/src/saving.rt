ghost use Rattle.std.specs.Prelude.{◌≡◌, ℕ, ◌+◌, ◌*◌, ◌^◌, ◌<◌, ◌≤◌, cond, length, is_none, IsSome, None, IfErr, OnOk, OnErr, Ok};
ghost use Rattle.medium.specs.BlockMap.{held_block, HasPlaceFor};
ghost use Rattle.medium.specs.Cached.{restoration, HasTried, HoldsOthers, most_blocks};
ghost use Rattle.medium.specs.Counts.{capped_sum, Rose};
ghost use Rattle.medium.specs.Device.{IsSame, StayPrepared, failures};
ghost use Rattle.medium.specs.Saving.{unsaved_runs, AreSavedTo, HasMade};

use crate::block_map::BlockMap;
use crate::{BlockFailed, Medium};

// How many blocks from one on are not held, up to an end.
fn run_of(saved: &BlockMap, first: u64, end: u64) -> u64
    requires { first ≤ end }
    ensures within { first + result ≤ end }
    ensures none { (b : ℕ) → first ≤ b → b < first + result → held_block saved.now b ≡ None }
    ensures longest { first + result < end → IsSome (held_block saved.now (first + result)) }
{
    for block in first..end {
        if saved.holds(block) {
            return block - first;
        }
    }
    end - first
}

// Saves a run of blocks by one read.
fn save_run<M: Medium>(
    inner: &mut M,
    saved: &mut BlockMap,
    scratch: &mut [u8],
    first: u64,
    count: usize,
) -> Result<(), BlockFailed>
    requires some { 0 < count }
    requires most { count ≤ most_blocks }
    requires fits { first + count ≤ (M.device inner.old).blocks }
    requires size { saved.old.size ≡ (M.device inner.old).size }
    requires room { most_blocks * saved.old.size ≤ length scratch.old }
    requires places { (b : ℕ) → first ≤ b → b < first + count → HasPlaceFor saved.old b }
    requires unsaved { (b : ℕ) → first ≤ b → b < first + count → held_block saved.old b ≡ None }
    ensures tried { HasTried (M.device inner.old) result (M.device inner.new) }
    ensures calls { (M.device inner.new).calls ≡ capped_sum (M.device inner.old).calls 1 }
    ensures failed { (M.device inner.new).failed ≡ capped_sum (M.device inner.old).failed (failures result) }
    ensures prepared { StayPrepared (M.prepared inner.old) (M.prepared inner.new) }
    ensures restored { restoration (held_block saved.new) saved.old.size (M.device inner.old).blocks (M.device inner.old).now ≡ restoration (held_block saved.old) saved.old.size (M.device inner.old).blocks (M.device inner.old).now }
    ensures held { OnOk result ((b : ℕ) → first ≤ b → b < first + count → IsSome (held_block saved.new b)) }
    ensures others { HoldsOthers first (first + count) (held_block saved.old) (held_block saved.new) }
    ensures stay { (b : ℕ) → HasPlaceFor saved.old b → HasPlaceFor saved.new b }
    ensures size { saved.new.size ≡ saved.old.size }
{
    let bytes = count * inner.size() as usize;
    let part = &mut scratch[..bytes];
    inner.read_blocks(first, part)?;
    saved.hold_all(first, count, part);
    Ok(())
}

// Saves the longest run of blocks from one on that are not saved, up to an end, by one read.
fn save_from<M: Medium>(
    inner: &mut M,
    saved: &mut BlockMap,
    scratch: &mut [u8],
    block: u64,
    end: u64,
) -> Result<(), BlockFailed>
    requires some { block < end }
    requires most { end ≤ block + most_blocks }
    requires fits { end ≤ (M.device inner.old).blocks }
    requires size { saved.old.size ≡ (M.device inner.old).size }
    requires room { most_blocks * saved.old.size ≤ length scratch.old }
    requires places { (b : ℕ) → block ≤ b → b < end → HasPlaceFor saved.old b }
    ensures tried { HasTried (M.device inner.old) result (M.device inner.new) }
    ensures made { HasMade (M.device inner.old) result (M.device inner.new) (cond (is_none (held_block saved.old block)) 1 0) }
    ensures prepared { StayPrepared (M.prepared inner.old) (M.prepared inner.new) }
    ensures restored { restoration (held_block saved.new) saved.old.size (M.device inner.old).blocks (M.device inner.old).now ≡ restoration (held_block saved.old) saved.old.size (M.device inner.old).blocks (M.device inner.old).now }
    ensures held { OnOk result (IsSome (held_block saved.new block)) }
    ensures run { OnOk result (AreSavedTo (held_block saved.old) (held_block saved.new) block end (block + 1)) }
    ensures others { HoldsOthers block end (held_block saved.old) (held_block saved.new) }
    ensures stay { (b : ℕ) → HasPlaceFor saved.old b → HasPlaceFor saved.new b }
    ensures size { saved.new.size ≡ saved.old.size }
{
    if saved.holds(block) {
        return Ok(());
    }
    let run = run_of(saved, block, end);
    save_run(inner, saved, scratch, block, run as usize)
}

/// Saves each of these blocks that is not saved yet, by one read for each longest run of them.
pub fn save<M: Medium>(
    inner: &mut M,
    saved: &mut BlockMap,
    scratch: &mut [u8],
    first: u64,
    count: u64,
) -> Result<(), BlockFailed>
    requires most { count ≤ most_blocks }
    requires fits { first + count ≤ (M.device inner.old).blocks }
    requires size { saved.old.size ≡ (M.device inner.old).size }
    requires room { most_blocks * saved.old.size ≤ length scratch.old }
    requires places { (b : ℕ) → first ≤ b → b < first + count → HasPlaceFor saved.old b }
    ensures tried { HasTried (M.device inner.old) result (M.device inner.new) }
    ensures made { HasMade (M.device inner.old) result (M.device inner.new) (unsaved_runs (held_block saved.old) first count) }
    ensures prepared { StayPrepared (M.prepared inner.old) (M.prepared inner.new) }
    ensures restored { restoration (held_block saved.new) saved.old.size (M.device inner.old).blocks (M.device inner.old).now ≡ restoration (held_block saved.old) saved.old.size (M.device inner.old).blocks (M.device inner.old).now }
    ensures held { OnOk result ((b : ℕ) → first ≤ b → b < first + count → IsSome (held_block saved.new b)) }
    ensures others { HoldsOthers first (first + count) (held_block saved.old) (held_block saved.new) }
    ensures stay { (b : ℕ) → HasPlaceFor saved.old b → HasPlaceFor saved.new b }
    ensures size { saved.new.size ≡ saved.old.size }
{
    let end = first + count;
    for block in first..end {
        save_from(inner, saved, scratch, block, end)?;
    }
    Ok(())
}

/// Writes all saved blocks back, one at a time, and ends at the first write that fails.
pub fn write_back<M: Medium>(inner: &mut M, saved: &mut BlockMap) -> Result<(), BlockFailed>
    requires size { saved.old.size ≡ (M.device inner.old).size }
    requires inside { (b : ℕ) → IsSome (held_block saved.old b) → b < (M.device inner.old).blocks }
    requires ready { (b : ℕ) → IsSome (held_block saved.old b) → M.prepared inner.old b }
    ensures same { IsSame (M.device inner.old) (M.device inner.new) }
    ensures now { OnOk result ((M.device inner.new).now ≡ restoration (held_block saved.old) saved.old.size (M.device inner.old).blocks (M.device inner.old).now) }
    ensures cause { OnErr result (Rose (M.device inner.old).faults (M.device inner.new).faults) }
    ensures quiet { OnOk result ((M.device inner.new).faults ≡ (M.device inner.old).faults) }
    ensures none { IfErr result (λ failed. failed.done ≡ 0) }
{
    while let Some(block) = saved.last() {
        let Some(held) = saved.get(block) else {
            unreachable!()
        };
        inner.write_blocks(block, held)?;
        let _ = saved.let_go();
    }
    Ok(())
}
