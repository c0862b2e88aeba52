ghost use Rattle.std.specs.Prelude.{◌≡◌, ℕ, ◌+◌, ◌*◌, ◌/◌, ◌<◌, ◌≤◌, false, true, Some, IfOk, IfErr, OnOk, IsSome, length, vec_len};
ghost use Rattle.medium.specs.Blocks.{overlay};
ghost use Rattle.medium.specs.BlockMap.{held_block, HasPlaceFor};
ghost use Rattle.medium.specs.Cached.{cached_device, AreRestoredLong, IsReady, IsWrittenInside};
ghost use Rattle.medium.specs.Counts.{Rose};
ghost use Rattle.medium.specs.Device.{IsSame, IsTransfer, IsRead, IsWrite, IsSync, StayPrepared, failures};
ghost use Rattle.medium.specs.Saving.{saving_reads, IsSavedWrite};

use crate::block_map::BlockMap;
use crate::saving::{save, write_back};
use crate::{BlockFailed, Medium};
use std::alloc::{AllocError, Global};

/// The most blocks of one transfer.
const MOST_BLOCKS: usize = 64;

/// A medium with a volatile cache over one without. It has counts of commands of its own (own profile).
///
/// Where it is cached, a write first saves the blocks that it changes for the first time since the last sync, by one
/// read for each longest run of them. A command ends at its first command inside that fails, and then fails itself.
#[derive(Drop)]
pub struct Volatile<M: Medium> {
    inner: M,
    cached: bool,
    saved: BlockMap,
    /// Room for one transfer.
    scratch: Vec<u8>,
    calls: u64,
    failed: u64,
    ghost uncached: { (M.device inner).cached ≡ false },
    ghost size: { saved.size ≡ (M.device inner).size },
    ghost inside: { (b : ℕ) → IsSome (held_block saved b) → b < (M.device inner).blocks },
    ghost ready: { (b : ℕ) → IsSome (held_block saved b) → ∥ M.prepared inner b ∥₁ },
    ghost kept_length: { AreRestoredLong (held_block saved) (M.device inner) },
}

/// How many failures an answer counts as.
fn failures_of(answer: Result<(), BlockFailed>) -> u64
    ensures { result ≡ failures answer }
{
    match answer {
        Ok(()) => 0,
        Err(_) => 1,
    }
}

impl<M: Medium> Volatile<M> {
    ghost use Rattle.medium.specs.Volatiles.{inside_of};

    /// A medium over one without a cache, cached where `cached`. Its commands are counted from here on.
    pub fn make(alloc: Global, inner: M, cached: bool) -> Volatile<M>
        requires { (M.device inner).cached ≡ false }
        ensures device { ⟦<Volatile<M> as Medium>⟧.device result ≡ record (M.device inner) { cached = cached; calls = 0; failed = 0 } }
        ensures inside { inside_of result ≡ inner }
    {
        let size = inner.size();
        Volatile {
            inner,
            cached,
            saved: BlockMap::new(alloc, size),
            scratch: Vec::new(alloc),
            calls: 0,
            failed: 0,
        }
    }

    /// How many of its commands failed, counted to the end of 64 bits.
    pub fn failed(&self) -> u64
        ensures { result ≡ (⟦<Volatile<M> as Medium>⟧.device self.now).failed }
    {
        self.failed
    }
}

impl<M: Medium + Drop> Volatile<M> {
    ghost use Rattle.medium.specs.Volatiles.{inside_of};

    /// The medium inside, with the saved blocks written back: it holds the kept bytes. It fails only where a command
    /// inside failed, and the medium is then gone. Each block is written by a command of its own, so that the failed one has
    /// done none.
    pub fn settle(self) -> Result<M, BlockFailed>
        ensures now { IfOk result (λ inner. (M.device inner).now ≡ (⟦<Volatile<M> as Medium>⟧.device self).kept) }
        ensures same { IfOk result (λ inner. IsSame (M.device (inside_of self)) (M.device inner)) }
        ensures quiet { IfOk result (λ inner. (M.device inner).faults ≡ (M.device (inside_of self)).faults) }
        ensures cause { IfErr result (λ failed. (gone : M) × Rose (M.device (inside_of self)).faults (M.device gone).faults) }
        ensures none { IfErr result (λ failed. failed.done ≡ 0) }
    {
        let Volatile {
            mut inner,
            mut saved,
            cached,
            ..
        } = self;
        if !cached {
            return Ok(inner);
        }
        match write_back(&mut inner, &mut saved) {
            Ok(()) => Ok(inner),
            Err(failed) => Err(failed),
        }
    }
}

/// Writes blocks inside, once those that are cached were saved.
fn write_saved<M: Medium>(
    inner: &mut M,
    saved: &mut BlockMap,
    scratch: &mut [u8],
    cached: bool,
    lba: u64,
    bytes: &[u8],
) -> Result<(), BlockFailed>
    requires transfer { IsTransfer (M.device inner.old) lba (length bytes.now) }
    requires ready { (b : ℕ) → lba ≤ b → b * (M.device inner.old).size < lba * (M.device inner.old).size + length bytes.now → IsReady (M.prepared inner.old b) cached saved.old (length scratch.old) (M.device inner.old).size b }
    requires size { saved.old.size ≡ (M.device inner.old).size }
    ensures written { IsWrittenInside (M.device inner.old) cached (held_block saved.old) (held_block saved.new) lba bytes.now result (M.device inner.new) }
    ensures made { IsSavedWrite (M.device inner.old) (saving_reads cached (held_block saved.old) lba (length bytes.now / (M.device inner.old).size)) result (M.device inner.new) }
    ensures prepared { StayPrepared (M.prepared inner.old) (M.prepared inner.new) }
    ensures stay { (b : ℕ) → HasPlaceFor saved.old b → HasPlaceFor saved.new b }
    ensures size { saved.new.size ≡ saved.old.size }
{
    if cached {
        let count = bytes.len() as u64 / u64::from(inner.size());
        save(inner, saved, scratch, lba, count)?;
        return inner.write_blocks(lba, bytes);
    }
    inner.write_blocks(lba, bytes)
}

impl<M: Medium> Medium for Volatile<M> {
    ghost use Rattle.medium.specs.Volatiles.{inside_of, saved_blocks};

    ghost device = { λ m. cached_device (M.device m.inner) m.cached (held_block m.saved) m.calls m.failed };

    ghost prepared = { λ m b. IsReady (M.prepared m.inner b) m.cached m.saved (vec_len m.scratch) (M.device m.inner).size b };

    fn blocks(&self) -> u64 {
        self.inner.blocks()
    }

    fn size(&self) -> u32 {
        self.inner.size()
    }

    fn prepare(&mut self, alloc: Global, lba: u64, count: u64) -> Result<(), AllocError> {
        self.inner.prepare(alloc, lba, count)?;
        if !self.cached {
            return Ok(());
        }
        let room = MOST_BLOCKS * self.inner.size() as usize;
        if self.scratch.len() < room {
            self.scratch = vec![in alloc; 0; room]?;
        }
        self.saved.make_places(lba, count)
    }

    /// Makes the same read inside.
    fn read_blocks(&mut self, lba: u64, out: &mut [u8]) -> Result<(), BlockFailed>
        requires { IsTransfer (⟦<Volatile<M> as Medium>⟧.device self.old) lba (length out.old) }
        ensures read { IsRead (⟦<Volatile<M> as Medium>⟧.device self.old) lba result (⟦<Volatile<M> as Medium>⟧.device self.new) out.old out.new }
        ensures stay { StayPrepared (⟦<Volatile<M> as Medium>⟧.prepared self.old) (⟦<Volatile<M> as Medium>⟧.prepared self.new) }
        ensures inside { IsRead (M.device (inside_of self.old)) lba result (M.device (inside_of self.new)) out.old out.new }
    {
        let answer = self.inner.read_blocks(lba, out);
        self.calls = self.calls.saturating_add(1);
        self.failed = self.failed.saturating_add(failures_of(answer));
        answer
    }

    /// Saves what it changes for the first time, by one read inside for each longest run of blocks, and then writes inside.
    fn write_blocks(&mut self, lba: u64, bytes: &[u8]) -> Result<(), BlockFailed>
        requires transfer { IsTransfer (⟦<Volatile<M> as Medium>⟧.device self.old) lba (length bytes.now) }
        requires ready { (b : ℕ) → lba ≤ b → b * (⟦<Volatile<M> as Medium>⟧.device self.old).size < lba * (⟦<Volatile<M> as Medium>⟧.device self.old).size + length bytes.now → ⟦<Volatile<M> as Medium>⟧.prepared self.old b }
        ensures written { IsWrite (⟦<Volatile<M> as Medium>⟧.device self.old) lba bytes.now result (⟦<Volatile<M> as Medium>⟧.device self.new) }
        ensures stay { StayPrepared (⟦<Volatile<M> as Medium>⟧.prepared self.old) (⟦<Volatile<M> as Medium>⟧.prepared self.new) }
        ensures inside { IsSavedWrite (M.device (inside_of self.old)) (saving_reads (⟦<Volatile<M> as Medium>⟧.device self.old).cached (saved_blocks self.old) lba (length bytes.now / (M.device (inside_of self.old)).size)) result (M.device (inside_of self.new)) }
    {
        let answer = write_saved(
            &mut self.inner,
            &mut self.saved,
            &mut self.scratch,
            self.cached,
            lba,
            bytes,
        );
        self.calls = self.calls.saturating_add(1);
        self.failed = self.failed.saturating_add(failures_of(answer));
        answer
    }

    /// Makes a sync inside. Done, it lets the saved blocks go.
    fn sync(&mut self) -> Result<(), BlockFailed>
        ensures synced { IsSync (⟦<Volatile<M> as Medium>⟧.device self.old) result (⟦<Volatile<M> as Medium>⟧.device self.new) }
        ensures stay { StayPrepared (⟦<Volatile<M> as Medium>⟧.prepared self.old) (⟦<Volatile<M> as Medium>⟧.prepared self.new) }
        ensures inside { IsSync (M.device (inside_of self.old)) result (M.device (inside_of self.new)) }
    {
        let answer = self.inner.sync();
        self.calls = self.calls.saturating_add(1);
        self.failed = self.failed.saturating_add(failures_of(answer));
        if answer.is_ok() {
            self.saved.let_all_go();
        }
        answer
    }

    ghost use Rattle.medium.specs.Cached.{cached_shaped, ready-once};

    ghost shaped = { λ m. cached_shaped (M.device m.inner) m.cached (held_block m.saved) m.calls m.failed (M.shaped m.inner) m.kept_length };

    ghost prepared_once = { λ m b. ready-once (M.prepared m.inner b) m.cached m.saved (vec_len m.scratch) (M.device m.inner).size b (M.prepared_once m.inner b) };
}
