ghost use Rattle.std.specs.Prelude.{◌≡◌, ℕ, ◌+◌, ◌*◌, ◌<◌, ◌≤◌, length, Err, OnSome, IfSome, IfNone};
ghost use Rattle.medium.specs.Counts.{capped_sum};
ghost use Rattle.medium.specs.Device.{IsFresh, IsTransfer, IsRead, IsWrite, IsSync, StayPrepared, failures};
ghost use Rattle.medium.specs.Faults.{faulty_device, inner_of, plan_of, planned_next, planned_count, IsPlannedWrite};

use crate::{BlockFailed, Medium};
use std::alloc::{AllocError, Global};

/// A command that is to fail, for a write after some of its blocks (own profile).
#[derive(Clone, Copy, Debug, PartialEq, Eq)]
pub struct Planned {
    /// The number of the command, counted from 0 on its medium.
    pub call: u64,
    /// How many blocks a write does before it fails, at most all but its last. A read or a sync does none.
    pub done: u32,
}

/// A medium whose commands fail as planned. It has counts of its own (own profile).
#[derive(Drop)]
pub struct Faulty<M> {
    inner: M,
    plan: Vec<Planned>,
    calls: u64,
    failed: u64,
    planned: u64,
}

impl<M: Medium> Faulty<M> {
    /// The medium with a plan, of which the first entry for a command counts. Its commands are counted from here on.
    pub fn make(inner: M, plan: Vec<Planned>) -> Faulty<M>
        ensures device { ⟦<Faulty<M> as Medium>⟧.device result ≡ faulty_device (M.device inner) 0 0 0 }
        ensures inner { inner_of result ≡ inner }
        ensures plan { plan_of result ≡ plan.items }
        ensures fresh { IsFresh (M.device inner) → IsFresh (⟦<Faulty<M> as Medium>⟧.device result) }
    {
        Faulty {
            inner,
            plan,
            calls: 0,
            failed: 0,
            planned: 0,
        }
    }

    /// The medium inside.
    pub fn inner(self) -> M
        ensures { result ≡ inner_of self }
    {
        let Faulty { inner, .. } = self;
        inner
    }

    /// How many of its commands failed, counted to the end of 64 bits.
    pub fn failed(&self) -> u64
        ensures { result ≡ (⟦<Faulty<M> as Medium>⟧.device self.now).failed }
    {
        self.failed
    }

    /// How many blocks the next command does before it fails, where it is planned to fail.
    fn next_planned(&self) -> Option<u32>
        ensures { result ≡ planned_next self.now }
    {
        let call = self.calls;
        self.plan
            .iter()
            .find(|planned| planned.call == call)
            .map(|planned| planned.done)
    }

    /// Writes the first `done` blocks, at most all but the last, and then fails by the plan.
    fn write_front(&mut self, lba: u64, bytes: &[u8], done: u32) -> Result<(), BlockFailed>
        requires transfer { IsTransfer (M.device self.old.inner) lba (length bytes.now) }
        requires ready { (b : ℕ) → lba ≤ b → b * (M.device self.old.inner).size < lba * (M.device self.old.inner).size + length bytes.now → M.prepared self.old.inner b }
        ensures written { IsWrite (⟦<Faulty<M> as Medium>⟧.device self.old) lba bytes.now result (⟦<Faulty<M> as Medium>⟧.device self.new) }
        ensures stay { StayPrepared (M.prepared self.old.inner) (M.prepared self.new.inner) }
        ensures plan { self.new.plan ≡ self.old.plan }
        ensures planned { IsPlannedWrite (M.device self.old.inner) lba (planned_count (length bytes.now) (M.device self.old.inner).size done) bytes.now result (M.device self.new.inner) }
    {
        let size = self.inner.size() as usize;
        let last = bytes.len() / size - 1;
        let done = last.min(done as usize);
        if done == 0 {
            return self.fail(0);
        }
        match self.inner.write_blocks(lba, &bytes[..done * size]) {
            Ok(()) => self.fail(done as u32),
            Err(fault) => self.fail(fault.done),
        }
    }

    /// Counts a command and its answer.
    fn counted(&mut self, answer: Result<(), BlockFailed>) -> Result<(), BlockFailed>
        ensures answer { result ≡ answer }
        ensures counted { self.new ≡ record self.old { calls = capped_sum self.old.calls 1; failed = capped_sum self.old.failed (failures answer) } }
    {
        self.calls = self.calls.saturating_add(1);
        self.failed = self.failed.saturating_add(match answer {
            Ok(()) => 0,
            Err(_) => 1,
        });
        answer
    }

    /// Fails the command by the plan, after so many blocks.
    fn fail(&mut self, done: u32) -> Result<(), BlockFailed>
        ensures answer { result ≡ Err (record { done = done }) }
        ensures counted { self.new ≡ record self.old { calls = capped_sum self.old.calls 1; failed = capped_sum self.old.failed 1; planned = capped_sum self.old.planned 1 } }
    {
        self.planned = self.planned.saturating_add(1);
        self.counted(Err(BlockFailed { done }))
    }
}

impl<M: Medium> Medium for Faulty<M> {
    ghost device = { λ m. faulty_device (M.device m.inner) m.calls m.failed m.planned };

    ghost prepared = { λ m b. M.prepared m.inner b };

    fn blocks(&self) -> u64 {
        self.inner.blocks()
    }

    fn size(&self) -> u32 {
        self.inner.size()
    }

    fn prepare(&mut self, alloc: Global, lba: u64, count: u64) -> Result<(), AllocError> {
        self.inner.prepare(alloc, lba, count)
    }

    /// Fails where it is planned to, and then makes no command inside.
    fn read_blocks(&mut self, lba: u64, out: &mut [u8]) -> Result<(), BlockFailed>
        requires { IsTransfer (⟦<Faulty<M> as Medium>⟧.device self.old) lba (length out.old) }
        ensures read { IsRead (⟦<Faulty<M> as Medium>⟧.device self.old) lba result (⟦<Faulty<M> as Medium>⟧.device self.new) out.old out.new }
        ensures stay { StayPrepared (⟦<Faulty<M> as Medium>⟧.prepared self.old) (⟦<Faulty<M> as Medium>⟧.prepared self.new) }
        ensures plan { plan_of self.new ≡ plan_of self.old }
        ensures planned { OnSome (planned_next self.old) ((result ≡ Err (record { done = 0 })) × (inner_of self.new ≡ inner_of self.old)) }
        ensures passed { IfNone (planned_next self.old) (IsRead (M.device (inner_of self.old)) lba result (M.device (inner_of self.new)) out.old out.new) }
    {
        match self.next_planned() {
            Some(_) => self.fail(0),
            None => {
                let answer = self.inner.read_blocks(lba, out);
                self.counted(answer)
            }
        }
    }

    /// Fails where it is planned to. It then writes the first planned blocks inside, at most all but the last.
    fn write_blocks(&mut self, lba: u64, bytes: &[u8]) -> Result<(), BlockFailed>
        requires transfer { IsTransfer (⟦<Faulty<M> as Medium>⟧.device self.old) lba (length bytes.now) }
        requires ready { (b : ℕ) → lba ≤ b → b * (⟦<Faulty<M> as Medium>⟧.device self.old).size < lba * (⟦<Faulty<M> as Medium>⟧.device self.old).size + length bytes.now → ⟦<Faulty<M> as Medium>⟧.prepared self.old b }
        ensures written { IsWrite (⟦<Faulty<M> as Medium>⟧.device self.old) lba bytes.now result (⟦<Faulty<M> as Medium>⟧.device self.new) }
        ensures stay { StayPrepared (⟦<Faulty<M> as Medium>⟧.prepared self.old) (⟦<Faulty<M> as Medium>⟧.prepared self.new) }
        ensures plan { plan_of self.new ≡ plan_of self.old }
        ensures planned { IfSome (planned_next self.old) (λ planned. IsPlannedWrite (M.device (inner_of self.old)) lba (planned_count (length bytes.now) (⟦<Faulty<M> as Medium>⟧.device self.old).size planned) bytes.now result (M.device (inner_of self.new))) }
        ensures passed { IfNone (planned_next self.old) (IsWrite (M.device (inner_of self.old)) lba bytes.now result (M.device (inner_of self.new))) }
    {
        match self.next_planned() {
            Some(done) => self.write_front(lba, bytes, done),
            None => {
                let answer = self.inner.write_blocks(lba, bytes);
                self.counted(answer)
            }
        }
    }

    /// Fails where it is planned to, and then makes no command inside.
    fn sync(&mut self) -> Result<(), BlockFailed>
        ensures synced { IsSync (⟦<Faulty<M> as Medium>⟧.device self.old) result (⟦<Faulty<M> as Medium>⟧.device self.new) }
        ensures stay { StayPrepared (⟦<Faulty<M> as Medium>⟧.prepared self.old) (⟦<Faulty<M> as Medium>⟧.prepared self.new) }
        ensures plan { plan_of self.new ≡ plan_of self.old }
        ensures planned { OnSome (planned_next self.old) ((result ≡ Err (record { done = 0 })) × (inner_of self.new ≡ inner_of self.old)) }
        ensures passed { IfNone (planned_next self.old) (IsSync (M.device (inner_of self.old)) result (M.device (inner_of self.new))) }
    {
        match self.next_planned() {
            Some(_) => self.fail(0),
            None => {
                let answer = self.inner.sync();
                self.counted(answer)
            }
        }
    }

    ghost use Rattle.medium.specs.Faults.{faulty_shaped};

    ghost shaped = { λ m. faulty_shaped (M.device m.inner) m.calls m.failed m.planned (M.shaped m.inner) };

    ghost prepared_once = { λ m b. M.prepared_once m.inner b };
}
