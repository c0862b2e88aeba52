ghost use Rattle.std.specs.Prelude.{◌≡◌, ◌↔◌, ◌⊎◌, [], false, Err, IfOk, OnErr, IsErr, IsErrOf, IsTrue};
ghost use Rattle.medium.specs.Counts.{capped_sum};
ghost use Rattle.medium.specs.Device.{IsBlockSize};
ghost use Rattle.medium.specs.Faults.{plan_of};
ghost use Rattle.image_store.specs.Edge.{HasCauseOf};
ghost use Rattle.image_store.specs.Place.{Missing, IsFree, IsTaken, IsTaking, IsShort, MayBeShort, put_place};

use crate::cut_image::{Cut, cut_image};
use crate::{PutFault, TakeFault};
use medium::{Faulty, Medium, MemMedium, Planned, Volatile};
use std::alloc::{AllocError, Global};
use std::mem;

/// The bytes of an image in memory.
#[derive(Drop)]
pub enum Stored {
    /// There are none.
    Gone,
    /// The image as it is.
    Whole(Vec<u8>),
    /// The image was taken and left this tail.
    Tail(Vec<u8>),
}

/// What is kept of a name.
#[derive(Drop)]
pub struct Slot {
    pub stored: Stored,
    pub plan: Vec<Planned>,
    pub faults: u64,
    pub worn: u64,
}

impl Slot {
    ghost use Rattle.image_store.specs.Slots.{stored_place};

    /// A name with no image.
    pub fn new(alloc: Global) -> Slot
        ensures stored { result.stored ≡ Stored.Gone }
        ensures faults { result.faults ≡ 0 }
        ensures worn { result.worn ≡ 0 }
        ensures plan { result.plan.items ≡ [] }
    {
        Slot {
            stored: Stored::Gone,
            plan: Vec::new(alloc),
            faults: 0,
            worn: 0,
        }
    }

    /// A name with no image that was asked for once.
    pub fn missed(alloc: Global) -> Slot
        ensures stored { result.stored ≡ Stored.Gone }
        ensures faults { result.faults ≡ 1 }
        ensures worn { result.worn ≡ 0 }
        ensures plan { result.plan.items ≡ [] }
    {
        Slot {
            faults: 1,
            ..Slot::new(alloc)
        }
    }

    /// Sets the image and its plan.
    pub fn refill(&mut self, bytes: Vec<u8>, plan: Vec<Planned>)
        ensures { self.new ≡ record self.old { stored = Stored.Whole bytes; plan = plan } }
    {
        self.stored = Stored::Whole(bytes);
        self.plan = plan;
    }

    /// Takes the image out, or fails.
    #[tactic(auto, unfolding(crate::specs::Place::GivesBlocks))]
    pub fn take_out(
        &mut self,
        alloc: Global,
        size: u32,
        cached: bool,
        fails: bool,
    ) -> Result<Faulty<Volatile<MemMedium>>, TakeFault>
        requires size { IsBlockSize size }
        requires free { IsFree (stored_place self.old.stored) }
        ensures taken { IfOk result (λ medium. IsTaking (stored_place self.old.stored) (stored_place self.new.stored) size cached (⟦<Faulty<Volatile<MemMedium>> as Medium>⟧.device medium)) }
        ensures stays { OnErr result (stored_place self.new.stored ≡ stored_place self.old.stored) }
        ensures missing { stored_place self.old.stored ≡ Missing → IsErr result }
        ensures short_only { IsShort (stored_place self.old.stored) size → IsErr result }
        ensures short { IsErrOf result TakeFault.Short → MayBeShort (stored_place self.old.stored) size }
        ensures cause { HasCauseOf TakeFault.Failed self.old.faults self.new.faults result }
        ensures worn { self.new.worn ≡ self.old.worn }
        ensures planned { IfOk result (λ medium. plan_of medium ≡ self.old.plan.items) }
        ensures plan { self.new.plan ≡ self.old.plan }
        ensures failing { IsTrue fails → result ≡ Err TakeFault.Failed }
        ensures failed { result ≡ Err TakeFault.Failed → IsTrue fails ⊎ (stored_place self.old.stored ≡ Missing) }
    {
        let Stored::Whole(bytes) = &self.stored else {
            self.faults = self.faults.saturating_add(1);
            return Err(TakeFault::Failed);
        };
        if fails {
            self.faults = self.faults.saturating_add(1);
            return Err(TakeFault::Failed);
        }
        if bytes.len() < size as usize {
            return Err(TakeFault::Short);
        }
        let plan = Vec::from_slice(alloc, &self.plan)?;
        let Cut { medium, tail } = cut_image(alloc, bytes, size)?;
        self.stored = Stored::Tail(tail);
        Ok(Faulty::make(Volatile::make(alloc, medium, cached), plan))
    }

    /// Puts a medium back, or fails. The image is gone after a fault.
    pub fn put_in(
        &mut self,
        medium: Faulty<Volatile<MemMedium>>,
        fails: bool,
    ) -> Result<(), PutFault>
        requires taken { IsTaken (stored_place self.old.stored) }
        ensures free { IsFree (stored_place self.new.stored) }
        ensures place { stored_place self.new.stored ≡ put_place (stored_place self.old.stored) (⟦<Faulty<Volatile<MemMedium>> as Medium>⟧.device medium).kept result }
        ensures cause { HasCauseOf PutFault.Failed self.old.faults self.new.faults result }
        ensures plan { self.new.plan ≡ self.old.plan }
        ensures failing { IsTrue fails ↔ (result ≡ Err PutFault.Failed) }
        ensures worn { self.new.worn ≡ capped_sum self.old.worn (⟦<Faulty<Volatile<MemMedium>> as Medium>⟧.device medium).failed }
    {
        self.worn = self.worn.saturating_add(medium.failed());
        let stored = mem::replace(&mut self.stored, Stored::Gone);
        if fails {
            self.faults = self.faults.saturating_add(1);
            return Err(PutFault::Failed);
        }
        let Ok(settled) = medium.inner().settle() else {
            unreachable!()
        };
        let mut bytes = settled.into_bytes()?;
        if let Stored::Tail(tail) = stored {
            bytes.extend_from_slice(&tail)?;
        }
        self.stored = Stored::Whole(bytes);
        Ok(())
    }
}
