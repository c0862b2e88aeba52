ghost use Rattle.std.specs.Prelude.{◌≡◌, ◌↔◌, ◌⊎◌, ℕ, List, false, Err, IfOk, IfSome, IfNone, IsErr, IsErrOf, IsTrue, OnOk, OnErr};
ghost use Rattle.medium.specs.Counts.{capped_sum};
ghost use Rattle.medium.specs.Device.{IsBlockSize};
ghost use Rattle.medium.specs.Faults.{plan_of};
ghost use Rattle.image_store.specs.Edge.{HasCauseOf};
ghost use Rattle.image_store.specs.Place.{Missing, Here, ChangesOnly, IsFree, IsHere, IsTaken, IsTaking, IsShort, MayBeShort, put_place};

use crate::failing::Failing;
use crate::slot::{Slot, Stored};
use crate::{Images, PutFault, TakeFault};
use medium::{Faulty, Medium, MemMedium, Planned, Volatile};
use std::alloc::{AllocError, Global};
use std::collections::BTreeMap;

/// Images in memory. They tell their bytes; calls of `take` and `put_back` fail by one list (own profile).
#[derive(Drop)]
pub struct MemImages {
    alloc: Global,
    slots: BTreeMap<String, Slot>,
    failing: Failing,
}

impl MemImages {
    ghost use Rattle.image_store.specs.Calls.{IsUncalled, images_calls};
    ghost use Rattle.image_store.specs.Slots.{images_at, plans_at, PlansOnly, unused};

    /// No images. The calls of this list fail, where `take` and `put_back` are numbered together from 0.
    pub fn make(alloc: Global, failing: Vec<u64>) -> MemImages
        ensures unused { (name : List ℕ) → images_at result name ≡ unused }
        ensures calls { IsUncalled failing.items (images_calls result) }
    {
        MemImages {
            alloc,
            slots: BTreeMap::new(alloc),
            failing: Failing::make(failing),
        }
    }

    /// Adds or replaces an image by a copy of these bytes. The commands of the plan fail on each medium made of it.
    /// The error is want of memory, and nothing has then changed.
    #[tactic(auto, using(std::proofs::lemmas::Map::Text::text_keys))]
    pub fn add(&mut self, name: &str, bytes: &[u8], plan: Vec<Planned>) -> Result<(), AllocError>
        ensures here { OnOk result (images_at self.new name.now ≡ record (images_at self.old name.now) { place = Here bytes.now }) }
        ensures err { OnErr result (images_at self.new name.now ≡ images_at self.old name.now) }
        ensures others { ChangesOnly name.now (images_at self.old) (images_at self.new) }
        ensures plan { OnOk result (plans_at self.new name.now ≡ plan.items) }
        ensures plans { PlansOnly name.now self.old self.new }
        ensures calls { images_calls self.new ≡ images_calls self.old }
    {
        let bytes = Vec::from_slice(self.alloc, bytes)?;
        match self.slots.get_mut(name) {
            Some(slot) => {
                slot.refill(bytes, plan);
                Ok(())
            }
            None => {
                let mut slot = Slot::new(self.alloc);
                slot.refill(bytes, plan);
                let name = String::from_str(self.alloc, name)?;
                self.slots.insert(name, slot)?;
                Ok(())
            }
        }
    }

    /// The bytes of an image. None exactly where the name has none, or is taken.
    #[tactic(auto, using(std::proofs::lemmas::Map::Text::text_keys))]
    pub fn bytes_of(&self, name: &str) -> Option<&[u8]>
        ensures some { IfSome result (λ bytes. (images_at self.now name.now).place ≡ Here bytes.now) }
        ensures none { IfNone result (¬ IsHere (images_at self.now name.now).place) }
    {
        match &self.slots.get(name)?.stored {
            Stored::Whole(bytes) => Some(bytes),
            Stored::Gone => None,
            Stored::Tail(_) => None,
        }
    }
}

impl Images for MemImages {
    type M = Faulty<Volatile<MemMedium>>;

    ghost use Rattle.image_store.specs.Calls.{is_next_failing, IsCalled, images_calls};
    ghost use Rattle.image_store.specs.Slots.{images_at, plans_at};

    ghost at = { images_at };

    /// Fails exactly where the call is in the list or the image is missing, but for want of memory.
    #[tactic(auto, using(std::proofs::lemmas::Map::Text::text_keys))]
    fn take(
        &mut self,
        alloc: Global,
        name: &str,
        size: u32,
        cached: bool,
    ) -> Result<Faulty<Volatile<MemMedium>>, TakeFault>
        requires size { IsBlockSize size }
        requires free { IsFree (images_at self.old name.now).place }
        ensures taken { IfOk result (λ medium. IsTaking (images_at self.old name.now).place (images_at self.new name.now).place size cached (⟦<Faulty<Volatile<MemMedium>> as Medium>⟧.device medium)) }
        ensures stays { OnErr result ((images_at self.new name.now).place ≡ (images_at self.old name.now).place) }
        ensures missing { (images_at self.old name.now).place ≡ Missing → IsErr result }
        ensures short_only { IsShort (images_at self.old name.now).place size → IsErr result }
        ensures short { IsErrOf result TakeFault.Short → MayBeShort (images_at self.old name.now).place size }
        ensures cause { HasCauseOf TakeFault.Failed (images_at self.old name.now).faults (images_at self.new name.now).faults result }
        ensures worn { (images_at self.new name.now).worn ≡ (images_at self.old name.now).worn }
        ensures others { ChangesOnly name.now (images_at self.old) (images_at self.new) }
        ensures planned { IfOk result (λ medium. plan_of medium ≡ plans_at self.old name.now) }
        ensures plans { (other : List ℕ) → plans_at self.new other ≡ plans_at self.old other }
        ensures failing { IsTrue (is_next_failing (images_calls self.old)) → (result ≡ Err TakeFault.Failed) ⊎ (result ≡ Err TakeFault.Memory) }
        ensures failed { result ≡ Err TakeFault.Failed → IsTrue (is_next_failing (images_calls self.old)) ⊎ ((images_at self.old name.now).place ≡ Missing) }
        ensures called { IsCalled (images_calls self.old) (images_calls self.new) }
    {
        let fails = self.failing.next_fails();
        match self.slots.get_mut(name) {
            Some(slot) => slot.take_out(alloc, size, cached, fails),
            None => {
                let name = String::from_str(alloc, name)?;
                self.slots
                    .insert(name, Slot::missed(alloc))
                    .map_err(AllocError::from)?;
                Err(TakeFault::Failed)
            }
        }
    }

    /// Fails exactly where the call is in the list.
    #[tactic(auto, using(std::proofs::lemmas::Map::Text::text_keys))]
    fn put_back(
        &mut self,
        _alloc: Global,
        name: &str,
        medium: Faulty<Volatile<MemMedium>>,
    ) -> Result<(), PutFault>
        requires taken { IsTaken (images_at self.old name.now).place }
        ensures free { IsFree (images_at self.new name.now).place }
        ensures place { (images_at self.new name.now).place ≡ put_place (images_at self.old name.now).place (⟦<Faulty<Volatile<MemMedium>> as Medium>⟧.device medium).kept result }
        ensures cause { HasCauseOf PutFault.Failed (images_at self.old name.now).faults (images_at self.new name.now).faults result }
        ensures worn { (images_at self.new name.now).worn ≡ capped_sum (images_at self.old name.now).worn (⟦<Faulty<Volatile<MemMedium>> as Medium>⟧.device medium).failed }
        ensures others { ChangesOnly name.now (images_at self.old) (images_at self.new) }
        ensures plans { (other : List ℕ) → plans_at self.new other ≡ plans_at self.old other }
        ensures failing { IsTrue (is_next_failing (images_calls self.old)) ↔ (result ≡ Err PutFault.Failed) }
        ensures called { IsCalled (images_calls self.old) (images_calls self.new) }
    {
        let fails = self.failing.next_fails();
        match self.slots.get_mut(name) {
            Some(slot) => slot.put_in(medium, fails),
            None => unreachable!(),
        }
    }
}
