ghost use Rattle.std.specs.Prelude.{◌≡◌, ℕ, List, false, IfOk, IsErr, OnErr, IsErrOf};
ghost use Rattle.medium.specs.Counts.{capped_sum};
ghost use Rattle.medium.specs.Device.{IsBlockSize};
ghost use Rattle.image_store.specs.Edge.{HasCauseOf};
ghost use Rattle.image_store.specs.Place.{Image, Missing, IsFree, IsTaken, IsTaking, IsShort, MayBeShort, put_place, ChangesOnly};

use crate::PutFault;
use medium::Medium;
use std::alloc::{AllocError, Global};

/// Why an image could not be taken (own profile).
#[derive(Clone, Copy, Debug, PartialEq, Eq)]
pub enum TakeFault {
    /// Reading the image failed, or there is none of this name.
    Failed,
    /// The image is shorter than one block.
    Short,
    /// Memory ran out.
    Memory,
}

impl From<AllocError> for TakeFault {
    ghost use Rattle.image_store.specs.declared.images.TakeFault.TheVariants.{Memory};

    ghost from_gives = { λ _ fault. fault ≡ Memory };

    fn from(_: AllocError) -> TakeFault {
        TakeFault::Memory
    }
}

/// Disk images by name, of which media are made (own profile).
///
/// A call changes nothing of any other name.
pub trait Images {
    /// The media that it gives.
    type M: Medium + Send;

    /// Where the image of each name is, and what is counted of it.
    ghost at: { Self → List ℕ → Image };

    /// Takes the image out as a medium in blocks of `size` bytes, which is one of the four sizes. What is left of less
    /// than a block stays behind as its tail. The medium is cached exactly where `cached`. The name is not taken.
    ///
    /// Short exactly where the image is shorter than `size` and its faults did not rise. Failed only where they rose:
    /// a missing image is a fault. After each of these, and for want of memory, the image is where it was.
    fn take(
        &mut self,
        alloc: Global,
        name: &str,
        size: u32,
        cached: bool,
    ) -> Result<Self::M, TakeFault>
        requires size { IsBlockSize size }
        requires free { IsFree (at self.old name.now).place }
        ensures taken { IfOk result (λ medium. IsTaking (at self.old name.now).place (at self.new name.now).place size cached (Self.M.device medium)) }
        ensures stays { OnErr result ((at self.new name.now).place ≡ (at self.old name.now).place) }
        ensures missing { (at self.old name.now).place ≡ Missing → IsErr result }
        ensures short_only { IsShort (at self.old name.now).place size → IsErr result }
        ensures short { IsErrOf result TakeFault.Short → MayBeShort (at self.old name.now).place size }
        ensures cause { HasCauseOf TakeFault.Failed (at self.old name.now).faults (at self.new name.now).faults result }
        ensures worn { (at self.new name.now).worn ≡ (at self.old name.now).worn }
        ensures others { ChangesOnly name.now (at self.old) (at self.new) };

    /// Puts a medium back under a name that is taken: the image is then the medium's kept bytes and the tail.
    /// The commands that failed on the medium are added to the name's `worn`, whatever the answer is.
    ///
    /// Failed only where the name's faults rose. After it, and for want of memory, the image is gone.
    fn put_back(&mut self, alloc: Global, name: &str, medium: Self::M) -> Result<(), PutFault>
        requires taken { IsTaken (at self.old name.now).place }
        ensures free { IsFree (at self.new name.now).place }
        ensures place { (at self.new name.now).place ≡ put_place (at self.old name.now).place (Self.M.device medium).kept result }
        ensures cause { HasCauseOf PutFault.Failed (at self.old name.now).faults (at self.new name.now).faults result }
        ensures worn { (at self.new name.now).worn ≡ capped_sum (at self.old name.now).worn (Self.M.device medium).failed }
        ensures others { ChangesOnly name.now (at self.old) (at self.new) };
}
