ghost use Rattle.std.specs.Prelude.{◌≡◌, IsErrOf};
ghost use Rattle.image_store.specs.Edge.{Outlet, PutsText, HasCauseOf};

use std::alloc::AllocError;

/// Why bytes could not be put (own profile).
#[derive(Clone, Copy, Debug, PartialEq, Eq)]
pub enum PutFault {
    /// It failed.
    Failed,
    /// Memory ran out.
    Memory,
}

impl From<AllocError> for PutFault {
    ghost use Rattle.image_store.specs.declared.sink.PutFault.TheVariants.{Memory};

    ghost from_gives = { λ _ fault. fault ≡ Memory };

    fn from(_: AllocError) -> PutFault {
        PutFault::Memory
    }
}

/// Where bytes go (own profile).
pub trait Sink {
    /// What was written, how often it failed, and how often memory ran out in it.
    ghost outlet: { Self → Outlet };

    /// Adds the bytes. It fails only where its faults rose, and after a fault a front of the bytes was added. Memory ran out
    /// only where that count rose, and none was then added.
    fn put(&mut self, bytes: &[u8]) -> Result<(), PutFault>
        ensures text { PutsText (outlet self.old).wrote (outlet self.new).wrote result bytes.now }
        ensures cause { HasCauseOf PutFault.Failed (outlet self.old).faults (outlet self.new).faults
            result }
        ensures spent { HasCauseOf PutFault.Memory (outlet self.old).spent (outlet self.new).spent
            result }
        ensures memory { IsErrOf result PutFault.Memory
            → (outlet self.new).wrote ≡ (outlet self.old).wrote };
}
