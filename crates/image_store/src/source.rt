ghost use Rattle.std.specs.Prelude.{ℕ, List, Option};
ghost use Rattle.image_store.specs.Edge.{Takes, HasCause};

/// A source failed (own profile).
#[derive(Clone, Copy, Debug, PartialEq, Eq)]
pub struct Failed;

/// Where bytes come from (own profile).
pub trait Source {
    /// The bytes that are left, where it tells.
    ghost left: { Self → Option (List ℕ) };

    /// How often it failed.
    ghost faults: { Self → ℕ };

    /// Puts the next bytes into the front of `out` and answers how many. For a slice that is not empty, 0 is the end.
    /// It fails only where its faults rose, and has then taken nothing.
    fn next(&mut self, out: &mut [u8]) -> Result<usize, Failed>
        ensures taken { Takes (left self.old) (left self.new) result out.new }
        ensures cause { HasCause (faults self.old) (faults self.new) result };
}
