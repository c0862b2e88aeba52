ghost use Rattle.std.specs.Prelude.{◌≡◌, ◌≤◌, ◌↔◌, Some, IsErr, IsTrue, IfOk, IfSome, drop, length, min, vec_len};
ghost use Rattle.image_store.specs.Edge.{Takes, HasCause};

use crate::failing::Failing;
use crate::{Failed, Source};

/// A source in memory. It tells its bytes, and fails at the calls of a list (own profile).
#[derive(Drop)]
pub struct MemSource {
    bytes: Vec<u8>,
    taken: usize,
    failing: Failing,
    faults: u64,
    ghost within: { taken ≤ vec_len bytes },
}

impl MemSource {
    ghost use Rattle.image_store.specs.Calls.{IsUncalled, source_calls};

    /// A source of these bytes whose calls of this list fail, numbered from 0.
    pub fn make(bytes: Vec<u8>, failing: Vec<u64>) -> MemSource
        ensures left { ⟦<MemSource as Source>⟧.left result ≡ Some bytes.items }
        ensures faults { ⟦<MemSource as Source>⟧.faults result ≡ 0 }
        ensures calls { IsUncalled failing.items (source_calls result) }
    {
        MemSource {
            bytes,
            taken: 0,
            failing: Failing::make(failing),
            faults: 0,
        }
    }
}

impl Source for MemSource {
    ghost use Rattle.image_store.specs.Calls.{is_next_failing, IsCalled, source_calls};

    ghost left = { λ source. Some (drop source.taken source.bytes.items) };

    ghost faults = { λ source. source.faults };

    /// Fills the slice as far as bytes are left. Fails exactly where the call is in the list.
    fn next(&mut self, out: &mut [u8]) -> Result<usize, Failed>
        ensures taken { Takes (⟦<MemSource as Source>⟧.left self.old) (⟦<MemSource as Source>⟧.left self.new) result out.new }
        ensures cause { HasCause (⟦<MemSource as Source>⟧.faults self.old) (⟦<MemSource as Source>⟧.faults self.new) result }
        ensures filled { IfOk result (λ n. IfSome (⟦<MemSource as Source>⟧.left self.old) (λ left. n ≡ min (length out.old) (length left))) }
        ensures failing { IsTrue (is_next_failing (source_calls self.old)) ↔ IsErr result }
        ensures called { IsCalled (source_calls self.old) (source_calls self.new) }
    {
        if self.failing.next_fails() {
            self.faults = self.faults.saturating_add(1);
            return Err(Failed);
        }
        let count = out.len().min(self.bytes.len() - self.taken);
        out[..count].copy_from_slice(&self.bytes[self.taken..self.taken + count]);
        self.taken += count;
        Ok(count)
    }
}
