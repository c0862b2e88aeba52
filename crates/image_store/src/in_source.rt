ghost use Rattle.std.specs.Prelude.{◌≡◌, None};
ghost use Rattle.std.specs.Io.KnownBytes.{ReadConsumes};
ghost use Rattle.image_store.specs.Edge.{Takes, HasCause};

use crate::{Failed, Source};
use std::io::Read;

/// A source over a reader, such as standard input. It tells nothing of its bytes (own profile).
#[derive(Drop)]
pub struct InSource<R> {
    from: R,
    faults: u64,
}

impl<R: Read> InSource<R> {
    /// A source of what the reader gives.
    pub fn make(from: R) -> InSource<R>
        ensures { ⟦<InSource<R> as Source>⟧.faults result ≡ 0 }
    {
        InSource { from, faults: 0 }
    }
}

impl<R: Read> Source for InSource<R> {
    ghost left = { λ source. None };

    ghost faults = { λ source. source.faults };

    ghost use Rattle.image_store.specs.Streams.{reader_of};

    /// Takes what the reader gives.
    #[tactic(auto, unfolding(crate::specs::Edge::TakesFront))]
    fn next(&mut self, out: &mut [u8]) -> Result<usize, Failed>
        ensures taken { Takes (⟦<InSource<R> as Source>⟧.left self.old) (⟦<InSource<R> as Source>⟧.left self.new) result out.new }
        ensures cause { HasCause (⟦<InSource<R> as Source>⟧.faults self.old) (⟦<InSource<R> as Source>⟧.faults self.new) result }
        ensures bytes { ReadConsumes (R.remaining (reader_of self.old)) (R.remaining (reader_of self.new)) result out.new }
    {
        match self.from.read(out) {
            Ok(count) => Ok(count),
            Err(_) => {
                self.faults = self.faults.saturating_add(1);
                Err(Failed)
            }
        }
    }
}
