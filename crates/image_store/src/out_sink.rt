ghost use Rattle.std.specs.Prelude.{◌≡◌, None, OnOk, IsErrOf};
ghost use Rattle.std.specs.Io.KnownBytes.{Appends as WritesOn};
ghost use Rattle.image_store.specs.Edge.{PutsText, HasCauseOf};

use crate::{PutFault, Sink};
use std::io::Write;

/// A sink over a writer, such as standard output. It tells nothing of its bytes (own profile).
#[derive(Drop)]
pub struct OutSink<W> {
    to: W,
    faults: u64,
}

impl<W: Write> OutSink<W> {
    /// A sink that writes to the writer.
    pub fn make(to: W) -> OutSink<W>
        ensures { (⟦<OutSink<W> as Sink>⟧.outlet result).faults ≡ 0 }
    {
        OutSink { to, faults: 0 }
    }
}

impl<W: Write> Sink for OutSink<W> {
    ghost outlet = { λ sink. record { wrote = None; faults = sink.faults; spent = 0 } };

    ghost use Rattle.image_store.specs.Streams.{writer_of};

    /// Hands the bytes to the writer.
    #[tactic(auto, using(crate::proofs::Fronts::untold_put), unfolding(crate::specs::Edge::Appends))]
    fn put(&mut self, bytes: &[u8]) -> Result<(), PutFault>
        ensures text { PutsText (⟦<OutSink<W> as Sink>⟧.outlet self.old).wrote (⟦<OutSink<W> as Sink>⟧.outlet self.new).wrote result bytes.now }
        ensures cause { HasCauseOf PutFault.Failed (⟦<OutSink<W> as Sink>⟧.outlet self.old).faults (⟦<OutSink<W> as Sink>⟧.outlet self.new).faults result }
        ensures spent { HasCauseOf PutFault.Memory (⟦<OutSink<W> as Sink>⟧.outlet self.old).spent (⟦<OutSink<W> as Sink>⟧.outlet self.new).spent result }
        ensures memory { IsErrOf result PutFault.Memory → (⟦<OutSink<W> as Sink>⟧.outlet self.new).wrote ≡ (⟦<OutSink<W> as Sink>⟧.outlet self.old).wrote }
        ensures bytes { OnOk result (WritesOn (W.contents (writer_of self.old)) (W.contents (writer_of self.new)) bytes.now) }
    {
        match self.to.write_all(bytes) {
            Ok(()) => Ok(()),
            Err(_) => {
                self.faults = self.faults.saturating_add(1);
                Err(PutFault::Failed)
            }
        }
    }
}
