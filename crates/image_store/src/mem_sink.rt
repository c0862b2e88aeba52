ghost use Rattle.std.specs.Prelude.{◌≡◌, ◌↔◌, [], Some, Err, IsTrue, OnErr, IsErrOf};
ghost use Rattle.image_store.specs.Edge.{PutsText, HasCauseOf};

use crate::failing::Failing;
use crate::{PutFault, Sink};
use std::alloc::Global;

/// A sink in memory. It tells its bytes, and fails at the calls of a list (own profile).
#[derive(Drop)]
pub struct MemSink {
    bytes: Vec<u8>,
    failing: Failing,
    faults: u64,
    spent: u64,
}

impl MemSink {
    ghost use Rattle.image_store.specs.Calls.{IsUncalled, sink_calls};

    /// An empty sink whose calls of this list fail, numbered from 0.
    pub fn make(alloc: Global, failing: Vec<u64>) -> MemSink
        ensures wrote { (⟦<MemSink as Sink>⟧.outlet result).wrote ≡ Some [] }
        ensures faults { (⟦<MemSink as Sink>⟧.outlet result).faults ≡ 0 }
        ensures calls { IsUncalled failing.items (sink_calls result) }
    {
        MemSink {
            bytes: Vec::new(alloc),
            failing: Failing::make(failing),
            faults: 0,
            spent: 0,
        }
    }

    /// All bytes that were put.
    pub fn bytes(&self) -> &[u8]
        ensures { (⟦<MemSink as Sink>⟧.outlet self.now).wrote ≡ Some result.now }
    {
        &self.bytes
    }
}

impl Sink for MemSink {
    ghost use Rattle.image_store.specs.Calls.{is_next_failing, IsCalled, sink_calls};

    ghost outlet = { λ sink. record {
      wrote = Some sink.bytes.items;
      faults = sink.faults;
      spent = sink.spent;
    } };

    /// Fails exactly where the call is in the list. After a fault nothing was added.
    #[tactic(auto, using(crate::proofs::Fronts::none_put), unfolding(crate::specs::Edge::Appends))]
    fn put(&mut self, bytes: &[u8]) -> Result<(), PutFault>
        ensures text { PutsText (⟦<MemSink as Sink>⟧.outlet self.old).wrote (⟦<MemSink as Sink>⟧.outlet self.new).wrote result bytes.now }
        ensures cause { HasCauseOf PutFault.Failed (⟦<MemSink as Sink>⟧.outlet self.old).faults (⟦<MemSink as Sink>⟧.outlet self.new).faults result }
        ensures spent { HasCauseOf PutFault.Memory (⟦<MemSink as Sink>⟧.outlet self.old).spent (⟦<MemSink as Sink>⟧.outlet self.new).spent result }
        ensures memory { IsErrOf result PutFault.Memory → (⟦<MemSink as Sink>⟧.outlet self.new).wrote ≡ (⟦<MemSink as Sink>⟧.outlet self.old).wrote }
        ensures failing { IsTrue (is_next_failing (sink_calls self.old)) ↔ (result ≡ Err PutFault.Failed) }
        ensures unwritten { OnErr result ((⟦<MemSink as Sink>⟧.outlet self.new).wrote ≡ (⟦<MemSink as Sink>⟧.outlet self.old).wrote) }
        ensures called { IsCalled (sink_calls self.old) (sink_calls self.new) }
    {
        if self.failing.next_fails() {
            self.faults = self.faults.saturating_add(1);
            return Err(PutFault::Failed);
        }
        match self.bytes.extend_from_slice(bytes) {
            Ok(()) => Ok(()),
            Err(_) => {
                self.spent = self.spent.saturating_add(1);
                Err(PutFault::Memory)
            }
        }
    }
}
