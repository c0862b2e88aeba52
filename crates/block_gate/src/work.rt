ghost use Rattle.std.specs.Prelude.{◌≡◌, ◌+◌, ◌≤◌, length};
ghost use Rattle.std.specs.Borrow.{Lends, Array, sem, u8 as byte};
ghost use Rattle.byte_lists.specs.Patching.{patch};
ghost use Rattle.block_gate.specs.Works.{with_new_bytes};

use byte_lists::patch_into;
use std::marker::Model;

/// The buffers that a worker is lent: a block and a patch of it, each with the size of a gate's block. A work must be
/// spent: it is given back or discarded, and a work that is dropped does not compile.
pub struct Work {
    ticket: u64,
    block: u64,
    from: u32,
    bytes: Vec<u8>,
    count: usize,
    patch: Vec<u8>,
}

impl Model for Work {
    ghost use Rattle.std.specs.Prelude.{◌≡◌, ◌+◌, ◌≤◌, length, take};
    ghost use Rattle.block_gate.specs.Works.{Lent};

    ghost Value = { Lent };

    ghost view = { λ w. record { ticket = w.ticket; block = w.block; from = w.from; bytes = w.bytes.items; patch = take w.count w.patch.items } };

    ghost invariant = { λ w. (length w.patch.items ≡ length w.bytes.items) × (w.from + w.count ≤ length w.bytes.items) };
}

impl Work {
    ghost use Rattle.block_gate.specs.contracts.work.Work.{the_row};

    // A work of these buffers, with the patch in the one.
    pub(crate) fn make(
        ticket: u64,
        block: u64,
        from: u32,
        bytes: Vec<u8>,
        mut buffer: Vec<u8>,
        patch: &[u8],
    ) -> Work
        requires long { length buffer.items ≡ length bytes.items }
        requires fits { from + length patch.now ≤ length bytes.items }
        ensures { result ≡ record { ticket = ticket; block = block; from = from; bytes = bytes.items; patch = patch.now } }
    {
        let count = patch.len();
        patch_into(&mut buffer, 0, patch);
        Work {
            ticket,
            block,
            from,
            bytes,
            count,
            patch: buffer,
        }
    }

    // The buffers of the work.
    pub(crate) fn into_buffers(self) -> (Vec<u8>, Vec<u8>)
        ensures bytes { length result.0.items ≡ length self.bytes }
        ensures patch { length result.1.items ≡ length self.bytes }
    {
        let Work {
            ticket: _,
            block: _,
            from: _,
            bytes,
            count: _,
            patch,
        } = self;
        (bytes, patch)
    }

    /// The ticket that holds the gate.
    pub fn ticket(&self) -> u64
        ensures { result ≡ self.now.ticket }
    {
        self.ticket
    }

    /// The block that the gate holds.
    pub fn block(&self) -> u64
        ensures { result ≡ self.now.block }
    {
        self.block
    }

    /// The place in the block from which the patch goes, in bytes.
    pub fn from(&self) -> u32
        ensures { result ≡ self.now.from }
    {
        self.from
    }

    /// The bytes of the block.
    pub fn bytes(&self) -> &[u8]
        ensures { result.now ≡ self.now.bytes }
    {
        &self.bytes
    }

    /// The bytes that go into the block.
    pub fn patch(&self) -> &[u8]
        ensures { result.now ≡ self.now.patch }
    {
        &self.patch[..self.count]
    }

    /// The bytes of the block, to be changed.
    pub fn bytes_mut(&mut self) -> &mut [u8]
        ensures* writes_back { sem 𝓛 (Lends the_row (Array byte 0) self.entry result (with_new_bytes self.entry.now)) }
        ensures value { result.now ≡ self.old.bytes }
    {
        &mut self.bytes
    }

    /// Puts the patch into the bytes.
    pub fn merge(&mut self)
        ensures { self.new ≡ record self.old { bytes = patch self.old.bytes self.old.from self.old.patch } }
    {
        patch_into(
            &mut self.bytes,
            self.from as usize,
            &self.patch[..self.count],
        );
    }

    /// Gives the work's buffers up, for good.
    pub fn discard(self) {
        let (bytes, patch) = self.into_buffers();
        drop(bytes);
        drop(patch);
    }
}
