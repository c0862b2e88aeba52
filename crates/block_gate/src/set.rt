ghost use Rattle.std.specs.Prelude.{◌≡◌, ◌+◌, ◌≤◌, true, false, cond, replicate, length, IfOk, OnOk, OnErr};
ghost use Rattle.std.specs.Borrow.{Lends, Array, sem, u8 as byte};
ghost use Rattle.block_gate.specs.Gates.{with_copy};

use crate::relinking::{FREE, GONE};
use crate::work::Work;
use std::alloc::{AllocError, Global};
use std::marker::Model;

// What a work is made of, while it is in.
#[derive(Drop)]
struct Spare {
    bytes: Vec<u8>,
    patch: Vec<u8>,
}

impl Spare {
    // Buffers of this many bytes. The error is want of memory.
    fn make(alloc: Global, size: usize) -> Result<Spare, AllocError>
        ensures bytes { IfOk result (λ spare. length spare.bytes.items ≡ size) }
        ensures patch { IfOk result (λ spare. length spare.patch.items ≡ size) }
    {
        Ok(Spare {
            bytes: vec![in alloc; 0; size]?,
            patch: vec![in alloc; 0; size]?,
        })
    }
}

/// A buffer set: the kept copy, and the work's block and patch while they are in.
#[derive(Drop)]
pub struct Set {
    ticket: u64,
    block: u64,
    copy: Vec<u8>,
    spare: Option<Spare>,
}

impl Model for Set {
    ghost use Rattle.std.specs.Prelude.{◌≡◌, length, IfSome};
    ghost use Rattle.std.specs.Option.{is_none};
    ghost use Rattle.block_gate.specs.Gates.{Gate};

    ghost Value = { Gate };

    ghost view = { λ s. record { ticket = s.ticket; block = s.block; out = is_none s.spare; copy = s.copy.items } };

    ghost invariant = { λ s. IfSome s.spare (λ p. (length p.bytes.items ≡ length s.copy.items) × (length p.patch.items ≡ length s.copy.items)) };
}

impl Set {
    ghost use Rattle.block_gate.specs.contracts.set.Set.{the_row};

    /// A set whose block has this many bytes. The error is want of memory.
    pub fn make(alloc: Global, size: usize) -> Result<Set, AllocError>
        ensures { IfOk result (λ set. set ≡ record { ticket = 0; block = 0; out = false; copy = replicate size 0 }) }
    {
        Ok(Set {
            ticket: 0,
            block: 0,
            copy: vec![in alloc; 0; size]?,
            spare: Some(Spare::make(alloc, size)?),
        })
    }

    /// The ticket that it had last.
    pub fn ticket(&self) -> u64
        ensures { result ≡ self.now.ticket }
    {
        self.ticket
    }

    /// The block that it held last.
    pub fn block(&self) -> u64
        ensures { result ≡ self.now.block }
    {
        self.block
    }

    /// Whether its work is out.
    pub fn is_out(&self) -> bool
        ensures { result ≡ self.now.out }
    {
        self.spare.is_none()
    }

    /// The kept copy.
    pub fn copy(&self) -> &[u8]
        ensures { result.now ≡ self.now.copy }
    {
        &self.copy
    }

    /// Gives the set a block and a ticket.
    pub fn hold(&mut self, block: u64, ticket: u64)
        ensures { self.new ≡ record { ticket = ticket; block = block; out = self.old.out; copy = self.old.copy } }
    {
        self.block = block;
        self.ticket = ticket;
    }

    /// The work, which was in: its bytes are the kept copy.
    pub fn lend(&mut self, from: u32, patch: &[u8]) -> Work
        requires inside { self.old.out ≡ false }
        requires fits { from + length patch.now ≤ length self.old.copy }
        ensures set { self.new ≡ record self.old { out = true } }
        ensures work { result ≡ record { ticket = self.old.ticket; block = self.old.block; from = from; bytes = self.old.copy; patch = patch.now } }
    {
        let Some(spare) = self.spare.take() else {
            unreachable!()
        };
        let Spare {
            mut bytes,
            patch: buffer,
        } = spare;
        bytes.copy_from_slice(&self.copy);
        Work::make(self.ticket, self.block, from, bytes, buffer, patch)
    }

    /// Takes the buffers of a work of this size back.
    pub fn take_back(&mut self, work: Work)
        requires { length work.bytes ≡ length self.old.copy }
        ensures { self.new ≡ record self.old { out = false } }
    {
        let (bytes, patch) = work.into_buffers();
        self.spare = Some(Spare { bytes, patch });
    }

    /// Makes new buffers for the work. The error is want of memory, and nothing has then changed.
    pub fn refit(&mut self, alloc: Global) -> Result<(), AllocError>
        ensures ok { OnOk result (self.new ≡ record self.old { out = false }) }
        ensures err { OnErr result (self.new ≡ self.old) }
    {
        self.spare = Some(Spare::make(alloc, self.copy.len())?);
        Ok(())
    }

    /// The copy buffer, for filling.
    pub fn copy_mut(&mut self) -> &mut [u8]
        ensures* writes_back { sem 𝓛 (Lends the_row (Array byte 0) self.entry result (with_copy self.entry.now)) }
        ensures value { result.now ≡ self.old.copy }
    {
        &mut self.copy
    }
}

/// So many sets, whose blocks have this many bytes. The error is want of memory.
pub fn make_sets(alloc: Global, count: usize, size: usize) -> Result<Vec<Set>, AllocError>
    ensures { IfOk result (λ sets. sets.items ≡ replicate count (record { ticket = 0; block = 0; out = false; copy = replicate size 0 })) }
{
    let mut sets = Vec::new(alloc);
    for _ in 0..count {
        sets.push(Set::make(alloc, size)?)?;
    }
    Ok(sets)
}

/// The list to which a set goes that is no longer held.
pub fn rest_of(set: &Set) -> u32
    ensures { result ≡ cond set.now.out 2 0 }
{
    if set.is_out() { GONE } else { FREE }
}
