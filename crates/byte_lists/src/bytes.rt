ghost use Rattle.std.specs.Prelude.{◌≡◌, length, IfOk};
ghost use Rattle.std.specs.Borrow.{Lends, Array, sem, u8 as byte};
ghost use Rattle.std.specs.List.{refill};

use std::alloc::{AllocError, Global};
use std::marker::Model;

/// Bytes that an owner keeps, seen as a list.
#[derive(Drop)]
pub struct Bytes {
    kept: Vec<u8>,
}

impl Model for Bytes {
    ghost use Rattle.std.specs.Prelude.{List, ℕ};

    ghost Value = { List ℕ };

    ghost view = { λ b. b.kept.items };
}

impl Bytes {
    ghost use Rattle.byte_lists.specs.contracts.bytes.Bytes.{the_row};

    /// A copy of these bytes. The error is want of memory.
    pub fn copy_of(alloc: Global, bytes: &[u8]) -> Result<Bytes, AllocError>
        ensures { IfOk result (λ copy. copy ≡ bytes.now) }
    {
        Ok(Bytes {
            kept: Vec::from_slice(alloc, bytes)?,
        })
    }

    /// The bytes of a vector, which takes no memory.
    pub fn from_vec(kept: Vec<u8>) -> Bytes
        ensures { result ≡ kept.items }
    {
        Bytes { kept }
    }

    /// Gives the vector back, which takes no memory.
    pub fn into_vec(self) -> Vec<u8>
        ensures { result.items ≡ self }
    {
        let Bytes { kept } = self;
        kept
    }

    /// The bytes themselves.
    pub fn as_slice(&self) -> &[u8]
        ensures { result.now ≡ self.now }
    {
        &self.kept
    }

    /// The bytes themselves, to be written over. Their number stays.
    pub fn as_mut_slice(&mut self) -> &mut [u8]
        ensures* writes_back { sem 𝓛 (Lends the_row (Array byte 0) self.entry result (refill (length self.entry.now) self.entry.now)) }
        ensures value { result.now ≡ self.old }
    {
        &mut self.kept
    }
}
