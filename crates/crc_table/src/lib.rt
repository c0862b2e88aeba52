//! The CRC32 that UEFI puts into table headers, over bytes that come at once or in pieces.
#![tactic(auto)]

ghost use Rattle.std.specs.Prelude.{◌≡◌, ℕ, ◌↔◌, List, [], ◌++◌};
ghost use Rattle.crc_table.specs.Division.{HasOneRest};
ghost use Rattle.crc_table.specs.Crc32.{dividend, divisor, remainder_of, crc32_of, HasTaken};

use register::{after_bytes, after_eights};
use std::marker::Model;

mod register;
mod tables;
#[cfg(test)]
mod tests;

/// The CRC32 of bytes that come in pieces: `new`, an `update` for each piece, and `value` (own profile).
///
/// It takes no memory. A clause `Holds crc bytes` says that the pieces so far are `bytes`, one after the other.
#[derive(Drop)]
pub struct Crc {
    value: u32,
}

impl Model for Crc {
    ghost Value = { ℕ };

    ghost view = { λ c. c.value };
}

impl Crc {
    /// Of no bytes yet.
    pub fn new() -> Crc
        ensures { HasTaken result [] }
    {
        Crc { value: 0 }
    }

    /// Adds `bytes`, of any length, after the bytes so far.
    pub fn update(&mut self, bytes: &[u8])
        ensures { (before : List ℕ) → HasTaken self.old before → HasTaken self.new (before ++ bytes.now) }
    {
        let (eights, rest) = bytes.as_chunks::<8>();
        let register = after_bytes(after_eights(!self.value, eights), rest);
        self.value = !register;
    }

    /// The CRC32 of all bytes so far.
    pub fn value(&self) -> u32
        ensures { (bytes : List ℕ) → HasTaken self.now bytes → result ≡ crc32_of bytes }
    {
        self.value
    }
}

/// The CRC32 of `bytes` (UEFI 2.10, sections 4.2 and 5.3.2; the order of bits and the inversions are own profile).
pub fn crc32(bytes: &[u8]) -> u32
    ensures value { result ≡ crc32_of bytes.now }

    // The rest that the definition takes is the only one that the division has.
    ensures rest { HasOneRest (dividend bytes.now) divisor (remainder_of bytes.now) }
{
    let mut crc = Crc::new();
    crc.update(bytes);
    crc.value()
}
