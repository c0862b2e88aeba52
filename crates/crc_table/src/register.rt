//! The register of a CRC32: what it is after more bytes, eight coefficients of the quotient and more at a time.

ghost use Rattle.std.specs.Prelude.{◌≡◌};
ghost use Rattle.std.specs.List.{concat};
ghost use Rattle.crc_table.specs.Registers.{register_after};

use crate::tables::TABLES;

/// The register after `bytes`.
pub(crate) fn after_bytes(mut register: u32, bytes: &[u8]) -> u32
    ensures { result ≡ register_after register bytes.now }
{
    let last = &TABLES[7];
    for byte in bytes {
        let left = register ^ u32::from(*byte);
        register = last[(left & 0xFF) as usize] ^ (left >> 8);
    }
    register
}

/// The register after the bytes of `eights`, eight at a time.
pub(crate) fn after_eights(mut register: u32, eights: &[[u8; 8]]) -> u32
    ensures { result ≡ register_after register (concat eights.now) }
{
    for eight in eights {
        register = after_eight(register, eight);
    }
    register
}

fn after_eight(register: u32, bytes: &[u8; 8]) -> u32
    ensures { result ≡ register_after register bytes.now }
{
    let mut left = u64::from_le_bytes(*bytes) ^ u64::from(register);
    let mut sum = 0;
    for table in &TABLES {
        sum ^= table[(left & 0xFF) as usize];
        left >>= 8;
    }
    sum
}
