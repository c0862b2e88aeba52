ghost use Rattle.std.specs.Prelude.{◌≡◌, ◌*◌, ◌^◌, ◌+◌, ◌<◌, ◌≤◌, ◌↔◌, IsTrue, IfSome};
ghost use Rattle.crc_table.specs.Crc32.{crc32_of};
ghost use Rattle.gpt_headers.specs.Array.{array_range_of};
ghost use Rattle.gpt_headers.specs.Limits.{most_array};

use crate::header::Header;
use crc_table::crc32;

/// The first byte and the length in bytes of the array of partition entries, on a medium of so many blocks of `size` bytes. None
/// exactly where its end is behind the medium's; an empty array has an end too (UEFI 2.10, 5.3.2; the tests are own profile).
pub fn array_range(header: &Header, blocks: u64, size: u32) -> Option<(u64, u64)>
    requires { blocks * size < 2 ^ 64 }
    ensures exact { result ≡ array_range_of header.now blocks size }
    ensures inside { IfSome result (λ r. r.0 + r.1 ≤ blocks * size) }
    ensures small { IfSome result (λ r. r.1 ≤ most_array) }
{
    let length = header.array_length();
    let start = header.array_lba().checked_mul(u64::from(size))?;
    let end = start.checked_add(length)?;
    if end <= blocks * u64::from(size) {
        Some((start, length))
    } else {
        None
    }
}

/// Whether these bytes of the array have the CRC32 that the header tells (UEFI 2.10, 5.3.2).
pub fn array_ok(header: &Header, bytes: &[u8]) -> bool
    ensures { IsTrue result ↔ (crc32_of bytes.now ≡ header.now.array_crc) }
{
    crc32(bytes) == header.array_crc()
}
