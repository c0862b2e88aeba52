ghost use Rattle.std.specs.Prelude.{◌≡◌, ◌*◌, vec_len};

use gpt_headers::Header;

/// A header that passes every test, with its array, which has the CRC32 that the header tells.
#[derive(Drop)]
pub struct GoodHeader {
    /// The header.
    pub header: Header,
    /// The bytes of its array.
    pub array: Vec<u8>,
    ghost sized: { vec_len array ≡ header.count * header.entry_size },
}
