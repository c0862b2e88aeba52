ghost use Rattle.std.specs.Prelude.{◌≡◌, ◌++◌, string_bytes, OnOk};
ghost use Rattle.hex.specs.Hex.{encode_lower};
ghost use Rattle.script_text.specs.Text.{hex_text};

use std::alloc::{AllocError, Global};

/// How many bytes are written at once.
const PIECE_BYTES: usize = 4096;

/// Adds bytes in lower-case hexadecimal digits, and `-` for none. The error is want of memory.
#[tactic(auto, unfolding(crate::specs::Text::hex_text))]
pub fn push_hex(alloc: Global, text: &mut String, bytes: &[u8]) -> Result<(), AllocError>
    ensures { OnOk result (string_bytes text.new ≡ string_bytes text.old ++ hex_text bytes.now) }
{
    if bytes.is_empty() {
        return text.push_str("-");
    }
    push_digits(alloc, text, bytes)
}

fn push_digits(alloc: Global, text: &mut String, bytes: &[u8]) -> Result<(), AllocError>
    ensures { OnOk result
        (string_bytes text.new ≡ string_bytes text.old ++ encode_lower bytes.now) }
{
    for piece in bytes.chunks(PIECE_BYTES) {
        text.push_str(hex::encode(alloc, piece)?.as_str())?;
    }
    Ok(())
}
