//! The bytes of a request in some blocks: where they lie, and which they are.
ghost use Rattle.std.specs.Prelude.{◌≡◌, ℕ, ◌+◌, ◌-◌, ◌*◌, ◌^◌, ◌<◌, ◌≤◌, min, max, length, replicate, true};
ghost use Rattle.history.specs.declared.entry.Kind.TheVariants.{Write};
ghost use Rattle.history.specs.Tokens.{changes_bytes};
ghost use Rattle.disk_core.specs.Pieces.{bytes_in};

use byte_lists::patch_into;
use disk_split::Geometry;
use history::Kind;
use token_table::{Request, Tokens};

/// Bytes of a medium, from `low` on and before `high`.
#[derive(Clone, Copy)]
pub struct Range {
    pub low: u64,
    pub high: u64,
}

/// The bytes of `count` blocks from `block` on that a request is for.
pub fn range_in(request: &Request, block: u64, count: u32, blocks: Geometry) -> Range
    requires ends { request.now.at + request.now.asked.length < 2 ^ 64 }
    requires sized { 0 < blocks.size }
    requires fits { (block + count) * blocks.size < 2 ^ 64 }
    ensures low { result.low ≡ max request.now.at (block * blocks.size) }
    ensures high { result.high ≡ min (request.now.at + request.now.asked.length)
        ((block + count) * blocks.size) }
{
    let size = u64::from(blocks.size);
    let first = block * size;
    let end = (block + u64::from(count)) * size;
    Range {
        low: request.at.max(first),
        high: (request.at + request.asked.length).min(end),
    }
}

/// The bytes that a write or an erase puts at a range of its medium.
pub fn bytes_at<'a>(request: &'a Request, zeros: &'a [u8], range: Range) -> &'a [u8]
    requires changes { changes_bytes request.now.asked.kind ≡ true }
    requires begins { request.now.at ≤ range.low }
    requires order { range.low ≤ range.high }
    requires inside { range.high ≤ request.now.at + request.now.asked.length }
    requires buffer { request.now.asked.kind ≡ Write
        → length request.now.buffer ≡ request.now.asked.length }
    requires zeros { (n : ℕ) × (zeros.now ≡ replicate n 0) × (range.high - range.low ≤ n) }
    ensures { result.now ≡ bytes_in request.now range.low range.high }
{
    let count = (range.high - range.low) as usize;
    match request.asked.kind {
        Kind::Write => {
            let place = (range.low - request.at) as usize;
            &request.buffer.as_slice()[place..place + count]
        }
        Kind::Erase => &zeros[..count],
        Kind::Read | Kind::Flush => unreachable!(),
    }
}
