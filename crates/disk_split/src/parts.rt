ghost use Rattle.std.specs.Prelude.{◌≡◌, ℕ, ◌+◌, ◌-◌, ◌*◌, ◌/◌, ◌%◌, ◌^◌, ◌<◌, ◌≤◌, ◌↔◌, min, IsSome};
ghost use Rattle.disk_split.specs.Parts.{part_of};
ghost use Rattle.disk_split.specs.Units.{IsWhole, up, whole_of, whole_end, middle};

/// The most blocks of one run (own profile).
const RUN_BLOCKS: u64 = 64;

/// A part of a range: some bytes of one block and not all (UEFI 2.10, 13.7).
#[derive(Clone, Copy, Debug, PartialEq, Eq)]
pub struct Part {
    /// The first byte.
    pub at: u64,
    /// How many bytes, fewer than a block has.
    pub len: u32,
}

/// How a range of bytes meets its blocks (UEFI 2.10, 13.7).
#[derive(Clone, Copy, Debug, PartialEq, Eq)]
pub struct Parts {
    /// The bytes before the first block border, up to the range's end.
    pub under: Option<Part>,
    /// The first byte divided by the block size, rounded up: the first whole block, an LBA, where there is one.
    pub first_whole: u64,
    /// How many whole blocks.
    pub whole: u64,
    /// The bytes that are left behind the whole blocks.
    pub over: Option<Part>,
}

/// The bytes from `from` on and before `until` as a part, where there are any.
fn part_between(from: u64, until: u64) -> Option<Part>
    requires { until - from < 2 ^ 32 }
    ensures { result ≡ part_of from until }
{
    if from < until {
        Some(Part {
            at: from,
            len: (until - from) as u32,
        })
    } else {
        None
    }
}

/// How many bytes lie before the next block border, 0 on a border.
fn to_border(at: u64, size: u64) -> u64
    requires { 0 < size }
    ensures { at + result ≡ up size at * size }
{
    let rest = at % size;
    if rest == 0 { 0 } else { size - rest }
}

/// Cuts the range of `len` bytes from byte `at` on at the borders of blocks of `size` bytes (UEFI 2.10, 13.7).
pub fn split(at: u64, len: u64, size: u32) -> Parts
    requires sized { 0 < size }
    requires fits { at + len < 2 ^ 64 }
    ensures under { result.under ≡ part_of at (middle size at (at + len)) }
    ensures cut { IsSome result.under ↔ ((0 < len) × (0 < at % size)) }
    ensures first { result.first_whole ≡ up size at }
    ensures count { result.whole ≡ whole_of size at (at + len) }
    ensures whole { (block : ℕ) → IsWhole size at (at + len) block ↔ ((result.first_whole ≤ block) × (block < result.first_whole + result.whole)) }
    ensures over { result.over ≡ part_of (whole_end size at (at + len)) (at + len) }
{
    let size = u64::from(size);
    let end = at + len;
    let first_whole = at.div_ceil(size);
    let until = at + len.min(to_border(at, size));
    let whole = (end / size).saturating_sub(first_whole);
    Parts {
        under: part_between(at, until),
        first_whole,
        whole,
        over: part_between(until + whole * size, end),
    }
}

/// How many runs so many whole blocks have: a run has 64 blocks, and the last one the rest (own profile).
pub fn runs(whole: u64) -> u64
    ensures { result ≡ (whole + 63) / 64 }
{
    whole.div_ceil(RUN_BLOCKS)
}

/// Run number `i` of `whole` blocks from `first_whole` on: its first block, and how many it has (own profile).
pub fn run(first_whole: u64, whole: u64, i: u64) -> (u64, u32)
    requires within { i < (whole + 63) / 64 }
    requires fits { first_whole + whole < 2 ^ 64 }
    ensures block { result.0 ≡ first_whole + 64 * i }
    ensures count { result.1 ≡ min 64 (whole - 64 * i) }
{
    let before = RUN_BLOCKS * i;
    let count = (whole - before).min(RUN_BLOCKS) as u32;
    (first_whole + before, count)
}
