ghost use Rattle.std.specs.Prelude.{ℕ, ◌≡◌, ◌<◌, ◌≤◌, ◌&&◌, true, not, IfOk, IfSome, slice_get};
ghost use Rattle.gpt_headers.specs.Entry.{has_usable_blocks, is_hidden, is_usable_block, usable_entries};

use crate::entry::GptEntry;
use crate::header::Header;
use crate::spans::lone_entries;
use std::alloc::{AllocError, Global};

/// Which entries give a partition of a medium of so many blocks: those whose type is not zero, whose first block is at most their
/// last, both of them usable by the header and on the medium, which share no block with another entry whose type is not zero, and
/// whose attribute bit 1 is clear (UEFI 2.10, 5.3.3, and own profile). The error is want of memory.
pub fn usable(
    alloc: Global,
    header: &Header,
    entries: &[GptEntry],
    blocks: u64,
) -> Result<Vec<bool>, AllocError>
    ensures exact { IfOk result (λ flags. flags.items ≡ usable_entries header.now blocks entries.now) }
    ensures inside { IfOk result (λ flags. (i : ℕ) → slice_get flags.items i ≡ Some true →
        IfSome (slice_get entries.now i) (λ e. (e.first ≤ e.last) × (e.last < blocks))) }
{
    let lone = lone_entries(alloc, entries)?;
    let mut flags = Vec::with_capacity(alloc, entries.len())?;
    for (place, entry) in entries.iter().enumerate() {
        flags.push(gives_partition(header, blocks, entry, lone[place]))?;
    }
    Ok(flags)
}

/// Whether an entry gives a partition, which is used and has blocks of its own where it is a lone one.
fn gives_partition(header: &Header, blocks: u64, entry: &GptEntry, lone: bool) -> bool
    ensures { result ≡ (lone && has_usable_blocks header.now blocks entry.now && not (is_hidden entry.now)) }
{
    lone && has_usable_blocks(header, blocks, entry) && !entry.is_hidden()
}

/// Whether the entry has some blocks, and partitions may have its first and its last.
fn has_usable_blocks(header: &Header, blocks: u64, entry: &GptEntry) -> bool
    ensures { result ≡ has_usable_blocks header.now blocks entry.now }
{
    entry.first <= entry.last
        && is_usable_block(header, blocks, entry.first)
        && is_usable_block(header, blocks, entry.last)
}

/// Whether partitions may have the block, and it is on the medium.
fn is_usable_block(header: &Header, blocks: u64, block: u64) -> bool
    ensures { result ≡ is_usable_block header.now blocks block }
{
    header.first_usable() <= block && block <= header.last_usable() && block < blocks
}
