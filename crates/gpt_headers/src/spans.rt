ghost use Rattle.std.specs.Prelude.{ℕ, ◌≡◌, ◌<◌, ◌≤◌, ◌+◌, ◌&&◌, All, IfOk, false, length, nat_le, nat_lt, not, slice_get, slice_index_or};
ghost use Rattle.std.specs.Option.{option_map_or};
ghost use Rattle.std.specs.List.Sorted.{IsNonDecreasingBy};
ghost use Rattle.gpt_headers.specs.Spans.{is_lone_entry, flags_after, entry_spans};

use crate::entry::GptEntry;
use std::alloc::{AllocError, Global};

/// The blocks of a used entry that has some, with the entry's place in the array.
#[derive(Clone, Copy)]
struct Span {
    first: u64,
    last: u64,
    place: usize,
}

/// Whether each entry is used, has some blocks, and shares none of them with another used entry: the entries with blocks are put in
/// order of their first block, and each is compared with those before it, by the furthest block that they reach, and with the next.
pub(crate) fn lone_entries(alloc: Global, entries: &[GptEntry]) -> Result<Vec<bool>, AllocError>
    ensures length { IfOk result (λ flags. length flags.items ≡ length entries.now) }
    ensures lone { IfOk result (λ flags. (i : ℕ) (d : GptEntry) → i < length entries.now →
        slice_index_or flags.items i false ≡ is_lone_entry entries.now i (slice_index_or entries.now i d)) }
{
    let mut spans = spans_of(alloc, entries)?;
    spans.sort_by_key(|span| span.first)?;
    let mut flags = vec![in alloc; false; entries.len()]?;
    sweep(&spans, &mut flags);
    Ok(flags)
}

/// The spans of the entries that are used and have some blocks.
fn spans_of(alloc: Global, entries: &[GptEntry]) -> Result<Vec<Span>, AllocError>
    ensures { IfOk result (λ spans. spans.items ≡ entry_spans entries.now) }
{
    entries
        .iter()
        .enumerate()
        .filter(|(_, entry)| entry.has_blocks())
        .map(|(place, entry)| Span {
            first: entry.first,
            last: entry.last,
            place,
        })
        .collect(alloc)
}

/// Notes at the place of each span whether it shares no block with another of these spans, which stand in order of their first block.
fn sweep(spans: &[Span], flags: &mut [bool])
    requires sorted { IsNonDecreasingBy (λ s. s.first) spans.now }
    requires blocks { All (λ s. s.first ≤ s.last) spans.now }
    requires places { All (λ s. s.place < length flags.old) spans.now }
    ensures { flags.new ≡ flags_after spans.now spans.now flags.old }
{
    let mut furthest = 0;
    for (i, span) in spans.iter().enumerate() {
        flags[span.place] = stands_alone(spans, i, span, furthest);
        furthest = span.last.max(furthest);
    }
}

/// Whether this span, which stands at this place, begins behind the furthest block of those before it, and the next behind its last.
fn stands_alone(spans: &[Span], place: usize, span: &Span, furthest: u64) -> bool
    requires { place < length spans.now }
    ensures { result ≡ (not (nat_lt 0 place && nat_le span.now.first furthest)
        && not (option_map_or (λ s. nat_le s.first span.now.last) (slice_get spans.now (place + 1)) false)) }
{
    let reached = place > 0 && span.first <= furthest;
    !reached && !begins_by(spans, place + 1, span.last)
}

/// Whether there is a span at this place, and it begins with this block or before it.
fn begins_by(spans: &[Span], place: usize, block: u64) -> bool
    ensures { result ≡ option_map_or (λ s. nat_le s.first block) (slice_get spans.now place) false }
{
    spans.get(place).is_some_and(|span| span.first <= block)
}
