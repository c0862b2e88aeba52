ghost use Rattle.std.specs.Prelude.{◌≡◌, ℕ, ◌+◌, ◌*◌, ◌/◌, ◌^◌, ◌<◌, ◌≤◌, ◌++◌, length, not, IfOk, OnOk, IfSome, IsTrue};
ghost use Rattle.std.specs.List.{Contains, count_by};
ghost use Rattle.disk_split.specs.Parts.{spans_of};
ghost use Rattle.disk_split.specs.declared.span.Span.{Span};
ghost use Rattle.disk_split.specs.Units.{IsGeometry, IsUnit, IsWhole, AreUnits, Tile, group_size, run_at, runs_from, units_of, whole_blocks};

use super::geometry::Geometry;
use super::parts::{Part, run, runs, split};
use super::span::Span;
use std::alloc::{AllocError, Global};

/// Appends a part as a unit, where it stands. The error is want of memory.
fn push_part(units: &mut Vec<Span>, part: Option<Part>, blocks: Geometry) -> Result<(), AllocError>
    requires sized { IsGeometry blocks }
    requires fits { IfSome part (λ p. p.at + p.len < 2 ^ 64) }
    ensures { OnOk result (units.new.items ≡ units.old.items ++ spans_of blocks part) }
{
    if let Some(part) = part {
        let per = u64::from(blocks.per);
        units.push(Span {
            whole: false,
            block: part.at / (u64::from(blocks.size) * per) * per,
            count: blocks.per,
            low: part.at,
            high: part.at + u64::from(part.len),
        })?;
    }
    Ok(())
}

/// Run number `i` as a unit.
fn run_span(first_whole: u64, whole: u64, i: u64, size: u32) -> Span
    requires sized { 0 < size }
    requires within { i < (whole + 63) / 64 }
    requires fits { (first_whole + whole) * size < 2 ^ 64 }
    ensures { result ≡ run_at size first_whole whole i }
{
    let (block, count) = run(first_whole, whole, i);
    let size = u64::from(size);
    Span {
        whole: true,
        block,
        count,
        low: block * size,
        high: (block + u64::from(count)) * size,
    }
}

/// Appends the runs of so many whole blocks as units. The error is want of memory.
fn push_runs(
    units: &mut Vec<Span>,
    first_whole: u64,
    whole: u64,
    size: u32,
) -> Result<(), AllocError>
    requires sized { 0 < size }
    requires fits { 0 < whole → (first_whole + whole) * size < 2 ^ 64 }
    ensures { OnOk result (units.new.items ≡ units.old.items ++ runs_from size first_whole whole ((whole + 63) / 64) 0) }
{
    for i in 0..runs(whole) {
        units.push(run_span(first_whole, whole, i, size))?;
    }
    Ok(())
}

/// The units of the range of `len` bytes from byte `at` on, in order: its parts, each the bytes that the range has of a
/// group, and the runs of the blocks of its whole groups (UEFI 2.10, 13.7; groups and runs: own profile). They cover the
/// range, and no two share a byte. The error is want of memory.
pub fn spans(alloc: Global, at: u64, len: u64, blocks: Geometry) -> Result<Vec<Span>, AllocError>
    requires sized { IsGeometry blocks }
    requires fits { at + len < 2 ^ 64 }
    ensures units { IfOk result (λ units. units.items ≡ units_of blocks at (at + len)) }
    ensures tile { IfOk result (λ units. Tile at (at + len) units.items) }
    ensures each { IfOk result (λ units. AreUnits blocks at (at + len) units.items) }
    ensures all { IfOk result (λ units. (unit : Span) → IsUnit blocks at (at + len) unit → Contains units.items unit) }
    ensures whole { IfOk result (λ units. (unit : Span) (block : ℕ) → Contains units.items unit → IsTrue unit.whole → unit.block ≤ block → block < unit.block + unit.count → IsWhole (group_size blocks) at (at + len) (block / blocks.per)) }
    ensures parts { IfOk result (λ units. count_by (λ unit. not unit.whole) units.items ≤ 2) }
    ensures count { IfOk result (λ units. length units.items ≤ (whole_blocks blocks at (at + len) + 63) / 64 + 2) }
{
    let parts = split(at, len, blocks.size * blocks.per);
    let per = u64::from(blocks.per);
    let mut units = Vec::new(alloc);
    push_part(&mut units, parts.under, blocks)?;
    push_runs(
        &mut units,
        parts.first_whole * per,
        parts.whole * per,
        blocks.size,
    )?;
    push_part(&mut units, parts.over, blocks)?;
    Ok(units)
}
