ghost use Rattle.std.specs.Prelude.{◌≡◌, ℕ, ◌+◌, ◌*◌, ◌/◌, ◌^◌, ◌<◌, ◌++◌, map, IfOk, OnOk, IfSome};
ghost use Rattle.disk_split.specs.Parts.{spans_of};
ghost use Rattle.disk_split.specs.Units.{IsGeometry, group_size, runs_from};
ghost use Rattle.history.specs.Tokens.{changes_bytes, is_flush};
ghost use Rattle.subtask_queue.specs.Subs.{sub_of_span, spans_in, subs_of_request, AreParts};

use crate::sub::Sub;
use disk_split::{Geometry, Part, Parts, run, runs};
use history::Kind;
use std::alloc::{AllocError, Global};

/// What is the same in all units of a request.
#[derive(Clone, Copy)]
struct Owner {
    token: u64,
    write: bool,
    blocks: Geometry,
}

/// Appends a part, where it stands. The error is want of memory.
fn push_part(subs: &mut Vec<Sub>, part: Option<Part>, owner: Owner) -> Result<(), AllocError>
    requires sized { IsGeometry owner.blocks }
    requires fits { IfSome part (λ p. p.at + p.len < 2 ^ 64) }
    ensures { OnOk result (subs.new.items ≡ subs.old.items ++ map (sub_of_span owner.blocks.size owner.token owner.write) (spans_of owner.blocks part)) }
{
    if let Some(part) = part {
        let per = u64::from(owner.blocks.per);
        let group = u64::from(owner.blocks.size) * per;
        subs.push(Sub::Part {
            token: owner.token,
            block: part.at / group * per,
            from: (part.at % group) as u32,
            count: part.len,
            write: owner.write,
        })?;
    }
    Ok(())
}

/// Appends the runs of so many whole blocks. The error is want of memory.
fn push_runs(
    subs: &mut Vec<Sub>,
    first_whole: u64,
    whole: u64,
    owner: Owner,
) -> Result<(), AllocError>
    requires { first_whole + whole < 2 ^ 64 }
    ensures { OnOk result (subs.new.items ≡ subs.old.items ++ map (sub_of_span owner.blocks.size owner.token owner.write) (runs_from owner.blocks.size first_whole whole ((whole + 63) / 64) 0)) }
{
    for i in 0..runs(whole) {
        let (block, count) = run(first_whole, whole, i);
        subs.push(Sub::Run {
            token: owner.token,
            block,
            count,
            write: owner.write,
        })?;
    }
    Ok(())
}

/// Whether a request of this kind changes bytes of the medium.
fn is_write(kind: Kind) -> bool
    ensures { result ≡ changes_bytes kind }
{
    match kind {
        Kind::Write => true,
        Kind::Erase => true,
        Kind::Read => false,
        Kind::Flush => false,
    }
}

/// Whether a request of this kind is a flush.
fn is_flush(kind: Kind) -> bool
    ensures { result ≡ is_flush kind }
{
    match kind {
        Kind::Flush => true,
        Kind::Read => false,
        Kind::Write => false,
        Kind::Erase => false,
    }
}

/// The parts and runs of a range, in order. The error is want of memory.
fn moves(alloc: Global, parts: &Parts, owner: Owner) -> Result<Vec<Sub>, AllocError>
    requires sized { IsGeometry owner.blocks }
    requires parts { (a : ℕ) × (z : ℕ) × (z < 2 ^ 64) × AreParts owner.blocks a z parts.now }
    ensures { IfOk result (λ subs. subs.items ≡ map (sub_of_span owner.blocks.size owner.token owner.write) (spans_in owner.blocks parts.now)) }
{
    let per = u64::from(owner.blocks.per);
    let mut subs = Vec::new(alloc);
    push_part(&mut subs, parts.under, owner)?;
    push_runs(&mut subs, parts.first_whole * per, parts.whole * per, owner)?;
    push_part(&mut subs, parts.over, owner)?;
    Ok(subs)
}

/// The units of a request, in order. The error is want of memory.
pub fn units(
    alloc: Global,
    token: u64,
    kind: Kind,
    parts: &Parts,
    blocks: Geometry,
) -> Result<Vec<Sub>, AllocError>
    requires sized { IsGeometry blocks }
    requires parts { (a : ℕ) × (z : ℕ) × (z < 2 ^ 64) × AreParts blocks a z parts.now }
    ensures { IfOk result (λ subs. subs.items ≡ subs_of_request blocks token kind parts.now) }
{
    if is_flush(kind) {
        let mut subs = Vec::new(alloc);
        subs.push(Sub::Sync { token })?;
        return Ok(subs);
    }
    let write = is_write(kind);
    let owner = Owner {
        token,
        write,
        blocks,
    };
    let subs = moves(alloc, parts, owner)?;
    Ok(subs)
}
