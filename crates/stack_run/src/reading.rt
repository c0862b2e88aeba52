ghost use Rattle.std.specs.Prelude.{◌≡◌, ◌<◌, ◌≤◌, IfOk, IfErr};
ghost use Rattle.image_store.specs.Edge.{Takes, HasCause, HasCauseOf};
ghost use Rattle.script_text.specs.Fitting.{AreDisks, FitTogether};
ghost use Rattle.script_text.specs.Limits.{most_script_bytes};
ghost use Rattle.script_text.specs.Planned.{planned_lines};
ghost use Rattle.stack_run.specs.Reading.{FedBy, IsScript, SaysWhy};
ghost use Rattle.stack_run.specs.Said.{first_part};
ghost use Rattle.stack_run.specs.Starting.{AreWhole};

use crate::parts::first_missing;
use image_store::{Failed, Source};
use script_text::{DiskPlan, Reason, SCRIPT_BYTES, Script, ScriptReader, ScriptRefused};
use std::alloc::Global;

/// Why a source could not be read (own profile).
#[derive(Clone, Copy, Debug, PartialEq, Eq)]
pub enum ReadFault {
    /// It failed.
    Failed,
    /// Memory ran out.
    Memory,
}

/// Why a source gave no script (own profile).
#[derive(Clone, Copy, Debug, PartialEq, Eq)]
pub enum NotRead {
    /// It failed.
    Failed,
    /// What it gave is refused as a script: its first faulty line with the first reason that holds.
    Refused { line: u64, reason: Reason },
    /// Memory ran out.
    Memory,
}

// How many bytes are asked for at once.
const PIECE: usize = 4096;

// How many bytes are read at most: one more than a script may have.
const READ_BYTES: u64 = SCRIPT_BYTES + 1;

// Puts the next bytes of the source into the front of the piece, at most so many.
fn next_bytes<R: Source>(source: &mut R, piece: &mut [u8], most: u64) -> Result<usize, Failed>
    requires { 0 < most }
    ensures taken { Takes (R.left source.old) (R.left source.new) result piece.new }
    ensures few { IfOk result (λ more. more ≤ most) }
    ensures cause { HasCause (R.faults source.old) (R.faults source.new) result }
{
    if piece.len() as u64 <= most {
        return source.next(piece);
    }
    source.next(&mut piece[..most as usize])
}

// Feeds the source to a reader, to its end or to one byte more than a script may have.
pub fn feed_source<R: Source>(alloc: Global, source: &mut R) -> Result<ScriptReader, ReadFault>
    ensures fed { IfOk result (FedBy (R.left source.old) (R.left source.new)) }
    ensures cause { HasCauseOf ReadFault.Failed (R.faults source.old) (R.faults source.new) result }
{
    let mut reader = ScriptReader::make(alloc);
    let mut count = 0;
    let mut piece = [0; PIECE];
    'pieces: while count < READ_BYTES {
        let more = match next_bytes(source, &mut piece, READ_BYTES - count) {
            Ok(more) => more,
            Err(_) => return Err(ReadFault::Failed),
        };
        if more == 0 {
            return Ok(reader);
        }
        match reader.feed(&piece[..more]) {
            Ok(()) => {}
            Err(_) => return Err(ReadFault::Memory),
        }
        count += more as u64;
    }
    Ok(reader)
}

// The line of the first client on a partition. None where each is on the whole of its disk.
fn first_part(disks: &[DiskPlan]) -> Option<u64>
    ensures { result ≡ first_part disks.now }
{
    for disk in disks {
        if let Some(line) = first_missing(&[], disk.size, disk.clients.as_slice()) {
            return Some(line);
        }
    }
    None
}

// Reads a script whose clients are on the whole of their disks. It is refused only once the source was read out.
pub fn read_source<R: Source>(alloc: Global, source: &mut R) -> Result<Script, NotRead>
    ensures script { IfOk result (λ script.
        IsScript (R.left source.old) (R.left source.new) script.disks) }
    ensures fit { IfOk result (λ script. AreDisks script.disks) }
    ensures whole { IfOk result (λ script. AreWhole script.disks) }
    ensures together { IfOk result (λ script. FitTogether script.disks) }
    ensures lines { IfOk result (λ script. planned_lines script.disks ≤ most_script_bytes) }
    ensures refused { IfErr result (SaysWhy (R.left source.old) (R.left source.new)) }
    ensures cause { HasCauseOf NotRead.Failed (R.faults source.old) (R.faults source.new) result }
{
    let reader = match feed_source(alloc, source) {
        Ok(reader) => reader,
        Err(ReadFault::Failed) => return Err(NotRead::Failed),
        Err(ReadFault::Memory) => return Err(NotRead::Memory),
    };
    match reader.finish() {
        Ok(script) => match first_part(script.disks.as_slice()) {
            None => Ok(script),
            Some(line) => Err(NotRead::Refused {
                line,
                reason: Reason::Part,
            }),
        },
        Err(ScriptRefused::Fault { line, reason }) => Err(NotRead::Refused { line, reason }),
        Err(ScriptRefused::Memory) => Err(NotRead::Memory),
    }
}
