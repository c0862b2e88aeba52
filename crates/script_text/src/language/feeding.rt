ghost use Rattle.std.specs.Prelude.{◌≡◌, ◌+◌, ◌<◌, ◌^◌, ℕ, List, [], ◌++◌, true, length, IfOk, OnOk, Ok, Err, alloc_error};
ghost use Rattle.std.specs.Str.Lines.{strip_carriage_return};
ghost use Rattle.script_text.specs.declared.language.reader.State.TheVariants.{Spent};
ghost use Rattle.script_text.specs.declared.language.refusal.ScriptRefused.TheVariants.{Memory};
ghost use Rattle.script_text.specs.OneLine.{is_one_line};
ghost use Rattle.script_text.specs.Replies.{Says, Tells};
ghost use Rattle.script_text.specs.Whole.{script_of, line_says};
ghost use Rattle.script_text.specs.Fed.{StandsFor, IsReading, IsFaulty};
ghost use Rattle.script_text.specs.Ended.{ReadsOn};

use crate::language::draft::Draft;
use crate::language::ended::Ended;
use crate::language::limits::SCRIPT_BYTES;
use crate::language::plans::Script;
use crate::language::reader::{Found, Reading, State};
use crate::language::refusal::{LineRefused, Reason, ScriptRefused};
use crate::language::{planning, words};
use std::alloc::{AllocError, Global};

/// The state after one more piece. The error is want of memory.
pub fn fed(alloc: Global, state: State, piece: &[u8]) -> Result<State, AllocError>
    ensures stands { IfOk result (λ next. (bytes : List ℕ) → StandsFor state bytes
        → StandsFor next (bytes ++ piece.now)) }
    ensures spent { state ≡ Spent → result ≡ Err alloc_error }
{
    match state {
        State::Reads(reading) => feed_reading(alloc, reading, piece),
        State::Faulty(found) => Ok(feed_found(found, piece)),
        State::Long => Ok(State::Long),
        State::Spent => Err(AllocError),
    }
}

/// What was read in all, or want of memory.
pub fn finished(alloc: Global, state: State) -> Result<Script, ScriptRefused>
    ensures tells { (bytes : List ℕ) → StandsFor state bytes → Tells result (script_of bytes) }
    ensures spent { state ≡ Spent → result ≡ Err Memory }
{
    match state {
        State::Reads(reading) => last_line(alloc, reading),
        State::Faulty(found) => Err(ScriptRefused::Fault {
            line: found.line,
            reason: found.reason,
        }),
        State::Long => Err(ScriptRefused::Fault {
            line: 0,
            reason: Reason::Size,
        }),
        State::Spent => Err(ScriptRefused::Memory),
    }
}

// A faulty script stays faulty for its first faulty line, unless it gets too long.
fn feed_found(found: Found, piece: &[u8]) -> State
    ensures { (bytes : List ℕ) → IsFaulty found bytes → StandsFor result (bytes ++ piece.now) }
{
    let Found {
        line,
        reason,
        length,
    } = found;
    let more = piece.len() as u64;
    if more > SCRIPT_BYTES - length {
        return State::Long;
    }
    State::Faulty(Found {
        line,
        reason,
        length: length + more,
    })
}

fn feed_reading(alloc: Global, reading: Reading, piece: &[u8]) -> Result<State, AllocError>
    ensures { IfOk result (λ next. (bytes : List ℕ) → IsReading reading bytes
        → StandsFor next (bytes ++ piece.now)) }
{
    let Reading {
        draft,
        number,
        line,
        length,
    } = reading;
    let more = piece.len() as u64;
    if more > SCRIPT_BYTES - length {
        return Ok(State::Long);
    }
    let length = length + more;
    match end_lines(alloc, draft, number, line, piece) {
        Ok(
            Ended::Open {
                draft,
                number,
                line,
            },
        ) => Ok(State::Reads(Reading {
            draft,
            number,
            line,
            length,
        })),
        Ok(Ended::Faulty { line, reason }) => Ok(State::Faulty(Found {
            line,
            reason,
            length,
        })),
        Err(fault) => Err(fault),
    }
}

// Takes the lines that end in this piece.
fn end_lines(
    alloc: Global,
    draft: Draft,
    number: u64,
    line: Vec<u8>,
    piece: &[u8],
) -> Result<Ended, AllocError>
    requires unended { is_one_line line.items ≡ true }
    requires few { number + length piece.now < 2 ^ 64 }
    ensures { IfOk result (ReadsOn draft number line.items piece.now) }
{
    let mut plans = draft;
    let mut next = number;
    let mut begun = line;
    let mut left = piece;
    'lines: while let Some(end) = words::line_end(left) {
        match end_line(alloc, plans, next, &mut begun, &left[..end]) {
            Ok(more) => plans = more,
            Err(LineRefused::Faulty(reason)) => return Ok(Ended::Faulty { line: next, reason }),
            Err(LineRefused::Memory) => return Err(AllocError),
        }
        next += 1;
        left = &left[end + 1..];
    }
    begun.extend_from_slice(left)?;
    Ok(Ended::Open {
        draft: plans,
        number: next,
        line: begun,
    })
}

// Takes the line that ends here.
fn end_line(
    alloc: Global,
    draft: Draft,
    number: u64,
    begun: &mut Vec<u8>,
    front: &[u8],
) -> Result<Draft, LineRefused>
    ensures says { Says
        (line_says number draft (strip_carriage_return (begun.old.items ++ front.now))) result }
    ensures begun { OnOk result (begun.new.items ≡ []) }
{
    begun.extend_from_slice(front)?;
    let taken = planning::take_line(alloc, draft, number, words::without_return(begun));
    begun.clear();
    taken
}

// Takes the line that the script ends in.
fn last_line(alloc: Global, reading: Reading) -> Result<Script, ScriptRefused>
    ensures { (bytes : List ℕ) → IsReading reading bytes → Tells result (script_of bytes) }
{
    let Reading {
        draft,
        number,
        line,
        length: _,
    } = reading;
    match planning::take_line(alloc, draft, number, words::without_return(&line)) {
        Ok(plans) => Ok(plans.into_script()),
        Err(LineRefused::Faulty(reason)) => Err(ScriptRefused::Fault {
            line: number,
            reason,
        }),
        Err(LineRefused::Memory) => Err(ScriptRefused::Memory),
    }
}
