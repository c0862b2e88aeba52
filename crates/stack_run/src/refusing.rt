ghost use Rattle.std.specs.Prelude.{◌≡◌, ◌∷◌, ◌++◌, []};
ghost use Rattle.image_store.specs.Edge.{PutsText, HasCauseOf};
ghost use Rattle.stack_run.specs.Program.{reason_text, refusal_text, status_of, PutsLine, WritesLine};

use crate::refusal::Refusal;
use image_store::{PutFault, Sink};
use itoa::Buffer;
use script_text::Reason;

// The end of a line that names a reason.
fn reason_end(reason: Reason) -> &'static str
    ensures { result.now ≡ 32 ∷ reason_text reason ++ 10 ∷ [] }
{
    match reason {
        Reason::Form => " form\n",
        Reason::Number => " number\n",
        Reason::Hex => " hex\n",
        Reason::Order => " order\n",
        Reason::Name => " name\n",
        Reason::Medium => " medium\n",
        Reason::Limit => " limit\n",
        Reason::Size => " size\n",
        Reason::Part => " part\n",
    }
}

// Puts one text behind another.
fn put_both<O: Sink>(front: &[u8], rest: &[u8], out: &mut O) -> Result<(), PutFault>
    ensures { PutsLine (O.outlet out.old) (O.outlet out.new) result (front.now ++ rest.now) }
{
    match out.put(front) {
        Ok(()) => out.put(rest),
        Err(fault) => Err(fault),
    }
}

// Puts three texts, one behind the other.
fn put_three<O: Sink>(
    first: &[u8],
    second: &[u8],
    third: &[u8],
    out: &mut O,
) -> Result<(), PutFault>
    ensures { PutsLine (O.outlet out.old) (O.outlet out.new) result
        (first.now ++ (second.now ++ third.now)) }
{
    match out.put(first) {
        Ok(()) => put_both(second, third, out),
        Err(fault) => Err(fault),
    }
}

// Puts the line of a refusal, with the name of its image.
fn put_refusal<O: Sink>(refusal: Refusal, name: &str, out: &mut O) -> Result<(), PutFault>
    ensures { PutsLine (O.outlet out.old) (O.outlet out.new) result
        (refusal_text refusal name.now) }
{
    match refusal {
        Refusal::Words => out.put(b"words\n"),
        Refusal::Script { line, reason } => {
            let mut digits = Buffer::new();
            let number = digits.format(line);
            put_three(
                b"script ",
                number.as_bytes(),
                reason_end(reason).as_bytes(),
                out,
            )
        }
        Refusal::Image => put_three(b"image ", name.as_bytes(), b"\n", out),
        Refusal::Source => out.put(b"source\n"),
        Refusal::Memory => out.put(b"memory\n"),
    }
}

// The status of the program that goes with a refusal.
fn status(refusal: Refusal) -> u8
    ensures { result ≡ status_of refusal }
{
    match refusal {
        Refusal::Words => 1,
        Refusal::Script { .. } => 2,
        Refusal::Image => 3,
        Refusal::Source => 4,
        Refusal::Memory => 6,
    }
}

// Ends a run with a refusal: writes its line, or a front of it where the sink fails or runs out of memory, and answers
// its status, whatever becomes of the line.
pub fn refuse<O: Sink>(refusal: Refusal, name: &str, out: &mut O) -> u8
    ensures status { result ≡ status_of refusal }
    ensures line { WritesLine (refusal_text refusal name.now) (O.outlet out.old) (O.outlet out.new) }
{
    match put_refusal(refusal, name, out) {
        Ok(()) => status(refusal),
        Err(PutFault::Failed) => status(refusal),
        Err(PutFault::Memory) => status(refusal),
    }
}
