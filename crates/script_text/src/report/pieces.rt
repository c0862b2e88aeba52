ghost use Rattle.std.specs.Prelude.{◌≡◌, ℕ, List, string_bytes, IfOk};
ghost use Rattle.image_store.specs.Edge.{PutsText, HasCauseOf};
ghost use Rattle.script_text.specs.Held.{AddsText};

use crate::report::parts::ReportFault;
use image_store::{PutFault, Sink};
use std::alloc::AllocError;

/// How many bytes are held back at most before they are put, but for one line.
const PIECE_BYTES: usize = 64 << 10;

/// Puts a text.
pub fn put<O: Sink>(out: &mut O, text: &str) -> Result<(), ReportFault>
    ensures text { PutsText (O.outlet out.old).wrote (O.outlet out.new).wrote result text.now }
    ensures cause { HasCauseOf ReportFault.Failed (O.outlet out.old).faults (O.outlet out.new).faults result }
{
    match out.put(text.as_bytes()) {
        Ok(()) => Ok(()),
        Err(PutFault::Failed) => Err(ReportFault::Failed),
        Err(PutFault::Memory) => Err(ReportFault::Memory),
    }
}

/// Adds a line to what is held back, and puts that where it is a piece.
#[tactic(auto, using(crate::proofs::HeldText::none_put, crate::proofs::HeldText::still_held, crate::proofs::HeldText::all_put), unfolding(crate::specs::Held::AddsText))]
pub fn add<O: Sink>(held: &mut String, out: &mut O, line: &str) -> Result<(), ReportFault>
    ensures text { AddsText (O.outlet out.old).wrote (string_bytes held.old) result
        (O.outlet out.new).wrote (string_bytes held.new) line.now }
    ensures cause { HasCauseOf ReportFault.Failed (O.outlet out.old).faults (O.outlet out.new).faults result }
{
    match held.push_str(line) {
        Ok(()) => {}
        Err(_) => return Err(ReportFault::Memory),
    }
    if held.len() < PIECE_BYTES {
        return Ok(());
    }
    match put(out, held.as_str()) {
        Ok(()) => {
            held.clear();
            Ok(())
        }
        Err(fault) => Err(fault),
    }
}

/// Adds a line that was made, or hands its want of memory on.
#[tactic(auto, using(crate::proofs::HeldText::none_put), unfolding(crate::specs::Held::AddsText))]
pub fn add_made<O: Sink>(
    held: &mut String,
    out: &mut O,
    made: Result<String, AllocError>,
) -> Result<(), ReportFault>
    ensures text { (line : List ℕ) → IfOk made (λ text. string_bytes text ≡ line)
        → AddsText (O.outlet out.old).wrote (string_bytes held.old) result
        (O.outlet out.new).wrote (string_bytes held.new) line }
    ensures cause { HasCauseOf ReportFault.Failed (O.outlet out.old).faults (O.outlet out.new).faults result }
{
    match made {
        Ok(line) => add(held, out, line.as_str()),
        Err(_) => Err(ReportFault::Memory),
    }
}
