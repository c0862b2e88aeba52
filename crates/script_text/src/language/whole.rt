ghost use Rattle.std.specs.Prelude.{◌≡◌, ◌≤◌, ℕ, List, IfOk, map};
ghost use Rattle.std.specs.List.{concat};
ghost use Rattle.script_text.specs.Fitting.{AreDisks, FitTogether};
ghost use Rattle.script_text.specs.Limits.{most_script_bytes};
ghost use Rattle.script_text.specs.Planned.{planned_lines};
ghost use Rattle.script_text.specs.Replies.{Tells};
ghost use Rattle.script_text.specs.Whole.{script_of};

use crate::language::plans::Script;
use crate::language::reader::ScriptReader;
use crate::language::refusal::ScriptRefused;
use std::alloc::Global;

/// Reads a script that is there as one piece (own profile). It answers the plans that the bytes say, or the first faulty
/// line with the first reason that holds, or want of memory.
#[tactic(auto, using(crate::proofs::PlansFit::plans_fit, crate::proofs::Together::plans_fit_together, crate::proofs::LinesFit::lines_fit))]
pub fn read_script(alloc: Global, bytes: &[u8]) -> Result<Script, ScriptRefused>
    ensures tells { Tells result (script_of bytes.now) }
    ensures fit { IfOk result (λ script. AreDisks script.disks) }
    ensures together { IfOk result (λ script. FitTogether script.disks) }
    ensures lines { IfOk result (λ script. planned_lines script.disks ≤ most_script_bytes) }
{
    let mut reader = ScriptReader::make(alloc);
    match reader.feed(bytes) {
        Ok(()) => reader.finish(),
        Err(_) => Err(ScriptRefused::Memory),
    }
}

/// Reads a script that is there in pieces (own profile). However it is cut, the answer is that of its bytes joined.
pub fn read_pieces(alloc: Global, pieces: &[&[u8]]) -> Result<Script, ScriptRefused>
    ensures { Tells result (script_of (concat (map (λ piece. piece.now) pieces.now))) }
{
    let mut reader = ScriptReader::make(alloc);
    for piece in pieces {
        match reader.feed(piece) {
            Ok(()) => {}
            Err(_) => return Err(ScriptRefused::Memory),
        }
    }
    reader.finish()
}
