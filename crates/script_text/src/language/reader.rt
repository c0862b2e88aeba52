ghost use Rattle.std.specs.Prelude.{◌≡◌, ◌+◌, ◌≤◌, true};
ghost use Rattle.script_text.specs.Limits.{most_script_bytes};
ghost use Rattle.script_text.specs.OneLine.{is_one_line};

use crate::language::draft::Draft;
use crate::language::feeding;
use crate::language::plans::Script;
use crate::language::refusal::{Reason, ScriptRefused};
use std::alloc::{AllocError, Global};
use std::mem;

/// The plans so far, and the line that is not ended yet.
#[derive(Drop)]
pub struct Reading {
    /// The plans of the lines that ended.
    pub draft: Draft,
    /// The number of the line that is not ended yet.
    pub number: u64,
    /// The bytes of that line so far.
    pub line: Vec<u8>,
    /// All bytes so far.
    pub length: u64,
    ghost unended: { is_one_line line.items ≡ true },
    ghost lines: { number ≤ length + 1 },
    ghost few: { length ≤ most_script_bytes },
}

/// The first faulty line.
#[derive(Clone, Copy)]
pub struct Found {
    /// Its number.
    pub line: u64,
    /// Why it is faulty.
    pub reason: Reason,
    /// All bytes so far.
    pub length: u64,
    ghost few: { length ≤ most_script_bytes },
}

/// How far a reader came.
#[derive(Drop)]
pub enum State {
    /// No line was faulty yet.
    Reads(Reading),
    /// A line was faulty.
    Faulty(Found),
    /// There were more bytes than a script may have.
    Long,
    /// Memory ran out.
    Spent,
}

/// Reads a script that comes in pieces (own profile). It keeps the plans and the line that is not ended yet, no more.
#[derive(Drop)]
pub struct ScriptReader {
    alloc: Global,
    state: State,
}

impl ScriptReader {
    ghost use Rattle.std.specs.Prelude.{ℕ, List, [], ◌++◌, IfOk, OnOk, OnErr, Err, alloc_error};
    ghost use Rattle.script_text.specs.Fitting.{AreDisks, FitTogether};
    ghost use Rattle.script_text.specs.declared.language.refusal.ScriptRefused.TheVariants.{Memory};
    ghost use Rattle.script_text.specs.Replies.{Tells};
    ghost use Rattle.script_text.specs.Planned.{planned_lines};
    ghost use Rattle.script_text.specs.Whole.{script_of};
    ghost use Rattle.script_text.specs.Fed.{WasFed, IsSpent};

    /// A reader that was fed nothing yet. It takes no memory.
    #[tactic(auto, unfolding(crate::specs::Fed::WasFed))]
    pub fn make(alloc: Global) -> ScriptReader
        ensures { WasFed result [] }
    {
        ScriptReader {
            alloc,
            state: State::Reads(Reading {
                draft: Draft::make(alloc),
                number: 1,
                line: Vec::new(alloc),
                length: 0,
            }),
        }
    }

    /// Reads one more piece. The error is want of memory, and then every later call answers it too.
    #[tactic(auto, unfolding(crate::specs::Fed::WasFed, crate::specs::Fed::IsSpent))]
    pub fn feed(&mut self, piece: &[u8]) -> Result<(), AllocError>
        ensures fed { OnOk result ((bytes : List ℕ) → WasFed self.old bytes
            → WasFed self.new (bytes ++ piece.now)) }
        ensures spent { OnErr result (IsSpent self.new) }
        ensures again { IsSpent self.old → result ≡ Err alloc_error }
    {
        let state = mem::replace(&mut self.state, State::Spent);
        match feeding::fed(self.alloc, state, piece) {
            Ok(next) => {
                self.state = next;
                Ok(())
            }
            Err(fault) => Err(fault),
        }
    }

    /// What all pieces joined say as a script; or want of memory, in this call or in an earlier one.
    #[tactic(auto, using(crate::proofs::PlansFit::plans_fit, crate::proofs::Together::plans_fit_together, crate::proofs::LinesFit::lines_fit), unfolding(crate::specs::Fed::WasFed, crate::specs::Fed::IsSpent))]
    pub fn finish(self) -> Result<Script, ScriptRefused>
        ensures tells { (bytes : List ℕ) → WasFed self bytes → Tells result (script_of bytes) }
        ensures fit { (bytes : List ℕ) → WasFed self bytes
            → IfOk result (λ script. AreDisks script.disks) }
        ensures together { (bytes : List ℕ) → WasFed self bytes
            → IfOk result (λ script. FitTogether script.disks) }
        ensures lines { (bytes : List ℕ) → WasFed self bytes
            → IfOk result (λ script. planned_lines script.disks ≤ most_script_bytes) }
        ensures again { IsSpent self → result ≡ Err Memory }
    {
        let ScriptReader { state, alloc } = self;
        feeding::finished(alloc, state)
    }
}
