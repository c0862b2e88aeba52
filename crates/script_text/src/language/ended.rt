use crate::language::draft::Draft;
use crate::language::refusal::Reason;

/// What the lines that end in a piece leave.
#[derive(Drop)]
pub enum Ended {
    /// The plans, the number of the line that is not ended yet, and its bytes so far.
    Open {
        draft: Draft,
        number: u64,
        line: Vec<u8>,
    },
    /// The first faulty line.
    Faulty {
        line: u64,
        reason: Reason,
    },
}
