ghost use Rattle.history_laws.specs.Laws.{TellsNothingElse, ReadsNothingElse, BeginsUntold, EndsOnce, KeepsCommands, KeepsReading, CancelEndsView, ProtectEndsChanges, ResetEndsAll, EjectEndsAll};

/// What an entry tells of a token: nothing new where it does not concern it, and nothing at all before it is accepted.
/// It does nothing else than to carry these laws.
pub fn entries_concern_tokens()
    ensures told { TellsNothingElse }
    ensures read { ReadsNothingElse }
    ensures untold { BeginsUntold }
{}

/// A token ends once, and keeps its done commands and what it read. It does nothing else than to carry these laws.
pub fn tokens_end_once()
    ensures mark { EndsOnce }
    ensures commands { KeepsCommands }
    ensures reading { KeepsReading }
{}

/// Which open tokens a cancel, a protection, a reset and an ejection end. It does nothing else than to carry these laws.
pub fn entries_end_tokens()
    ensures cancel { CancelEndsView }
    ensures protect { ProtectEndsChanges }
    ensures reset { ResetEndsAll }
    ensures eject { EjectEndsAll }
{}
