ghost use Rattle.history_laws.specs.Laws.{OwedLowers, FaultLowers, OthersRaiseNothing, CostsFew, CountsAreWithin, CommandsAreFewer};

/// What each entry does to the entries that are owed. It does nothing else than to carry these laws.
pub fn entries_lower_room()
    ensures owed { OwedLowers }
    ensures fault { FaultLowers }
    ensures others { OthersRaiseNothing }
{}

/// How many commands a token makes, and how much a history of so many entries has. It does nothing else than to carry
/// these laws.
pub fn histories_are_long()
    ensures few { CostsFew }
    ensures within { CountsAreWithin }
    ensures fewer { CommandsAreFewer }
{}
