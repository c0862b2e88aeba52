ghost use Rattle.history_laws.specs.Laws.{AreOfUnits, MoveTogether, FinishesUnit, FinishesNoOther, CompletesWhereFinished, OpenIsIncomplete, HasOneHolder, HeldHasHolder, HolderHolds, HasOneTicket, HeldBefore, NextIsRunnable, RunnableMay, KeepsTodo, AddsUnits, TakesUnit, EndTakes, StandInOrder};

/// A token's done commands are of its units, each finishes its own alone, a unit's bytes are moved together, and a token is
/// complete where its units are finished. It does nothing else than to carry these laws.
pub fn units_finish()
    ensures of_units { AreOfUnits }
    ensures together { MoveTogether }
    ensures finishes { FinishesUnit }
    ensures others { FinishesNoOther }
    ensures complete { CompletesWhereFinished }
    ensures incomplete { OpenIsIncomplete }
{}

/// At most one token holds a group, and a block is held exactly where one does. It does nothing else than to carry these
/// laws.
pub fn groups_have_one_holder()
    ensures one { HasOneHolder }
    ensures holder { HeldHasHolder }
    ensures held { HolderHolds }
{}

/// One fetch has one ticket, and a holder holds by the ticket of its fetch. It does nothing else than to carry these laws.
pub fn fetches_have_tickets()
    ensures one { HasOneTicket }
    ensures before { HeldBefore }
{}

/// The command of the first runnable unit may be made, and it is the one that comes next, where no block is held and a
/// buffer set is free. It does nothing else than to carry these laws.
pub fn next_is_runnable()
    ensures may { RunnableMay }
    ensures next { NextIsRunnable }
{}

/// Which units are left after an entry, in the order of their tokens and bytes. It does nothing else than to carry these
/// laws.
pub fn units_are_left()
    ensures keeps { KeepsTodo }
    ensures adds { AddsUnits }
    ensures takes { TakesUnit }
    ensures ends { EndTakes }
    ensures order { StandInOrder }
{}
