ghost use Rattle.device_workers.specs.Laws.{RoundsAreEnough, RoundsDoAll};

/// The rounds of the plain schedule are enough, for every lines and outcomes: more of them change nothing, every line is
/// done, and each token has ended and was collected. It does nothing else than to carry these laws.
pub fn rounds_are_enough()
    ensures enough { RoundsAreEnough }
    ensures all { RoundsDoAll }
{}
