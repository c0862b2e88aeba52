ghost use Rattle.disk_core.specs.Turns.{StepsAreTurns, MergedAreStored, IdleStay, FreshAreIdle, SubmitKeeps, CollectKeeps};

/// Where no block is held and a buffer set is free, a step is the next turn of the plain schedule; a lent work that is
/// merged is then written at once, and leaves the gates as they were. It does nothing else than to carry these laws.
pub fn steps_are_turns()
    ensures turns { StepsAreTurns }
    ensures stored { MergedAreStored }
{}

/// Gates are idle at the beginning, and only steps and stores hold and release them: a submit and a collect leave them, and
/// idle ones stay so where gates of ended requests are revoked. It does nothing else than to carry these laws.
pub fn gates_stay_idle()
    ensures fresh { FreshAreIdle }
    ensures idle { IdleStay }
    ensures submit { SubmitKeeps }
    ensures collect { CollectKeeps }
{}
