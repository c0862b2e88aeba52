ghost use Rattle.partition_tables.specs.Law.{ChainIsFollowed, ChildrenLieOnTheMedium, LogicalsAreGiven, NumbersAscend};

/// Each child of a table lies on the medium: its blocks end where the medium's do, or before. It does nothing else than to carry
/// this law.
#[tactic(auto, using(crate::proofs::Lying::children_lie))]
pub fn children_lie_on_the_medium()
    ensures { ChildrenLieOnTheMedium }
{}

/// The children of a table stand in order of number, and no two have the same. It does nothing else than to carry this law.
#[tactic(auto, using(crate::proofs::Numbers::numbers_ascend))]
pub fn numbers_ascend()
    ensures { NumbersAscend }
{}

/// Who feeds the blocks of a chain in their order is asked for each of them and then for none, and is given its logical partitions. It
/// does nothing else than to carry these laws.
#[tactic(auto, using(crate::proofs::Following::chain_is_followed, crate::proofs::Following::logicals_are_given))]
pub fn chain_is_followed()
    ensures blocks { ChainIsFollowed }
    ensures logicals { LogicalsAreGiven }
{}
