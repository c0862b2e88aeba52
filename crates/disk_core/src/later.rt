ghost use Rattle.disk_core.specs.GoingOn.{SubmitGoesOn, StepGoesOn, StoreGoesOn, HeldStoreGoesOn, RefitGoesOn, CollectGoesOn, EndGoesOn, EjectGoesOn, InsertGoesOn, ProtectGoesOn, GoesOnTwice, RestComesBack};

/// Each call lets a disk go on, and so does any list of calls. It does nothing else than to carry these laws.
#[tactic(auto, using(crate::proofs::GoingOn::submit_goes_on, crate::proofs::GoingOn::step_goes_on, crate::proofs::GoingOn::store_goes_on, crate::proofs::GoingOn::held_store_goes_on, crate::proofs::GoingOn::collect_goes_on, crate::proofs::GoingOn::goes_on_twice))]
pub fn calls_go_on()
    ensures submit { SubmitGoesOn }
    ensures step { StepGoesOn }
    ensures store { StoreGoesOn }
    ensures store_held { HeldStoreGoesOn }
    ensures collect { CollectGoesOn }
    ensures twice { GoesOnTwice }
{}

/// So do the calls that end requests, change the medium or its protection, and refit the buffer sets.
#[tactic(auto, using(crate::proofs::GoingOn::end_goes_on, crate::proofs::GoingOn::eject_goes_on, crate::proofs::GoingOn::insert_goes_on, crate::proofs::GoingOn::protect_goes_on, crate::proofs::GoingOn::refit_goes_on))]
pub fn changes_go_on()
    ensures end { EndGoesOn }
    ensures eject { EjectGoesOn }
    ensures insert { InsertGoesOn }
    ensures protect { ProtectGoesOn }
    ensures refit { RefitGoesOn }
{}

/// Whatever is called between its accept and its collect, a request's buffer comes back with each byte as it was that no
/// command of it moved: for a read, what its gets do not cover. It does nothing else than to carry this law.
pub fn rest_comes_back()
    ensures { RestComesBack }
{}
