// What is proved of assignments, each the contract of a function that does nothing.
ghost use Rattle.tl_action.specs.LawsAgreement.{TruthGoesByFreeSlots, LookedGoesByFreeSlots, InstancesGoByFreeSlots};

/// The truth of a formula without temporal words, what it looks at, and the instances of effects
/// depend only on the values of their free variables.
pub fn meaning_goes_by_free_variables()
    ensures truth { TruthGoesByFreeSlots }
    ensures looked { LookedGoesByFreeSlots }
    ensures instances { InstancesGoByFreeSlots }
{}
