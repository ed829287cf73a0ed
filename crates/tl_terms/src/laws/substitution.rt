// Formulas with values put in.
ghost use Rattle.tl_terms.specs.LawsSubstitution.{TruthByInstances, SatisfactionByInstances, ProgressionByInstances, SubstitutedTwice, SubstitutedByNothing, SubstitutedOver};

/// A quantified formula is true by the truth of its instances, which are the formula with values
/// put in.
pub fn quantifiers_are_true_by_instances()
    ensures { TruthByInstances }
{}

/// A quantified formula holds at a position by what its instances do there.
pub fn quantifiers_hold_by_instances()
    ensures { SatisfactionByInstances }
{}

/// A quantified formula progresses to the conjunction or disjunction of its progressed instances,
/// in tuple order.
pub fn quantifiers_progress_by_instances()
    ensures { ProgressionByInstances }
{}

/// To put values in twice is to put them in once.
pub fn substitution_twice_is_once()
    ensures { SubstitutedTwice }
{}

/// A formula with no value put in is itself.
pub fn substitution_of_nothing_is_nothing()
    ensures { SubstitutedByNothing }
{}

/// A formula with values put in means, under an assignment, what the formula means under both.
pub fn substituted_means_the_same()
    ensures { SubstitutedOver }
{}
