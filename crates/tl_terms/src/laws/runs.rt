// Satisfaction on runs.
ghost use Rattle.tl_terms.specs.LawsRun.{SatisfactionIsDecided};

/// On a run of a stem and a loop it is decided whether a formula holds at a position.
pub fn satisfaction_is_decided()
    ensures { SatisfactionIsDecided }
{}
