// What is proved of labels and verdicts, each the contract of a function that does nothing.
ghost use Rattle.tl_check.specs.LawsAhead.{TruthAheadIsSatisfaction};
ghost use Rattle.tl_check.specs.LawsVerdict.{OneVerdict};

/// A formula holds at the start of a plan's run exactly where it is true ahead of the plan's
/// states, which is what the labels tell.
pub fn truth_ahead_is_satisfaction()
    ensures { TruthAheadIsSatisfaction }
{}

/// Of a plan one verdict alone is right, so `check` answers each exactly where it is right.
pub fn plan_has_one_verdict()
    ensures { OneVerdict }
{}
