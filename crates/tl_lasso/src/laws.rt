// What is proved of verdicts and files, each the contract of a function that does nothing.
ghost use Rattle.tl_lasso.specs.LawsMean.{LoopsMean};
ghost use Rattle.tl_lasso.specs.Laws.{OneLoopVerdict};

/// Of a plan with a repeated part one verdict alone is right, so `check_loop` answers each exactly
/// where it is right.
pub fn one_loop_verdict()
    ensures { OneLoopVerdict }
{}

/// The forms of a plan file with a repeated part mean such a plan exactly where they break no rule.
pub fn loops_mean()
    ensures { LoopsMean }
{}
