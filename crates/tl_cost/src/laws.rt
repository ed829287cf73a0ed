// Laws of the definitions, each the contract of a function that does nothing.
ghost use Rattle.tl_cost.specs.LawsMean.{CostsMean};

/// The forms of a costs file mean costs exactly where they break no rule.
pub fn costs_mean()
    ensures { CostsMean }
{}
