// Laws of what forms mean, each the contract of a function that does nothing.
ghost use Rattle.tl_formulas.specs.LawsMean.{BoundsMean, EffectsMean, FormulasMean};

/// A form is a bound exactly where it breaks no rule in that role.
pub fn bounds_mean()
    ensures { BoundsMean }
{}

/// A form is a formula exactly where it breaks no rule in that role.
pub fn formulas_mean()
    ensures { FormulasMean }
{}

/// Forms are effects exactly where they break no rule in that role.
pub fn effects_mean()
    ensures { EffectsMean }
{}
