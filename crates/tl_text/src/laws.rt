// Laws of plan files, each the contract of a function that does nothing.
ghost use Rattle.tl_text.specs.LawsMean.{PlansMean};
ghost use Rattle.tl_text.specs.LawsOrder.{FirstBreakIsLeast};
ghost use Rattle.tl_text.specs.LawsReadBack.{LinesAreReadBack, PlansAreReadBack};

/// Of the rules that the forms of a plan file break, the first in reading order is at the least
/// offset, and no lesser rule is broken there.
pub fn first_break_is_least()
    ensures { FirstBreakIsLeast }
{}

/// The lines of actions are a plan file of these actions. The names of operators have to differ,
/// and the names in the actions have to be symbols, and no variables in their arguments.
pub fn lines_are_read_back()
    ensures { LinesAreReadBack }
{}

/// The lines of a printed plan are a plan file of its actions, under the same conditions: the first
/// line is a comment.
pub fn plans_are_read_back()
    ensures { PlansAreReadBack }
{}

/// The forms of a plan file mean a plan exactly where they break no rule.
pub fn plans_mean()
    ensures { PlansMean }
{}
