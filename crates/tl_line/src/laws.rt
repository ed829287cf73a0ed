// Laws of actions, each the contract of a function that does nothing.
ghost use Rattle.tl_line.specs.LawsMean.{ActionsMean};
ghost use Rattle.tl_line.specs.LawsOrder.{FirstBreakIsLeast};
ghost use Rattle.tl_line.specs.LawsReadBack.{TextIsReadBack};

/// Of the rules that a form breaks in the role of an action, the first in reading order is at the
/// least offset, and no lesser rule is broken there.
pub fn first_break_is_least()
    ensures { FirstBreakIsLeast }
{}

/// The text of an action spells one form, which stands for that action. The names of operators have
/// to differ, and the names in the action have to be symbols, and no variables in its arguments.
pub fn text_is_read_back()
    ensures { TextIsReadBack }
{}

/// Forms mean actions exactly where they break no rule in the role of a plan's actions.
pub fn actions_mean()
    ensures { ActionsMean }
{}
