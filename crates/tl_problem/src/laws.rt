// Laws of problem files, each the contract of a function that does nothing.
ghost use Rattle.tl_problem.specs.LawsDeclarations.{FilesGoByDeclarations};
ghost use Rattle.tl_problem.specs.LawsKeeps.{LawfulProblemKeeps};
ghost use Rattle.tl_problem.specs.LawsMean.{ProblemsMean};
ghost use Rattle.tl_problem.specs.LawsOrder.{FirstBreakIsLeast};

/// Of the rules that the forms of a problem file break, the first in reading order is at the least
/// offset, and no lesser rule is broken there.
pub fn first_break_is_least()
    ensures { FirstBreakIsLeast }
{}

/// What a problem file says that breaks no rule keeps what a problem keeps: facts and places take
/// their values, no place has two values, and no fact of the goal is also negated.
pub fn lawful_problem_keeps()
    ensures { LawfulProblemKeeps }
{}

/// What a problem file breaks and says goes, of the domain, by its predicates and functions alone.
pub fn files_go_by_declarations()
    ensures { FilesGoByDeclarations }
{}

/// The forms of a problem file mean a problem exactly where they break no rule.
pub fn problems_mean()
    ensures { ProblemsMean }
{}
