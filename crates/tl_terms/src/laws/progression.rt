// Progression, residuals and accepted plans.
ghost use Rattle.tl_terms.specs.LawsProgression.{ProgressionLemma, ProgressionLemmaAlong, ProgressionTable, NotKeepsTruth, AndKeepsTruth, OrKeepsTruth, StateFormulaProgressesToItsTruth, StateFormulaHoldsWhereTrue, ResidualLaw, FalseResidualBeginsNoRun, AcceptedWhereItsPairIs, AcceptanceDependsOnThePair, OpenByItsResidual, FutureDependsOnThePair};

/// A formula holds at a position of a run exactly where its progression through the world there
/// holds at the next position (Bacchus and Kabanza 2000).
pub fn progression_lemma()
    ensures { ProgressionLemma }
{}

/// Over any infinite sequence of worlds a formula fails at a position exactly where its progression
/// through the world there fails at the next.
/// On a run of a stem and a loop, where what holds is decided, this is the progression lemma.
pub fn progression_lemma_along_a_sequence()
    ensures { ProgressionLemmaAlong }
{}

/// Each temporal word progresses by its row of the table, where no value is still to be put in.
pub fn progression_goes_by_its_table()
    ensures { ProgressionTable }
{}

/// The simplified negation holds wherever the negation does, at every position of every run.
pub fn simplified_negation_keeps_truth()
    ensures { NotKeepsTruth }
{}

/// The simplified conjunction holds wherever the conjunction does, at every position of every run.
pub fn simplified_conjunction_keeps_truth()
    ensures { AndKeepsTruth }
{}

/// The simplified disjunction holds wherever the disjunction does, at every position of every run.
pub fn simplified_disjunction_keeps_truth()
    ensures { OrKeepsTruth }
{}

/// A formula without temporal words progresses to TRUE or FALSE, by its truth in the world.
pub fn state_formula_progresses_to_its_truth()
    ensures { StateFormulaProgressesToItsTruth }
{}

/// A formula without temporal words holds at a position exactly where it is true in the world
/// there.
pub fn state_formula_holds_where_true()
    ensures { StateFormulaHoldsWhereTrue }
{}

/// A formula holds on a run exactly where what is left of it after the run's first worlds holds
/// behind them.
pub fn residual_holds_after_the_worlds()
    ensures { ResidualLaw }
{}

/// Worlds after which the residual is FALSE begin no infinite sequence of worlds on which the
/// formula holds, so pruning there loses nothing.
pub fn false_residual_begins_no_satisfying_run()
    ensures { FalseResidualBeginsNoRun }
{}

/// A plan is accepted exactly where it executes and its search node is accepted.
pub fn accepted_exactly_where_its_pair_is()
    ensures { AcceptedWhereItsPairIs }
{}

/// Of two plans with one search node both are accepted or none, so one of them may stand for both.
pub fn acceptance_depends_on_the_pair()
    ensures { AcceptanceDependsOnThePair }
{}

/// A path is open exactly where it executes and its own residual is not FALSE.
pub fn open_by_its_own_residual()
    ensures { OpenByItsResidual }
{}

/// Of two paths with one search node, the same further actions lead to one search node, so
/// duplicate detection loses nothing.
pub fn future_depends_on_the_pair()
    ensures { FutureDependsOnThePair }
{}
