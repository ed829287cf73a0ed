// What is proved below of the definitions in the promises.
ghost use Rattle.tl_run.specs.Laws.{Laws};

use tl_breadth::laws::breadth_first_events_are_one;
use tl_cert::laws::{covered_has_none, one_none_verdict};
use tl_check::laws::plan_has_one_verdict;
use tl_depth::laws::depth_first_events_are_one;
use tl_domain::files_stand_for_one_problem;
use tl_lasso::laws::one_loop_verdict;
use tl_search::laws::{answers_exclude_each_other, calm_has_no_cause, few_pairs_are_not_spent};
use tl_terms::laws::{no_arithmetic_looks_at_nothing, plan_order_is_total};

/// One verdict is right of a plan, of one with a repeated part and of a proof; two files stand for
/// one problem; plans are totally ordered; what a search answers excludes other answers, and its
/// events are one list; and where no arithmetic term stands nothing is looked at.
pub(crate) fn laws()
    ensures { Laws }
{
    plan_has_one_verdict();
    files_stand_for_one_problem();
    plan_order_is_total();
    answers_exclude_each_other();
    few_pairs_are_not_spent();
    calm_has_no_cause();
    breadth_first_events_are_one();
    depth_first_events_are_one();
    no_arithmetic_looks_at_nothing();
    covered_has_none();
    one_none_verdict();
    one_loop_verdict();
}
