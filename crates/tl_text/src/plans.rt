// Plan files.
ghost use Rattle.std.specs.Prelude.{◌≤◌, List, length, IfErr, IfOk};
ghost use Rattle.tl_sexpr.specs.Offsets.{AreAsRead};
ghost use Rattle.tl_sexpr.specs.Tree.{trees_of};
ghost use Rattle.tl_syntax.specs.declared.action.Action.{Action};
ghost use Rattle.tl_syntax.specs.Lists.{Each};
ghost use Rattle.tl_rules.specs.Reads.{Reads, IsLeastFault};
ghost use Rattle.tl_line.specs.NamedActions.{ActionIsNamed};
ghost use Rattle.tl_text.specs.Plans.{plan_breaks};
ghost use Rattle.tl_text.specs.MeaningOfPlans.{plan_meant};

use std::alloc::Global;
use tl_line::actions_of;
use tl_rules::FormFault;
use tl_sexpr::Forms;
use tl_syntax::{Actions, Problem};

/// The plan that the forms of a plan file stand for, or the fault with the least offset, and there
/// the least rule. Every form is an action, there may be none, and the 100,001st breaks
/// `Rule::Limit`.
#[tactic(auto, using(crate::proofs::Rulesets::form_trees, crate::proofs::PlanOrder::least_fault))]
pub fn plan_of(alloc: Global, forms: &Forms, problem: &Problem) -> Result<Actions, FormFault>
    ensures read { Reads (λ (xs : List Action). xs) result
        (plan_breaks problem.now.names problem.now.domain.operators (trees_of forms.now))
        (plan_meant problem.now.names problem.now.domain.operators (trees_of forms.now)) }
    ensures least { AreAsRead (trees_of forms.now) → IfErr result
        (IsLeastFault
        (plan_breaks problem.now.names problem.now.domain.operators (trees_of forms.now))) }
    ensures few { IfOk result (λ plan. length plan ≤ 100000) }
    ensures named { IfOk result
        (λ plan. Each (ActionIsNamed problem.now.names problem.now.domain.operators) plan) }
{
    actions_of(alloc, forms.as_slice(), problem, 0)
}
