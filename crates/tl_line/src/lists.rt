// The actions of forms, one after the other.
ghost use Rattle.std.specs.Prelude.{◌+◌, ◌<◌, ◌≤◌, length, IfOk};
ghost use Rattle.tl_sexpr.specs.Tree.{tree_of};
ghost use Rattle.tl_syntax.specs.Lists.{Each};
ghost use Rattle.tl_rules.specs.Reads.{trees_in};
ghost use Rattle.tl_line.specs.NamedActions.{ActionIsNamed};
ghost use Rattle.tl_line.specs.ReadActions.{ReadsPlacedAction, ReadsActions};

use crate::read::action_of;
use std::alloc::Global;
use tl_rules::parts::{is_call, offset};
use tl_rules::{FormFault, Rule, breaks};
use tl_sexpr::Form;
use tl_syntax::{Action, Actions, Problem};

/// How many actions a plan may have.
const MOST_ACTIONS: usize = 100_000;

/// An action with so many actions before it.
#[tactic(auto, using(crate::proofs::Placed::placed))]
fn placed_action(
    alloc: Global,
    form: &Form,
    problem: &Problem,
    before: usize,
) -> Result<Action, FormFault>
    ensures read { ReadsPlacedAction problem.now before (tree_of form.now) result }
    ensures named { IfOk result (λ action. ActionIsNamed problem.now.names
        problem.now.domain.operators action) }
    ensures few { IfOk result (λ _. before < 100000) }
{
    if before < MOST_ACTIONS {
        return action_of(alloc, form, problem);
    }
    if is_call(form) {
        return Err(breaks(Rule::Limit, offset(form)));
    }
    Err(breaks(Rule::Shape, offset(form)))
}

/// The actions that forms stand for, with so many actions before them, or the first rule that one
/// of the forms breaks; the 100,001st of the plan breaks `Rule::Limit`. It takes the time of the
/// forms, times that of finding an operator among at most 256.
#[tactic(auto, using(crate::proofs::Rulesets::composed, crate::proofs::Rulesets::each_more))]
pub fn actions_of(
    alloc: Global,
    forms: &[Form],
    problem: &Problem,
    before: usize,
) -> Result<Actions, FormFault>
    requires { before ≤ 100000 }
    ensures read { ReadsActions problem.now before (trees_in forms.now) result }
    ensures few { IfOk result (λ plan. before + length plan ≤ 100000) }
    ensures named { IfOk result (λ plan. Each (ActionIsNamed problem.now.names
        problem.now.domain.operators) plan) }
{
    let mut actions = Actions::new(alloc);
    for form in forms {
        let action = placed_action(alloc, form, problem, before + actions.len())?;
        actions.push(action)?;
    }
    Ok(actions)
}
