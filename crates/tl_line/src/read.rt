// The action of a form.
ghost use Rattle.std.specs.Prelude.{◌≤◌, ℕ, length, unwrap_or, IfOk, IfErr};
ghost use Rattle.tl_sexpr.specs.Tree.{list, tree_of};
ghost use Rattle.tl_sexpr.specs.Offsets.{RisesFrom};
ghost use Rattle.tl_rules.specs.Reads.{Reads, IsLeastFault, trees_in};
ghost use Rattle.tl_line.specs.Actions.{operator_at, named_operator_breaks};
ghost use Rattle.tl_line.specs.NamedActions.{ActionIsNamed};
ghost use Rattle.tl_line.specs.ReadActions.{ReadsActionBy, ReadsAction, action_breaks_in};

use crate::operators::operator_of;
use crate::values::arguments;
use std::alloc::Global;
use tl_rules::parts::call;
use tl_rules::{FormFault, Rule, breaks};
use tl_sexpr::Form;
use tl_syntax::{Action, Names, Operator, Problem};

/// The operator of an action with so many arguments.
fn operator(
    names: &Names,
    operators: &[Operator],
    text: &str,
    arguments: usize,
    at: u32,
) -> Result<u32, FormFault>
    requires { length operators.now ≤ 256 }
    ensures { Reads (λ (x : ℕ). x) result (named_operator_breaks names.now operators.now text.now
        arguments at)
        (unwrap_or (operator_at names.now operators.now text.now) 0) }
{
    let Some(place) = operator_of(names, operators, text) else {
        return Err(breaks(Rule::NoOperator, at));
    };
    if operators[place].params.len() != arguments {
        return Err(breaks(Rule::ArgumentCount, at));
    }
    Ok(place as u32)
}

/// An action by the elements of its list and its offset.
#[tactic(auto, using(crate::proofs::Rulesets::composed), unfolding(crate::specs::Actions::action_breaks, crate::specs::MeaningOfActions::action_meant))]
fn action_list(
    alloc: Global,
    names: &Names,
    operators: &[Operator],
    forms: &[Form],
    at: u32,
) -> Result<Action, FormFault>
    requires { length operators.now ≤ 256 }
    ensures { ReadsActionBy names.now operators.now (list (trees_in forms.now) at) result }
{
    let Some((text, rest)) = call(forms) else {
        return Err(breaks(Rule::Shape, at));
    };
    let op = operator(names, operators, text, rest.len(), at)?;
    let args = arguments(alloc, names, rest)?;
    Ok(Action { op, args })
}

/// The action that a form stands for, by the names and the operators of a problem.
#[tactic(auto, using(crate::proofs::Rulesets::form_trees), unfolding(crate::specs::Actions::action_breaks, crate::specs::MeaningOfActions::action_meant))]
fn action(
    alloc: Global,
    names: &Names,
    operators: &[Operator],
    form: &Form,
) -> Result<Action, FormFault>
    requires { length operators.now ≤ 256 }
    ensures { ReadsActionBy names.now operators.now (tree_of form.now) result }
{
    match form {
        Form::Sym(_, at) => Err(breaks(Rule::Shape, *at)),
        Form::Int(_, at) => Err(breaks(Rule::Shape, *at)),
        Form::List(forms, at) => action_list(alloc, names, operators, forms.as_slice(), *at),
    }
}

/// The action that a form of a plan file stands for, or the fault with the least offset, and there
/// the least rule: `Shape`, `NoOperator`, `ArgumentCount`, or `NotAValue` at an argument. An
/// operator is found among at most 256 by its text.
pub fn action_of(alloc: Global, form: &Form, problem: &Problem) -> Result<Action, FormFault>
    ensures read { ReadsAction problem.now (tree_of form.now) result }
    ensures least { (low next : ℕ) → RisesFrom low (tree_of form.now) next
        → IfErr result (IsLeastFault (action_breaks_in problem.now (tree_of form.now))) }
    ensures named { IfOk result (λ action. ActionIsNamed problem.now.names
        problem.now.domain.operators action) }
{
    action(
        alloc,
        &problem.names,
        problem.domain.operators.as_slice(),
        form,
    )
}
