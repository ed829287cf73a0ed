// Plan files with a repeated part.
ghost use Rattle.std.specs.Prelude.{◌≡◌, ◌+◌, ◌<◌, ◌≤◌, Some, length, option_map, IfErr, IfOk, MatchOption};
ghost use Rattle.tl_sexpr.specs.Offsets.{AreAsRead};
ghost use Rattle.tl_sexpr.specs.Tree.{tree_of, trees_of, no_form};
ghost use Rattle.tl_syntax.specs.Lists.{Each};
ghost use Rattle.tl_rules.specs.Reads.{IsLeastFault, trees_in};
ghost use Rattle.tl_lasso.specs.LoopFiles.{front_of, last_form, repeated, repeated_in};
ghost use Rattle.tl_lasso.specs.ReadLoops.{IsNamedIn, ReadsLoop, ReadsRepeated, breaks_in};

use crate::plan::LoopPlan;
use std::alloc::Global;
use tl_line::actions_of;
use tl_rules::parts::{is_word, offset, split_first};
use tl_rules::{FormFault, Rule, breaks};
use tl_sexpr::{Form, Forms};
use tl_syntax::{Actions, Problem};

/// The forms after the word `repeat`, where there is one at least.
#[tactic(auto, using(crate::proofs::LoopForms::repeated_elements))]
fn repeated_in(forms: &[Form]) -> Option<&[Form]>
    ensures { option_map (λ found. trees_in found.now) result ≡ repeated_in (trees_in forms.now) }
{
    match split_first(forms) {
        Some((word, rest)) => {
            if is_word("repeat", word) && !rest.is_empty() {
                Some(rest)
            } else {
                None
            }
        }
        None => None,
    }
}

/// The forms of the actions of a repeated part; other forms are none.
#[tactic(auto, using(crate::proofs::Rulesets::form_trees))]
fn repeated(form: &Form) -> Option<&[Form]>
    ensures { option_map (λ found. trees_in found.now) result ≡ repeated (tree_of form.now) }
{
    match form {
        Form::Sym(_, _) => None,
        Form::Int(_, _) => None,
        Form::List(forms, _) => repeated_in(forms.as_slice()),
    }
}

/// The last form and those before it, where there is one.
fn split_last(forms: &[Form]) -> Option<(&[Form], &Form)>
    ensures { MatchOption result (trees_in forms.now ≡ no_form)
        (λ found. (front_of (trees_in forms.now) ≡ trees_in found.0.now) × (last_form (trees_in forms.now) ≡ Some (tree_of found.1.now))) }
{
    match forms {
        [front @ .., last] => Some((front, last)),
        [] => None,
    }
}

/// The actions of the repeated part, with so many actions before them.
fn cycle_of(
    alloc: Global,
    form: &Form,
    problem: &Problem,
    before: usize,
) -> Result<Actions, FormFault>
    requires { before ≤ 100000 }
    ensures read { ReadsRepeated problem.now before (tree_of form.now) result }
    ensures few { IfOk result (λ plan. before + length plan ≤ 100000) }
    ensures some { IfOk result (λ plan. 0 < length plan) }
    ensures named { IfOk result (λ plan. Each (IsNamedIn problem.now) plan) }
{
    let Some(forms) = repeated(form) else {
        return Err(breaks(Rule::Shape, offset(form)));
    };
    actions_of(alloc, forms, problem, before)
}

/// The plan that forms stand for.
fn loop_plan(alloc: Global, forms: &[Form], problem: &Problem) -> Result<LoopPlan, FormFault>
    ensures read { ReadsLoop problem.now (trees_in forms.now) result }
    ensures few { IfOk result (λ plan. length plan.stem + length plan.cycle ≤ 100000) }
    ensures some { IfOk result (λ plan. 0 < length plan.cycle) }
    ensures stem_named { IfOk result (λ plan. Each (IsNamedIn problem.now) plan.stem) }
    ensures cycle_named { IfOk result (λ plan. Each (IsNamedIn problem.now) plan.cycle) }
{
    let Some((front, last)) = split_last(forms) else {
        return Err(breaks(Rule::Shape, 0));
    };
    let stem = actions_of(alloc, front, problem, 0)?;
    let cycle = cycle_of(alloc, last, problem, stem.len())?;
    Ok(LoopPlan { stem, cycle })
}

/// The plan with a repeated part that the forms of a plan file stand for: actions, and last of all
/// `(repeat ACTION ..)` with one action at least; of both parts together at most 100,000. Or the
/// fault with the least offset, and there the least rule.
#[tactic(auto, using(crate::proofs::Rulesets::form_trees, crate::proofs::LoopOrder::least_fault))]
pub fn loop_of(alloc: Global, forms: &Forms, problem: &Problem) -> Result<LoopPlan, FormFault>
    ensures read { ReadsLoop problem.now (trees_of forms.now) result }
    ensures least { AreAsRead (trees_of forms.now) → IfErr result (IsLeastFault (breaks_in problem.now (trees_of forms.now))) }
    ensures few { IfOk result (λ plan. length plan.stem + length plan.cycle ≤ 100000) }
    ensures some { IfOk result (λ plan. 0 < length plan.cycle) }
    ensures stem_named { IfOk result (λ plan. Each (IsNamedIn problem.now) plan.stem) }
    ensures cycle_named { IfOk result (λ plan. Each (IsNamedIn problem.now) plan.cycle) }
{
    loop_plan(alloc, forms.as_slice(), problem)
}
