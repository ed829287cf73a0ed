// Costs files.
ghost use Rattle.std.specs.Prelude.{◌≡◌, ◌<◌, ℕ, List, Option, length, map, option_map, unwrap_or, IfErr, IfOk, IfSome};
ghost use Rattle.tl_sexpr.specs.Offsets.{AreAsRead};
ghost use Rattle.tl_sexpr.specs.Tree.{tree_of, trees_of};
ghost use Rattle.tl_rules.specs.Reads.{IsLeastFault, Reads, trees_in};
ghost use Rattle.tl_cost.specs.CostFiles.{cost_breaks, cost_meant, costs_breaks, costs_meant, entry_breaks, entry_meant, entry_of_form, entry_of_two, given_after, integer_of, is_given, none_given};

use crate::costs::Costs;
use std::alloc::{AllocError, Global};
use tl_line::operator_of;
use tl_rules::parts::{offset, symbol_text, two};
use tl_rules::{FormFault, Rule, breaks};
use tl_sexpr::{Form, Forms};
use tl_syntax::{Names, Operator, Problem};

/// The greatest cost of an operator.
const MOST_COST: i64 = 1_000_000;

/// The integer of a form, where it is one.
#[tactic(auto, using(crate::proofs::Rulesets::form_trees))]
fn integer_of(form: &Form) -> Option<i64>
    ensures { result ≡ integer_of (tree_of form.now) }
{
    match form {
        Form::Sym(_, _) => None,
        Form::Int(cost, _) => Some(*cost),
        Form::List(_, _) => None,
    }
}

/// The text and the integer, where the two forms are a symbol and an integer.
fn pair<'a>(first: &'a Form, second: &Form) -> Option<(&'a str, i64)>
    ensures { option_map (λ parts. (parts.0.now, parts.1)) result
        ≡ entry_of_two (tree_of first.now) (tree_of second.now) }
{
    match symbol_text(first) {
        Some(text) => match integer_of(second) {
            Some(cost) => Some((text, cost)),
            None => None,
        },
        None => None,
    }
}

/// The name and the cost of a form, where it is a list of these two.
#[tactic(auto, using(crate::proofs::Rulesets::form_trees))]
fn entry_parts(form: &Form) -> Option<(&str, i64)>
    ensures { option_map (λ parts. (parts.0.now, parts.1)) result
        ≡ entry_of_form (tree_of form.now) }
{
    match form {
        Form::Sym(_, _) => None,
        Form::Int(_, _) => None,
        Form::List(forms, _) => match two(forms.as_slice()) {
            Some((first, second)) => pair(first, second),
            None => None,
        },
    }
}

/// Whether an operator was given a cost.
fn is_given(given: &[Option<u32>], op: Option<usize>) -> bool
    requires { IfSome op (λ place. place < length given.now) }
    ensures { result ≡ is_given given.now op }
{
    match op {
        Some(place) => given[place].is_some(),
        None => false,
    }
}

/// The place of an operator and its cost.
fn cost_at(
    given: &[Option<u32>],
    op: Option<usize>,
    cost: i64,
    at: u32,
) -> Result<(usize, u32), FormFault>
    requires { IfSome op (λ place. place < length given.now) }
    ensures read { Reads (λ (x : ℕ × ℕ). x) result (cost_breaks given.now op cost at)
        (cost_meant op cost) }
    ensures within { IfOk result (λ x. x.0 < length given.now) }
{
    if is_given(given, op) {
        return Err(breaks(Rule::Twice, at));
    }
    if cost < 0 || cost > MOST_COST {
        return Err(breaks(Rule::Limit, at));
    }
    match op {
        Some(place) => Ok((place, cost as u32)),
        None => Err(breaks(Rule::NoOperator, at)),
    }
}

/// The operator of a form, by its position, and its cost, where forms before it gave these costs.
fn entry(
    names: &Names,
    operators: &[Operator],
    given: &[Option<u32>],
    form: &Form,
) -> Result<(usize, u32), FormFault>
    requires { length given.now ≡ length operators.now }
    ensures read { Reads (λ (x : ℕ × ℕ). x) result
        (entry_breaks names.now operators.now given.now (tree_of form.now))
        (entry_meant names.now operators.now (tree_of form.now)) }
    ensures within { IfOk result (λ x. x.0 < length given.now) }
{
    let Some((text, cost)) = entry_parts(form) else {
        return Err(breaks(Rule::Shape, offset(form)));
    };
    let op = operator_of(names, operators, text);
    cost_at(given, op, cost, offset(form))
}

/// No cost for any operator.
fn no_costs(alloc: Global, operators: &[Operator]) -> Result<Vec<Option<u32>>, AllocError>
    ensures { IfOk result (λ given. given.items ≡ none_given operators.now) }
{
    vec![in alloc; None; operators.len()]
}

/// The costs that forms give.
#[tactic(auto, using(crate::proofs::Rulesets::composed))]
fn given_costs(
    alloc: Global,
    names: &Names,
    operators: &[Operator],
    forms: &[Form],
) -> Result<Vec<Option<u32>>, FormFault>
    ensures { Reads (λ (given : _). given.items) result
        (costs_breaks names.now operators.now (trees_in forms.now))
        (given_after names.now operators.now (none_given operators.now) (trees_in forms.now)) }
{
    let mut given = no_costs(alloc, operators)?;
    for form in forms {
        let (place, cost) = entry(names, operators, given.as_slice(), form)?;
        given[place] = Some(cost);
    }
    Ok(given)
}

/// The cost of each operator: the one that is given, or else 1.
fn costs_from(alloc: Global, given: &[Option<u32>]) -> Result<Costs, AllocError>
    ensures { IfOk result (λ costs. costs ≡ map (λ (c : Option ℕ). unwrap_or c 1) given.now) }
{
    let mut costs = Costs::new(alloc);
    for cost in given {
        costs.push(cost.unwrap_or(1))?;
    }
    Ok(costs)
}

/// The cost of each operator that the forms of a costs file stand for.
fn costs_in(
    alloc: Global,
    names: &Names,
    operators: &[Operator],
    forms: &[Form],
) -> Result<Costs, FormFault>
    ensures { Reads (λ (costs : List ℕ). costs) result
        (costs_breaks names.now operators.now (trees_in forms.now))
        (costs_meant names.now operators.now (trees_in forms.now)) }
{
    match given_costs(alloc, names, operators, forms) {
        Ok(given) => Ok(costs_from(alloc, given.as_slice())?),
        Err(fault) => Err(fault),
    }
}

/// The costs of the operators that the forms of a costs file stand for, each `(NAME C)`, C from 0
/// to 1,000,000; an operator that is not named costs 1. Or the fault with the least offset, and
/// there the least rule: `Shape`, `Twice`, `Limit` for C, or `NoOperator`.
#[tactic(auto, using(crate::proofs::Rulesets::form_trees, crate::proofs::FileOrder::of_files))]
pub fn costs_of(alloc: Global, forms: &Forms, problem: &Problem) -> Result<Costs, FormFault>
    ensures read { Reads (λ (costs : List ℕ). costs) result
        (costs_breaks problem.now.names problem.now.domain.operators (trees_of forms.now))
        (costs_meant problem.now.names problem.now.domain.operators (trees_of forms.now)) }
    ensures least { AreAsRead (trees_of forms.now) → IfErr result
        (IsLeastFault
        (costs_breaks problem.now.names problem.now.domain.operators (trees_of forms.now))) }
    ensures one_each { IfOk result
        (λ costs. length costs ≡ length problem.now.domain.operators) }
{
    costs_in(
        alloc,
        &problem.names,
        problem.domain.operators.as_slice(),
        forms.as_slice(),
    )
}
