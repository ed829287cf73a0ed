// The text of arguments, facts, places and bounds.
ghost use Rattle.std.specs.Prelude.{◌≡◌, map, OnOk};
ghost use Rattle.tl_label.specs.Labels.{variables_text};
ghost use Rattle.tl_label.specs.Lines.{after};
ghost use Rattle.tl_label.specs.Parts.{after_spaces};
ghost use Rattle.tl_label.specs.Terms.{arg_text, fact_text, place_text, not_text, goal_text, bound_text, variable_text, declared_text};

use crate::line::Line;
use crate::words::{declared_name, put_name, put_value};
use tl_syntax::{Arg, Args, Bound, Names, NoMemory, Problem, Var};

/// The name of a predicate.
pub(crate) fn predicate_name(problem: &Problem, pred: u32) -> &str
    ensures { result.now ≡ declared_text problem.now.names problem.now.domain.predicates pred }
{
    declared_name(&problem.names, problem.domain.predicates.as_slice(), pred)
}

/// The name of a function.
pub(crate) fn function_name(problem: &Problem, fun: u32) -> &str
    ensures { result.now ≡ declared_text problem.now.names problem.now.domain.functions fun }
{
    declared_name(&problem.names, problem.domain.functions.as_slice(), fun)
}

/// Puts an argument at the end.
fn put_arg(names: &Names, arg: Arg, line: &mut Line) -> Result<(), NoMemory>
    ensures { OnOk result (line.new ≡ after line.old (arg_text names.now arg)) }
{
    match arg {
        Arg::Var(var) => put_name(names, var.name, line),
        Arg::Val(value) => put_value(names, value, line),
    }
}

/// Puts a space and an argument at the end, for each argument.
#[tactic(auto, using(crate::proofs::Parentheses::written))]
fn put_args(names: &Names, args: &[Arg], line: &mut Line) -> Result<(), NoMemory>
    ensures { OnOk result
        (line.new ≡ after line.old (after_spaces (map (arg_text names.now) args.now))) }
{
    for arg in args {
        line.put(b" ")?;
        put_arg(names, *arg, line)?;
    }
    Ok(())
}

/// Puts a space and a variable at the end, for each variable.
#[tactic(auto, using(crate::proofs::Parentheses::written))]
fn put_names(names: &Names, vars: &[Var], line: &mut Line) -> Result<(), NoMemory>
    ensures { OnOk result
        (line.new ≡ after line.old (after_spaces (map (variable_text names.now) vars.now))) }
{
    for var in vars {
        line.put(b" ")?;
        put_name(names, var.name, line)?;
    }
    Ok(())
}

/// Puts the variables of a quantifier at the end.
#[tactic(auto, using(crate::proofs::Parentheses::written))]
pub(crate) fn put_variables(names: &Names, vars: &[Var], line: &mut Line) -> Result<(), NoMemory>
    ensures { OnOk result (line.new ≡ after line.old (variables_text names.now vars.now)) }
{
    match vars.split_first() {
        Some((first, others)) => {
            line.put(b"(")?;
            put_name(names, first.name, line)?;
            put_names(names, others, line)?;
            line.put(b")")
        }
        None => line.put(b"()"),
    }
}

/// Puts a fact at the end.
#[tactic(auto, using(crate::proofs::Parentheses::written))]
pub(crate) fn put_fact(
    problem: &Problem,
    pred: u32,
    args: &Args,
    line: &mut Line,
) -> Result<(), NoMemory>
    ensures { OnOk result (line.new
        ≡ after line.old (fact_text problem.now.names problem.now.domain pred args.now)) }
{
    line.put(b"(")?;
    line.put(predicate_name(problem, pred).as_bytes())?;
    put_args(&problem.names, args.as_slice(), line)?;
    line.put(b")")
}

/// Puts a place with its value at the end, as an equality.
#[tactic(auto, using(crate::proofs::Parentheses::written))]
pub(crate) fn put_place(
    problem: &Problem,
    fun: u32,
    args: &Args,
    value: Arg,
    line: &mut Line,
) -> Result<(), NoMemory>
    ensures { OnOk result (line.new ≡ after line.old
        (place_text problem.now.names problem.now.domain fun args.now value)) }
{
    line.put(b"(= (")?;
    line.put(function_name(problem, fun).as_bytes())?;
    put_args(&problem.names, args.as_slice(), line)?;
    line.put(b") ")?;
    put_arg(&problem.names, value, line)?;
    line.put(b")")
}

/// Puts a fact of the goal at the end.
#[tactic(auto, using(crate::proofs::Parentheses::written))]
pub(crate) fn put_goal_fact(
    problem: &Problem,
    pred: u32,
    args: &Args,
    line: &mut Line,
) -> Result<(), NoMemory>
    ensures { OnOk result (line.new ≡ after line.old
        (goal_text (fact_text problem.now.names problem.now.domain pred args.now))) }
{
    line.put(b"(goal ")?;
    put_fact(problem, pred, args, line)?;
    line.put(b")")
}

/// Puts a negated fact of the goal at the end.
#[tactic(auto, using(crate::proofs::Parentheses::written))]
pub(crate) fn put_goal_not(
    problem: &Problem,
    pred: u32,
    args: &Args,
    line: &mut Line,
) -> Result<(), NoMemory>
    ensures { OnOk result (line.new ≡ after line.old
        (goal_text (not_text (fact_text problem.now.names problem.now.domain pred args.now)))) }
{
    line.put(b"(goal (not ")?;
    put_fact(problem, pred, args, line)?;
    line.put(b"))")
}

/// Puts a place of the goal with its value at the end.
#[tactic(auto, using(crate::proofs::Parentheses::written))]
pub(crate) fn put_goal_place(
    problem: &Problem,
    fun: u32,
    args: &Args,
    value: Arg,
    line: &mut Line,
) -> Result<(), NoMemory>
    ensures { OnOk result (line.new ≡ after line.old
        (goal_text (place_text problem.now.names problem.now.domain fun args.now value))) }
{
    line.put(b"(goal ")?;
    put_place(problem, fun, args, value, line)?;
    line.put(b")")
}

/// Puts the bound of a quantifier at the end.
pub(crate) fn put_bound(problem: &Problem, bound: &Bound, line: &mut Line) -> Result<(), NoMemory>
    ensures { OnOk result
        (line.new ≡ after line.old (bound_text problem.now.names problem.now.domain bound.now)) }
{
    match bound {
        Bound::Fact(pred, args) => put_fact(problem, *pred, args, line),
        Bound::Place(fun, args, value) => put_place(problem, *fun, args, *value, line),
        Bound::GoalFact(pred, args) => put_goal_fact(problem, *pred, args, line),
        Bound::GoalPlace(fun, args, value) => put_goal_place(problem, *fun, args, *value, line),
        Bound::GoalNot(pred, args) => put_goal_not(problem, *pred, args, line),
    }
}
