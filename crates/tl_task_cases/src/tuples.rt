// The tuples of bounds: a bound is the only one of an operator with its parameters, and is read in
// the initial world.
ghost use Rattle.tl_syntax.specs.BoundVariables.{OccurIn, DifferInSlot};
ghost use Rattle.tl_syntax.specs.Fits.{BoundFits};
ghost use Rattle.tl_syntax.specs.Signature.{signature_of};

use crate::answers::put_tuple;
use crate::checks::{is_text, is_true};
use crate::stop::Stop;
use crate::tasks::task_of;
use std::alloc::Global;
use std::process::Abort;
use tl_eval::{Env, next_tuple};
use tl_match::Match;
use tl_syntax::{Bound, Vars};
use tl_tables::{column, filled, is_row};
use tl_world::Task;

/// The domain text of a row.
const DOMAIN: &str =
    "(domain d (predicate p 1) (predicate edge 2) (function n 0) (function f 1) (operator (take {0}) (bounds {1})))";

/// The problem text of all rows.
const PROBLEM: &str = "(problem q
 (init (p b) (p 10) (p -1) (p a) (edge a b) (edge b b) (edge b 10) (= (f a) b) (= (f b) b) (= (f 10) a))
 (goal (p c) (p 3) (edge c 3) (= (f c) 7) (= (f 3) c) (not (p a)) (not (p 2)) (not (edge a a))))";

/// The tuple of the variables after this one that makes the bound true in the initial world; or the
/// first such tuple.
fn next_after(
    task: &Task,
    env: &Env,
    vars: &Vars,
    bound: &Bound,
    after: Option<Match>,
) -> Result<Option<Match>, Stop>
    requires differ { DifferInSlot vars.now }
    requires occur { OccurIn vars.now bound.now }
    requires fits { BoundFits (signature_of task.now.problem.domain) bound.now }
{
    let Some(m) = after else {
        return Ok(next_tuple(task, &task.first, env, vars, bound, None));
    };
    if m.len as usize != vars.len() {
        return Err(Stop::Row("the tuple is of other variables"));
    }
    Ok(next_tuple(task, &task.first, env, vars, bound, Some(m)))
}

/// The next tuple, for the parameters and the only bound of the first operator.
fn next_of(task: &Task, env: &Env, after: Option<Match>) -> Result<Option<Match>, Stop> {
    let operators = task.problem.domain.operators.as_slice();
    if operators.is_empty() {
        return Err(Stop::Row("there is no operator"));
    }
    let operator = &operators[0];
    let bounds = operator.bounds.as_slice();
    if bounds.len() != 1 {
        return Err(Stop::Row("the operator has not one bound"));
    }
    next_after(task, env, &operator.params, &bounds[0], after)
}

/// The tuples of the bound, from the first on, as a text; there are fewer than nine.
fn tuples_of<R: Abort>(rt: &R, alloc: Global, task: &Task) -> Result<String, Stop> {
    let env = Env::new(alloc)?;
    let mut text = String::new(alloc);
    let mut after = None;
    for _ in 0..9u32 {
        after = next_of(task, &env, after)?;
        if let Some(m) = after {
            is_true(rt, m.len <= 9, "the length of a tuple");
            put_tuple(&task.problem.names, m.counted_values(), &mut text)?;
        } else {
            return Ok(text);
        }
    }
    Err(Stop::Row("there are too many tuples"))
}

/// The task of a row.
fn task_in(alloc: Global, row: &str) -> Result<Task, Stop> {
    let domain = filled(alloc, DOMAIN, row)?;
    task_of(alloc, domain.as_str(), PROBLEM)
}

/// Compares the tuples of a row.
fn are_given<R: Abort>(rt: &R, alloc: Global, row: &str) -> Result<(), Stop> {
    let task = task_in(alloc, row)?;
    let found = tuples_of(rt, alloc, &task);
    drop(task);
    is_text(rt, found?.as_str(), column(row, 2), row);
    Ok(())
}

/// Rows of parameters, a bound, and its tuples.
const TUPLES: &str = "
?x | (p ?x) | (-1)(10)(a)(b)
?x ?y | (edge ?x ?y) | (a b)(b 10)(b b)
?x ?y | (edge ?y ?x) | (10 b)(b a)(b b)
?x | (edge ?x ?x) | (b)
?x | (edge b ?x) | (10)(b)
?x ?y | (= (f ?x) ?y) | (10 a)(a b)(b b)
?y ?x | (= (f ?x) ?y) | (a 10)(b a)(b b)
?x | (= (f ?x) ?x) | (b)
?x | (= (f a) ?x) | (b)
?x | (= (n) ?x) | -
?x | (goal (p ?x)) | (3)(c)
?x ?y | (goal (edge ?y ?x)) | (3 c)
?x ?y | (goal (= (f ?x) ?y)) | (3 c)(c 7)
?x | (goal (not (p ?x))) | (2)(a)
?x | (goal (not (edge ?x ?x))) | (a)
- | (p a) | ()
- | (p c) | -
- | (= (f a) b) | ()
- | (goal (p c)) | ()
- | (goal (not (p c))) | -
";

#[test]
fn bounds_give_their_tuples_in_value_order(rt: HostRuntime) -> Result<(), Stop> {
    for row in TUPLES.lines() {
        if is_row(row) {
            are_given(&rt, rt.alloc(), row)?;
        }
    }
    Ok(())
}
