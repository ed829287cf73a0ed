// The values of terms.
ghost use Rattle.std.specs.Prelude.{◌≡◌, ◌≤◌, [], IfOk, IfErr, IfSome};
ghost use Rattle.tl_eval.specs.Frames.{assignment_in};
ghost use Rattle.tl_eval.specs.Notes.{integer_found, row_found, Tells};
ghost use Rattle.tl_eval.specs.Small.{HasFewArguments, HaveFewArguments};
ghost use Rattle.tl_eval.specs.TermValues.{value_under, looked_under, IsPlainValue, IsValue, IsValueInRange, AreValues, IsPlaceValue, IsOperationValue};
ghost use Rattle.tl_syntax.specs.Fits.{TermFits, term_count};
ghost use Rattle.tl_syntax.specs.Signature.{signature_of};
ghost use Rattle.tl_syntax.specs.TreeOfTerm.{tree_of_term, tree_of_terms};

use crate::range::{Operator, operate};
use crate::row::Row;
use crate::{Env, RangeNote};
use tl_syntax::{Term, Terms, Value};
use tl_world::{Task, World};

/// The value of a slot, where it has one. It takes no memory.
pub(crate) fn value_in(frame: &[Option<Value>], slot: u32) -> Option<Value>
    ensures { result ≡ assignment_in frame.now slot }
{
    match frame.get(slot as usize) {
        Some(value) => *value,
        None => None,
    }
}

/// The value of a term that is a variable or a value, or None where it is no such term. Nothing is
/// looked at for it, and it takes no memory.
#[inline(always)]
pub(crate) fn plain_value(frame: &[Option<Value>], t: &Term) -> Option<Option<Value>>
    ensures { IfSome result (λ v. IsPlainValue frame.now (tree_of_term t.now) v) }
{
    match t {
        Term::Var(var) => Some(value_in(frame, var.slot)),
        Term::Val(value) => Some(Some(*value)),
        _ => None,
    }
}

/// The integer that was found, where there is one. It takes no memory.
fn integer_of(found: Result<Option<Value>, RangeNote>) -> Result<Option<i64>, RangeNote>
    ensures { result ≡ integer_found found }
{
    match found {
        Ok(Some(Value::Int(integer))) => Ok(Some(integer)),
        Ok(Some(Value::Sym(_))) => Ok(None),
        Ok(None) => Ok(None),
        Err(note) => Err(note),
    }
}

/// The value of a term under a frame, where it is defined. It takes no memory.
#[cycle(value_of_term)]
#[inline(always)]
pub(crate) fn value_of_term(
    w: &World,
    frame: &[Option<Value>],
    t: &Term,
) -> Result<Option<Value>, RangeNote>
    requires { HasFewArguments (tree_of_term t.now) }
    ensures { IsValue w.now frame.now (tree_of_term t.now) result }
{
    match t {
        Term::Var(var) => Ok(value_in(frame, var.slot)),
        Term::Val(value) => Ok(Some(*value)),
        Term::Place(fun, args) => value_of_place(w, frame, *fun, args),
        Term::Arith(op, left, right, at) => {
            value_of_operation(w, frame, Operator { at: *at, op: *op }, left, right)
        }
    }
}

/// The value of an operation on two terms, where both are integers. It takes no memory.
#[cycle(value_of_term)]
#[inline(never)]
fn value_of_operation(
    w: &World,
    frame: &[Option<Value>],
    operator: Operator,
    left: &Term,
    right: &Term,
) -> Result<Option<Value>, RangeNote>
    requires left { HasFewArguments (tree_of_term left.now) }
    requires right { HasFewArguments (tree_of_term right.now) }
    ensures { IsOperationValue w.now frame.now operator left.now right.now result }
{
    match integer_of(value_of_term(w, frame, left)) {
        Ok(Some(a)) => match integer_of(value_of_term(w, frame, right)) {
            Ok(Some(b)) => operate(operator, a, b),
            Ok(None) => Ok(None),
            Err(note) => Err(note),
        },
        Ok(None) => Ok(None),
        Err(note) => Err(note),
    }
}

/// The value of the place of the arguments, where all are defined and it has one. It takes no
/// memory.
#[cycle(value_of_term)]
#[inline(never)]
fn value_of_place(
    w: &World,
    frame: &[Option<Value>],
    fun: u32,
    args: &Terms,
) -> Result<Option<Value>, RangeNote>
    requires small { HaveFewArguments (tree_of_terms args.now) }
    requires few { term_count (tree_of_terms args.now) ≤ 8 }
    ensures { IsPlaceValue w.now frame.now fun (tree_of_terms args.now) result }
{
    let mut row = Row::new();
    match put_values_of_terms(w, frame, args, &mut row) {
        Ok(all) => {
            if all {
                Ok(w.value(fun, row.as_slice()))
            } else {
                Ok(None)
            }
        }
        Err(note) => Err(note),
    }
}

/// Puts the values of terms under a frame into an empty row, and says whether all are defined. It
/// takes no memory.
#[cycle(value_of_term)]
#[inline(always)]
pub(crate) fn put_values_of_terms(
    w: &World,
    frame: &[Option<Value>],
    ts: &Terms,
    row: &mut Row,
) -> Result<bool, RangeNote>
    requires small { HaveFewArguments (tree_of_terms ts.now) }
    requires few { term_count (tree_of_terms ts.now) ≤ 8 }
    requires empty { row.old ≡ [] }
    ensures { AreValues w.now frame.now (tree_of_terms ts.now) (row_found row.new result) }
{
    for term in ts.as_slice().iter() {
        match term {
            Term::Var(var) => match value_in(frame, var.slot) {
                Some(value) => row.push(value),
                None => return Ok(false),
            },
            Term::Val(value) => row.push(*value),
            _ => match value_of_term(w, frame, term) {
                Ok(Some(value)) => row.push(value),
                Ok(None) => return Ok(false),
                Err(note) => return Err(note),
            },
        }
    }
    Ok(true)
}

/// The value of a term in a world, under the frame's values, where it is defined; or a note of an
/// operation that is looked at and past range.
/// It takes no memory.
#[inline(always)]
pub fn term(task: &Task, w: &World, env: &mut Env, t: &Term) -> Result<Option<Value>, RangeNote>
    requires fits { TermFits (signature_of task.now.problem.domain) (tree_of_term t.now) }
    ensures value { IfOk result (λ v. v ≡ value_under w.now env.old (tree_of_term t.now)) }
    ensures in_range { IsValueInRange w.now env.old (tree_of_term t.now) result }
    ensures note { IfErr result (λ n. Tells (looked_under w.now env.old (tree_of_term t.now)) n) }
    ensures frame { env.new ≡ env.old }
{
    let _ = &task.problem;
    value_of_term(w, env.frame(), t)
}
