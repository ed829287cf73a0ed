// The truth of formulas that have no formula below them.
ghost use Rattle.std.specs.Prelude.{◌≡◌, ◌≤◌, [], length, Some, IfSome};
ghost use Rattle.tl_eval.specs.Frames.{assignment_in};
ghost use Rattle.tl_eval.specs.InPlace.{in_place};
ghost use Rattle.tl_eval.specs.Plain.{IsPlainAtom, IsPlainComparison};
ghost use Rattle.tl_eval.specs.Small.{HasFewArguments, HaveFewArguments};
ghost use Rattle.tl_eval.specs.TermValues.{gives_value, IsAtomTruth, IsTermComparison};
ghost use Rattle.tl_syntax.specs.Fits.{term_count};
ghost use Rattle.tl_syntax.specs.TreeOfTerm.{tree_of_term, tree_of_terms};
ghost use Rattle.tl_terms.specs.Bounds.{arg_value, arg_values, fact_in, same_value};
ghost use Rattle.tl_terms.specs.Looked.{leaves_open};
ghost use Rattle.tl_terms.specs.Terms.{prepend};
ghost use Rattle.tl_terms.specs.Truth.{compared};

use crate::RangeNote;
use crate::row::Row;
use crate::term_value::{plain_value, put_values_of_terms, value_in, value_of_term};
use tl_syntax::{Arg, Cmp, Term, Terms, Value};
use tl_world::World;

/// The value of an argument under a frame, where it has one. It takes no memory.
fn value_of_arg(frame: &[Option<Value>], arg: &Arg) -> Option<Value>
    ensures { result ≡ arg_value (assignment_in frame.now) arg.now }
{
    match arg {
        Arg::Var(var) => value_in(frame, var.slot),
        Arg::Val(value) => Some(*value),
    }
}

/// Puts the values of arguments under a frame into an empty row, and says whether all have one. It
/// takes no memory.
fn put_values_of_args(frame: &[Option<Value>], args: &[Arg], row: &mut Row) -> bool
    requires few { length args.now ≤ 8 }
    requires empty { row.old ≡ [] }
    ensures { in_place result row.new ≡ arg_values (assignment_in frame.now) args.now }
{
    for arg in args.iter() {
        match value_of_arg(frame, arg) {
            Some(value) => row.push(value),
            None => return false,
        }
    }
    true
}

/// Whether the first side of a comparison leaves it open. It takes no memory.
fn goes_on(cmp: Cmp, side: Option<Value>) -> bool
    ensures { result ≡ leaves_open cmp side }
{
    match cmp {
        Cmp::Eq => side.is_some(),
        Cmp::Less | Cmp::AtMost | Cmp::More | Cmp::AtLeast => {
            matches!(side, Some(Value::Int(_)))
        }
    }
}

/// Whether both are there and the same value. It takes no memory.
fn are_same(left: Option<Value>, right: Option<Value>) -> bool
    ensures { result ≡ same_value left right }
{
    match (left, right) {
        (Some(a), Some(b)) => a == b,
        _ => false,
    }
}

/// Whether the comparison is true of the two sides. It takes no memory.
fn compare_values(cmp: Cmp, left: Option<Value>, right: Option<Value>) -> bool
    ensures { result ≡ compared cmp left right }
{
    match (left, right) {
        (Some(Value::Int(a)), Some(Value::Int(b))) => match cmp {
            Cmp::Eq => a == b,
            Cmp::Less => a < b,
            Cmp::AtMost => a <= b,
            Cmp::More => a > b,
            Cmp::AtLeast => a >= b,
        },
        _ => match cmp {
            Cmp::Eq => are_same(left, right),
            Cmp::Less | Cmp::AtMost | Cmp::More | Cmp::AtLeast => false,
        },
    }
}

/// `atom_true` for arguments of whatever number and kind. It takes no memory.
#[inline(never)]
fn row_true(w: &World, frame: &[Option<Value>], pred: u32, args: &Terms) -> Result<bool, RangeNote>
    requires small { HaveFewArguments (tree_of_terms args.now) }
    requires few { term_count (tree_of_terms args.now) ≤ 8 }
    ensures { IsAtomTruth w.now frame.now pred (tree_of_terms args.now) result }
{
    let mut row = Row::new();
    match put_values_of_terms(w, frame, args, &mut row) {
        Ok(all) => {
            if all {
                Ok(w.holds(pred, row.as_slice()))
            } else {
                Ok(false)
            }
        }
        Err(note) => Err(note),
    }
}

/// Whether the fact of one argument is in the world, where that has a value. It takes no memory.
#[inline(always)]
fn one_holds(w: &World, pred: u32, value: Option<Value>) -> bool
    ensures { result ≡ fact_in w.now pred (prepend value (Some [])) }
{
    match value {
        Some(only) => w.holds(pred, &[only]),
        None => false,
    }
}

/// Whether the fact of two arguments is in the world, where both have a value. It takes no memory.
#[inline(always)]
fn two_hold(w: &World, pred: u32, first: Option<Value>, second: Option<Value>) -> bool
    ensures { result ≡ fact_in w.now pred (prepend first (prepend second (Some []))) }
{
    match (first, second) {
        (Some(a), Some(b)) => w.holds(pred, &[a, b]),
        _ => false,
    }
}

/// Whether the fact is in the world, where it has one or two arguments that are variables or
/// values: they are read without a row. None: it has others. It takes no memory.
#[inline(never)]
pub(crate) fn plain_atom(
    w: &World,
    frame: &[Option<Value>],
    pred: u32,
    args: &Terms,
) -> Option<bool>
    ensures { IfSome result (IsPlainAtom w.now frame.now pred args.now) }
{
    match args.as_slice() {
        [only] => match plain_value(frame, only) {
            Some(value) => Some(one_holds(w, pred, value)),
            None => None,
        },
        [first, second] => match (plain_value(frame, first), plain_value(frame, second)) {
            (Some(a), Some(b)) => Some(two_hold(w, pred, a, b)),
            _ => None,
        },
        _ => None,
    }
}

/// Whether the fact is in the world. It takes no memory.
pub(crate) fn atom_true(
    w: &World,
    frame: &[Option<Value>],
    pred: u32,
    args: &Terms,
) -> Result<bool, RangeNote>
    requires small { HaveFewArguments (tree_of_terms args.now) }
    requires few { term_count (tree_of_terms args.now) ≤ 8 }
    ensures { IsAtomTruth w.now frame.now pred (tree_of_terms args.now) result }
{
    match plain_atom(w, frame, pred, args) {
        Some(truth) => Ok(truth),
        None => row_true(w, frame, pred, args),
    }
}

/// `compare_true` for terms of whatever kind. It takes no memory.
#[inline(never)]
fn sides_compared(
    w: &World,
    frame: &[Option<Value>],
    cmp: Cmp,
    left: &Term,
    right: &Term,
) -> Result<bool, RangeNote>
    requires left { HasFewArguments (tree_of_term left.now) }
    requires right { HasFewArguments (tree_of_term right.now) }
    ensures { IsTermComparison w.now frame.now cmp left.now right.now result }
{
    match value_of_term(w, frame, left) {
        Ok(first) => {
            if goes_on(cmp, first) {
                match value_of_term(w, frame, right) {
                    Ok(second) => Ok(compare_values(cmp, first, second)),
                    Err(note) => Err(note),
                }
            } else {
                Ok(false)
            }
        }
        Err(note) => Err(note),
    }
}

/// Whether two terms that are variables or values stand in the comparison. None: one is another
/// term. It takes no memory.
#[inline(never)]
pub(crate) fn plain_comparison(
    frame: &[Option<Value>],
    cmp: Cmp,
    left: &Term,
    right: &Term,
) -> Option<bool>
    ensures { IfSome result (IsPlainComparison frame.now cmp left.now right.now) }
{
    match (plain_value(frame, left), plain_value(frame, right)) {
        (Some(first), Some(second)) => Some(compare_values(cmp, first, second)),
        _ => None,
    }
}

/// Whether the two terms stand in the comparison. It takes no memory.
pub(crate) fn compare_true(
    w: &World,
    frame: &[Option<Value>],
    cmp: Cmp,
    left: &Term,
    right: &Term,
) -> Result<bool, RangeNote>
    requires left { HasFewArguments (tree_of_term left.now) }
    requires right { HasFewArguments (tree_of_term right.now) }
    ensures { IsTermComparison w.now frame.now cmp left.now right.now result }
{
    match plain_comparison(frame, cmp, left, right) {
        Some(truth) => Ok(truth),
        None => sides_compared(w, frame, cmp, left, right),
    }
}

/// `fact_true` for arguments of whatever number. It takes no memory.
#[inline(never)]
fn fact_row_true(w: &World, frame: &[Option<Value>], pred: u32, args: &[Arg]) -> bool
    requires { length args.now ≤ 8 }
    ensures { result ≡ fact_in w.now pred (arg_values (assignment_in frame.now) args.now) }
{
    let mut row = Row::new();
    if put_values_of_args(frame, args, &mut row) {
        w.holds(pred, row.as_slice())
    } else {
        false
    }
}

/// Whether the fact of the arguments is one of the world's: the facts of the goal list, or its
/// negated facts. One or two arguments are read without a row. It takes no memory.
#[inline(never)]
pub(crate) fn fact_true(w: &World, frame: &[Option<Value>], pred: u32, args: &[Arg]) -> bool
    requires { length args.now ≤ 8 }
    ensures { result ≡ fact_in w.now pred (arg_values (assignment_in frame.now) args.now) }
{
    match args {
        [only] => one_holds(w, pred, value_of_arg(frame, only)),
        [first, second] => two_hold(
            w,
            pred,
            value_of_arg(frame, first),
            value_of_arg(frame, second),
        ),
        _ => fact_row_true(w, frame, pred, args),
    }
}

/// Whether the world, which is the goal list's, gives the place this value. It takes no memory.
#[inline(never)]
pub(crate) fn place_true(
    w: &World,
    frame: &[Option<Value>],
    fun: u32,
    args: &[Arg],
    value: &Arg,
) -> bool
    requires { length args.now ≤ 8 }
    ensures { result ≡ gives_value w.now frame.now fun args.now value.now }
{
    let mut row = Row::new();
    if put_values_of_args(frame, args, &mut row) {
        are_same(w.value(fun, row.as_slice()), value_of_arg(frame, value))
    } else {
        false
    }
}
