// The pattern of a bound.
ghost use Rattle.std.specs.List.{position};
ghost use Rattle.std.specs.Prelude.{◌≡◌, ◌==◌, ◌≤◌, length};
ghost use Rattle.tl_eval.specs.Frames.{assignment_in};
ghost use Rattle.tl_eval.specs.InPlace.{in_place};
ghost use Rattle.tl_eval.specs.PatternOf.{part_for, AreParts, IsPatternOf, PutsFact, PutsPlace};
ghost use Rattle.tl_syntax.specs.BoundVariables.{args_of, DifferInSlot, OccurIn};

use crate::term_value::value_in;
use tl_match::{Part, Pattern};
use tl_syntax::{Arg, Bound, Value, Var};

/// The position of the variable with the slot, where there is one. It takes no memory.
fn position_in(vars: &[Var], slot: u32) -> Option<usize>
    ensures { result ≡ position (λ u. slot == u.slot) vars.now }
{
    vars.iter().position(|other| slot == other.slot)
}

/// The part for an argument: None where it is a variable that is neither of the list nor has a
/// value in the frame. It takes no memory.
fn part_of(frame: &[Option<Value>], vars: &[Var], arg: &Arg) -> Option<Part>
    requires few { length vars.now ≤ 9 }
    ensures { result ≡ part_for vars.now (assignment_in frame.now) arg.now }
{
    match arg {
        Arg::Val(value) => Some(Part::Fixed(*value)),
        Arg::Var(var) => match position_in(vars, var.slot) {
            Some(n) => Some(Part::Free(n as u32)),
            None => match value_in(frame, var.slot) {
                Some(value) => Some(Part::Fixed(value)),
                None => None,
            },
        },
    }
}

/// Puts the parts for arguments in place, before others that do not count, and says whether each
/// argument has one. It takes no memory.
fn put_parts(frame: &[Option<Value>], vars: &[Var], args: &[Arg], parts: &mut [Part; 9]) -> bool
    requires few { length vars.now ≤ 9 }
    requires short { length args.now ≤ 9 }
    ensures { AreParts vars.now (assignment_in frame.now) args.now (in_place result parts.new) }
{
    for (i, arg) in args.iter().enumerate() {
        match part_of(frame, vars, arg) {
            Some(part) => parts[i] = part,
            None => return false,
        }
    }
    true
}

/// Makes the pattern, which has its name, that of a fact, and says whether each argument has a
/// part. It takes no memory.
fn put_fact(frame: &[Option<Value>], vars: &[Var], args: &[Arg], pattern: &mut Pattern) -> bool
    requires few { length vars.now ≤ 9 }
    requires short { length args.now ≤ 9 }
    ensures { PutsFact vars.now frame.now args.now result pattern.old pattern.new }
{
    pattern.place = false;
    pattern.len = args.len() as u32;
    pattern.free = vars.len() as u32;
    put_parts(frame, vars, args, &mut pattern.parts)
}

/// Makes the pattern, which has its name, that of a place with its value, and says whether the
/// value and each argument have a part. It takes no memory.
fn put_place(
    frame: &[Option<Value>],
    vars: &[Var],
    args: &[Arg],
    value: &Arg,
    pattern: &mut Pattern,
) -> bool
    requires few { length vars.now ≤ 9 }
    requires short { length args.now ≤ 8 }
    ensures { PutsPlace vars.now frame.now args.now value.now result pattern.old pattern.new }
{
    pattern.place = true;
    pattern.len = args.len() as u32 + 1;
    pattern.free = vars.len() as u32;
    if !put_parts(frame, vars, args, &mut pattern.parts) {
        return false;
    }
    match part_of(frame, vars, value) {
        Some(last) => {
            pattern.parts[args.len()] = last;
            true
        }
        None => false,
    }
}

/// A pattern of no bound, for `put_pattern_of`. It takes no memory.
#[inline(always)]
pub(crate) fn no_pattern() -> Pattern {
    Pattern {
        place: false,
        name: 0,
        parts: [Part::Fixed(Value::Int(0)); 9],
        len: 0,
        free: 0,
    }
}

/// Puts the pattern that the tuples of the bound make true in place, and says whether each other
/// variable has a value in the frame: where one has none, the pattern means nothing. It takes no
/// memory.
pub(crate) fn put_pattern_of(
    frame: &[Option<Value>],
    vars: &[Var],
    b: &Bound,
    pattern: &mut Pattern,
) -> bool
    requires differ { DifferInSlot vars.now }
    requires occur { OccurIn vars.now b.now }
    requires few { length (args_of b.now) ≤ 9 }
    ensures { IsPatternOf vars.now (assignment_in frame.now) b.now (in_place result pattern.new) }
{
    match b {
        Bound::Fact(pred, args) => {
            pattern.name = *pred;
            put_fact(frame, vars, args.as_slice(), pattern)
        }
        Bound::Place(fun, args, value) => {
            pattern.name = *fun;
            put_place(frame, vars, args.as_slice(), value, pattern)
        }
        Bound::GoalFact(pred, args) => {
            pattern.name = *pred;
            put_fact(frame, vars, args.as_slice(), pattern)
        }
        Bound::GoalPlace(fun, args, value) => {
            pattern.name = *fun;
            put_place(frame, vars, args.as_slice(), value, pattern)
        }
        Bound::GoalNot(pred, args) => {
            pattern.name = *pred;
            put_fact(frame, vars, args.as_slice(), pattern)
        }
    }
}
