// Whether a bound reads the same in two states.
ghost use Rattle.std.specs.Prelude.{◌≡◌, ◌↔◌, ◌<◌, ◌≤◌, length, IsTrue};
ghost use Rattle.tl_check.specs.Gathered.{ReadSame, ReadSameUpTo, HaveSamePlaces};

use crate::span::Span;
use tl_rows::PlaceRows;
use tl_syntax::{Bound, Value};
use tl_world::World;

/// Whether the two are the same values. It takes no memory.
fn are_same(left: &[Value], right: &[Value]) -> bool
    ensures { IsTrue result ↔ (left.now ≡ right.now) }
{
    left == right
}

/// Whether the two are the same value. It takes no memory.
fn is_same(left: Value, right: Value) -> bool
    ensures { IsTrue result ↔ (left ≡ right) }
{
    left == right
}

/// Whether both tables have the same places with the same values. It takes no memory.
fn are_same_places(left: &PlaceRows, right: &PlaceRows) -> bool
    ensures { IsTrue result → left.now ≡ right.now }
{
    let count = left.len();
    if count != right.len() {
        return false;
    }
    for k in 0..count {
        if !is_same(left.value(k), right.value(k)) || !are_same(left.args(k), right.args(k)) {
            return false;
        }
    }
    true
}

/// Whether the places of a function have the same values in both states. It takes no memory.
fn have_same_places(fun: u32, left: &World, right: &World) -> bool
    ensures { IsTrue result → HaveSamePlaces fun left.now right.now }
{
    match (left.places(fun), right.places(fun)) {
        (Some(x), Some(y)) => are_same_places(x, y),
        (Some(_), None) => false,
        (None, Some(_)) => false,
        (None, None) => true,
    }
}

/// Whether the bound is over places that have the same values in both states. It takes no memory.
fn reads_same(bound: &Bound, left: &World, right: &World) -> bool
    ensures { IsTrue result → ReadSame bound.now left.now right.now }
{
    match bound {
        Bound::Fact(_, _) => false,
        Bound::Place(fun, _, _) => have_same_places(*fun, left, right),
        Bound::GoalFact(_, _) => false,
        Bound::GoalPlace(_, _, _) => false,
        Bound::GoalNot(_, _) => false,
    }
}

/// The first position of the span whose state the bound does not read as the first one, as far as
/// the places in both tell, or the end of the span. It takes no memory.
pub(crate) fn same_up_to(bound: &Bound, worlds: &[World], span: Span) -> usize
    requires some { span.from < span.to }
    requires within { span.to ≤ length worlds.now }
    ensures from { span.from < result }
    ensures to { result ≤ span.to }
    ensures same { ReadSameUpTo bound.now worlds.now span.from result }
{
    let first = &worlds[span.from];
    for i in span.from + 1..span.to {
        if !reads_same(bound, first, &worlds[i]) {
            return i;
        }
    }
    span.to
}
