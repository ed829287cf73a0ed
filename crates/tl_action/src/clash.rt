// Whether places that are set agree with each other.
ghost use Rattle.std.specs.Cmp.Lexicographic.{slice_cmp};
ghost use Rattle.std.specs.List.{list_all};
ghost use Rattle.std.specs.Prelude.{◌≡◌, map, IfOk};
ghost use Rattle.tl_action.specs.Places.{agrees_with_all, holds_place};
ghost use Rattle.tl_syntax.specs.Keys.{agree, no_clash, place_entry, value_cmp};

use std::alloc::Global;
use std::cmp::Ordering;
use tl_syntax::{NoMemory, PlaceValue, Value};
use tl_world::World;

/// How many places are compared with each other without memory.
const FEW: usize = 8;

/// Whether the world gives each of the places its value. It takes no memory.
fn gives_each(given: &World, sets: &[PlaceValue]) -> bool
    ensures { result ≡ list_all (holds_place given.now) sets.now }
{
    sets.iter()
        .all(|s| given.value(s.fun, s.args.as_slice()) == Some(s.value))
}

/// How the values stand to the others, in lexicographic value order.
#[tactic(auto, using(tl_rows::proofs::Order::orders))]
fn order_of(values: &[Value], others: &[Value]) -> Ordering
    ensures { result ≡ slice_cmp value_cmp values.now others.now }
{
    values.cmp(others)
}

/// Whether the two do not give one place different values. It takes no memory.
fn agree_as_two(a: &PlaceValue, b: &PlaceValue) -> bool
    ensures { result ≡ agree (place_entry a.now) (place_entry b.now) }
{
    a.fun != b.fun || order_of(a.args.as_slice(), b.args.as_slice()).is_ne() || a.value == b.value
}

/// Whether none of the places is the one of `a` with another value. It takes no memory.
fn agrees_with_each(a: &PlaceValue, sets: &[PlaceValue]) -> bool
    ensures { result ≡ agrees_with_all sets.now a.now }
{
    sets.iter().all(|b| agree_as_two(a, b))
}

/// Whether no two of them give one place different values. Each is compared with each, and it takes
/// no memory.
fn each_agrees(sets: &[PlaceValue]) -> bool
    ensures { result ≡ list_all (agrees_with_all sets.now) sets.now }
{
    sets.iter().all(|a| agrees_with_each(a, sets))
}

/// Whether no two of them give one place different values. A few are compared with each other and
/// take no memory; of many a world is made, which gives each place one value, so that they agree
/// where that is always the one that is set. It fails for want of memory alone.
pub(crate) fn agree(alloc: Global, sets: &[PlaceValue]) -> Result<bool, NoMemory>
    ensures { IfOk result (λ b. b ≡ no_clash (map place_entry sets.now)) }
{
    if sets.len() < 2 {
        return Ok(true);
    }
    if sets.len() <= FEW {
        return Ok(each_agrees(sets));
    }
    let given = World::of(alloc, &[], sets)?;
    Ok(gives_each(&given, sets))
}
