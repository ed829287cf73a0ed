// The tuples of a pattern, gathered in one pass and sorted, where its variables stand against the
// order of the rows.
ghost use Rattle.std.specs.List.Sorted.{IsPermutation};
ghost use Rattle.std.specs.Prelude.{◌≡◌, ◌<◌, ◌≤◌, ◌+◌, ℕ, length, map, slice_get, false, IfOk, IfSome, OnOk, IsTrue};
ghost use Rattle.tl_syntax.specs.Lists.{Rises};
ghost use Rattle.tl_match.specs.Fits.{occurs};
ghost use Rattle.tl_world.specs.Gathered.{with_match, AreMatches, AreTuplesOf, HasAllTuples};
ghost use Rattle.tl_match.specs.Patterns.{IsLawful, tuple_in_place};
ghost use Rattle.tl_rows.specs.Plain.{row_cmp};
ghost use Rattle.tl_rows.specs.Tables.{whole_row};

use crate::World;
use std::alloc::Global;
use tl_match::{
    Match, Part, Pattern, are_in_turn, is_in_second_order, match_place, match_row, order_of_front,
    places_before, rows_before,
};
use tl_rows::{PlaceRows, Runs, Second, in_order};
use tl_syntax::{NoMemory, Values};

/// How many rows are looked at for each next match, and not gathered.
const FEW: usize = 8;

/// Adds the values of the match, where there is one.
fn push_match(
    alloc: Global,
    tuples: &mut Vec<Values>,
    found: &Option<Match>,
) -> Result<(), NoMemory>
    requires { IfSome found.now (λ m. m.len ≤ 9) }
    ensures { OnOk result (tuples.new.items ≡ with_match tuples.old.items found.now) }
{
    if let Some(m) = found {
        let mut values = Values::new(alloc);
        values.extend(m.counted_values())?;
        tuples.push(values)?;
    }
    Ok(())
}

/// Whether there are more than a few rows with the fixed leading values.
fn are_many(rows: &Runs, parts: &[Part]) -> bool
    requires { Rises row_cmp rows.now }
{
    let from = rows_before(rows, parts, &[], false);
    rows.len() - from > FEW && order_of_front(parts, &[], rows.row(from + FEW)).is_ge()
}

/// The tuples of the rows, in the order of the rows.
fn tuples_of_rows(
    alloc: Global,
    rows: &Runs,
    parts: &[Part],
    free: u32,
) -> Result<Vec<Values>, NoMemory>
    requires few { free ≤ 9 }
    requires each { (n : ℕ) → n < free → IsTrue (occurs n parts.now) }
    requires order { Rises row_cmp rows.now }
    ensures { IfOk result (λ v. AreTuplesOf free parts.now rows.now v.items) }
{
    let mut tuples = Vec::new(alloc);
    let mut k = rows_before(rows, parts, &[], false);
    while k < rows.len() {
        let row = rows.row(k);
        if order_of_front(parts, &[], row).is_lt() {
            return Ok(tuples);
        }
        push_match(alloc, &mut tuples, &match_row(parts, free, row))?;
        k += 1;
    }
    Ok(tuples)
}

/// Whether there are more than a few places with the fixed leading arguments.
fn are_many_places(rows: &PlaceRows, lead: &[Part]) -> bool
    requires { Rises row_cmp (map (λ r. r.args) rows.now) }
{
    let from = places_before(rows, lead, &[]);
    rows.len() - from > FEW && order_of_front(lead, &[], rows.args(from + FEW)).is_ge()
}

/// The tuples of the places with their values, in the order of the places.
fn tuples_of_places(
    alloc: Global,
    rows: &PlaceRows,
    parts: &[Part],
    free: u32,
) -> Result<Vec<Values>, NoMemory>
    requires few { free ≤ 9 }
    requires each { (n : ℕ) → n < free → IsTrue (occurs n parts.now) }
    requires short { length parts.now ≤ 9 }
    requires some { 1 ≤ length parts.now }
    requires order { Rises row_cmp (map (λ r. r.args) rows.now) }
    ensures { IfOk result (λ v. AreTuplesOf free parts.now (map whole_row rows.now) v.items) }
{
    let lead = &parts[..parts.len() - 1];
    let mut tuples = Vec::new(alloc);
    let mut k = places_before(rows, lead, &[]);
    while k < rows.len() {
        let row = rows.place(k);
        if order_of_front(lead, &[], row.place_args()).is_lt() {
            return Ok(tuples);
        }
        push_match(alloc, &mut tuples, &match_place(parts, free, &row))?;
        k += 1;
    }
    Ok(tuples)
}

/// The tuples that make the pattern a fact, where each next one would be looked for among many
/// rows.
fn tuples_of_facts(world: &World, pattern: &Pattern) -> Result<Option<Vec<Values>>, NoMemory>
    requires pattern { IsLawful pattern.now }
    requires fact { pattern.now.place ≡ false }
    ensures { IfOk result (λ o. IfSome o (λ v. HasAllTuples world.now pattern.now v.items)) }
{
    let Some(rows) = world.rows(pattern.name) else {
        return Ok(None);
    };
    let parts = &pattern.parts[..pattern.len as usize];
    let runs = rows.runs();
    if is_in_second_order(rows, parts) || !are_many(runs, parts) {
        return Ok(None);
    }
    let tuples = tuples_of_rows(world.allocator(), runs, parts, pattern.free)?;
    Ok(Some(tuples))
}

/// The tuples that make the pattern a place with its value, where each next one would be looked for
/// among many places.
fn tuples_with_values(world: &World, pattern: &Pattern) -> Result<Option<Vec<Values>>, NoMemory>
    requires pattern { IsLawful pattern.now }
    requires place { IsTrue pattern.now.place }
    ensures { IfOk result (λ o. IfSome o (λ v. HasAllTuples world.now pattern.now v.items)) }
{
    let Some(rows) = world.places(pattern.name) else {
        return Ok(None);
    };
    let parts = &pattern.parts[..pattern.len as usize];
    if !are_many_places(rows, &parts[..parts.len() - 1]) {
        return Ok(None);
    }
    let tuples = tuples_of_places(world.allocator(), rows, parts, pattern.free)?;
    Ok(Some(tuples))
}

/// All tuples of the pattern, where each next one would be looked for among many rows.
fn all_tuples(world: &World, pattern: &Pattern) -> Result<Option<Vec<Values>>, NoMemory>
    requires { IsLawful pattern.now }
    ensures { IfOk result (λ o. IfSome o (λ v. HasAllTuples world.now pattern.now v.items)) }
{
    if are_in_turn(&pattern.parts[..pattern.len as usize]) {
        Ok(None)
    } else if pattern.place {
        tuples_with_values(world, pattern)
    } else {
        tuples_of_facts(world, pattern)
    }
}

/// The tuples, sorted.
fn sorted(tuples: Vec<Values>) -> Vec<Values>
    ensures { IsPermutation tuples.items result.items }
{
    let mut out = tuples;
    out.sort_unstable_by(|a, b| a.as_slice().cmp(b.as_slice()));
    out
}

/// All tuples of the pattern, each after the one before it, where they may be gathered and each
/// next one would be looked for among many rows.
#[inline(never)]
pub(crate) fn gathered(world: &World, pattern: &Pattern, may: bool) -> Result<Second, NoMemory>
    requires { IsLawful pattern.now }
    ensures { IfOk result (λ s. IfSome s (AreMatches world.now pattern.now)) }
{
    if !may {
        return Ok(Second::none());
    }
    let found = all_tuples(world, pattern)?;
    let Some(tuples) = found else {
        return Ok(Second::none());
    };
    let list = sorted(tuples);
    in_order(world.allocator(), list.as_slice())
}

/// Puts the tuple at the place in place, where there is one, and goes on to the next place.
pub(crate) fn put_tuple(tuples: &Runs, free: u32, place: &mut usize, tuple: &mut Match) -> bool
    requires few { free ≤ 9 }
    requires size { IfSome (slice_get tuples.now place.old) (λ t. length t ≡ free) }
    ensures tuple { tuple_in_place result tuple.new ≡ slice_get tuples.now place.old }
    ensures len { IsTrue result → tuple.new.len ≡ free }
    ensures place { IsTrue result → place.new ≡ place.old + 1 }
{
    if *place >= tuples.len() {
        return false;
    }
    let _ = tuple.room();
    tuple.values[..free as usize].copy_from_slice(tuples.row(*place));
    tuple.len = free;
    *place += 1;
    true
}
