// The least tuple above another one in a table.
ghost use Rattle.std.specs.Ordering.{is_lt};
ghost use Rattle.std.specs.Prelude.{◌≡◌, ◌<◌, ◌≤◌, ◌&&◌, ℕ, length, map, take, false, IsTrue};
ghost use Rattle.tl_syntax.specs.Lists.{Rises};
ghost use Rattle.tl_match.specs.Fits.{occurs};
ghost use Rattle.tl_match.specs.Front.{front, front_cmp, known_of};
ghost use Rattle.tl_match.specs.Least.{IsLeast, IsLeastAfter, PutsNext, above, lower, lesser, fits_some, match_in_place};
ghost use Rattle.tl_rows.specs.Tables.{row_cmp, whole_row};

use crate::after::{rows_before, rows_up_to};
use crate::first::put_first;
use crate::first_place::{places_before, places_up_to, put_first_place};
use crate::front::{order_of_front, values_of};
use crate::row_match::{match_place, match_row};
use crate::{Match, Part};
use tl_rows::{PlaceRows, Runs};
use tl_syntax::Value;

#[tactic(auto, using(tl_rows::proofs::Order::orders))]
fn is_above(after: &Option<Match>, m: &Match, free: u32) -> bool
    requires { free ≤ 9 }
    ensures { result ≡ above after.now free (take free m.now.values) }
{
    match after {
        None => true,
        Some(a) => {
            let n = free as usize;
            let x = &a.values[..n];
            let y = &m.values[..n];
            x.cmp(y).is_lt()
        }
    }
}

#[tactic(auto, using(tl_rows::proofs::Order::orders))]
fn is_lower(best: &Option<Match>, m: &Match, free: u32) -> bool
    requires { free ≤ 9 }
    ensures { result ≡ lower best.now free (take free m.now.values) }
{
    match best {
        None => true,
        Some(b) => {
            let n = free as usize;
            let x = &m.values[..n];
            let y = &b.values[..n];
            x.cmp(y).is_lt()
        }
    }
}

/// The match of a row, where it comes after `after` and before the best so far, and else the best
/// so far.
fn lesser(
    best: Option<Match>,
    found: Option<Match>,
    after: &Option<Match>,
    free: u32,
) -> Option<Match>
    requires { free ≤ 9 }
    ensures { result ≡ lesser best found after.now free }
{
    match found {
        Some(m) => {
            if is_above(after, &m, free) && is_lower(&best, &m, free) {
                Some(m)
            } else {
                best
            }
        }
        None => best,
    }
}

/// Whether the leading values of the row, and so of all later rows, exceed those that the best
/// match so far has, or else the fixed ones.
fn is_past(lead: &[Part], best: &Option<Match>, free: u32, row: &[Value]) -> bool
    requires { free ≤ 9 }
    ensures { result ≡ is_lt (front_cmp (front 0 lead.now (known_of best.now free)) row.now) }
{
    order_of_front(lead, values_of(best, free), row).is_lt()
}

/// The match, where one is in place.
fn match_in_place(begun: bool, tuple: &Match) -> Option<Match>
    ensures { result ≡ match_in_place begun tuple.now }
{
    if begun { Some(*tuple) } else { None }
}

/// Puts the match in place, where there is one.
fn put_match(found: &Option<Match>, tuple: &mut Match) -> bool
    ensures { match_in_place result tuple.new ≡ found.now }
{
    match found {
        Some(m) => {
            *tuple = *m;
            true
        }
        None => false,
    }
}

/// Puts the least tuple after that in place that makes the parts one of the rows in place; false
/// where there is none. Where the variables first stand in the order of their numbers, it is that
/// of the first row after those up to the tuple in place that the parts fit.
pub(crate) fn put_next(
    rows: &Runs,
    parts: &[Part],
    free: u32,
    begun: bool,
    tuple: &mut Match,
    near: &mut usize,
) -> bool
    requires few { free ≤ 9 }
    requires each { (n : ℕ) → n < free → IsTrue (occurs n parts.now) }
    requires slots { (n : ℕ) → IsTrue (occurs n parts.now) → n < free }
    requires short { length parts.now ≤ 9 }
    requires order { Rises row_cmp rows.now }
    ensures { PutsNext free parts.now rows.now begun tuple.old result tuple.new }
{
    let n = free as usize;
    match rows_up_to(rows, parts, begun, &tuple.values[..n], *near) {
        Some(from) => match put_first(rows, parts, free, from, &mut tuple.values) {
            Some(next) => {
                tuple.len = free;
                *near = next;
                true
            }
            None => false,
        },
        None => put_least(rows, parts, free, begun, tuple),
    }
}

/// Puts the least tuple after that in place that makes the parts one of the rows in place, whatever
/// the order of the variables.
fn put_least(rows: &Runs, parts: &[Part], free: u32, begun: bool, tuple: &mut Match) -> bool
    requires few { free ≤ 9 }
    requires each { (n : ℕ) → n < free → IsTrue (occurs n parts.now) }
    requires short { length parts.now ≤ 9 }
    requires order { Rises row_cmp rows.now }
    ensures { PutsNext free parts.now rows.now begun tuple.old result tuple.new }
{
    put_match(
        &least_in_rows(rows, parts, free, &match_in_place(begun, tuple)),
        tuple,
    )
}

/// The least tuple above `after` that makes the parts one of the rows, whatever the order of the
/// variables. The first row is found by halves, and rows are looked at up to the first whose
/// leading parts exceed the fixed ones, or those of the best match so far.
fn least_in_rows(rows: &Runs, parts: &[Part], free: u32, after: &Option<Match>) -> Option<Match>
    requires few { free ≤ 9 }
    requires each { (n : ℕ) → n < free → IsTrue (occurs n parts.now) }
    requires short { length parts.now ≤ 9 }
    requires order { Rises row_cmp rows.now }
    ensures { IsLeast free (λ t. fits_some parts.now rows.now t && above after.now free t) result }
{
    let mut k = rows_before(rows, parts, values_of(after, free), false);
    let mut best = None;
    while k < rows.len() {
        let row = rows.row(k);
        if is_past(parts, &best, free, row) {
            return best;
        }
        best = lesser(best, match_row(parts, free, row), after, free);
        k += 1;
    }
    best
}

/// Puts the least tuple after that in place that makes the parts, of which the last is for the
/// value, one of the places with its value; false where there is none. Where the variables stand in
/// order, it is that of the first place after that of the tuple in place.
pub fn put_next_in_places(
    rows: &PlaceRows,
    parts: &[Part],
    free: u32,
    begun: bool,
    tuple: &mut Match,
    near: &mut usize,
) -> bool
    requires few { free ≤ 9 }
    requires each { (n : ℕ) → n < free → IsTrue (occurs n parts.now) }
    requires slots { (n : ℕ) → IsTrue (occurs n parts.now) → n < free }
    requires short { length parts.now ≤ 9 }
    requires some { 1 ≤ length parts.now }
    requires order { Rises row_cmp (map (λ r. r.args) rows.now) }
    ensures { PutsNext free parts.now (map whole_row rows.now) begun tuple.old result tuple.new }
{
    let n = free as usize;
    match places_up_to(rows, parts, begun, &tuple.values[..n], *near) {
        Some(from) => match put_first_place(rows, parts, free, from, &mut tuple.values) {
            Some(next) => {
                tuple.len = free;
                *near = next;
                true
            }
            None => false,
        },
        None => put_least_place(rows, parts, free, begun, tuple, near),
    }
}

/// Puts the least tuple after that in place that makes the parts one of the places with its value
/// in place, whatever the order of the variables.
fn put_least_place(
    rows: &PlaceRows,
    parts: &[Part],
    free: u32,
    begun: bool,
    tuple: &mut Match,
    near: &mut usize,
) -> bool
    requires few { free ≤ 9 }
    requires each { (n : ℕ) → n < free → IsTrue (occurs n parts.now) }
    requires short { length parts.now ≤ 9 }
    requires some { 1 ≤ length parts.now }
    requires order { Rises row_cmp (map (λ r. r.args) rows.now) }
    ensures { PutsNext free parts.now (map whole_row rows.now) begun tuple.old result tuple.new }
{
    let found = put_match(
        &next_in_places(rows, parts, free, &match_in_place(begun, tuple)),
        tuple,
    );
    let lead = &parts[..parts.len() - 1];
    *near = places_before(rows, lead, &tuple.values[..free as usize]).saturating_add(1);
    found
}

/// The least tuple above `after` that makes the parts, of which the last is for the value, one of
/// the places with its value.
///
/// It looks at rows as `next_in_rows` does, by the parts for the arguments.
fn next_in_places(
    rows: &PlaceRows,
    parts: &[Part],
    free: u32,
    after: &Option<Match>,
) -> Option<Match>
    requires few { free ≤ 9 }
    requires each { (n : ℕ) → n < free → IsTrue (occurs n parts.now) }
    requires short { length parts.now ≤ 9 }
    requires some { 1 ≤ length parts.now }
    requires order { Rises row_cmp (map (λ r. r.args) rows.now) }
    ensures { IsLeastAfter free parts.now (map whole_row rows.now) after.now result }
{
    let lead = &parts[..parts.len() - 1];
    let mut k = places_before(rows, lead, values_of(after, free));
    let mut best = None;
    while k < rows.len() {
        let row = rows.place(k);
        if is_past(lead, &best, free, row.place_args()) {
            return best;
        }
        best = lesser(best, match_place(parts, free, &row), after, free);
        k += 1;
    }
    best
}
