// The first place that a pattern fits, whose variables first stand in the order of their numbers.
ghost use Rattle.std.specs.Option.{is_some};
ghost use Rattle.std.specs.Prelude.{◌≡◌, ◌<◌, ◌≤◌, ◌+◌, ◌^◌, ◌++◌, ◌∷◌, ℕ, List, [], length, map, take, false, IfSome, IsTrue};
ghost use Rattle.tl_syntax.specs.Lists.{Rises};
ghost use Rattle.tl_match.specs.Fits.{occurs};
ghost use Rattle.tl_match.specs.Front.{front, are_in_turn};
ghost use Rattle.tl_match.specs.Least.{IsLeastOf, HasLater};
ghost use Rattle.tl_match.specs.Places.{fits_place, whole_from, ArePlacesPassed, FitsPlaceBefore};
ghost use Rattle.tl_rows.specs.Tables.{row_cmp, whole_row};

use crate::after::{after_part, fits_in_turn};
use crate::first::{put_value, put_values};
use crate::front::{are_in_turn, order_of_front};
use crate::{MOST_PARTS, Part};
use tl_rows::{Place, PlaceRows};
use tl_syntax::Value;

/// How many places come before the first whose leading arguments are at least the known ones of the
/// parts, found by halves.
pub fn places_before(rows: &PlaceRows, lead: &[Part], known: &[Value]) -> usize
    requires { Rises row_cmp (map (λ r. r.args) rows.now) }
    ensures bound { result ≤ length rows.now }
    ensures before { ArePlacesPassed (front 0 lead.now known.now) rows.now result }
{
    let mut low = 0;
    let mut high = rows.len();
    while low < high {
        let middle = low + (high - low) / 2;
        if order_of_front(lead, known, rows.args(middle)).is_gt() {
            low = middle + 1;
        } else {
            high = middle;
        }
    }
    low
}

/// Whether the leading parts and the last one are the arguments and the value of the place under
/// the tuple's values, and the variables first stand in the order of their numbers.
fn fits_place(lead: &[Part], last: Part, row: &Place<'_>, tuple: &[Value]) -> bool
    requires { length lead.now + 1 < 2 ^ 64 }
    ensures fits { IsTrue result → IsTrue (fits_place lead.now last row.now tuple.now) }
    ensures turn { IsTrue result → IsTrue (are_in_turn 0 (lead.now ++ last ∷ [])) }
{
    match fits_in_turn(lead, row.place_args(), tuple) {
        Some(seen) => after_part(last, row.place_value(), seen, tuple).is_some(),
        None => false,
    }
}

/// Whether some tuple of `free` values makes the leading parts and the last one the arguments and
/// the value of the place. Its values are then put into the first places of `values`.
fn put_place(
    lead: &[Part],
    last: Part,
    free: u32,
    row: &Place<'_>,
    values: &mut [Value; MOST_PARTS],
) -> bool
    requires few { free ≤ 9 }
    requires slots { (n : ℕ) → IsTrue (occurs n (lead.now ++ last ∷ [])) → n < free }
    requires turn { IsTrue (are_in_turn 0 (lead.now ++ last ∷ [])) }
    ensures fits { IsTrue result → IsTrue (fits_place lead.now last row.now (take free values.new)) }
    ensures none { result ≡ false → (t : List Value) → fits_place lead.now last row.now t ≡ false }
{
    match put_values(lead, free, row.place_args(), values) {
        Some(seen) => put_value(last, row.place_value(), seen, values).is_some(),
        None => false,
    }
}

/// Whether the place before `at` is the parts with the tuple's values put in, and the variables
/// first stand in the order of their numbers.
fn is_after_place(rows: &PlaceRows, parts: &[Part], tuple: &[Value], at: usize) -> bool
    requires { 1 ≤ length parts.now }
    ensures bound { IsTrue result → at ≤ length rows.now }
    ensures some { IsTrue result → 1 ≤ at }
    ensures row { IsTrue result → FitsPlaceBefore parts.now rows.now at tuple.now }
    ensures turn { IsTrue result → IsTrue (are_in_turn 0 parts.now) }
{
    let n = parts.len() - 1;
    at > 0 && at <= rows.len() && fits_place(&parts[..n], parts[n], &rows.place(at - 1), tuple)
}

/// How many places come before those with the tuples after that in place, or with all tuples where
/// none is. None where the variables do not first stand in the order of their numbers, or `near` is
/// another number, where a tuple is in place.
pub(crate) fn places_up_to(
    rows: &PlaceRows,
    parts: &[Part],
    begun: bool,
    tuple: &[Value],
    near: usize,
) -> Option<usize>
    requires each { (n : ℕ) → n < length tuple.now → IsTrue (occurs n parts.now) }
    requires slots { (n : ℕ) → IsTrue (occurs n parts.now) → n < length tuple.now }
    requires some { 1 ≤ length parts.now }
    requires order { Rises row_cmp (map (λ r. r.args) rows.now) }
    ensures turn { IfSome result (λ _. IsTrue (are_in_turn 0 parts.now)) }
    ensures bound { IfSome result (λ i. i ≤ length rows.now) }
    ensures later { IfSome result (HasLater parts.now begun tuple.now (map whole_row rows.now)) }
{
    if begun {
        if is_after_place(rows, parts, tuple, near) {
            return Some(near);
        }
        return None;
    }
    if are_in_turn(parts) {
        Some(places_before(rows, &parts[..parts.len() - 1], &[]))
    } else {
        None
    }
}

/// The place after the first one, from a place of the list on, that some tuple makes the parts,
/// where there is one before the leading arguments exceed the fixed ones. The values of the least
/// such tuple are put into the first places of `values`.
pub(crate) fn put_first_place(
    rows: &PlaceRows,
    parts: &[Part],
    free: u32,
    from: usize,
    values: &mut [Value; MOST_PARTS],
) -> Option<usize>
    requires few { free ≤ 9 }
    requires each { (n : ℕ) → n < free → IsTrue (occurs n parts.now) }
    requires slots { (n : ℕ) → IsTrue (occurs n parts.now) → n < free }
    requires turn { IsTrue (are_in_turn 0 parts.now) }
    requires some { 1 ≤ length parts.now }
    requires order { Rises row_cmp (map (λ r. r.args) rows.now) }
    requires bound { from ≤ length rows.now }
    ensures { IsLeastOf free parts.now (whole_from from rows.now) (is_some result) values.new }
{
    let n = parts.len() - 1;
    let lead = &parts[..n];
    let last = parts[n];
    let mut k = from;
    while k < rows.len() {
        let row = rows.place(k);
        if put_place(lead, last, free, &row, values) {
            return Some(k + 1);
        }
        if order_of_front(lead, &[], row.place_args()).is_lt() {
            return None;
        }
        k += 1;
    }
    None
}
