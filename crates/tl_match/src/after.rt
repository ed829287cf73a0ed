// How many rows of a table come before those with the tuples after one.
ghost use Rattle.std.specs.Prelude.{◌≡◌, ◌<◌, ◌≤◌, ◌+◌, ◌^◌, ℕ, [], length, slice_get, false, IfSome, IsTrue};
ghost use Rattle.tl_syntax.specs.Lists.{Rises};
ghost use Rattle.tl_match.specs.Fits.{fits_at, fits_all, fits_before, is_value, occurs};
ghost use Rattle.tl_match.specs.Front.{front, is_passed, seen_after, seen_in, is_in_turn, are_in_turn, AreKept, ArePassed, IsFirstKept};
ghost use Rattle.tl_match.specs.Least.{HasLater};
ghost use Rattle.tl_rows.specs.Tables.{row_cmp};

use crate::Part;
use crate::front::{are_in_turn, order_of_front};
use std::cmp::Ordering;
use tl_rows::Runs;
use tl_syntax::Value;

/// Whether a row to which the front stands so is passed over, with those that tie or without them.
fn is_passed(ties: bool, order: Ordering) -> bool
    ensures { result ≡ is_passed ties order }
{
    match order {
        Ordering::Less => false,
        Ordering::Equal => ties,
        Ordering::Greater => true,
    }
}

/// Whether the last row before the place is passed over, or there is none.
fn passes_before(rows: &Runs, lead: &[Part], known: &[Value], ties: bool, at: usize) -> bool
    requires order { Rises row_cmp rows.now }
    requires bound { at ≤ length rows.now }
    ensures { IsTrue result → ArePassed ties (front 0 lead.now known.now) rows.now at }
{
    at == 0 || is_passed(ties, order_of_front(lead, known, rows.row(at - 1)))
}

/// Whether the row at the place is not passed over, or there is none.
fn keeps_from(rows: &Runs, lead: &[Part], known: &[Value], ties: bool, at: usize) -> bool
    requires order { Rises row_cmp rows.now }
    requires bound { at ≤ length rows.now }
    ensures { IsTrue result → AreKept ties (front 0 lead.now known.now) rows.now at }
{
    at == rows.len() || !is_passed(ties, order_of_front(lead, known, rows.row(at)))
}

/// How many rows come before the first whose leading values are at least the known ones of the
/// parts, or with `ties` exceed them, found by halves.
pub fn rows_before(rows: &Runs, lead: &[Part], known: &[Value], ties: bool) -> usize
    requires { Rises row_cmp rows.now }
    ensures { IsFirstKept ties (front 0 lead.now known.now) rows.now result }
{
    let mut low = 0;
    let mut high = rows.len();
    while low < high {
        let middle = low + (high - low) / 2;
        if is_passed(ties, order_of_front(lead, known, rows.row(middle))) {
            low = middle + 1;
        } else {
            high = middle;
        }
    }
    low
}

/// How many rows come before the first whose leading values are at least the fixed ones of the
/// parts. They are counted by halves where `near` is another number.
pub fn rows_before_near(rows: &Runs, lead: &[Part], near: usize) -> usize
    requires { Rises row_cmp rows.now }
    ensures { IsFirstKept false (front 0 lead.now []) rows.now result }
{
    if near <= rows.len()
        && keeps_from(rows, lead, &[], false, near)
        && passes_before(rows, lead, &[], false, near)
    {
        near
    } else {
        rows_before(rows, lead, &[], false)
    }
}

/// How many first variables came before what follows the part, where it is the value under the
/// tuple's values, and is fixed, or one of the first variables, of which `seen` came before, or the
/// next one.
pub(crate) fn after_part(part: Part, v: Value, seen: usize, tuple: &[Value]) -> Option<usize>
    requires { seen + 1 < 2 ^ 64 }
    ensures fits { IfSome result (λ _. IsTrue (fits_at part v tuple.now)) }
    ensures turn { IfSome result (λ _. IsTrue (is_in_turn seen part)) }
    ensures seen { IfSome result (λ next. next ≡ seen_after seen part) }
{
    match part {
        Part::Fixed(u) => if u == v { Some(seen) } else { None },
        Part::Free(n) => {
            let n = n as usize;
            if n > seen || !is_at(tuple, n, v) {
                None
            } else if n == seen {
                Some(seen + 1)
            } else {
                Some(seen)
            }
        }
    }
}

/// Whether the tuple has the value at place `n`.
fn is_at(tuple: &[Value], n: usize, v: Value) -> bool
    ensures { result ≡ is_value (slice_get tuple.now n) v }
{
    match tuple.get(n) {
        Some(x) => *x == v,
        None => false,
    }
}

/// How many first variables the parts have, where the row is the parts with the tuple's values put
/// in, and the variables first stand in the order of their numbers.
#[inline(always)]
pub(crate) fn fits_in_turn(parts: &[Part], row: &[Value], tuple: &[Value]) -> Option<usize>
    ensures fits { IfSome result (λ _. IsTrue (fits_all parts.now row.now tuple.now)) }
    ensures turn { IfSome result (λ _. IsTrue (are_in_turn 0 parts.now)) }
    ensures seen { IfSome result (λ seen. seen ≡ seen_in 0 parts.now) }
    ensures few { IfSome result (λ seen. seen ≤ length parts.now) }
{
    if parts.len() != row.len() {
        return None;
    }
    let mut seen = 0;
    let mut k = 0;
    while k < parts.len() {
        match after_part(parts[k], row[k], seen, tuple) {
            Some(next) => seen = next,
            None => return None,
        }
        k += 1;
    }
    Some(seen)
}

/// Whether the row before the place is the parts with the tuple's values put in, and the variables
/// first stand in the order of their numbers.
#[inline(always)]
fn is_after_row(rows: &Runs, parts: &[Part], tuple: &[Value], at: usize) -> bool
    ensures bound { IsTrue result → at ≤ length rows.now }
    ensures some { IsTrue result → 1 ≤ at }
    ensures row { IsTrue result → IsTrue (fits_before parts.now rows.now at tuple.now) }
    ensures turn { IsTrue result → IsTrue (are_in_turn 0 parts.now) }
{
    let Some(k) = at.checked_sub(1) else {
        return false;
    };
    k < rows.len() && fits_in_turn(parts, rows.row(k), tuple).is_some()
}

/// How many rows come before those with the tuples after that in place, or with all tuples where
/// none is. None where the variables do not first stand in the order of their numbers.
///
/// They are looked for where `near` is another number.
pub(crate) fn rows_up_to(
    rows: &Runs,
    parts: &[Part],
    begun: bool,
    tuple: &[Value],
    near: usize,
) -> Option<usize>
    requires each { (n : ℕ) → n < length tuple.now → IsTrue (occurs n parts.now) }
    requires slots { (n : ℕ) → IsTrue (occurs n parts.now) → n < length tuple.now }
    requires order { Rises row_cmp rows.now }
    ensures turn { IfSome result (λ _. IsTrue (are_in_turn 0 parts.now)) }
    ensures bound { IfSome result (λ i. i ≤ length rows.now) }
    ensures later { IfSome result (λ i. HasLater parts.now begun tuple.now rows.now i) }
{
    if begun && is_after_row(rows, parts, tuple, near) {
        return Some(near);
    }
    if are_in_turn(parts) {
        Some(look_up_to(rows, parts, begun, tuple, near))
    } else {
        None
    }
}

/// How many rows come before those with the tuples after that in place, or before all tuples where
/// none is. `near` is a guess for the latter.
#[inline(never)]
fn look_up_to(rows: &Runs, parts: &[Part], begun: bool, tuple: &[Value], near: usize) -> usize
    requires each { (n : ℕ) → n < length tuple.now → IsTrue (occurs n parts.now) }
    requires slots { (n : ℕ) → IsTrue (occurs n parts.now) → n < length tuple.now }
    requires turn { IsTrue (are_in_turn 0 parts.now) }
    requires order { Rises row_cmp rows.now }
    ensures bound { result ≤ length rows.now }
    ensures later { HasLater parts.now begun tuple.now rows.now result }
{
    if begun {
        rows_before(rows, parts, tuple, true)
    } else {
        rows_before_near(rows, parts, near)
    }
}
