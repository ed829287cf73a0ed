// How the leading values of a row stand to those that a pattern asks for.
ghost use Rattle.std.specs.Prelude.{◌≡◌, ◌<◌, ◌≤◌, ◌+◌, ◌^◌, length, IfSome};
ghost use Rattle.tl_match.specs.Front.{known_value, seen_after, front, front_cmp, known_of, is_in_turn, are_in_turn};

use crate::{Match, Part};
use std::cmp::Ordering;
use tl_rows::order_of_values;
use tl_syntax::Value;

/// The value of the part: a fixed one, or that of one of the first variables, of which `seen` came
/// before.
fn value_of_part(part: Part, seen: usize, known: &[Value]) -> Option<Value>
    ensures { result ≡ known_value seen known.now part }
{
    match part {
        Part::Fixed(v) => Some(v),
        Part::Free(n) => {
            let n = n as usize;
            if n <= seen {
                known.get(n).copied()
            } else {
                None
            }
        }
    }
}

/// How many of the first variables came before what follows the part.
fn count_seen(part: Part, seen: usize) -> usize
    requires { seen + 1 < 2 ^ 64 }
    ensures { result ≡ seen_after seen part }
{
    match part {
        Part::Fixed(_) => seen,
        Part::Free(n) => { if n as usize == seen { seen + 1 } else { seen } }
    }
}

/// Whether the part is fixed, or one of the first variables, of which `seen` came before, or the
/// next one.
fn is_in_turn(part: Part, seen: usize) -> bool
    ensures { result ≡ is_in_turn seen part }
{
    match part {
        Part::Fixed(_) => true,
        Part::Free(n) => n as usize <= seen,
    }
}

/// Whether the variables first stand in the order of their numbers.
pub fn are_in_turn(parts: &[Part]) -> bool
    ensures { result ≡ are_in_turn 0 parts.now }
{
    let mut seen = 0;
    let mut k = 0;
    while k < parts.len() {
        if !is_in_turn(parts[k], seen) {
            return false;
        }
        seen = count_seen(parts[k], seen);
        k += 1;
    }
    true
}

/// How the values of the leading parts, as far as they are fixed or known in turn, stand to as many
/// leading values of the row.
pub fn order_of_front(lead: &[Part], known: &[Value], row: &[Value]) -> Ordering
    ensures { result ≡ front_cmp (front 0 lead.now known.now) row.now }
{
    let mut seen = 0;
    let mut k = 0;
    while k < lead.len() {
        let Some(v) = value_of_part(lead[k], seen, known) else {
            return Ordering::Equal;
        };
        if k >= row.len() {
            return Ordering::Greater;
        }
        let order = order_of_values(v, row[k]);
        if order != Ordering::Equal {
            return order;
        }
        seen = count_seen(lead[k], seen);
        k += 1;
    }
    Ordering::Equal
}

/// The values that the match knows.
pub(crate) fn values_of(found: &Option<Match>, free: u32) -> &[Value]
    requires { free ≤ 9 }
    ensures value { result.now ≡ known_of found.now free }
    ensures size { IfSome found.now (λ _. length result.now ≡ free) }
{
    match found {
        Some(m) => &m.values[..free as usize],
        None => &[],
    }
}
