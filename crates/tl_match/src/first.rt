// The first row that a pattern fits, whose variables first stand in the order of their numbers.
ghost use Rattle.std.specs.Prelude.{◌≡◌, ◌<◌, ◌≤◌, ℕ, List, length, drop, take, true, false, IfSome, IfNone, IsTrue};
ghost use Rattle.std.specs.Option.{is_some};
ghost use Rattle.tl_syntax.specs.Lists.{Rises};
ghost use Rattle.tl_match.specs.Fits.{fits_all, occurs, BeginsAs, EachBegins, EachFits, EachFitsAt, NoneFitsAt};
ghost use Rattle.tl_match.specs.Front.{BeginsOn, seen_after, seen_in, is_in_turn, are_in_turn};
ghost use Rattle.tl_match.specs.Least.{IsLeastOf, HasLater};
ghost use Rattle.tl_rows.specs.Tables.{row_cmp};

use crate::front::order_of_front;
use crate::{MOST_PARTS, Part};
use tl_rows::Runs;
use tl_syntax::Value;

/// How many first variables have values after the part, where a tuple that begins with the first
/// `seen` values can make it the value `v`. A new variable gets its value.
pub(crate) fn put_value(
    part: Part,
    v: Value,
    seen: usize,
    values: &mut [Value; MOST_PARTS],
) -> Option<usize>
    requires turn { IsTrue (is_in_turn seen part) }
    requires room { seen_after seen part ≤ 9 }
    ensures seen { IfSome result (λ next. next ≡ seen_after seen part) }
    ensures kept { BeginsAs seen values.new values.old }
    ensures fits { IfSome result (λ _. EachFitsAt part v (seen_after seen part) values.new) }
    ensures known { IfSome result (λ _. BeginsOn part v seen values.old values.new) }
    ensures none { IfNone result (NoneFitsAt part v seen values.old) }
{
    match part {
        Part::Fixed(u) => if u == v { Some(seen) } else { None },
        Part::Free(n) => {
            let n = n as usize;
            if n == seen {
                values[n] = v;
                Some(seen + 1)
            } else if values[n] == v {
                Some(seen)
            } else {
                None
            }
        }
    }
}

/// How many first variables the parts have, where some tuple makes them the row. Their values are
/// then put into the first places of `values`.
#[inline(always)]
pub(crate) fn put_values(
    parts: &[Part],
    free: u32,
    row: &[Value],
    values: &mut [Value; MOST_PARTS],
) -> Option<usize>
    requires few { free ≤ 9 }
    requires slots { (n : ℕ) → IsTrue (occurs n parts.now) → n < free }
    requires turn { IsTrue (are_in_turn 0 parts.now) }
    ensures seen { IfSome result (λ seen. seen ≡ seen_in 0 parts.now) }
    ensures bound { IfSome result (λ seen. seen ≤ free) }
    ensures fits { IfSome result (λ seen. EachFits parts.now row.now seen values.new) }
    ensures known { IfSome result (λ seen. EachBegins parts.now row.now seen values.new) }
    ensures none { IfNone result ((t : List Value) → fits_all parts.now row.now t ≡ false) }
{
    if parts.len() != row.len() {
        return None;
    }
    let mut seen = 0;
    let mut k = 0;
    while k < parts.len() {
        match put_value(parts[k], row[k], seen, values) {
            Some(next) => seen = next,
            None => return None,
        }
        k += 1;
    }
    Some(seen)
}

/// The place after the first row, from a place on, that some tuple makes the parts, where there is
/// one before the leading values exceed the fixed ones. The values of the least such tuple are put
/// into the first places of `values`; the rows after it have the later tuples.
#[inline(always)]
pub fn put_first(
    rows: &Runs,
    parts: &[Part],
    free: u32,
    from: usize,
    values: &mut [Value; MOST_PARTS],
) -> Option<usize>
    requires few { free ≤ 9 }
    requires each { (n : ℕ) → n < free → IsTrue (occurs n parts.now) }
    requires slots { (n : ℕ) → IsTrue (occurs n parts.now) → n < free }
    requires turn { IsTrue (are_in_turn 0 parts.now) }
    requires order { Rises row_cmp rows.now }
    requires bound { from ≤ length rows.now }
    ensures least { IsLeastOf free parts.now (drop from rows.now) (is_some result) values.new }
    ensures bound { IfSome result (λ next. next ≤ length rows.now) }
    ensures later { IfSome result (HasLater parts.now true (take free values.new) rows.now) }
{
    let mut k = from;
    while k < rows.len() {
        let row = rows.row(k);
        if let Some(_) = put_values(parts, free, row, values) {
            return Some(k + 1);
        }
        if order_of_front(parts, &[], row).is_lt() {
            return None;
        }
        k += 1;
    }
    None
}
