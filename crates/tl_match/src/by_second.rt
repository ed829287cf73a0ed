// The least tuple above another one in a table, by the second order of the table where the pattern
// asks for it.
ghost use Rattle.std.specs.Prelude.{◌≡◌, ◌<◌, ◌≤◌, ℕ, length, take, IsTrue};
ghost use Rattle.tl_syntax.specs.Lists.{Rises};
ghost use Rattle.tl_match.specs.Fits.{occurs};
ghost use Rattle.tl_match.specs.Least.{PutsNext};
ghost use Rattle.tl_rows.specs.Second.{exchanged};
ghost use Rattle.tl_rows.specs.Tables.{row_cmp};

use crate::next::put_next;
use crate::{MOST_PARTS, Match, Part};
use tl_rows::Rows;

/// Whether the first part is free and the second fixed, or the first is for a later variable and
/// the second for the first one.
#[inline]
fn is_by_second(parts: &[Part]) -> bool {
    if parts.len() < 2 {
        return false;
    }
    match (parts[0], parts[1]) {
        (Part::Free(_), Part::Fixed(_)) => true,
        (Part::Free(n), Part::Free(m)) => m == 0 && n > 0,
        _ => false,
    }
}

/// Whether the rows that the parts fit are looked for in the second order of the table.
#[inline]
pub fn is_in_second_order(rows: &Rows, parts: &[Part]) -> bool {
    is_by_second(parts) && rows.second().is_some()
}

/// The parts with the first two exchanged, and others after them.
fn exchanged_parts(parts: &[Part]) -> [Part; MOST_PARTS]
    requires { length parts.now ≤ 9 }
    ensures { take (length parts.now) result ≡ exchanged parts.now }
{
    let mut out = [Part::Free(0); MOST_PARTS];
    out[..parts.len()].copy_from_slice(parts);
    if parts.len() > 1 {
        out[0] = parts[1];
        out[1] = parts[0];
    }
    out
}

/// Puts the least tuple after that in place that makes the parts one of the rows in place; false
/// where there is none. Where the table keeps its second order, and the first part is free and the
/// second fixed or their variables stand in the other order, it is found there.
pub fn put_next_in_table(
    rows: &Rows,
    parts: &[Part],
    free: u32,
    begun: bool,
    tuple: &mut Match,
    near: &mut usize,
) -> bool
    requires few { free ≤ 9 }
    requires each { (n : ℕ) → n < free → IsTrue (occurs n parts.now) }
    requires slots { (n : ℕ) → IsTrue (occurs n parts.now) → n < free }
    requires short { length parts.now ≤ 9 }
    requires order { Rises row_cmp rows.now }
    ensures { PutsNext free parts.now rows.now begun tuple.old result tuple.new }
{
    if is_by_second(parts) {
        if let Some(second) = rows.second() {
            if parts.len() == 2 {
                return put_next(second, &[parts[1], parts[0]], free, begun, tuple, near);
            }
            let other = exchanged_parts(parts);
            return put_next(second, &other[..parts.len()], free, begun, tuple, near);
        }
    }
    put_next(rows.runs(), parts, free, begun, tuple, near)
}
