// The tuple that makes a pattern one row.
ghost use Rattle.std.specs.Prelude.{◌≡◌, ◌<◌, ◌≤◌, ℕ, length, IsTrue};
ghost use Rattle.tl_match.specs.Fits.{fits_at, fits_all, occurs, Known, IsMatch};
ghost use Rattle.tl_rows.specs.Tables.{whole_row};

use crate::{MOST_PARTS, Match, Part};
use tl_rows::Place;
use tl_syntax::Value;

fn fits_part(part: Part, v: Value, tuple: &[Value]) -> bool
    ensures { result ≡ fits_at part v tuple.now }
{
    match part {
        Part::Fixed(u) => u == v,
        Part::Free(n) => match tuple.get(n as usize) {
            Some(x) => *x == v,
            None => false,
        },
    }
}

/// Whether the row is the pattern with the tuple's values put in.
fn fits(parts: &[Part], row: &[Value], tuple: &[Value]) -> bool
    ensures { result ≡ fits_all parts.now row.now tuple.now }
{
    if parts.len() != row.len() {
        return false;
    }
    let mut k = 0;
    while k < parts.len() {
        if !fits_part(parts[k], row[k], tuple) {
            return false;
        }
        k += 1;
    }
    true
}

/// The value that each variable has to have for the row.
fn gather(parts: &[Part], row: &[Value]) -> [Value; MOST_PARTS]
    requires { length parts.now ≡ length row.now }
    ensures known { Known parts.now row.now result }
    ensures size { length result ≡ 9 }
{
    let mut values = [Value::Sym(0); MOST_PARTS];
    let mut k = parts.len();
    while k > 0 {
        k -= 1;
        if let Part::Free(n) = parts[k] {
            if (n as usize) < MOST_PARTS {
                values[n as usize] = row[k];
            }
        }
    }
    values
}

/// The tuple of `free` values that makes the parts the row, where there is one.
pub fn match_row(parts: &[Part], free: u32, row: &[Value]) -> Option<Match>
    requires few { free ≤ 9 }
    requires each { (n : ℕ) → n < free → IsTrue (occurs n parts.now) }
    ensures { IsMatch parts.now row.now free result }
{
    if parts.len() != row.len() {
        return None;
    }
    let values = gather(parts, row);
    let n = free as usize;
    if fits(parts, row, &values[..n]) {
        Some(Match { values, len: free })
    } else {
        None
    }
}

/// The tuple of `free` values that makes the parts the arguments and then the value of the place,
/// where there is one.
pub fn match_place(parts: &[Part], free: u32, row: &Place<'_>) -> Option<Match>
    requires few { free ≤ 9 }
    requires each { (n : ℕ) → n < free → IsTrue (occurs n parts.now) }
    requires short { length parts.now ≤ 9 }
    ensures { IsMatch parts.now (whole_row row.now) free result }
{
    let args = row.place_args();
    let n = args.len();
    if n >= MOST_PARTS {
        return None;
    }
    let mut whole = [row.place_value(); MOST_PARTS];
    whole[..n].copy_from_slice(args);
    match_row(parts, free, &whole[..n + 1])
}
