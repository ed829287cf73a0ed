// The place of a row in rows that rise, found by halves.
ghost use Rattle.std.specs.List.Sorted.{IsBinarySearchResult, IsSearchInRange};
ghost use Rattle.std.specs.Ordering.{is_gt};
ghost use Rattle.std.specs.Prelude.{◌≡◌, ◌<◌, [], length, slice_index_or};
ghost use Rattle.tl_rows.specs.Tables.{row_cmp};

use crate::flat::Flat;
use crate::row_order::order_of;
use std::cmp::Ordering;
use tl_syntax::Value;

/// Whether the first row comes after the arguments.
pub(crate) fn begins_after(rows: &Flat, args: &[Value]) -> bool
    requires { 0 < length rows.now }
    ensures { result ≡ is_gt (row_cmp (slice_index_or rows.now 0 []) args.now) }
{
    order_of(rows.row(0), args).is_gt()
}

/// The place of the row with these arguments, or the place at which it would stand, by halves.
#[inline(always)]
pub(crate) fn find_in(rows: &Flat, args: &[Value]) -> Result<usize, usize>
    ensures range { IsSearchInRange result (length rows.now) }
    ensures place { IsBinarySearchResult (λ r. row_cmp r args.now) rows.now result }
{
    let mut low = 0;
    let mut high = rows.len();
    while low < high {
        let middle = low + (high - low) / 2;
        match order_of(rows.row(middle), args) {
            Ordering::Less => low = middle + 1,
            Ordering::Equal => return Ok(middle),
            Ordering::Greater => high = middle,
        }
    }
    Err(low)
}
