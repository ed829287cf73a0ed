// Rows of two tables that are the same but for those that changes name.
ghost use Rattle.std.specs.Prelude.{[], drop, IsTrue};
ghost use Rattle.tl_known.specs.Unchanged.{AreRowsBeside};

use crate::named_facts::is_named;
use tl_rows::Rows;
use tl_syntax::Fact;

/// Whether all rows from a place on are of facts that the changes name. It takes no memory.
pub(crate) fn are_named_from(
    pred: u32,
    rows: &Rows,
    from: usize,
    dels: &[Fact],
    adds: &[Fact],
) -> bool
    ensures { IsTrue result → AreRowsBeside dels.now adds.now pred (drop from rows.now) [] }
{
    let mut k = from;
    while k < rows.len() {
        if !is_named(dels, adds, pred, rows.row(k)) {
            return false;
        }
        k += 1;
    }
    true
}

/// Whether the rows of the two tables are found to be the same, but for those of facts that the
/// changes name. It takes no memory.
///
/// Both tables are gone over once, side by side.
pub(crate) fn are_rows_beside(
    pred: u32,
    rows: &Rows,
    others: &Rows,
    dels: &[Fact],
    adds: &[Fact],
) -> bool
    ensures { IsTrue result → AreRowsBeside dels.now adds.now pred rows.now others.now }
{
    let mut k = 0;
    let mut l = 0;
    while k < rows.len() && l < others.len() {
        let same = rows.same_rows(k, others, l);
        if same > 0 {
            k += same;
            l += same;
        } else if is_named(dels, adds, pred, rows.row(k)) {
            k += 1;
        } else if is_named(dels, adds, pred, others.row(l)) {
            l += 1;
        } else {
            return false;
        }
    }
    are_named_from(pred, rows, k, dels, adds) && are_named_from(pred, others, l, dels, adds)
}
