// The rows of a table by their second value, made anew.
ghost use Rattle.std.specs.List.Sorted.{IsPermutation};
ghost use Rattle.std.specs.Ordering.{is_lt};
ghost use Rattle.std.specs.Prelude.{◌≡◌, ◌<◌, length, map, slice_index_or, IfOk, IfSome, IsTrue};
ghost use Rattle.tl_syntax.specs.Lists.{Rises};
ghost use Rattle.tl_rows.specs.Second.{exchanged, IsInTurn, IsKept};
ghost use Rattle.tl_rows.specs.Tables.{row_cmp};

use crate::runs::Runs;
use crate::second::{Second, exchanged};
use std::alloc::Global;
use tl_syntax::{NoMemory, Value, Values};

/// Whether the first row comes before the second.
#[tactic(auto, using(crate::proofs::Order::orders))]
fn is_before(a: &[Value], b: &[Value]) -> bool
    ensures { result ≡ is_lt (row_cmp a.now b.now) }
{
    a.cmp(b).is_lt()
}

/// The rows, each exchanged.
fn each_exchanged(alloc: Global, rows: &Runs) -> Result<Vec<Values>, NoMemory>
    ensures { IfOk result (λ v. v.items ≡ map exchanged rows.now) }
{
    let mut out = Vec::with_capacity(alloc, rows.len())?;
    let mut k = 0;
    while k < rows.len() {
        out.push(exchanged(alloc, rows.row(k))?)?;
        k += 1;
    }
    Ok(out)
}

/// The rows, each exchanged, sorted.
fn sorted(alloc: Global, rows: &Runs) -> Result<Vec<Values>, NoMemory>
    ensures { IfOk result (λ v. IsPermutation (map exchanged rows.now) v.items) }
{
    let mut out = each_exchanged(alloc, rows)?;
    out.sort_unstable_by(|a, b| a.as_slice().cmp(b.as_slice()));
    Ok(out)
}

/// Row `k`, counted from 0.
fn row_at(rows: &[Values], k: usize) -> &[Value]
    requires { k < length rows.now }
    ensures { (d : _) → result.now ≡ slice_index_or rows.now k d }
{
    rows[k].as_slice()
}

/// Whether row `k` comes after the one before it, where there is one.
fn is_in_turn(rows: &[Values], k: usize) -> bool
    requires { k < length rows.now }
    ensures { IsTrue result → IsInTurn rows.now k }
{
    k == 0 || is_before(row_at(rows, k - 1), row_at(rows, k))
}

/// The rows as runs, where each comes after the one before it, and else nothing. The last rows are
/// a run too, which later copies share.
pub fn in_order(alloc: Global, rows: &[Values]) -> Result<Second, NoMemory>
    ensures order { IfOk result (λ s. IfSome s (Rises row_cmp)) }
    ensures rows { IfOk result (λ s. IfSome s (λ all. all ≡ rows.now)) }
{
    let mut out = Runs::none(alloc);
    let mut k = 0;
    while k < rows.len() {
        if !is_in_turn(rows, k) {
            return Ok(Second::none());
        }
        out.push(alloc, row_at(rows, k))?;
        k += 1;
    }
    out.close(alloc)?;
    Second::of(alloc, out)
}

impl Second {
    /// The second order of the rows. Nothing is kept where a row stands twice.
    pub(crate) fn of_rows(alloc: Global, rows: &Runs) -> Result<Second, NoMemory>
        ensures { IfOk result (IsKept rows.now) }
    {
        let all = sorted(alloc, rows)?;
        in_order(alloc, all.as_slice())
    }
}
