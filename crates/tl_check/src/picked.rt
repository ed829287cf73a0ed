// Labels that count at some positions alone.
ghost use Rattle.std.specs.Prelude.{◌≡◌, ◌≤◌, ◌+◌, cond, length, IfOk};
ghost use Rattle.tl_check.specs.Picked.{placed_labels, chosen_cuts, picked_runs};
ghost use Rattle.tl_check.specs.Runs.{spread, HaveLabels};

use crate::cuts::cuts_of;
use crate::run::{Cut, Run};
use crate::runs::{add, add_all, positions};
use std::alloc::Global;
use tl_syntax::NoMemory;

/// The labels at their place among so many positions, from `at` on, with this label elsewhere. It
/// fails for want of memory alone.
pub(crate) fn placed(
    alloc: Global,
    labels: &[Run],
    at: usize,
    count: usize,
    elsewhere: bool,
) -> Result<Vec<Run>, NoMemory>
    requires { at + length (spread labels.now) ≤ count }
    ensures { IfOk result (HaveLabels (placed_labels (spread labels.now) at count elsewhere)) }
{
    let rest = count - at - positions(labels)?;
    let mut made = Vec::new(alloc);
    add(&mut made, elsewhere, at)?;
    add_all(&mut made, labels)?;
    add(&mut made, elsewhere, rest)?;
    Ok(made)
}

/// The second label of a cut where the first one is true, and this label elsewhere. It takes no
/// memory.
fn choice(cut: Cut, elsewhere: bool) -> bool
    ensures { result ≡ cond cut.left cut.right elsewhere }
{
    if cut.left { cut.right } else { elsewhere }
}

/// The second labels where the first ones are true, and this label elsewhere. It fails for want of
/// memory alone.
fn chosen(alloc: Global, cuts: &[Cut], elsewhere: bool) -> Result<Vec<Run>, NoMemory>
    ensures { IfOk result (HaveLabels (chosen_cuts elsewhere cuts.now)) }
{
    let mut made = Vec::new(alloc);
    for cut in cuts.iter() {
        let truth = choice(*cut, elsewhere);
        add(&mut made, truth, cut.count)?;
    }
    Ok(made)
}

/// The labels, which are for the positions from `at` on, where `there` is true, and this label
/// elsewhere. It fails for want of memory alone.
pub(crate) fn picked(
    alloc: Global,
    there: &[Run],
    labels: &[Run],
    at: usize,
    elsewhere: bool,
) -> Result<Vec<Run>, NoMemory>
    requires { at + length (spread labels.now) ≤ length (spread there.now) }
    ensures { IfOk result (HaveLabels (picked_runs there.now labels.now at elsewhere)) }
{
    let count = positions(there)?;
    let whole = placed(alloc, labels, at, count, elsewhere)?;
    let cuts = cuts_of(alloc, there, whole.as_slice())?;
    chosen(alloc, cuts.as_slice(), elsewhere)
}
