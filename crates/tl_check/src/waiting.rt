// Labels that wait for what comes after them.
ghost use Rattle.std.specs.Prelude.{◌≡◌, ◌≤◌, ◌||◌, not, IfOk};
ghost use Rattle.tl_check.specs.Passes.{until_labels, within_labels};
ghost use Rattle.tl_check.specs.Cuts.{lefts, rights};
ghost use Rattle.tl_check.specs.Runs.{spread, HaveLabels};
ghost use Rattle.tl_check.specs.Waiting.{WaitsWithin, WaitsUntil};

use crate::run::{Cut, Run};
use crate::runs::add;
use std::alloc::Global;
use tl_syntax::NoMemory;

/// Adds the labels of a run, or has them wait: false ones wait for the next true one, at most so
/// many of them, and come true with it. The answer is how many wait after it.
/// It fails for want of memory alone.
fn within_run(made: &mut Vec<Run>, run: Run, most: usize, waiting: usize) -> Result<usize, NoMemory>
    requires { waiting ≤ most }
    ensures few { IfOk result (λ w. w ≤ most) }
    ensures on { IfOk result (WaitsWithin most waiting run made.old.items made.new.items) }
{
    if run.truth {
        add(made, true, waiting)?;
        add(made, true, run.count)?;
        return Ok(0);
    }
    let room = most - waiting;
    if run.count <= room {
        return Ok(waiting + run.count);
    }
    add(made, false, run.count - room)?;
    Ok(most)
}

/// The labels of now or within so many steps. It fails for want of memory alone.
pub(crate) fn within(alloc: Global, runs: &[Run], steps: u32) -> Result<Vec<Run>, NoMemory>
    ensures { IfOk result (HaveLabels (within_labels steps (spread runs.now))) }
{
    let mut waiting: usize = 0;
    let mut made = Vec::new(alloc);
    for run in runs.iter() {
        waiting = within_run(&mut made, *run, steps as usize, waiting)?;
    }
    add(&mut made, false, waiting)?;
    Ok(made)
}

/// Whether the label of `until` shows at the cut itself. It takes no memory.
fn is_decided(cut: Cut) -> bool
    ensures { result ≡ (cut.right || not cut.left) }
{
    cut.right || !cut.left
}

/// Adds the labels of a cut, or has them wait where the first label alone is true. The answer is
/// how many wait after it.
/// It fails for want of memory, or where that number does not fit a `usize`.
fn until_cut(made: &mut Vec<Run>, cut: Cut, waiting: usize) -> Result<usize, NoMemory>
    ensures { IfOk result (WaitsUntil waiting cut made.old.items made.new.items) }
{
    if is_decided(cut) {
        add(made, cut.right, waiting)?;
        add(made, cut.right, cut.count)?;
        return Ok(0);
    }
    if cut.count > usize::MAX - waiting {
        return Err(NoMemory);
    }
    Ok(waiting + cut.count)
}

/// The labels of now or later for the second list, where those of the first hold until then. It
/// fails for want of memory, or where the number of positions does not fit a `usize`.
pub(crate) fn until(alloc: Global, cuts: &[Cut]) -> Result<Vec<Run>, NoMemory>
    ensures { IfOk result (HaveLabels (until_labels (lefts cuts.now) (rights cuts.now))) }
{
    let mut waiting: usize = 0;
    let mut made = Vec::new(alloc);
    for cut in cuts.iter() {
        waiting = until_cut(&mut made, *cut, waiting)?;
    }
    add(&mut made, false, waiting)?;
    Ok(made)
}
