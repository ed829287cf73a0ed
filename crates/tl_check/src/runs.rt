// Labels as runs.
ghost use Rattle.std.specs.Prelude.{◌≡◌, ◌≤◌, length, replicate, take, drop, slice_index_or};
ghost use Rattle.std.specs.Prelude.{IfOk, OnOk, OnErr, false};
ghost use Rattle.tl_check.specs.Kept.{TakesKept, HasPart};
ghost use Rattle.tl_check.specs.Passes.{last_or};
ghost use Rattle.tl_check.specs.Runs.{spread, AddLabels, HaveLabels};

use crate::run::Run;
use std::alloc::Global;
use tl_syntax::NoMemory;

/// Adds the label of so many more positions at the end: to the last run, where it has this label
/// and there is room in it. A refused call leaves the runs as they were.
pub(crate) fn add(runs: &mut Vec<Run>, truth: bool, count: usize) -> Result<(), NoMemory>
    ensures added { OnOk result (AddLabels (replicate count truth) runs.old runs.new) }
    ensures unchanged { OnErr result (spread runs.new.items ≡ spread runs.old.items) }
{
    if count == 0 {
        return Ok(());
    }
    let len = runs.len();
    if len > 0 {
        let last = runs[len - 1];
        if last.truth == truth && count <= usize::MAX - last.count {
            runs[len - 1] = Run {
                truth,
                count: last.count + count,
            };
            return Ok(());
        }
    }
    runs.push(Run { truth, count })?;
    Ok(())
}

/// Adds the labels of other runs at the end. It fails for want of memory alone.
pub(crate) fn add_all(runs: &mut Vec<Run>, others: &[Run]) -> Result<(), NoMemory>
    ensures { OnOk result (AddLabels (spread others.now) runs.old runs.new) }
{
    for run in others.iter() {
        add(runs, run.truth, run.count)?;
    }
    Ok(())
}

/// The number of positions. It takes no memory, and fails where that number does not fit a `usize`.
pub(crate) fn positions(runs: &[Run]) -> Result<usize, NoMemory>
    ensures { IfOk result (λ count. count ≡ length (spread runs.now)) }
{
    let mut count: usize = 0;
    for run in runs.iter() {
        if run.count > usize::MAX - count {
            return Err(NoMemory);
        }
        count += run.count;
    }
    Ok(count)
}

/// The label at a position, or false where there is no such position. It takes no memory.
pub(crate) fn at(runs: &[Run], i: usize) -> bool
    ensures { result ≡ slice_index_or (spread runs.now) i false }
{
    let mut left = i;
    for run in runs.iter() {
        if left < run.count {
            return run.truth;
        }
        left -= run.count;
    }
    false
}

/// The label at the last position, or false where there is no position. It takes no memory.
pub(crate) fn last(runs: &[Run]) -> bool
    ensures { result ≡ last_or false (spread runs.now) }
{
    let count = runs.len();
    if count == 0 {
        false
    } else {
        let run = runs[count - 1];
        run.truth
    }
}

/// The lesser of two numbers. It takes no memory.
fn lesser(left: usize, right: usize) -> usize
    ensures left { left ≤ right → result ≡ left }
    ensures right { right ≤ left → result ≡ right }
{
    if left < right { left } else { right }
}

/// The labels from a position on. It fails for want of memory alone.
pub(crate) fn runs_from(alloc: Global, runs: &[Run], at: usize) -> Result<Vec<Run>, NoMemory>
    ensures { IfOk result (HaveLabels (drop at (spread runs.now))) }
{
    let mut left = at;
    let mut made = Vec::new(alloc);
    for run in runs.iter() {
        let skipped = lesser(left, run.count);
        add(&mut made, run.truth, run.count - skipped)?;
        left -= skipped;
    }
    Ok(made)
}

/// Leaves the first position out. It takes no memory.
pub(crate) fn leave_first(runs: &mut Vec<Run>)
    ensures { spread runs.new.items ≡ drop 1 (spread runs.old.items) }
{
    if runs.len() > 0 {
        let first = runs[0];
        if first.count > 1 {
            runs[0] = Run {
                truth: first.truth,
                count: first.count - 1,
            };
        } else {
            let _ = runs.remove(0);
        }
    }
}

/// What is kept of some runs.
#[derive(Clone, Copy)]
struct Kept {
    /// How many runs as they are.
    whole: usize,
    /// How many positions of the next one.
    part: usize,
}

/// What is kept where so many positions are. It takes no memory.
fn kept_of(runs: &[Run], count: usize) -> Kept
    ensures whole { result.whole ≤ length runs.now }
    ensures taken { TakesKept count runs.now result }
    ensures part { HasPart runs.now result }
{
    let mut left = count;
    for i in 0..runs.len() {
        let run = runs[i];
        if left < run.count {
            return Kept {
                whole: i,
                part: left,
            };
        }
        left -= run.count;
    }
    Kept {
        whole: runs.len(),
        part: 0,
    }
}

/// Leaves the labels of so many positions. It takes no memory.
pub(crate) fn truncate(runs: &mut Vec<Run>, count: usize)
    ensures { spread runs.new.items ≡ take count (spread runs.old.items) }
{
    let kept = kept_of(runs.as_slice(), count);
    if kept.part == 0 {
        runs.truncate(kept.whole);
        return;
    }
    let run = runs[kept.whole];
    runs[kept.whole] = Run {
        truth: run.truth,
        count: kept.part,
    };
    runs.truncate(kept.whole + 1);
}
