// Passes over runs of labels, from the last one backwards.
ghost use Rattle.std.specs.Prelude.{◌≡◌, map, not};
ghost use Rattle.tl_check.specs.Passes.{always_labels, eventually_labels};
ghost use Rattle.tl_check.specs.Runs.{spread};

use crate::cuts::join;
use crate::run::Run;
use tl_syntax::Junction;

/// The labels of the negation. It takes no memory.
pub(crate) fn negate(runs: &mut [Run])
    ensures { spread runs.new ≡ map not (spread runs.old) }
{
    let mut i = runs.len();
    while i > 0 {
        i -= 1;
        let run = runs[i];
        runs[i] = Run {
            truth: !run.truth,
            count: run.count,
        };
    }
}

/// The labels from now on. It takes no memory.
pub(crate) fn always(runs: &mut [Run])
    ensures { spread runs.new ≡ always_labels (spread runs.old) }
{
    let mut later = true;
    let mut i = runs.len();
    while i > 0 {
        i -= 1;
        let run = runs[i];
        later = join(run.truth, later, Junction::All);
        runs[i] = Run {
            truth: later,
            count: run.count,
        };
    }
}

/// The labels of now or later. It takes no memory.
pub(crate) fn eventually(runs: &mut [Run])
    ensures { spread runs.new ≡ eventually_labels (spread runs.old) }
{
    let mut later = false;
    let mut i = runs.len();
    while i > 0 {
        i -= 1;
        let run = runs[i];
        later = join(run.truth, later, Junction::Any);
        runs[i] = Run {
            truth: later,
            count: run.count,
        };
    }
}
