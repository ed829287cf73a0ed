// Where a label is true for the first time, and for the last time.
ghost use Rattle.std.specs.Prelude.{◌≡◌, ◌<◌, ◌≤◌, ◌^◌, length, slice_index_or};
ghost use Rattle.std.specs.Prelude.{IfSome, IfNone, false, true};
ghost use Rattle.tl_check.specs.Ends.{IsFalse, IsFalseBefore, IsFalseFrom};
ghost use Rattle.tl_check.specs.Runs.{spread};

use crate::run::Run;

/// How many positions come before the first one with a true label, if there is one. It takes no
/// memory.
pub(crate) fn before_true(runs: &[Run]) -> Option<usize>
    requires { length (spread runs.now) < 2 ^ 64 }
    ensures none { IfNone result (IsFalse (spread runs.now)) }
    ensures before { IfSome result (IsFalseBefore (spread runs.now)) }
    ensures there { IfSome result (λ n. slice_index_or (spread runs.now) n false ≡ true) }
{
    let mut at: usize = 0;
    for run in runs.iter() {
        if run.truth {
            return Some(at);
        }
        at += run.count;
    }
    None
}

/// The end of the true labels, where a run with this label ends. It takes no memory.
fn end_at(truth: bool, at: usize, end: usize) -> usize
    ensures moved { truth ≡ true → result ≡ at }
    ensures stays { truth ≡ false → result ≡ end }
{
    if truth { at } else { end }
}

/// How many positions come up to the last one with a true label. It takes no memory.
pub(crate) fn up_to_true(runs: &[Run]) -> usize
    requires { length (spread runs.now) < 2 ^ 64 }
    ensures within { result ≤ length (spread runs.now) }
    ensures after { IsFalseFrom (spread runs.now) result }
{
    let mut at: usize = 0;
    let mut end: usize = 0;
    for run in runs.iter() {
        at += run.count;
        end = end_at(run.truth, at, end);
    }
    end
}
