// What is left of some runs, as they are read.
ghost use Rattle.std.specs.Prelude.{◌≡◌, ◌≤◌, drop};
ghost use Rattle.tl_check.specs.Rests.{rest_labels, first_count};
ghost use Rattle.tl_check.specs.Runs.{spread};

use crate::run::Run;

/// What is left of some runs.
#[derive(Clone, Copy)]
pub(crate) struct Rest<'a> {
    /// What is left of the first one.
    pub(crate) first: Option<Run>,
    /// The others.
    pub(crate) later: &'a [Run],
}

/// All of the runs. It takes no memory.
pub(crate) fn rest_of(runs: &[Run]) -> Rest
    ensures { rest_labels result ≡ spread runs.now }
{
    if runs.is_empty() {
        Rest {
            first: None,
            later: runs,
        }
    } else {
        Rest {
            first: Some(runs[0]),
            later: &runs[1..],
        }
    }
}

/// What is left after so many positions of the first run. It takes no memory.
pub(crate) fn rest_after<'a>(rest: &Rest<'a>, count: usize) -> Rest<'a>
    requires { count ≤ first_count rest.now }
    ensures { rest_labels result ≡ drop count (rest_labels rest.now) }
{
    match rest.first {
        Some(run) => {
            if count < run.count {
                Rest {
                    first: Some(Run {
                        truth: run.truth,
                        count: run.count - count,
                    }),
                    later: rest.later,
                }
            } else {
                rest_of(rest.later)
            }
        }
        None => *rest,
    }
}
