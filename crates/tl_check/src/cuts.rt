// Two lists of labels, cut at each other's ends of runs.
ghost use Rattle.std.specs.Prelude.{◌≡◌, ◌⊎◌, [], length, IfOk, IfSome, IfNone};
ghost use Rattle.tl_check.specs.Passes.{joins, joined_labels};
ghost use Rattle.tl_check.specs.Cuts.{CutsLeft, CutsRight, lefts, rights};
ghost use Rattle.tl_check.specs.Rests.{rest_labels};
ghost use Rattle.tl_check.specs.Runs.{spread, HaveLabels};

use crate::rest::{Rest, rest_after, rest_of};
use crate::run::{Cut, Run};
use crate::runs::add;
use std::alloc::Global;
use tl_syntax::{Junction, NoMemory};

/// The truth of the two together. It takes no memory.
pub(crate) fn join(left: bool, right: bool, junction: Junction) -> bool
    ensures { result ≡ joins junction left right }
{
    match junction {
        Junction::All => left && right,
        Junction::Any => left || right,
    }
}

/// The positions up to where one of the first two runs ends. It takes no memory.
fn next_cut(left: &Rest, right: &Rest) -> Option<Cut>
    ensures left { IfSome result (CutsLeft left.now) }
    ensures right { IfSome result (CutsRight right.now) }
    ensures none { IfNone result ((rest_labels left.now ≡ []) ⊎ (rest_labels right.now ≡ [])) }
{
    match (left.first, right.first) {
        (Some(x), Some(y)) => {
            let count = if x.count < y.count { x.count } else { y.count };
            Some(Cut {
                left: x.truth,
                right: y.truth,
                count,
            })
        }
        (Some(_), None) => None,
        (None, _) => None,
    }
}

/// Two lists of labels of the same positions, cut at each other's ends of runs. It fails for want
/// of memory alone.
pub(crate) fn cuts_of(alloc: Global, left: &[Run], right: &[Run]) -> Result<Vec<Cut>, NoMemory>
    requires { length (spread left.now) ≡ length (spread right.now) }
    ensures left { IfOk result (λ cuts. lefts cuts.items ≡ spread left.now) }
    ensures right { IfOk result (λ cuts. rights cuts.items ≡ spread right.now) }
{
    let mut cuts = Vec::new(alloc);
    let mut x = rest_of(left);
    let mut y = rest_of(right);
    while let Some(cut) = next_cut(&x, &y) {
        cuts.push(cut)?;
        x = rest_after(&x, cut.count);
        y = rest_after(&y, cut.count);
    }
    Ok(cuts)
}

/// The labels of the conjunction or the disjunction of both. It fails for want of memory alone.
pub(crate) fn join_cuts(
    alloc: Global,
    cuts: &[Cut],
    junction: Junction,
) -> Result<Vec<Run>, NoMemory>
    ensures { IfOk result (HaveLabels (joined_labels junction (lefts cuts.now) (rights cuts.now))) }
{
    let mut runs = Vec::new(alloc);
    for cut in cuts.iter() {
        let truth = join(cut.left, cut.right, junction);
        add(&mut runs, truth, cut.count)?;
    }
    Ok(runs)
}
