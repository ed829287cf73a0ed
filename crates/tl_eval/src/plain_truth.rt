// The truth of formulas that are plain to read.
ghost use Rattle.std.specs.Prelude.{IfSome};
ghost use Rattle.tl_eval.specs.Plain.{IsPlainTruth};
ghost use Rattle.tl_syntax.specs.TreeOfFormula.{tree_of_formula};

use crate::Env;
use crate::basic_truth::{plain_atom, plain_comparison};
use tl_syntax::Formula;
use tl_world::World;

/// Whether an atom of one or two arguments, or a comparison, is true in a world, under the frame's
/// values, where its terms are variables or values, so that nothing can be past range. None: it is
/// another formula. It takes no memory.
#[inline(always)]
pub fn plain_state(w: &World, env: &Env, f: &Formula) -> Option<bool>
    ensures { IfSome result (IsPlainTruth w.now env.now (tree_of_formula f.now)) }
{
    match f {
        Formula::Atom(pred, args) => plain_atom(w, env.frame(), *pred, args),
        Formula::Compare(cmp, left, right) => plain_comparison(env.frame(), *cmp, left, right),
        _ => None,
    }
}
