// Truth where a world is repeated for ever, of trees that are quick to read: nothing is looked at
// for them that can be past range.
ghost use Rattle.std.specs.Prelude.{◌≡◌, ◌<◌, length, IfSome, IsTrue};
ghost use Rattle.tl_nodes.specs.Fits.{all_below};
ghost use Rattle.tl_nodes.specs.Numbers.{trees};
ghost use Rattle.tl_progress.specs.Quick.{IsIdleTruth, IsIdleTruthOfJoin};

use crate::here::FormulasHere;
use crate::layers::Join;
use tl_eval::{Env, plain_state};
use tl_nodes::Node;
use tl_syntax::Junction;

// The truth of a basic formula that is plain to read; None for any other tree. It takes no memory.
#[inline(always)]
fn plain_basic(formulas: &FormulasHere, env: &Env, at: usize) -> Option<bool>
    requires { at < length (trees formulas.now.nodes.now) }
    ensures { IfSome result (IsIdleTruth formulas.now env.now at) }
{
    match formulas.nodes.get(at) {
        Node::Basic(f) => plain_state(formulas.here.world, env, f),
        _ => None,
    }
}

/// The truth of a basic formula that is plain to read, or of its negation; None for any other tree.
/// It takes no memory.
#[inline(always)]
pub(crate) fn plain_truth(formulas: &FormulasHere, env: &Env, at: usize) -> Option<bool>
    requires { at < length (trees formulas.now.nodes.now) }
    ensures { IfSome result (IsIdleTruth formulas.now env.now at) }
{
    match formulas.nodes.get(at) {
        Node::Not(part) => match plain_basic(formulas, env, *part) {
            Some(truth) => Some(!truth),
            None => None,
        },
        _ => plain_basic(formulas, env, at),
    }
}

// The truth of a join of parts that are plain to read; None where one is not. It takes no memory.
#[inline(always)]
fn plain_join(formulas: &FormulasHere, env: &Env, join: &Join) -> Option<bool>
    requires at { join.now.at < length (trees formulas.now.nodes.now) }
    requires below { IsTrue (all_below join.now.at join.now.parts.now) }
    ensures { IfSome result (IsIdleTruthOfJoin formulas.now env.now join.now) }
{
    let stop = join.junction.deciding_truth();
    for part in join.parts.as_slice().iter() {
        match plain_truth(formulas, env, *part) {
            Some(truth) => {
                if truth == stop {
                    return Some(stop);
                }
            }
            None => return None,
        }
    }
    Some(!stop)
}

/// The truth of a tree that is plain to read, or a join of such parts; None for any other tree. It
/// takes no memory.
#[inline(never)]
pub(crate) fn quick_truth(formulas: &FormulasHere, env: &Env, at: usize) -> Option<bool>
    requires { at < length (trees formulas.now.nodes.now) }
    ensures { IfSome result (IsIdleTruth formulas.now env.now at) }
{
    match formulas.nodes.get(at) {
        Node::And(parts) => {
            let join = Join {
                junction: Junction::All,
                at,
                parts,
            };
            plain_join(formulas, env, &join)
        }
        Node::Or(parts) => {
            let join = Join {
                junction: Junction::Any,
                at,
                parts,
            };
            plain_join(formulas, env, &join)
        }
        _ => plain_truth(formulas, env, at),
    }
}
