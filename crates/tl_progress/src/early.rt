// What decides a conjunction or a disjunction before its parts are worked out.
ghost use Rattle.std.specs.Prelude.{◌≡◌};
ghost use Rattle.tl_nodes.specs.Numbers.{tree_in};
ghost use Rattle.tl_progress.specs.CallsHere.{IsReadable, LeavesFrame, RemembersHere, IsNextFault, IsEarlyResidual};
ghost use Rattle.tl_progress.specs.Parts.{IsJoin};

use crate::here::FormulasHere;
use crate::joins::decides;
use crate::layers::JoinAt;
use crate::order::is_plain;
use crate::parts::{part_at, part_count};
use crate::residual::state_residual;
use tl_eval::{Env, EvalFault, Memory};
use tl_nodes::Node;
use tl_syntax::Junction;

// The number of what has to hold next for a conjunction or a disjunction, where a plain part
// decides it.
fn early_join(
    formulas: &FormulasHere,
    env: &mut Env,
    memory: &mut Memory,
    whole: JoinAt,
) -> Result<Option<usize>, EvalFault>
    requires readable { IsReadable formulas.now whole.at }
    requires join { IsJoin whole.junction (tree_in formulas.now.nodes.now whole.at) }
    requires remembers { RemembersHere formulas.now.here.now memory.old }
    ensures number { IsEarlyResidual formulas.now env.old whole.at result }
    ensures cause { IsNextFault formulas.now env.old whole.at result }
    ensures stays { LeavesFrame formulas.now.here.now env.old env.new memory.new }
{
    for i in 0..part_count(formulas.nodes, whole.at) {
        let part = part_at(formulas.nodes, whole.at, i);
        if is_plain(formulas.nodes, part) && !formulas.nodes.temporal(part) {
            match state_residual(formulas.here, formulas.nodes, env, memory, part) {
                Ok(number) => {
                    if decides(formulas.nodes, number, whole.junction) {
                        return Ok(Some(number));
                    }
                }
                Err(fault) => return Err(fault),
            }
        }
    }
    Ok(None)
}

/// The number of what has to hold next for a number's tree, where it is a conjunction or a
/// disjunction that a plain part decides, as most residuals that prune a search are: nothing else
/// is then worked out. It needs no memory.
pub(crate) fn early_residual(
    formulas: &FormulasHere,
    env: &mut Env,
    memory: &mut Memory,
    at: usize,
) -> Result<Option<usize>, EvalFault>
    requires readable { IsReadable formulas.now at }
    requires remembers { RemembersHere formulas.now.here.now memory.old }
    ensures number { IsEarlyResidual formulas.now env.old at result }
    ensures cause { IsNextFault formulas.now env.old at result }
    ensures stays { LeavesFrame formulas.now.here.now env.old env.new memory.new }
{
    match formulas.nodes.get(at) {
        Node::And(_) => {
            let whole = JoinAt {
                junction: Junction::All,
                at,
            };
            early_join(formulas, env, memory, whole)
        }
        Node::Or(_) => {
            let whole = JoinAt {
                junction: Junction::Any,
                at,
            };
            early_join(formulas, env, memory, whole)
        }
        _ => Ok(None),
    }
}
