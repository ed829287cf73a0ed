// The idling check.
ghost use Rattle.std.specs.Prelude.{◌≡◌, ◌↔◌, ◌<◌, length, IsTrue, IfOk, IfErr};
ghost use Rattle.tl_nodes.specs.Numbers.{trees, tree_in};
ghost use Rattle.tl_eval.specs.Faults.{IsCausedBy};
ghost use Rattle.tl_progress.specs.Calls.{IsSentenceIn, HoldsIdly, looked_by_idling_at};
ghost use Rattle.tl_progress.specs.CallsHere.{IsSentenceAt, LeavesFrame, RemembersHere, IsTruthAt, IsTruthFault};

use crate::frames::empty_frame;
use crate::here::{FormulasHere, Here};
use crate::known::WorkedOut;
use crate::order::reached;
use crate::truth::truth_of;
use std::alloc::Global;
use tl_eval::{Env, EvalFault, Memory};
use tl_nodes::Nodes;
use tl_world::{Task, World};

/// The truth of a number's tree, which has no free variable. What it is made of outside of
/// quantifiers is worked out before it.
pub(crate) fn sentence_truth(
    formulas: &FormulasHere,
    env: &mut Env,
    memory: &mut Memory,
    id: usize,
) -> Result<bool, EvalFault>
    requires there { IsSentenceAt formulas.now.here.now formulas.now.nodes.now id }
    requires remembers { RemembersHere formulas.now.here.now memory.old }
    ensures truth { IsTruthAt formulas.now env.old id result }
    ensures cause { IsTruthFault formulas.now env.old id result }
    ensures stays { LeavesFrame formulas.now.here.now env.old env.new memory.new }
{
    let mut order = reached(formulas.here.alloc, formulas.nodes, id, true)?;
    let mut known = WorkedOut::new(formulas.here.alloc);
    while let Some(at) = order.pop() {
        let known_here = Some(&known);
        let so_far = Here {
            alloc: formulas.here.alloc,
            task: formulas.here.task,
            world: formulas.here.world,
            known: known_here,
        };
        let formulas_so_far = FormulasHere {
            here: &so_far,
            nodes: formulas.nodes,
        };
        match truth_of(&formulas_so_far, env, memory, at) {
            Ok(truth) => {
                known.truths.insert(at, truth)?;
            }
            Err(fault) => return Err(fault),
        }
    }
    let known_here = Some(&known);
    let so_far = Here {
        alloc: formulas.here.alloc,
        task: formulas.here.task,
        world: formulas.here.world,
        known: known_here,
    };
    let formulas_so_far = FormulasHere {
        here: &so_far,
        nodes: formulas.nodes,
    };
    truth_of(&formulas_so_far, env, memory, id)
}

/// Whether the number's tree holds where the world is repeated for ever (the idling check, Bacchus
/// and Kabanza 2000). The frame stays, and no node is added. The time grows with the parts of the
/// tree, outside of quantifiers each counted once, and with the tuples of its quantifiers.
pub fn idle(
    alloc: Global,
    nodes: &Nodes,
    task: &Task,
    w: &World,
    env: &mut Env,
    id: usize,
) -> Result<bool, EvalFault>
    requires id { id < length (trees nodes.now) }
    requires sentence { IsSentenceIn task.now (tree_in nodes.now id) }
    ensures truth { IfOk result (λ b. IsTrue b ↔ HoldsIdly task.now w.now (tree_in nodes.now id)) }
    ensures cause { IfErr result (IsCausedBy (looked_by_idling_at task.now w.now nodes.now id)) }
    ensures frame { env.new ≡ env.old }
{
    let frame = env.saved();
    let empty = empty_frame();
    env.restore(&empty);
    let here = Here {
        alloc,
        task,
        world: w,
        known: None,
    };
    let formulas = FormulasHere { here: &here, nodes };
    let mut memory = env.lend_memory(alloc);
    let answer = sentence_truth(&formulas, env, &mut memory, id);
    env.take_back(memory);
    env.restore(&frame);
    answer
}
