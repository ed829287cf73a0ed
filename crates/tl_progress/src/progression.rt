// Progression.
ghost use Rattle.std.specs.Prelude.{◌≡◌, ◌<◌, length, IfOk, OnOk};
ghost use Rattle.tl_nodes.specs.Numbering.{Keeps};
ghost use Rattle.tl_nodes.specs.Numbers.{trees, tree_in};
ghost use Rattle.tl_progress.specs.Calls.{IsSentenceIn, KeepsRightly, IsProgressed, IsProgressFault, GivesProgression, StaysNamed, AddsNoTree};
ghost use Rattle.tl_progress.specs.CallsHere.{IsSentenceAt, AreRightHere, KnowsRightly, KeepsRightlyHere, LeavesFrame, RemembersHere, IsResidual, IsResidualFault};
ghost use Rattle.tl_progress.specs.KeptResiduals.{StaysElsewhere};
ghost use Rattle.tl_syntax.specs.StateFormulas.{IsState};

use crate::early::early_residual;
use crate::frames::{empty_frame, is_empty_frame};
use crate::here::{FormulasHere, Here};
use crate::idling::sentence_truth;
use crate::joined::{Joined, joined_residual, kept_residual};
use crate::joins::constant_number;
use crate::known::WorkedOut;
use crate::order::{is_direct, reached};
use crate::residual::residual_of;
use crate::residuals::{Incoming, Residuals};
use crate::truth::truth_of;
use std::alloc::Global;
use tl_eval::{Env, EvalFault, Memory};
use tl_nodes::{Node, Nodes};
use tl_syntax::Junction;
use tl_world::{Task, World};

// Works out what has to hold next for a number's tree, or its truth where it has no temporal word,
// and keeps it. The tree has no free variable.
fn work_out(
    here: &Here,
    nodes: &mut Nodes,
    env: &mut Env,
    memory: &mut Memory,
    known: &mut WorkedOut,
    at: usize,
) -> Result<(), EvalFault>
    requires there { IsSentenceAt here.now nodes.old at }
    requires known { AreRightHere here.now nodes.old known.old }
    requires remembers { RemembersHere here.now memory.old }
    ensures kept { Keeps (trees nodes.old) (trees nodes.new) }
    ensures known { OnOk result (AreRightHere here.now nodes.new known.new) }
    ensures cause { IsResidualFault here.now env.old nodes.old at result }
    ensures stays { LeavesFrame here.now env.old env.new memory.new }
{
    let known_here = Some(&*known);
    let so_far = Here {
        alloc: here.alloc,
        task: here.task,
        world: here.world,
        known: known_here,
    };
    if nodes.temporal(at) {
        match residual_of(&so_far, nodes, env, memory, at) {
            Ok(number) => {
                known.residuals.insert(at, number)?;
                Ok(())
            }
            Err(fault) => Err(fault),
        }
    } else {
        let formulas = FormulasHere {
            here: &so_far,
            nodes: &*nodes,
        };
        match truth_of(&formulas, env, memory, at) {
            Ok(truth) => {
                known.truths.insert(at, truth)?;
                Ok(())
            }
            Err(fault) => Err(fault),
        }
    }
}

// The number of what has to hold next for a number's tree, which has no free variable. What it is
// made of outside of quantifiers is worked out before it.
fn ordered_residual(
    here: &Here,
    nodes: &mut Nodes,
    env: &mut Env,
    memory: &mut Memory,
    id: usize,
) -> Result<usize, EvalFault>
    requires there { IsSentenceAt here.now nodes.old id }
    requires remembers { RemembersHere here.now memory.old }
    ensures kept { Keeps (trees nodes.old) (trees nodes.new) }
    ensures number { IsResidual here.now env.old nodes.old id nodes.new result }
    ensures cause { IsResidualFault here.now env.old nodes.old id result }
    ensures stays { LeavesFrame here.now env.old env.new memory.new }
{
    let mut order = reached(here.alloc, nodes, id, false)?;
    let mut known = WorkedOut::new(here.alloc);
    while let Some(at) = order.pop() {
        match work_out(here, nodes, env, memory, &mut known, at) {
            Ok(()) => {}
            Err(fault) => return Err(fault),
        }
    }
    let known_here = Some(&known);
    let so_far = Here {
        alloc: here.alloc,
        task: here.task,
        world: here.world,
        known: known_here,
    };
    residual_of(&so_far, nodes, env, memory, id)
}

// The number of what has to hold next for a number's tree, which has no free variable: a part that
// decides it, or else what its parts give. Nothing is kept between calls but truths of definitions
// in this world.
fn remembering_residual(
    here: &Here,
    nodes: &mut Nodes,
    env: &mut Env,
    memory: &mut Memory,
    id: usize,
) -> Result<usize, EvalFault>
    requires there { IsSentenceAt here.now nodes.old id }
    requires known { KnowsRightly here.now nodes.old }
    requires remembers { RemembersHere here.now memory.old }
    ensures kept { Keeps (trees nodes.old) (trees nodes.new) }
    ensures number { IsResidual here.now env.old nodes.old id nodes.new result }
    ensures cause { IsResidualFault here.now env.old nodes.old id result }
    ensures stays { LeavesFrame here.now env.old env.new memory.new }
{
    if is_direct(nodes, id) {
        return residual_of(here, nodes, env, memory, id);
    }
    let formulas = FormulasHere {
        here,
        nodes: &*nodes,
    };
    match early_residual(&formulas, env, memory, id) {
        Ok(Some(number)) => Ok(number),
        Ok(None) => ordered_residual(here, nodes, env, memory, id),
        Err(fault) => Err(fault),
    }
}

/// The number of what has to hold next for a number's tree, which has no free variable: a part that
/// decides it, or else what its parts give. Nothing is kept between calls, and within one a
/// definition is read once for its values and level, where that is still remembered.
pub(crate) fn temporal_residual(
    here: &Here,
    nodes: &mut Nodes,
    env: &mut Env,
    id: usize,
) -> Result<usize, EvalFault>
    requires there { IsSentenceAt here.now nodes.old id }
    ensures kept { Keeps (trees nodes.old) (trees nodes.new) }
    ensures number { IsResidual here.now env.old nodes.old id nodes.new result }
    ensures cause { IsResidualFault here.now env.old nodes.old id result }
    ensures frame { env.new ≡ env.old }
{
    let anew = Here {
        alloc: here.alloc,
        task: here.task,
        world: here.world,
        known: None,
    };
    let mut memory = env.lend_memory(here.alloc);
    let answer = remembering_residual(&anew, nodes, env, &mut memory, id);
    env.take_back(memory);
    answer
}

// The number of what has to hold next for a number's tree, which has neither a temporal word nor a
// free variable: a constant. No node is added.
fn constant_residual(
    here: &Here,
    nodes: &Nodes,
    env: &mut Env,
    id: usize,
) -> Result<usize, EvalFault>
    requires there { IsSentenceAt here.now nodes.now id }
    requires state { IsState (tree_in nodes.now id) }
    ensures number { IsResidual here.now env.old nodes.now id nodes.now result }
    ensures constant { IfOk result (λ i. i < 2) }
    ensures cause { IsResidualFault here.now env.old nodes.now id result }
    ensures frame { env.new ≡ env.old }
{
    let anew = Here {
        alloc: here.alloc,
        task: here.task,
        world: here.world,
        known: None,
    };
    let formulas = FormulasHere { here: &anew, nodes };
    let mut memory = env.lend_memory(here.alloc);
    let answer = sentence_truth(&formulas, env, &mut memory, id);
    env.take_back(memory);
    match answer {
        Ok(truth) => Ok(constant_number(nodes, truth)),
        Err(fault) => Err(fault),
    }
}

// The number of what has to hold next for a number's tree, which has no free variable, by its form.
// Where it has no temporal word, it is a constant.
fn sentence_residual(
    here: &Here,
    nodes: &mut Nodes,
    env: &mut Env,
    residuals: &mut Residuals,
    incoming: Incoming,
) -> Result<usize, EvalFault>
    requires there { IsSentenceAt here.now nodes.old incoming.formula }
    requires found { KeepsRightlyHere here.now nodes.old residuals.old incoming.world }
    ensures kept { Keeps (trees nodes.old) (trees nodes.new) }
    ensures number { IsResidual here.now env.old nodes.old incoming.formula nodes.new result }
    ensures found { KeepsRightlyHere here.now nodes.new residuals.new incoming.world }
    ensures elsewhere { StaysElsewhere incoming.world residuals.old residuals.new }
    ensures same { IsState (tree_in nodes.old incoming.formula) → AddsNoTree nodes.old nodes.new }
    ensures constant { IsState (tree_in nodes.old incoming.formula) → IfOk result (λ i. i < 2) }
    ensures cause { IsResidualFault here.now env.old nodes.old incoming.formula result }
    ensures frame { env.new ≡ env.old }
{
    if !nodes.temporal(incoming.formula) {
        return constant_residual(here, nodes, env, incoming.formula);
    }
    match nodes.get(incoming.formula) {
        Node::And(_) => {
            let joined = Joined {
                junction: Junction::All,
                world: incoming.world,
                at: incoming.formula,
            };
            joined_residual(here, nodes, env, residuals, joined)
        }
        Node::Or(_) => {
            let joined = Joined {
                junction: Junction::Any,
                world: incoming.world,
                at: incoming.formula,
            };
            joined_residual(here, nodes, env, residuals, joined)
        }
        _ => kept_residual(here, nodes, env, residuals, incoming),
    }
}

/// The number of what has to hold from the next position on, for the number's tree to hold in this
/// world and on (progression, Bacchus and Kabanza 2000). The time grows with the parts of the tree,
/// outside of quantifiers each counted once, the tuples of its quantifiers, and the answer.
pub fn progress_kept(
    nodes: &mut Nodes,
    task: &Task,
    w: &World,
    env: &mut Env,
    residuals: &mut Residuals,
    incoming: Incoming,
) -> Result<usize, EvalFault>
    requires at { incoming.formula < length (trees nodes.old) }
    requires sentence { IsSentenceIn task.now (tree_in nodes.old incoming.formula) }
    requires found { KeepsRightly task.now w.now nodes.old residuals.old incoming.world }
    ensures number { IsProgressed task.now w.now nodes.old incoming.formula nodes.new result }
    ensures lemma { GivesProgression task.now w.now nodes.old incoming.formula nodes.new result }
    ensures sentence { IfOk result (λ n. IsSentenceIn task.now (tree_in nodes.new n)) }
    ensures named { IfOk result (StaysNamed task.now w.now nodes.old incoming.formula nodes.new) }
    ensures kept { Keeps (trees nodes.old) (trees nodes.new) }
    ensures found { KeepsRightly task.now w.now nodes.new residuals.new incoming.world }
    ensures elsewhere { StaysElsewhere incoming.world residuals.old residuals.new }
    ensures same { IsState (tree_in nodes.old incoming.formula) → AddsNoTree nodes.old nodes.new }
    ensures constant { IsState (tree_in nodes.old incoming.formula) → IfOk result (λ n. n < 2) }
    ensures cause { IsProgressFault task.now w.now nodes.old incoming.formula result }
    ensures frame { env.new ≡ env.old }
{
    let here = Here {
        alloc: residuals.alloc,
        task,
        world: w,
        known: None,
    };
    if is_empty_frame(env.slots()) {
        return sentence_residual(&here, nodes, env, residuals, incoming);
    }
    let frame = env.saved();
    let empty = empty_frame();
    env.restore(&empty);
    let answer = sentence_residual(&here, nodes, env, residuals, incoming);
    env.restore(&frame);
    answer
}

/// `progress_kept` where nothing is kept.
pub fn progress(
    alloc: Global,
    nodes: &mut Nodes,
    task: &Task,
    w: &World,
    env: &mut Env,
    id: usize,
) -> Result<usize, EvalFault>
    requires id { id < length (trees nodes.old) }
    requires sentence { IsSentenceIn task.now (tree_in nodes.old id) }
    ensures number { IsProgressed task.now w.now nodes.old id nodes.new result }
    ensures lemma { GivesProgression task.now w.now nodes.old id nodes.new result }
    ensures sentence { IfOk result (λ n. IsSentenceIn task.now (tree_in nodes.new n)) }
    ensures named { IfOk result (StaysNamed task.now w.now nodes.old id nodes.new) }
    ensures kept { Keeps (trees nodes.old) (trees nodes.new) }
    ensures same { IsState (tree_in nodes.old id) → AddsNoTree nodes.old nodes.new }
    ensures constant { IsState (tree_in nodes.old id) → IfOk result (λ n. n < 2) }
    ensures cause { IsProgressFault task.now w.now nodes.old id result }
    ensures frame { env.new ≡ env.old }
{
    let mut nothing = Residuals::new(alloc);
    let incoming = Incoming {
        world: 0,
        formula: id,
    };
    progress_kept(nodes, task, w, env, &mut nothing, incoming)
}
