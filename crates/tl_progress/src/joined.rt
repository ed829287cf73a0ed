// What has to hold next for a conjunction or a disjunction without free variables, from its parts
// with temporal words: the others are read first, and most residuals that prune a search are
// decided by one of them.
ghost use Rattle.std.specs.Prelude.{◌≡◌, false};
ghost use Rattle.tl_nodes.specs.Numbering.{Keeps};
ghost use Rattle.tl_nodes.specs.Numbers.{trees, tree_in};
ghost use Rattle.tl_progress.specs.CallsHere.{IsSentenceAt, KnowsTruths, KeepsRightlyHere, LeavesFrame, RemembersHere, IsNextConstant, IsNextFault, IsResidual, IsResidualFault, IsDecidedEarly, AreOpenParts, IsOpenResidual};
ghost use Rattle.tl_progress.specs.KeptResiduals.{StaysElsewhere};
ghost use Rattle.tl_progress.specs.Parts.{IsBelow, IsJoin};
ghost use Rattle.tl_syntax.specs.Lists.{Each};
ghost use Rattle.tl_syntax.specs.StateFormulas.{IsState};

use crate::here::{FormulasHere, Here};
use crate::idling::sentence_truth;
use crate::joins::{constant_number, decides, gather, join};
use crate::numbers::Numbers;
use crate::order::is_shallow;
use crate::parts::{part_at, part_count};
use crate::progression::temporal_residual;
use crate::residuals::{Incoming, Residuals};
use crate::truth::{basic_truth, truth_of};
use tl_eval::{Env, EvalFault, Memory};
use tl_nodes::{Node, Nodes};
use tl_syntax::Junction;

/// A conjunction or a disjunction that comes in to a world.
#[derive(Clone, Copy)]
pub(crate) struct Joined {
    /// All parts, or any.
    pub junction: Junction,
    /// The number of the world.
    pub world: usize,
    /// The number of the formula.
    pub at: usize,
}

/// The parts of a conjunction or a disjunction that are left once those without temporal words are
/// read.
#[derive(Clone, Copy)]
struct OpenParts<'p> {
    /// The conjunction or the disjunction.
    joined: Joined,
    /// The numbers of the parts.
    parts: &'p [usize],
}

// The truth of a number's tree, which has neither a temporal word nor a free variable.
fn state_part(
    formulas: &FormulasHere,
    env: &mut Env,
    memory: &mut Memory,
    part: usize,
) -> Result<bool, EvalFault>
    requires there { IsSentenceAt formulas.now.here.now formulas.now.nodes.now part }
    requires state { IsState (tree_in formulas.now.nodes.now part) }
    requires known { KnowsTruths formulas.now.here.now formulas.now.nodes.now }
    requires remembers { RemembersHere formulas.now.here.now memory.old }
    ensures truth { IsNextConstant formulas.now env.old part result }
    ensures cause { IsNextFault formulas.now env.old part result }
    ensures stays { LeavesFrame formulas.now.here.now env.old env.new memory.new }
{
    match formulas.nodes.get(part) {
        Node::Basic(f) => return basic_truth(formulas.here, env, memory, f),
        _ => {}
    }
    if is_shallow(formulas.nodes, part) {
        return truth_of(formulas, env, memory, part);
    }
    sentence_truth(formulas, env, memory, part)
}

// The parts with temporal words, by a memory for the truths of definitions in this world: None
// where one of the others decides the join.
fn remembering_open_parts(
    formulas: &FormulasHere,
    env: &mut Env,
    memory: &mut Memory,
    joined: Joined,
) -> Result<Option<Numbers>, EvalFault>
    requires there { IsSentenceAt formulas.now.here.now formulas.now.nodes.now joined.at }
    requires join { IsJoin joined.junction (tree_in formulas.now.nodes.now joined.at) }
    requires known { KnowsTruths formulas.now.here.now formulas.now.nodes.now }
    requires remembers { RemembersHere formulas.now.here.now memory.old }
    ensures decided { IsDecidedEarly formulas.now env.old joined result }
    ensures parts { AreOpenParts formulas.now env.old joined result }
    ensures cause { IsNextFault formulas.now env.old joined.at result }
    ensures stays { LeavesFrame formulas.now.here.now env.old env.new memory.new }
{
    let stop = joined.junction.deciding_truth();
    let mut parts = Numbers::new(formulas.here.alloc);
    for i in 0..part_count(formulas.nodes, joined.at) {
        let part = part_at(formulas.nodes, joined.at, i);
        if formulas.nodes.temporal(part) {
            parts.push(part)?;
            continue;
        }
        match state_part(formulas, env, memory, part) {
            Ok(truth) => {
                if truth == stop {
                    return Ok(None);
                }
            }
            Err(fault) => return Err(fault),
        }
    }
    Ok(Some(parts))
}

// The parts with temporal words: None where one of the others decides the join.
fn open_parts(
    formulas: &FormulasHere,
    env: &mut Env,
    joined: Joined,
) -> Result<Option<Numbers>, EvalFault>
    requires there { IsSentenceAt formulas.now.here.now formulas.now.nodes.now joined.at }
    requires join { IsJoin joined.junction (tree_in formulas.now.nodes.now joined.at) }
    ensures decided { IsDecidedEarly formulas.now env.old joined result }
    ensures parts { AreOpenParts formulas.now env.old joined result }
    ensures cause { IsNextFault formulas.now env.old joined.at result }
    ensures frame { env.new ≡ env.old }
{
    let anew = Here {
        alloc: formulas.here.alloc,
        task: formulas.here.task,
        world: formulas.here.world,
        known: None,
    };
    let formulas_anew = FormulasHere {
        here: &anew,
        nodes: formulas.nodes,
    };
    let mut memory = env.lend_memory(formulas.here.alloc);
    let answer = remembering_open_parts(&formulas_anew, env, &mut memory, joined);
    env.take_back(memory);
    answer
}

/// The number of what has to hold next for a number's tree, which has a temporal word and no free
/// variable: the one that is kept, or else the one that is worked out and then kept.
pub(crate) fn kept_residual(
    here: &Here,
    nodes: &mut Nodes,
    env: &mut Env,
    residuals: &mut Residuals,
    incoming: Incoming,
) -> Result<usize, EvalFault>
    requires there { IsSentenceAt here.now nodes.old incoming.formula }
    requires found { KeepsRightlyHere here.now nodes.old residuals.old incoming.world }
    ensures kept { Keeps (trees nodes.old) (trees nodes.new) }
    ensures number { IsResidual here.now env.old nodes.old incoming.formula nodes.new result }
    ensures found { KeepsRightlyHere here.now nodes.new residuals.new incoming.world }
    ensures elsewhere { StaysElsewhere incoming.world residuals.old residuals.new }
    ensures cause { IsResidualFault here.now env.old nodes.old incoming.formula result }
    ensures frame { env.new ≡ env.old }
{
    match residuals.find(incoming) {
        Some(number) => Ok(number),
        None => match temporal_residual(here, nodes, env, incoming.formula) {
            Ok(number) => {
                if residuals.has_most_of(incoming.world) {
                    return Ok(number);
                }
                match residuals.keep(incoming, number) {
                    Ok(()) => Ok(number),
                    Err(_) => Err(EvalFault::NoMemory),
                }
            }
            Err(fault) => Err(fault),
        },
    }
}

// The number of the join of what has to hold next for the parts.
fn parts_residual(
    here: &Here,
    nodes: &mut Nodes,
    env: &mut Env,
    residuals: &mut Residuals,
    rest: &OpenParts,
) -> Result<usize, EvalFault>
    requires there { IsSentenceAt here.now nodes.old rest.now.joined.at }
    requires below { Each (IsBelow false (trees nodes.old) rest.now.joined.at) rest.now.parts.now }
    requires found { KeepsRightlyHere here.now nodes.old residuals.old rest.now.joined.world }
    ensures kept { Keeps (trees nodes.old) (trees nodes.new) }
    ensures number { IsOpenResidual here.now env.old nodes.old rest.now nodes.new result }
    ensures found { KeepsRightlyHere here.now nodes.new residuals.new rest.now.joined.world }
    ensures elsewhere { StaysElsewhere rest.now.joined.world residuals.old residuals.new }
    ensures cause { IsResidualFault here.now env.old nodes.old rest.now.joined.at result }
    ensures frame { env.new ≡ env.old }
{
    let mut answers = Numbers::new(here.alloc);
    for part in rest.parts.iter() {
        let incoming = Incoming {
            world: rest.joined.world,
            formula: *part,
        };
        match kept_residual(here, nodes, env, residuals, incoming) {
            Ok(answer) => {
                if decides(nodes, answer, rest.joined.junction) {
                    return Ok(answer);
                }
                gather(nodes, &mut answers, answer, rest.joined.junction)?;
            }
            Err(fault) => return Err(fault),
        }
    }
    let number = join(nodes, answers.as_slice(), rest.joined.junction)?;
    Ok(number)
}

/// The number of what has to hold next for a conjunction or a disjunction without free variables.
pub(crate) fn joined_residual(
    here: &Here,
    nodes: &mut Nodes,
    env: &mut Env,
    residuals: &mut Residuals,
    joined: Joined,
) -> Result<usize, EvalFault>
    requires there { IsSentenceAt here.now nodes.old joined.at }
    requires join { IsJoin joined.junction (tree_in nodes.old joined.at) }
    requires found { KeepsRightlyHere here.now nodes.old residuals.old joined.world }
    ensures kept { Keeps (trees nodes.old) (trees nodes.new) }
    ensures number { IsResidual here.now env.old nodes.old joined.at nodes.new result }
    ensures found { KeepsRightlyHere here.now nodes.new residuals.new joined.world }
    ensures elsewhere { StaysElsewhere joined.world residuals.old residuals.new }
    ensures cause { IsResidualFault here.now env.old nodes.old joined.at result }
    ensures frame { env.new ≡ env.old }
{
    let formulas = FormulasHere {
        here,
        nodes: &*nodes,
    };
    match open_parts(&formulas, env, joined) {
        Ok(Some(parts)) => {
            let rest = OpenParts {
                joined,
                parts: parts.as_slice(),
            };
            parts_residual(here, nodes, env, residuals, &rest)
        }
        Ok(None) => Ok(constant_number(nodes, joined.junction.deciding_truth())),
        Err(fault) => Err(fault),
    }
}
