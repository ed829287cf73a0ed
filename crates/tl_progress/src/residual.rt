// What has to hold from the next position on, under the values of a frame.
ghost use Rattle.std.specs.Prelude.{◌≡◌, ◌<◌, length, None, IfOk};
ghost use Rattle.tl_eval.specs.Frames.{ChangesOnly};
ghost use Rattle.tl_nodes.specs.Numbering.{Keeps};
ghost use Rattle.tl_nodes.specs.Numbers.{trees, tree_in};
ghost use Rattle.tl_progress.specs.CallsHere.{FitsHere, KnowsTruths, KnowsRightly, LeavesFrame, RemembersHere, IsResidual, IsResidualFault, ReadsInstances};
ghost use Rattle.tl_progress.specs.Parts.{IsJoin};
ghost use Rattle.tl_progress.specs.Quantifiers.{Stands, vars_at};
ghost use Rattle.tl_syntax.specs.StateFormulas.{IsState};

use crate::here::{FormulasHere, Here};
use crate::joins::{constant_number, decides, gather, join};
use crate::layers::JoinAt;
use crate::numbers::Numbers;
use crate::parts::{part_at, part_count};
use crate::quantifier::Quantifier;
use crate::remaining::{
    PartAndRest, StepsAnswer, UntilAnswers, remaining, until_remaining, with_fewer_steps,
    with_remaining,
};
use crate::truth::part_truth;
use tl_eval::{BoundPattern, BoundTuples, Env, EvalFault, Memory};
use tl_nodes::{Node, Nodes};
use tl_syntax::Junction;

/// The number of what has to hold next, where the number's tree has no temporal word: a constant.
/// No node is added, and it needs no memory.
#[inline(always)]
pub(crate) fn state_residual(
    here: &Here,
    nodes: &Nodes,
    env: &mut Env,
    memory: &mut Memory,
    at: usize,
) -> Result<usize, EvalFault>
    requires at { at < length (trees nodes.now) }
    requires fits { FitsHere here.now (tree_in nodes.now at) }
    requires state { IsState (tree_in nodes.now at) }
    requires known { KnowsTruths here.now nodes.now }
    requires remembers { RemembersHere here.now memory.old }
    ensures number { IsResidual here.now env.old nodes.now at nodes.now result }
    ensures constant { IfOk result (λ i. i < 2) }
    ensures cause { IsResidualFault here.now env.old nodes.now at result }
    ensures stays { LeavesFrame here.now env.old env.new memory.new }
{
    let formulas = FormulasHere { here, nodes };
    match part_truth(&formulas, env, memory, at) {
        Ok(truth) => Ok(constant_number(nodes, truth)),
        Err(fault) => Err(fault),
    }
}

/// The number of what has to hold next for a number's tree: the one that is known, or else the one
/// that is worked out from its parts.
#[cycle(residual_of)]
pub(crate) fn residual_of(
    here: &Here,
    nodes: &mut Nodes,
    env: &mut Env,
    memory: &mut Memory,
    at: usize,
) -> Result<usize, EvalFault>
    requires at { at < length (trees nodes.old) }
    requires fits { FitsHere here.now (tree_in nodes.old at) }
    requires known { KnowsRightly here.now nodes.old }
    requires remembers { RemembersHere here.now memory.old }
    ensures kept { Keeps (trees nodes.old) (trees nodes.new) }
    ensures number { IsResidual here.now env.old nodes.old at nodes.new result }
    ensures cause { IsResidualFault here.now env.old nodes.old at result }
    ensures stays { LeavesFrame here.now env.old env.new memory.new }
{
    if !nodes.temporal(at) {
        return state_residual(here, nodes, env, memory, at);
    }
    match here.known_residual(at) {
        Some(number) => Ok(number),
        None => layer_residual(here, nodes, env, memory, at),
    }
}

// The number of what has to hold next for a number's tree, from those of its parts.
#[cycle(residual_of)]
#[inline(always)]
fn layer_residual(
    here: &Here,
    nodes: &mut Nodes,
    env: &mut Env,
    memory: &mut Memory,
    at: usize,
) -> Result<usize, EvalFault>
    requires at { at < length (trees nodes.old) }
    requires fits { FitsHere here.now (tree_in nodes.old at) }
    requires known { KnowsRightly here.now nodes.old }
    requires remembers { RemembersHere here.now memory.old }
    ensures kept { Keeps (trees nodes.old) (trees nodes.new) }
    ensures number { IsResidual here.now env.old nodes.old at nodes.new result }
    ensures cause { IsResidualFault here.now env.old nodes.old at result }
    ensures stays { LeavesFrame here.now env.old env.new memory.new }
{
    match nodes.get(at) {
        Node::True => state_residual(here, nodes, env, memory, at),
        Node::False => state_residual(here, nodes, env, memory, at),
        Node::Basic(_) => state_residual(here, nodes, env, memory, at),
        Node::Not(part) => {
            let part = *part;
            let answer = residual_of(here, nodes, env, memory, part)?;
            let number = nodes.not(answer)?;
            Ok(number)
        }
        Node::And(_) => {
            let whole = JoinAt {
                junction: Junction::All,
                at,
            };
            join_residual(here, nodes, env, memory, whole)
        }
        Node::Or(_) => {
            let whole = JoinAt {
                junction: Junction::Any,
                at,
            };
            join_residual(here, nodes, env, memory, whole)
        }
        Node::Next(part) => {
            let part = *part;
            let number = remaining(here.alloc, nodes, env, part)?;
            Ok(number)
        }
        Node::Always(part) => {
            let part = *part;
            let answer = residual_of(here, nodes, env, memory, part)?;
            let both = PartAndRest {
                junction: Junction::All,
                part: answer,
                at,
            };
            let number = with_remaining(here.alloc, nodes, env, both)?;
            Ok(number)
        }
        Node::Eventually(part) => {
            let part = *part;
            let answer = residual_of(here, nodes, env, memory, part)?;
            let both = PartAndRest {
                junction: Junction::Any,
                part: answer,
                at,
            };
            let number = with_remaining(here.alloc, nodes, env, both)?;
            Ok(number)
        }
        Node::Until(first, second) => {
            let first = *first;
            let second = *second;
            let after = residual_of(here, nodes, env, memory, second)?;
            if decides(nodes, after, Junction::Any) {
                return Ok(after);
            }
            let before = residual_of(here, nodes, env, memory, first)?;
            let answers = UntilAnswers {
                second: after,
                first: before,
                at,
            };
            let number = until_remaining(here.alloc, nodes, env, answers)?;
            Ok(number)
        }
        Node::Within(steps, part) => {
            let steps = *steps;
            let part = *part;
            let answer = residual_of(here, nodes, env, memory, part)?;
            let counted = StepsAnswer {
                junction: Junction::Any,
                steps,
                answer,
                part,
            };
            let number = with_fewer_steps(here.alloc, nodes, env, counted)?;
            Ok(number)
        }
        Node::During(steps, part) => {
            let steps = *steps;
            let part = *part;
            let answer = residual_of(here, nodes, env, memory, part)?;
            let counted = StepsAnswer {
                junction: Junction::All,
                steps,
                answer,
                part,
            };
            let number = with_fewer_steps(here.alloc, nodes, env, counted)?;
            Ok(number)
        }
        Node::ForAll(_, _, part) => {
            let quantifier = Quantifier {
                junction: Junction::All,
                at,
                part: *part,
            };
            quantifier_residual(here, nodes, env, memory, quantifier)
        }
        Node::Exists(_, _, part) => {
            let quantifier = Quantifier {
                junction: Junction::Any,
                at,
                part: *part,
            };
            quantifier_residual(here, nodes, env, memory, quantifier)
        }
    }
}

// The number for a conjunction or a disjunction: the first part that decides it ends it.
#[cycle(residual_of)]
fn join_residual(
    here: &Here,
    nodes: &mut Nodes,
    env: &mut Env,
    memory: &mut Memory,
    whole: JoinAt,
) -> Result<usize, EvalFault>
    requires at { whole.at < length (trees nodes.old) }
    requires join { IsJoin whole.junction (tree_in nodes.old whole.at) }
    requires fits { FitsHere here.now (tree_in nodes.old whole.at) }
    requires known { KnowsRightly here.now nodes.old }
    requires remembers { RemembersHere here.now memory.old }
    ensures kept { Keeps (trees nodes.old) (trees nodes.new) }
    ensures number { IsResidual here.now env.old nodes.old whole.at nodes.new result }
    ensures cause { IsResidualFault here.now env.old nodes.old whole.at result }
    ensures stays { LeavesFrame here.now env.old env.new memory.new }
{
    let mut answers = Numbers::new(here.alloc);
    for i in 0..part_count(nodes, whole.at) {
        let part = part_at(nodes, whole.at, i);
        match residual_of(here, nodes, env, memory, part) {
            Ok(answer) => {
                if decides(nodes, answer, whole.junction) {
                    return Ok(answer);
                }
                gather(nodes, &mut answers, answer, whole.junction)?;
            }
            Err(fault) => return Err(fault),
        }
    }
    let number = join(nodes, answers.as_slice(), whole.junction)?;
    Ok(number)
}

// The number for a quantifier. What is known is of trees without free variables, and is not looked
// up for its instances. The slots of its variables get back what they had.
#[cycle(residual_of)]
fn quantifier_residual(
    here: &Here,
    nodes: &mut Nodes,
    env: &mut Env,
    memory: &mut Memory,
    quantifier: Quantifier,
) -> Result<usize, EvalFault>
    requires at { quantifier.at < length (trees nodes.old) }
    requires part { quantifier.part < length (trees nodes.old) }
    requires stands { Stands (trees nodes.old) quantifier }
    requires fits { FitsHere here.now (tree_in nodes.old quantifier.at) }
    requires remembers { RemembersHere here.now memory.old }
    ensures kept { Keeps (trees nodes.old) (trees nodes.new) }
    ensures number { IsResidual here.now env.old nodes.old quantifier.at nodes.new result }
    ensures cause { IsResidualFault here.now env.old nodes.old quantifier.at result }
    ensures stays { LeavesFrame here.now env.old env.new memory.new }
{
    let mut pattern = BoundPattern::unopened(true);
    quantifier.open(nodes, here.task, env, &mut pattern);
    let mut tuples = quantifier.tuples(nodes, here.task, here.world, &pattern);
    let mut outer = [None; 9];
    quantifier.keep(nodes, env, &mut outer);
    let inside = Here {
        alloc: here.alloc,
        task: here.task,
        world: here.world,
        known: None,
    };
    let answer = instances_residual(&inside, nodes, env, memory, quantifier, &mut tuples);
    quantifier.give_back(nodes, env, &outer);
    answer
}

// The number for a quantifier: the join of those for its instances, in tuple order. The first
// instance that decides ends it, and the variables are left with its values.
#[cycle(residual_of)]
fn instances_residual(
    here: &Here,
    nodes: &mut Nodes,
    env: &mut Env,
    memory: &mut Memory,
    quantifier: Quantifier,
    tuples: &mut BoundTuples,
) -> Result<usize, EvalFault>
    requires at { quantifier.at < length (trees nodes.old) }
    requires part { quantifier.part < length (trees nodes.old) }
    requires stands { Stands (trees nodes.old) quantifier }
    requires fits { FitsHere here.now (tree_in nodes.old quantifier.at) }
    requires known { KnowsRightly here.now nodes.old }
    requires reads { ReadsInstances here.now nodes.old quantifier env.old tuples.old }
    requires before { tuples.old.tuple ≡ None }
    requires remembers { RemembersHere here.now memory.old }
    ensures kept { Keeps (trees nodes.old) (trees nodes.new) }
    ensures number { IsResidual here.now env.old nodes.old quantifier.at nodes.new result }
    ensures cause { IsResidualFault here.now env.old nodes.old quantifier.at result }
    ensures others { ChangesOnly (vars_at nodes.old quantifier) env.old env.new }
    ensures remembers { RemembersHere here.now memory.new }
{
    let mut answers = Numbers::new(here.alloc);
    'tuples: while quantifier.put_next(nodes, env, tuples) {
        match residual_of(here, nodes, env, memory, quantifier.part) {
            Ok(number) => {
                if decides(nodes, number, quantifier.junction) {
                    return Ok(number);
                }
                gather(nodes, &mut answers, number, quantifier.junction)?;
            }
            Err(fault) => return Err(fault),
        }
    }
    let number = join(nodes, answers.as_slice(), quantifier.junction)?;
    Ok(number)
}
