// Truth where a world is repeated for ever, under the values of a frame.
ghost use Rattle.std.specs.Prelude.{◌≡◌, None, IsTrue};
ghost use Rattle.tl_eval.specs.Frames.{ChangesOnly};
ghost use Rattle.tl_progress.specs.CallsHere.{FitsHere, IsReadable, IsReadableJoin, IsReadableOver, LeavesFrame, RemembersHere, IsStateTruth, IsStateFault, IsTruthAt, IsTruthFault, IsJoinTruth, IsJoinFault, IsQuantifiedTruth, IsQuantifiedFault, ReadsQuantified};
ghost use Rattle.tl_syntax.specs.Basic.{is_basic};
ghost use Rattle.tl_syntax.specs.TreeOfFormula.{tree_of_formula};

use crate::here::{FormulasHere, Here};
use crate::layers::{Join, Quantified};
use crate::quantifier::put_instance;
use crate::quick::{plain_truth, quick_truth};
use tl_eval::{BoundPattern, BoundTuples, Env, EvalFault, Memory, state_in};
use tl_nodes::Node;
use tl_syntax::{Formula, Junction};

/// The truth of a basic formula. It needs no memory.
#[inline(always)]
pub(crate) fn basic_truth(
    here: &Here,
    env: &mut Env,
    memory: &mut Memory,
    f: &Formula,
) -> Result<bool, EvalFault>
    requires fits { FitsHere here.now (tree_of_formula f.now) }
    requires basic { IsTrue (is_basic (tree_of_formula f.now)) }
    requires remembers { RemembersHere here.now memory.old }
    ensures truth { IsStateTruth here.now env.old (tree_of_formula f.now) result }
    ensures cause { IsStateFault here.now env.old (tree_of_formula f.now) result }
    ensures stays { LeavesFrame here.now env.old env.new memory.new }
{
    match state_in(here.task, here.world, env, memory, f) {
        Ok(truth) => Ok(truth),
        Err(note) => Err(EvalFault::Range(note)),
    }
}

/// The truth of a number's tree: the one that is known, or else the one that is worked out from its
/// parts. It needs no memory.
#[cycle(truth_of)]
pub(crate) fn truth_of(
    formulas: &FormulasHere,
    env: &mut Env,
    memory: &mut Memory,
    at: usize,
) -> Result<bool, EvalFault>
    requires readable { IsReadable formulas.now at }
    requires remembers { RemembersHere formulas.now.here.now memory.old }
    ensures truth { IsTruthAt formulas.now env.old at result }
    ensures cause { IsTruthFault formulas.now env.old at result }
    ensures stays { LeavesFrame formulas.now.here.now env.old env.new memory.new }
{
    match formulas.here.known_truth(at) {
        Some(truth) => Ok(truth),
        None => layer_truth(formulas, env, memory, at),
    }
}

// The truth of a number's tree, from the truth of its parts.
#[cycle(truth_of)]
#[inline(always)]
fn layer_truth(
    formulas: &FormulasHere,
    env: &mut Env,
    memory: &mut Memory,
    at: usize,
) -> Result<bool, EvalFault>
    requires readable { IsReadable formulas.now at }
    requires remembers { RemembersHere formulas.now.here.now memory.old }
    ensures truth { IsTruthAt formulas.now env.old at result }
    ensures cause { IsTruthFault formulas.now env.old at result }
    ensures stays { LeavesFrame formulas.now.here.now env.old env.new memory.new }
{
    match formulas.nodes.get(at) {
        Node::True => Ok(true),
        Node::False => Ok(false),
        Node::Basic(f) => basic_truth(formulas.here, env, memory, f),
        Node::Not(part) => match truth_of(formulas, env, memory, *part) {
            Ok(truth) => Ok(!truth),
            Err(fault) => Err(fault),
        },
        Node::And(parts) => {
            let join = Join {
                junction: Junction::All,
                at,
                parts,
            };
            join_truth(formulas, env, memory, &join)
        }
        Node::Or(parts) => {
            let join = Join {
                junction: Junction::Any,
                at,
                parts,
            };
            join_truth(formulas, env, memory, &join)
        }
        Node::Next(part) => truth_of(formulas, env, memory, *part),
        Node::Always(part) => truth_of(formulas, env, memory, *part),
        Node::Eventually(part) => truth_of(formulas, env, memory, *part),
        Node::Until(_, second) => truth_of(formulas, env, memory, *second),
        Node::Within(_, part) => truth_of(formulas, env, memory, *part),
        Node::During(_, part) => truth_of(formulas, env, memory, *part),
        Node::ForAll(vars, bound, part) => {
            let quantified = Quantified {
                junction: Junction::All,
                vars,
                bound,
                part: *part,
            };
            quantifier_truth(formulas, env, memory, &quantified)
        }
        Node::Exists(vars, bound, part) => {
            let quantified = Quantified {
                junction: Junction::Any,
                vars,
                bound,
                part: *part,
            };
            quantifier_truth(formulas, env, memory, &quantified)
        }
    }
}

/// The truth of a number's tree, as `truth_of` has it, without a call of it for what is plain to
/// read. It needs no memory.
#[cycle(truth_of)]
#[inline(always)]
pub(crate) fn part_truth(
    formulas: &FormulasHere,
    env: &mut Env,
    memory: &mut Memory,
    at: usize,
) -> Result<bool, EvalFault>
    requires readable { IsReadable formulas.now at }
    requires remembers { RemembersHere formulas.now.here.now memory.old }
    ensures truth { IsTruthAt formulas.now env.old at result }
    ensures cause { IsTruthFault formulas.now env.old at result }
    ensures stays { LeavesFrame formulas.now.here.now env.old env.new memory.new }
{
    match plain_truth(formulas, env, at) {
        Some(truth) => Ok(truth),
        None => truth_of(formulas, env, memory, at),
    }
}

// The truth of an instance of a quantified formula, as `truth_of` has it, without a call of it for
// what is quick to read.
#[cycle(truth_of)]
#[inline(always)]
fn instance_truth(
    formulas: &FormulasHere,
    env: &mut Env,
    memory: &mut Memory,
    at: usize,
) -> Result<bool, EvalFault>
    requires readable { IsReadable formulas.now at }
    requires remembers { RemembersHere formulas.now.here.now memory.old }
    ensures truth { IsTruthAt formulas.now env.old at result }
    ensures cause { IsTruthFault formulas.now env.old at result }
    ensures stays { LeavesFrame formulas.now.here.now env.old env.new memory.new }
{
    match quick_truth(formulas, env, at) {
        Some(truth) => Ok(truth),
        None => truth_of(formulas, env, memory, at),
    }
}

// The truth of the join of the parts: the first part that has the truth which decides it. All parts
// are below the join's number.
#[cycle(truth_of)]
fn join_truth(
    formulas: &FormulasHere,
    env: &mut Env,
    memory: &mut Memory,
    join: &Join,
) -> Result<bool, EvalFault>
    requires readable { IsReadableJoin formulas.now join.now }
    requires remembers { RemembersHere formulas.now.here.now memory.old }
    ensures truth { IsJoinTruth formulas.now env.old join.now result }
    ensures cause { IsJoinFault formulas.now env.old join.now result }
    ensures stays { LeavesFrame formulas.now.here.now env.old env.new memory.new }
{
    let stop = join.junction.deciding_truth();
    for part in join.parts.as_slice().iter() {
        match part_truth(formulas, env, memory, *part) {
            Ok(truth) => {
                if truth == stop {
                    return Ok(stop);
                }
            }
            Err(fault) => return Err(fault),
        }
    }
    Ok(!stop)
}

// The truth of a quantified formula. The slots of its variables get back what they had.
#[cycle(truth_of)]
fn quantifier_truth(
    formulas: &FormulasHere,
    env: &mut Env,
    memory: &mut Memory,
    quantified: &Quantified,
) -> Result<bool, EvalFault>
    requires readable { IsReadableOver formulas.now quantified.now }
    requires remembers { RemembersHere formulas.now.here.now memory.old }
    ensures truth { IsQuantifiedTruth formulas.now env.old quantified.now result }
    ensures cause { IsQuantifiedFault formulas.now env.old quantified.now result }
    ensures stays { LeavesFrame formulas.now.here.now env.old env.new memory.new }
{
    let mut pattern = BoundPattern::unopened(true);
    pattern.open_in_place(formulas.here.task, env, quantified.vars, quantified.bound);
    let mut tuples = pattern.tuples(formulas.here.task, formulas.here.world, quantified.bound);
    let mut outer = [None; 9];
    env.keep(quantified.vars.as_slice(), &mut outer);
    let truth = instances_truth(formulas, env, memory, quantified, &mut tuples);
    env.give_back(quantified.vars.as_slice(), &outer);
    truth
}

// The truth of a quantified formula: the first instance that has the truth which decides it. The
// variables are left with the values of the last one.
#[cycle(truth_of)]
fn instances_truth(
    formulas: &FormulasHere,
    env: &mut Env,
    memory: &mut Memory,
    quantified: &Quantified,
    tuples: &mut BoundTuples,
) -> Result<bool, EvalFault>
    requires readable { IsReadableOver formulas.now quantified.now }
    requires reads { ReadsQuantified formulas.now.here.now quantified.now env.old tuples.old }
    requires before { tuples.old.tuple ≡ None }
    requires remembers { RemembersHere formulas.now.here.now memory.old }
    ensures truth { IsQuantifiedTruth formulas.now env.old quantified.now result }
    ensures cause { IsQuantifiedFault formulas.now env.old quantified.now result }
    ensures others { ChangesOnly quantified.now.vars.now env.old env.new }
    ensures remembers { RemembersHere formulas.now.here.now memory.new }
{
    let stop = quantified.junction.deciding_truth();
    'tuples: while put_instance(env, quantified.vars, tuples) {
        match instance_truth(formulas, env, memory, quantified.part) {
            Ok(truth) => {
                if truth == stop {
                    return Ok(stop);
                }
            }
            Err(fault) => return Err(fault),
        }
    }
    Ok(!stop)
}
