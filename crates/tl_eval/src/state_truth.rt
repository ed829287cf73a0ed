// The truth of state formulas.
ghost use Rattle.std.specs.Prelude.{◌≡◌, ◌<◌, ◌≤◌, length, take, []};
ghost use Rattle.tl_eval.specs.Frames.{ChangesOnlyInScope};
ghost use Rattle.tl_eval.specs.StateTruth.{IsTruthFound, IsFoundInRange, IsNoteOf, IsWholeTruth, Remembers};
ghost use Rattle.tl_eval.specs.TruthHere.{definitions_here, joined_formula, defined_atom, quantified_formula, AreTruthsHere, IsTruthHere, IsDefinitionTruth, FitsHere, TakesHere};
ghost use Rattle.tl_syntax.specs.Fits.{Fits};
ghost use Rattle.tl_syntax.specs.Signature.{signature_of, Takes};
ghost use Rattle.tl_syntax.specs.StateFormulas.{IsState};
ghost use Rattle.tl_syntax.specs.TreeOfFormula.{tree_of_formula};

use crate::basic_truth::{atom_true, compare_true, fact_true, place_true};
use crate::here::Here;
use crate::kept::{give_back, keep};
use crate::memory::{Asked, Memory, hash_of};
use crate::quantified::Quantified;
use crate::reading::Reading;
use crate::row::Row;
use crate::scope::{current, put_in_scope};
use crate::term_value::put_values_of_terms;
use crate::{BoundPattern, Env, RangeNote};
use tl_syntax::{Formula, Formulas, Junction, Terms, Value};
use tl_world::{Task, World};

/// The truth of a formula under the frame, where it is read. The frame stays as it was. It needs no
/// memory.
#[cycle(truth_of)]
fn truth_of(
    here: &Here,
    frames: &mut [Option<Value>],
    memory: &mut Memory,
    f: &Formula,
) -> Result<bool, RangeNote>
    requires fits { FitsHere here.now (tree_of_formula f.now) }
    requires room { 32 ≤ length frames.old }
    requires truths { AreTruthsHere here.now memory.old }
    ensures truth { IsTruthHere here.now frames.old (tree_of_formula f.now) result }
    ensures frame { take 32 frames.new ≡ take 32 frames.old }
    ensures truths { AreTruthsHere here.now memory.new }
{
    match f {
        Formula::True => Ok(true),
        Formula::False => Ok(false),
        Formula::Atom(pred, args) => atom_true(here.world, current(frames), *pred, args),
        Formula::Defined(number, args) => defined_true(here, frames, memory, *number, args),
        Formula::Compare(cmp, left, right) => {
            compare_true(here.world, current(frames), *cmp, left, right)
        }
        Formula::GoalFact(pred, args) => Ok(fact_true(
            &here.task.goal,
            current(frames),
            *pred,
            args.as_slice(),
        )),
        Formula::GoalPlace(fun, args, value) => Ok(place_true(
            &here.task.goal,
            current(frames),
            *fun,
            args.as_slice(),
            value,
        )),
        Formula::GoalNot(pred, args) => Ok(fact_true(
            &here.task.avoid,
            current(frames),
            *pred,
            args.as_slice(),
        )),
        Formula::Not(part) => match truth_of(here, frames, memory, part) {
            Ok(truth) => Ok(!truth),
            Err(note) => Err(note),
        },
        Formula::And(parts) => parts_true(here, frames, memory, Junction::All, parts),
        Formula::Or(parts) => parts_true(here, frames, memory, Junction::Any, parts),
        Formula::ForAll(vars, bound, part) => {
            let quantified = Quantified {
                junction: Junction::All,
                vars: vars.as_slice(),
                bound,
                part,
            };
            quantified_true(here, frames, memory, &quantified)
        }
        Formula::Exists(vars, bound, part) => {
            let quantified = Quantified {
                junction: Junction::Any,
                vars: vars.as_slice(),
                bound,
                part,
            };
            quantified_true(here, frames, memory, &quantified)
        }
        Formula::Next(_) => Ok(false),
        Formula::Always(_) => Ok(false),
        Formula::Eventually(_) => Ok(false),
        Formula::Until(_, _) => Ok(false),
        Formula::Within(_, _) => Ok(false),
        Formula::During(_, _) => Ok(false),
    }
}

/// The truth of a conjunction or a disjunction: the first part that has the truth which decides it.
/// It needs no memory.
#[cycle(truth_of)]
#[inline(never)]
fn parts_true(
    here: &Here,
    frames: &mut [Option<Value>],
    memory: &mut Memory,
    junction: Junction,
    parts: &Formulas,
) -> Result<bool, RangeNote>
    requires fits { FitsHere here.now (joined_formula junction parts.now) }
    requires room { 32 ≤ length frames.old }
    requires truths { AreTruthsHere here.now memory.old }
    ensures truth { IsTruthHere here.now frames.old (joined_formula junction parts.now) result }
    ensures frame { take 32 frames.new ≡ take 32 frames.old }
    ensures truths { AreTruthsHere here.now memory.new }
{
    let stop = junction.deciding_truth();
    for part in parts.as_slice().iter() {
        match truth_of(here, frames, memory, part) {
            Ok(truth) => {
                if truth == stop {
                    return Ok(stop);
                }
            }
            Err(note) => return Err(note),
        }
    }
    Ok(!stop)
}

/// The truth of an atom of a definition. It needs no memory.
#[cycle(truth_of)]
#[inline(never)]
fn defined_true(
    here: &Here,
    frames: &mut [Option<Value>],
    memory: &mut Memory,
    number: u32,
    args: &Terms,
) -> Result<bool, RangeNote>
    requires fits { FitsHere here.now (defined_atom number args.now) }
    requires room { 32 ≤ length frames.old }
    requires truths { AreTruthsHere here.now memory.old }
    ensures truth { IsTruthHere here.now frames.old (defined_atom number args.now) result }
    ensures frame { take 32 frames.new ≡ take 32 frames.old }
    ensures truths { AreTruthsHere here.now memory.new }
{
    let mut row = Row::new();
    match put_values_of_terms(here.world, current(frames), args, &mut row) {
        Ok(all) => {
            if all {
                body_true(here, frames, memory, number, row.as_slice())
            } else {
                Ok(false)
            }
        }
        Err(note) => Err(note),
    }
}

/// Whether a definition holds of the values: as it is remembered, or else as its body says, which
/// is remembered then. It needs no memory.
#[cycle(truth_of)]
#[inline(never)]
fn body_true(
    here: &Here,
    frames: &mut [Option<Value>],
    memory: &mut Memory,
    number: u32,
    values: &[Value],
) -> Result<bool, RangeNote>
    requires takes { TakesHere here.now number (length values.now) }
    requires room { 32 ≤ length frames.old }
    requires truths { AreTruthsHere here.now memory.old }
    ensures truth { IsDefinitionTruth here.now here.now.reading number values.now result }
    ensures frame { take 32 frames.new ≡ take 32 frames.old }
    ensures truths { AreTruthsHere here.now memory.new }
{
    let definition = &here.task.problem.domain.definitions.as_slice()[number as usize];
    let level = here.reading.level_of(number, definition.levels);
    if level == 0 {
        return Ok(false);
    }
    let asked = Asked {
        number,
        level,
        values,
    };
    let hash = hash_of(&asked);
    if let Some(truth) = memory.find(hash, &asked) {
        return Ok(truth);
    }
    match opened_true(here, frames, memory, Reading { number, level }, values) {
        Ok(truth) => {
            memory.put(hash, &asked, truth);
            Ok(truth)
        }
        Err(note) => Err(note),
    }
}

/// Whether the body of a definition, which is read at a level above 0, is true of the values: it is
/// read one level lower, in the frame, of which it looks at its own variables alone. The slots of
/// its parameters get back what they had. It needs no memory.
#[cycle(truth_of)]
fn opened_true(
    here: &Here,
    frames: &mut [Option<Value>],
    memory: &mut Memory,
    reading: Reading,
    values: &[Value],
) -> Result<bool, RangeNote>
    requires takes { Takes (definitions_here here.now) reading.number (length values.now) }
    requires level { 0 < reading.level }
    requires room { 32 ≤ length frames.old }
    requires truths { AreTruthsHere here.now memory.old }
    ensures truth { IsDefinitionTruth here.now reading reading.number values.now result }
    ensures frame { take 32 frames.new ≡ take 32 frames.old }
    ensures truths { AreTruthsHere here.now memory.new }
{
    let definition = &here.task.problem.domain.definitions.as_slice()[reading.number as usize];
    let below = Here {
        task: here.task,
        world: here.world,
        reading: Reading {
            number: reading.number,
            level: reading.level - 1,
        },
    };
    let params = definition.params.as_slice();
    let mut outer = [None; 9];
    keep(frames, params, &mut outer);
    put_in_scope(frames, params, values);
    let truth = truth_of(&below, frames, memory, &definition.body);
    give_back(frames, params, &outer);
    truth
}

/// The truth of a universal or an existential formula. Its tuples stand in the frame one after
/// another, which gets the values of their slots back. It needs no memory.
#[cycle(truth_of)]
#[inline(never)]
fn quantified_true(
    here: &Here,
    frames: &mut [Option<Value>],
    memory: &mut Memory,
    quantified: &Quantified,
) -> Result<bool, RangeNote>
    requires fits { FitsHere here.now (quantified_formula quantified.now) }
    requires room { 32 ≤ length frames.old }
    requires truths { AreTruthsHere here.now memory.old }
    ensures truth { IsTruthHere here.now frames.old (quantified_formula quantified.now) result }
    ensures frame { take 32 frames.new ≡ take 32 frames.old }
    ensures truths { AreTruthsHere here.now memory.new }
{
    let mut outer = [None; 9];
    keep(frames, quantified.vars, &mut outer);
    let truth = tuples_true(here, frames, memory, quantified);
    give_back(frames, quantified.vars, &outer);
    truth
}

/// The truth of a quantified formula: the first tuple whose instance has the truth that decides it.
/// The last tuple is left in the frame. It needs no memory.
#[cycle(truth_of)]
fn tuples_true(
    here: &Here,
    frames: &mut [Option<Value>],
    memory: &mut Memory,
    quantified: &Quantified,
) -> Result<bool, RangeNote>
    requires fits { FitsHere here.now (quantified_formula quantified.now) }
    requires room { 32 ≤ length frames.old }
    requires truths { AreTruthsHere here.now memory.old }
    ensures truth { IsTruthHere here.now frames.old (quantified_formula quantified.now) result }
    ensures others { ChangesOnlyInScope quantified.now.vars.now frames.old frames.new }
    ensures truths { AreTruthsHere here.now memory.new }
{
    let stop = quantified.junction.deciding_truth();
    let mut pattern = BoundPattern::unopened(memory.gathers());
    pattern.open_at(
        here.task,
        current(frames),
        quantified.vars,
        quantified.bound,
    );
    let mut tuples = pattern.tuples(here.task, here.world, quantified.bound);
    'tuples: while tuples.next() {
        put_in_scope(frames, quantified.vars, tuples.values());
        match truth_of(here, frames, memory, quantified.part) {
            Ok(truth) => {
                if truth == stop {
                    return Ok(stop);
                }
            }
            Err(note) => return Err(note),
        }
    }
    Ok(!stop)
}

/// The truth of a formula outside of definitions. It needs no memory.
#[inline(never)]
fn whole_true(
    task: &Task,
    w: &World,
    env: &mut Env,
    memory: &mut Memory,
    f: &Formula,
) -> Result<bool, RangeNote>
    requires fits { Fits (signature_of task.now.problem.domain) [] (tree_of_formula f.now) }
    requires remembers { Remembers task.now w.now memory.old }
    ensures truth { IsWholeTruth task.now w.now env.old (tree_of_formula f.now) result }
    ensures frame { env.new ≡ env.old }
    ensures remembers { Remembers task.now w.now memory.new }
{
    let reading = Reading::whole(task);
    let here = Here {
        task,
        world: w,
        reading,
    };
    truth_of(&here, env.values.as_mut_slice(), memory, f)
}

/// Whether a state formula is true in a world, under the frame's values; or a note of an operation
/// past range. Parts are evaluated from left to right until the truth is decided. The frame stays
/// as it was; it needs no memory, and under a frame of `Env::new` it takes none.
pub fn state(task: &Task, w: &World, env: &mut Env, f: &Formula) -> Result<bool, RangeNote>
    requires fits { Fits (signature_of task.now.problem.domain) [] (tree_of_formula f.now) }
    requires state { IsState (tree_of_formula f.now) }
    ensures value { IsTruthFound task.now w.now env.old (tree_of_formula f.now) result }
    ensures in_range { IsFoundInRange task.now w.now env.old (tree_of_formula f.now) result }
    ensures note { IsNoteOf task.now w.now env.old (tree_of_formula f.now) result }
    ensures frame { env.new ≡ env.old }
{
    let reading = Reading::whole(task);
    let here = Here {
        task,
        world: w,
        reading,
    };
    env.memory.forget_all();
    truth_of(&here, env.values.as_mut_slice(), &mut env.memory, f)
}

/// `state` for whoever reads many formulas in one world: what it remembers of definitions is kept
/// for the next one, and is right in this world before and after the call. It needs no memory, and
/// leaves the caller's frame as it was.
#[inline(always)]
pub fn state_in(
    task: &Task,
    w: &World,
    env: &mut Env,
    memory: &mut Memory,
    f: &Formula,
) -> Result<bool, RangeNote>
    requires fits { Fits (signature_of task.now.problem.domain) [] (tree_of_formula f.now) }
    requires state { IsState (tree_of_formula f.now) }
    requires remembers { Remembers task.now w.now memory.old }
    ensures value { IsTruthFound task.now w.now env.old (tree_of_formula f.now) result }
    ensures in_range { IsFoundInRange task.now w.now env.old (tree_of_formula f.now) result }
    ensures note { IsNoteOf task.now w.now env.old (tree_of_formula f.now) result }
    ensures frame { env.new ≡ env.old }
    ensures remembers { Remembers task.now w.now memory.new }
{
    match f {
        Formula::Atom(pred, args) => atom_true(w, env.frame(), *pred, args),
        Formula::Compare(cmp, left, right) => compare_true(w, env.frame(), *cmp, left, right),
        _ => whole_true(task, w, env, memory, f),
    }
}
