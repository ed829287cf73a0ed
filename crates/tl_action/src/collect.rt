// The changes that effects make, all read in one world.
ghost use Rattle.std.specs.Prelude.{◌≡◌};
ghost use Rattle.tl_action.specs.UnderFrames.{signature_here, TermFitsHere, TermsFitHere, EffectReadsHere, EffectsReadHere, EachReadsHere, FactIsCollected, PlaceIsCollected, EffectIsCollected, AreCollected, EachIsCollected, EffectLeavesFrame, EffectsLeaveFrame, EachLeavesFrame};
ghost use Rattle.tl_syntax.specs.BoundVariables.{DifferInSlot, OccurIn};
ghost use Rattle.tl_syntax.specs.Fits.{BoundFits};

use crate::changes::Changes;
use crate::here::Here;
use crate::values::values_of;
use tl_eval::{BoundPattern, Env, EvalFault, state, term};
use tl_syntax::{Bound, Effect, Effects, Fact, Facts, PlaceValue, PlaceValues, Term, Terms, Vars};

/// Collects a fact whose arguments are the values of terms: false where one of them is undefined.
/// The frame stays as it was.
#[inline(always)]
fn collect_fact(
    here: &Here,
    env: &mut Env,
    pred: u32,
    terms: &Terms,
    facts: &mut Facts,
) -> Result<bool, EvalFault>
    requires { TermsFitHere here.now terms.now }
    ensures fact { FactIsCollected here.now env.old pred terms.now facts.old facts.new result }
    ensures frame { env.new ≡ env.old }
{
    match values_of(here, env, terms) {
        Ok(Some(args)) => {
            facts.push(Fact { pred, args })?;
            Ok(true)
        }
        Ok(None) => Ok(false),
        Err(fault) => Err(fault),
    }
}

/// What an effect sets: a place, whose arguments are the values of terms, to the value of a term.
#[derive(Clone, Copy)]
struct Setting<'a> {
    /// The function of the place.
    fun: u32,
    /// The terms of its arguments.
    args: &'a Terms,
    /// The term of its value.
    value: &'a Term,
}

/// Collects a place with its value: false where a term of either is undefined. The frame stays as
/// it was.
fn collect_place(
    here: &Here,
    env: &mut Env,
    setting: &Setting,
    places: &mut PlaceValues,
) -> Result<bool, EvalFault>
    requires args { TermsFitHere here.now setting.now.args.now }
    requires value { TermFitsHere here.now setting.now.value.now }
    ensures place { PlaceIsCollected here.now env.old setting.now places.old places.new result }
    ensures frame { env.new ≡ env.old }
{
    match values_of(here, env, setting.args) {
        Ok(Some(args)) => match term(here.task, here.world, env, setting.value) {
            Ok(Some(value)) => {
                places.push(PlaceValue {
                    fun: setting.fun,
                    args,
                    value,
                })?;
                Ok(true)
            }
            Ok(None) => Ok(false),
            Err(note) => Err(EvalFault::Range(note)),
        },
        Ok(None) => Ok(false),
        Err(fault) => Err(fault),
    }
}

/// Collects the changes of an effect: false where an instance of it has an undefined part.
/// Variables that it quantifies may have other values in the frame afterwards.
#[cycle(collected)]
fn collect(
    here: &Here,
    env: &mut Env,
    effect: &Effect,
    changes: &mut Changes,
) -> Result<bool, EvalFault>
    requires { EffectReadsHere here.now effect.now }
    ensures changes { EffectIsCollected here.now env.old effect.now changes.old changes.new result }
    ensures frame { EffectLeavesFrame here.now effect.now env.old env.new }
{
    match effect {
        Effect::Add(pred, args) => collect_fact(here, env, *pred, args, &mut changes.adds),
        Effect::Del(pred, args) => collect_fact(here, env, *pred, args, &mut changes.dels),
        Effect::Assign(fun, args, value) => {
            let setting = Setting {
                fun: *fun,
                args,
                value,
            };
            collect_place(here, env, &setting, &mut changes.sets)
        }
        Effect::When(condition, effects) => match state(here.task, here.world, env, condition) {
            Ok(true) => collect_all(here, env, effects, changes),
            Ok(false) => Ok(true),
            Err(note) => Err(EvalFault::Range(note)),
        },
        Effect::Each(vars, bound, effects) => {
            let each = ForEach {
                vars,
                bound,
                effects,
            };
            collect_each(here, env, &each, changes)
        }
    }
}

/// Collects the changes of effects in their order, up to the first that has an undefined part:
/// false where one has.
#[cycle(collected)]
pub(crate) fn collect_all(
    here: &Here,
    env: &mut Env,
    effects: &Effects,
    changes: &mut Changes,
) -> Result<bool, EvalFault>
    requires { EffectsReadHere here.now effects.now }
    ensures changes { AreCollected here.now env.old effects.now changes.old changes.new result }
    ensures frame { EffectsLeaveFrame here.now effects.now env.old env.new }
{
    for effect in effects.as_slice().iter() {
        match collect(here, env, effect, changes) {
            Ok(true) => {}
            Ok(false) => return Ok(false),
            Err(fault) => return Err(fault),
        }
    }
    Ok(true)
}

/// Effects below variables, for each tuple of a bound.
#[derive(Clone, Copy)]
struct ForEach<'a> {
    /// The variables.
    vars: &'a Vars,
    /// The bound.
    bound: &'a Bound,
    /// The effects.
    effects: &'a Effects,
}

/// Collects the changes of effects for each tuple of the bound, up to the first with an undefined
/// part: false where one has.
#[cycle(collected)]
fn collect_each(
    here: &Here,
    env: &mut Env,
    each: &ForEach,
    changes: &mut Changes,
) -> Result<bool, EvalFault>
    requires reads { EachReadsHere here.now each.now }
    requires differ { DifferInSlot each.now.vars.now }
    requires occur { OccurIn each.now.vars.now each.now.bound.now }
    requires fits { BoundFits (signature_here here.now) each.now.bound.now }
    ensures changes { EachIsCollected here.now env.old each.now changes.old changes.new result }
    ensures frame { EachLeavesFrame here.now each.now env.old env.new }
{
    let vars = each.vars;
    let bound = each.bound;
    let mut pattern = BoundPattern::unopened(true);
    pattern.open_in_place(here.task, env, vars, bound);
    let mut tuples = pattern.tuples(here.task, here.world, bound);
    while tuples.next() {
        env.put_values(vars.as_slice(), tuples.values());
        match collect_all(here, env, each.effects, changes) {
            Ok(true) => {}
            Ok(false) => return Ok(false),
            Err(fault) => return Err(fault),
        }
    }
    Ok(true)
}
