// The parts of an effect's list: whether it has the shape that its first word asks for.
ghost use Rattle.tl_formulas.specs.Shapes.{FindsFact, FindsEffectParts};
ghost use Rattle.tl_formulas.specs.declared.words.EffectWord.TheVariants as effect;
ghost use Rattle.tl_rules.specs.Reads.{trees_in};

use crate::shapes::{Binding, EffectParts};
use crate::variables::variable_list;
use crate::words::EffectWord;
use tl_rules::parts::{one, split_first, two};
use tl_rules::{Call, call_in};
use tl_sexpr::Form;

/// The fact that `add` and `del` ask for.
#[tactic(auto, using(crate::proofs::Counts::target_count))]
fn fact_in(rest: &[Form]) -> Option<Call<'_>>
    ensures { FindsFact (trees_in rest.now) result }
{
    match one(rest) {
        Some(fact) => call_in(fact),
        None => None,
    }
}

/// The parts of `(add A)`.
fn add_parts(rest: &[Form]) -> Option<EffectParts<'_>>
    ensures { FindsEffectParts effect.Add (trees_in rest.now) result }
{
    match fact_in(rest) {
        Some(fact) => Some(EffectParts::Add(fact)),
        None => None,
    }
}

/// The parts of `(del A)`.
fn del_parts(rest: &[Form]) -> Option<EffectParts<'_>>
    ensures { FindsEffectParts effect.Del (trees_in rest.now) result }
{
    match fact_in(rest) {
        Some(fact) => Some(EffectParts::Del(fact)),
        None => None,
    }
}

/// The parts of `(set X T)`.
#[tactic(auto, using(crate::proofs::Counts::set_count))]
fn set_parts(rest: &[Form]) -> Option<EffectParts<'_>>
    ensures { FindsEffectParts effect.Set (trees_in rest.now) result }
{
    let Some((place, value)) = two(rest) else {
        return None;
    };
    match call_in(place) {
        Some(place) => Some(EffectParts::Set(place, value)),
        None => None,
    }
}

/// The parts of `(when F E*)`.
fn when_parts(rest: &[Form]) -> Option<EffectParts<'_>>
    ensures { FindsEffectParts effect.When (trees_in rest.now) result }
{
    match split_first(rest) {
        Some((condition, effects)) => Some(EffectParts::When(condition, effects)),
        None => None,
    }
}

/// The parts of `(each (V*) B E*)`.
fn each_parts(rest: &[Form]) -> Option<EffectParts<'_>>
    ensures { FindsEffectParts effect.Each (trees_in rest.now) result }
{
    let Some((list, later)) = split_first(rest) else {
        return None;
    };
    let Some((bound, effects)) = split_first(later) else {
        return None;
    };
    let Some(list) = variable_list(list) else {
        return None;
    };
    let binding = Binding { list, bound };
    Some(EffectParts::Each(binding, effects))
}

/// The parts of an effect's list with this first word and these elements after it, where they have
/// the shape that the word asks for.
pub(crate) fn effect_parts(word: EffectWord, rest: &[Form]) -> Option<EffectParts<'_>>
    ensures { FindsEffectParts word (trees_in rest.now) result }
{
    match word {
        EffectWord::Add => add_parts(rest),
        EffectWord::Del => del_parts(rest),
        EffectWord::Set => set_parts(rest),
        EffectWord::When => when_parts(rest),
        EffectWord::Each => each_parts(rest),
        EffectWord::Other => None,
    }
}
