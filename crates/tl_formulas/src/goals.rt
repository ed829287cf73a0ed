// The argument of `goal`.
ghost use Rattle.std.specs.Prelude.{◌≡◌, false, MatchOption};
ghost use Rattle.tl_sexpr.specs.Tree.{tree_of};
ghost use Rattle.tl_formulas.specs.Goals.{is_flat, miscounted_breaks};
ghost use Rattle.tl_formulas.specs.Readers.{bound_of_goal, IsFlat, ReadsGoal, ReadsGoalPlace, ReadsGoalNot, ReadsOtherGoal};
ghost use Rattle.tl_formulas.specs.Shapes.{leaf_tree};
ghost use Rattle.tl_rules.specs.Reads.{Checks, trees_in};

use crate::arguments::{argument, arguments, leaf_in};
use crate::scope::Scope;
use crate::shapes::Leaf;
use crate::signature::{NameSignature, Table};
use tl_rules::parts::{any_list, is_word};
use tl_rules::{FormFault, Rule, Vocabulary, breaks, call_in};
use tl_sexpr::Form;
use tl_syntax::{Arg, Args, Bound};

/// An argument of `goal`.
#[derive(Drop)]
pub(crate) enum GoalArgument {
    /// A fact `(p a*)`: the predicate and its arguments.
    Fact(u32, Args),
    /// A place and its value, `(= (f a*) a)`: the function, its arguments and the value.
    Place(u32, Args, Arg),
    /// A fact that does not hold, `(not (p a*))`: the predicate and its arguments.
    Not(u32, Args),
}

/// A list that begins with a name of a table and has no list among the rest.
#[derive(Clone, Copy)]
struct Flat<'a> {
    /// The place of the name.
    place: u32,
    /// The elements after the name.
    rest: &'a [Form],
}

/// An argument of `goal` as the bound that it is under `goal`.
pub(crate) fn bound_of(goal: GoalArgument) -> Bound
    ensures { result ≡ bound_of_goal goal }
{
    match goal {
        GoalArgument::Fact(predicate, args) => Bound::GoalFact(predicate, args),
        GoalArgument::Place(function, args, value) => Bound::GoalPlace(function, args, value),
        GoalArgument::Not(predicate, args) => Bound::GoalNot(predicate, args),
    }
}

/// The parts of a form that is a list that begins with a name of the table and has no list among
/// the rest.
fn flat_parts<'a>(table: &Table<'_>, form: &'a Form) -> Option<Flat<'a>>
    ensures { MatchOption result (is_flat table.now (tree_of form.now) ≡ false)
        (IsFlat table.now (tree_of form.now)) }
{
    let Some(call) = call_in(form) else {
        return None;
    };
    if any_list(call.rest) {
        return None;
    }
    match table.place(call.word) {
        Some(place) => Some(Flat {
            place,
            rest: call.rest,
        }),
        None => None,
    }
}

/// Checks that a list that begins with a name of the table has the name's number of arguments.
#[tactic(auto, using(crate::proofs::Rulesets::composed))]
fn check_count(table: &Table<'_>, form: &Form) -> Result<(), FormFault>
    ensures { Checks result (miscounted_breaks table.now (tree_of form.now)) }
{
    let Some(call) = call_in(form) else {
        return Ok(());
    };
    let Some(place) = table.place(call.word) else {
        return Ok(());
    };
    if table.has_arity(place, call.rest.len()) {
        Ok(())
    } else {
        Err(breaks(Rule::Arity, call.at))
    }
}

/// An argument `(= (f a*) a)` of `goal`, by the place, its parts and the value.
#[tactic(auto, using(crate::proofs::Rulesets::composed))]
fn goal_place(
    vocabulary: &Vocabulary<'_, NameSignature<'_>>,
    scope: &Scope<'_>,
    place: &Form,
    parts: Flat<'_>,
    value: Leaf<'_>,
) -> Result<GoalArgument, FormFault>
    requires parts { IsFlat vocabulary.now.declared.now.functions (tree_of place.now) parts }
    ensures { ReadsGoalPlace vocabulary.now scope.now (tree_of place.now) (leaf_tree value.entry)
        result }
{
    check_count(&vocabulary.declared.functions, place)?;
    let args = arguments(vocabulary, scope, parts.rest)?;
    let value = argument(vocabulary, scope, value)?;
    Ok(GoalArgument::Place(parts.place, args, value))
}

/// An argument `(not (p a*))` of `goal`, by the fact and its parts.
#[tactic(auto, using(crate::proofs::Rulesets::composed))]
fn goal_not(
    vocabulary: &Vocabulary<'_, NameSignature<'_>>,
    scope: &Scope<'_>,
    fact: &Form,
    parts: Flat<'_>,
) -> Result<GoalArgument, FormFault>
    requires { IsFlat vocabulary.now.declared.now.predicates (tree_of fact.now) parts }
    ensures { ReadsGoalNot vocabulary.now scope.now (tree_of fact.now) result }
{
    check_count(&vocabulary.declared.predicates, fact)?;
    let args = arguments(vocabulary, scope, parts.rest)?;
    Ok(GoalArgument::Not(parts.place, args))
}

/// An argument of `goal` that is no fact, by its elements and its offset.
#[tactic(auto, using(crate::proofs::OtherGoals::other_length))]
fn other_goal(
    vocabulary: &Vocabulary<'_, NameSignature<'_>>,
    scope: &Scope<'_>,
    forms: &[Form],
    at: u32,
) -> Result<GoalArgument, FormFault>
    ensures { ReadsOtherGoal vocabulary.now scope.now (trees_in forms.now) at result }
{
    match forms {
        [word, place, value] => {
            if !is_word("=", word) {
                return Err(breaks(Rule::GoalArg, at));
            }
            let Some(value) = leaf_in(value) else {
                return Err(breaks(Rule::GoalArg, at));
            };
            match flat_parts(&vocabulary.declared.functions, place) {
                Some(parts) => goal_place(vocabulary, scope, place, parts, value),
                None => Err(breaks(Rule::GoalArg, at)),
            }
        }
        [word, fact] => {
            if !is_word("not", word) {
                return Err(breaks(Rule::GoalArg, at));
            }
            match flat_parts(&vocabulary.declared.predicates, fact) {
                Some(parts) => goal_not(vocabulary, scope, fact, parts),
                None => Err(breaks(Rule::GoalArg, at)),
            }
        }
        _ => Err(breaks(Rule::GoalArg, at)),
    }
}

/// An argument of `goal`.
#[tactic(auto, using(crate::proofs::Rulesets::goals))]
pub(crate) fn goal(
    vocabulary: &Vocabulary<'_, NameSignature<'_>>,
    scope: &Scope<'_>,
    form: &Form,
) -> Result<GoalArgument, FormFault>
    ensures { ReadsGoal vocabulary.now scope.now (tree_of form.now) result }
{
    let predicates = &vocabulary.declared.predicates;
    check_count(predicates, form)?;
    if let Some(fact) = flat_parts(predicates, form) {
        let args = arguments(vocabulary, scope, fact.rest)?;
        return Ok(GoalArgument::Fact(fact.place, args));
    }
    match form {
        Form::Sym(_, at) => Err(breaks(Rule::GoalArg, *at)),
        Form::Int(_, at) => Err(breaks(Rule::GoalArg, *at)),
        Form::List(forms, at) => other_goal(vocabulary, scope, forms.as_slice(), *at),
    }
}
