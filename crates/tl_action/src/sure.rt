// Effects that cannot fail.
ghost use Rattle.std.specs.List.{list_all};
ghost use Rattle.std.specs.Prelude.{◌≡◌};
ghost use Rattle.tl_action.specs.Sure.{is_bare, is_sure, are_sure};
ghost use Rattle.tl_syntax.specs.TreeOfEffect.{tree_of_effect, tree_of_effects};
ghost use Rattle.tl_syntax.specs.TreeOfTerm.{tree_of_term};

use tl_syntax::{Effect, Effects, Term};

/// Whether the term is a variable or a value. It takes no memory.
fn is_bare(term: &Term) -> bool
    ensures { result ≡ is_bare (tree_of_term term.now) }
{
    match term {
        Term::Var(_) => true,
        Term::Val(_) => true,
        Term::Place(_, _) => false,
        Term::Arith(_, _, _, _) => false,
    }
}

/// Whether each of the terms is a variable or a value. It takes no memory.
fn are_bare(terms: &[Term]) -> bool
    ensures { result ≡ list_all (λ t. is_bare (tree_of_term t)) terms.now }
{
    terms.iter().all(|term| is_bare(term))
}

/// Whether the effect cannot fail once its variables have values. It takes no memory.
#[cycle(sure)]
fn is_sure(effect: &Effect) -> bool
    ensures { result ≡ is_sure (tree_of_effect effect.now) }
{
    match effect {
        Effect::Add(_, args) => are_bare(args.as_slice()),
        Effect::Del(_, args) => are_bare(args.as_slice()),
        Effect::Assign(_, _, _) => false,
        Effect::When(_, _) => false,
        Effect::Each(_, _, effects) => are_sure(effects),
    }
}

/// Whether none of the effects can fail once their variables have values: each adds or deletes
/// facts of variables and values alone. It takes no memory.
#[cycle(sure)]
pub(crate) fn are_sure(effects: &Effects) -> bool
    ensures { result ≡ are_sure (tree_of_effects effects.now) }
{
    for effect in effects.as_slice().iter() {
        if !is_sure(effect) {
            return false;
        }
    }
    true
}
