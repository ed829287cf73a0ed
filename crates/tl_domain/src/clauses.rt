// Clauses of operators.
ghost use Rattle.std.specs.Prelude.{◌≡◌, option_map, false, MatchOption};
ghost use Rattle.tl_sexpr.specs.Tree.{tree_of};
ghost use Rattle.tl_domain.specs.Operators.{leading, after_leading, are_clauses};
ghost use Rattle.tl_domain.specs.Clauses.{AreClauses};
ghost use Rattle.tl_rules.specs.Reads.{trees_in};

use tl_rules::parts::{begins_with, split_first};
use tl_sexpr::Form;

/// The clauses of an operator, of which each may be wanting.
#[derive(Clone, Copy)]
pub(crate) struct Clauses<'a> {
    /// Where the values of the parameters come from.
    pub(crate) bounds: Option<&'a Form>,
    /// The precondition.
    pub(crate) pre: Option<&'a Form>,
    /// The effects.
    pub(crate) effects: Option<&'a Form>,
}

/// The first form, where it is a clause with this word, and the forms after it; else all.
fn leading<'a>(word: &str, forms: &'a [Form]) -> (Option<&'a Form>, &'a [Form])
    ensures clause { option_map (λ clause. tree_of clause.now) result.0
        ≡ leading word.now (trees_in forms.now) }
    ensures later { trees_in result.1.now ≡ after_leading word.now (trees_in forms.now) }
{
    let Some((first, later)) = split_first(forms) else {
        return (None, forms);
    };
    if begins_with(word, first) {
        (Some(first), later)
    } else {
        (None, forms)
    }
}

/// The clauses, where the forms are clauses in their order, each at most once.
pub(crate) fn clauses_in(forms: &[Form]) -> Option<Clauses<'_>>
    ensures { MatchOption result (are_clauses (trees_in forms.now) ≡ false)
        (AreClauses (trees_in forms.now)) }
{
    let (bounds, later) = leading("bounds", forms);
    let (pre, later) = leading("pre", later);
    let (effects, later) = leading("effects", later);
    match split_first(later) {
        Some(_) => None,
        None => Some(Clauses {
            bounds,
            pre,
            effects,
        }),
    }
}
