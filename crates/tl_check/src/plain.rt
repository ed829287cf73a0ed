// Which formulas have parts, and which speak of facts alone.

use crate::steady::is_fixed;
use tl_syntax::{Bound, Formula, Formulas, Term, Terms};

/// What may stand in the comparisons of a formula that speaks of facts alone.
#[derive(Clone, Copy)]
pub(crate) enum Compared {
    /// Variables and values, none of which can be past range.
    Plain,
    /// Operations on them too: they have the same value in every state, or are past range in every
    /// one.
    Fixed,
}

/// Whether the term is a variable or a value. It takes no memory.
fn is_plain_term(term: &Term) -> bool {
    match term {
        Term::Var(_) => true,
        Term::Val(_) => true,
        Term::Place(_, _) => false,
        Term::Arith(_, _, _, _) => false,
    }
}

/// Whether each of the terms is a variable or a value. It takes no memory.
fn are_plain_terms(terms: &Terms) -> bool {
    for term in terms.as_slice().iter() {
        if !is_plain_term(term) {
            return false;
        }
    }
    true
}

/// Whether the term may stand in a comparison. It takes no memory.
fn is_side(term: &Term, compared: Compared) -> bool {
    match compared {
        Compared::Plain => is_plain_term(term),
        Compared::Fixed => is_fixed(term),
    }
}

/// Whether the bound is over facts of the states or over the goal list. It takes no memory.
fn is_plain_bound(bound: &Bound) -> bool {
    match bound {
        Bound::Fact(_, _) => true,
        Bound::Place(_, _, _) => false,
        Bound::GoalFact(_, _) => true,
        Bound::GoalPlace(_, _, _) => true,
        Bound::GoalNot(_, _) => true,
    }
}

/// Whether the formula has formulas below it. It takes no memory.
pub(crate) fn has_parts(f: &Formula) -> bool {
    match f {
        Formula::True => false,
        Formula::False => false,
        Formula::Atom(_, _) => false,
        Formula::Defined(_, _) => false,
        Formula::Compare(_, _, _) => false,
        Formula::GoalFact(_, _) => false,
        Formula::GoalPlace(_, _, _) => false,
        Formula::GoalNot(_, _) => false,
        _ => true,
    }
}

/// Whether the formula speaks of facts alone: no function and no definition stands in it, and in
/// its comparisons nothing but what may. It takes no memory.
#[cycle(is_plain)]
pub(crate) fn is_plain(f: &Formula, compared: Compared) -> bool {
    match f {
        Formula::True => true,
        Formula::False => true,
        Formula::Atom(_, terms) => are_plain_terms(terms),
        Formula::Defined(_, _) => false,
        Formula::Compare(_, x, y) => is_side(x, compared) && is_side(y, compared),
        Formula::GoalFact(_, _) => true,
        Formula::GoalPlace(_, _, _) => true,
        Formula::GoalNot(_, _) => true,
        Formula::Not(part) => is_plain(part, compared),
        Formula::And(parts) => are_plain(parts, compared),
        Formula::Or(parts) => are_plain(parts, compared),
        Formula::ForAll(_, bound, part) => is_plain_bound(bound) && is_plain(part, compared),
        Formula::Exists(_, bound, part) => is_plain_bound(bound) && is_plain(part, compared),
        Formula::Next(part) => is_plain(part, compared),
        Formula::Always(part) => is_plain(part, compared),
        Formula::Eventually(part) => is_plain(part, compared),
        Formula::Until(first, second) => is_plain(first, compared) && is_plain(second, compared),
        Formula::Within(_, part) => is_plain(part, compared),
        Formula::During(_, part) => is_plain(part, compared),
    }
}

/// Whether each of the formulas speaks of facts alone. It takes no memory.
#[cycle(is_plain)]
fn are_plain(parts: &Formulas, compared: Compared) -> bool {
    for part in parts.as_slice().iter() {
        if !is_plain(part, compared) {
            return false;
        }
    }
    true
}
