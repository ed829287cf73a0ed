// The predicates of which a formula speaks.

use std::alloc::Global;
use tl_syntax::{Bound, Formula, Formulas, NoMemory};

/// Adds a predicate, where it is new. It fails for want of memory alone.
fn add_predicate(preds: &mut Vec<u32>, pred: u32) -> Result<(), NoMemory> {
    if !preds.as_slice().contains(&pred) {
        preds.push(pred)?;
    }
    Ok(())
}

/// Adds the predicate of a bound over the facts of the states. It fails for want of memory alone.
fn add_of_bound(preds: &mut Vec<u32>, bound: &Bound) -> Result<(), NoMemory> {
    match bound {
        Bound::Fact(pred, _) => add_predicate(preds, *pred),
        Bound::Place(_, _, _) => Ok(()),
        Bound::GoalFact(_, _) => Ok(()),
        Bound::GoalPlace(_, _, _) => Ok(()),
        Bound::GoalNot(_, _) => Ok(()),
    }
}

/// Adds the predicates of the formula's atoms and bounds. It fails for want of memory alone.
#[cycle(add_of)]
fn add_of(preds: &mut Vec<u32>, f: &Formula) -> Result<(), NoMemory> {
    match f {
        Formula::True => Ok(()),
        Formula::False => Ok(()),
        Formula::Atom(pred, _) => add_predicate(preds, *pred),
        Formula::Defined(_, _) => Ok(()),
        Formula::Compare(_, _, _) => Ok(()),
        Formula::GoalFact(_, _) => Ok(()),
        Formula::GoalPlace(_, _, _) => Ok(()),
        Formula::GoalNot(_, _) => Ok(()),
        Formula::Not(part) => add_of(preds, part),
        Formula::And(parts) => add_of_each(preds, parts),
        Formula::Or(parts) => add_of_each(preds, parts),
        Formula::ForAll(_, bound, part) => {
            add_of_bound(preds, bound)?;
            add_of(preds, part)
        }
        Formula::Exists(_, bound, part) => {
            add_of_bound(preds, bound)?;
            add_of(preds, part)
        }
        Formula::Next(part) => add_of(preds, part),
        Formula::Always(part) => add_of(preds, part),
        Formula::Eventually(part) => add_of(preds, part),
        Formula::Until(first, second) => {
            add_of(preds, first)?;
            add_of(preds, second)
        }
        Formula::Within(_, part) => add_of(preds, part),
        Formula::During(_, part) => add_of(preds, part),
    }
}

/// Adds the predicates of each of the formulas. It fails for want of memory alone.
#[cycle(add_of)]
fn add_of_each(preds: &mut Vec<u32>, parts: &Formulas) -> Result<(), NoMemory> {
    for part in parts.as_slice().iter() {
        add_of(preds, part)?;
    }
    Ok(())
}

/// The predicates of which the formula speaks by atoms and bounds, each once. It fails for want of
/// memory alone.
pub(crate) fn predicates_of(alloc: Global, f: &Formula) -> Result<Vec<u32>, NoMemory> {
    let mut preds = Vec::new(alloc);
    add_of(&mut preds, f)?;
    Ok(preds)
}
