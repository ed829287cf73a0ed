// Formulas that changes of facts make false, whatever else is true.
ghost use Rattle.std.specs.List.{list_any};
ghost use Rattle.std.specs.Prelude.{◌≡◌, ◌<◌, true, false, length, IsTrue};
ghost use Rattle.tl_nodes.specs.Fits.{all_below};
ghost use Rattle.tl_nodes.specs.NodeTrees.{tree_at};
ghost use Rattle.tl_nodes.specs.Numbers.{trees};
ghost use Rattle.tl_progress.specs.Broken.{LeavesAfter, OneLeavesFalse, are_value_terms, is_added, is_deleted, is_fact_of, is_value_term};
ghost use Rattle.tl_syntax.specs.DerivedTests.{fact_eq};
ghost use Rattle.tl_syntax.specs.TreeOfFormula.{tree_of_formula};
ghost use Rattle.tl_syntax.specs.TreeOfTerm.{tree_of_term};

use crate::changed::Changed;
use crate::fact_changes::FactChanges;
use crate::part_places::{Conjunction, PartPlaces};
use tl_nodes::{Node, Nodes};
use tl_syntax::{Fact, Formula, Term, Value};

// Whether the term is the value itself.
fn is_value_term(term: &Term, value: Value) -> bool
    ensures { result ≡ is_value_term (tree_of_term term.now) value }
{
    match term {
        Term::Var(_) => false,
        Term::Val(own) => *own == value,
        Term::Place(_, _) => false,
        Term::Arith(_, _, _, _) => false,
    }
}

// Whether the terms are the values themselves.
fn are_value_terms(terms: &[Term], values: &[Value]) -> bool
    ensures { result ≡ are_value_terms terms.now values.now }
{
    if terms.len() != values.len() {
        return false;
    }
    let mut k = 0;
    while k < terms.len() {
        if !is_value_term(&terms[k], values[k]) {
            return false;
        }
        k += 1;
    }
    true
}

// Whether the fact is that of the predicate with these terms.
fn is_fact_of(pred: u32, terms: &[Term], fact: &Fact) -> bool
    ensures { result ≡ is_fact_of pred terms.now fact.now }
{
    fact.pred == pred && are_value_terms(terms, fact.args.as_slice())
}

// Whether a fact of the list is that of the predicate with these terms.
fn is_added(pred: u32, terms: &[Term], adds: &[Fact]) -> bool
    ensures { result ≡ is_added pred terms.now adds.now }
{
    adds.iter().any(|fact| is_fact_of(pred, terms, fact))
}

// Whether the fact is in the list.
fn is_among(fact: &Fact, adds: &[Fact]) -> bool
    ensures { result ≡ list_any (λ g. fact_eq g fact.now) adds.now }
{
    adds.iter().any(|other| other == fact)
}

// Whether the fact of the predicate with these terms is deleted, and not added again.
fn is_deleted(pred: u32, terms: &[Term], dels: &[Fact], adds: &[Fact]) -> bool
    ensures { result ≡ is_deleted pred terms.now dels.now adds.now }
{
    dels.iter().any(|fact| is_fact_of(pred, terms, fact) && !is_among(fact, adds))
}

// Whether the formula is a fact that the changes delete.
fn deletes(f: &Formula, changes: &FactChanges) -> bool
    ensures { IsTrue result → LeavesAfter false (tree_of_formula f.now) changes.now }
{
    match f {
        Formula::Atom(pred, terms) => is_deleted(
            *pred,
            terms.as_slice(),
            changes.dels,
            changes.adds,
        ),
        _ => false,
    }
}

// Whether the formula is a fact that the changes add.
fn adds_it(f: &Formula, changes: &FactChanges) -> bool
    ensures { IsTrue result → LeavesAfter true (tree_of_formula f.now) changes.now }
{
    match f {
        Formula::Atom(pred, terms) => is_added(*pred, terms.as_slice(), changes.adds),
        _ => false,
    }
}

// Whether the number's tree is a fact that the changes add.
fn is_made(nodes: &Nodes, at: usize, changes: &FactChanges) -> bool
    requires { at < length (trees nodes.now) }
    ensures { IsTrue result → LeavesAfter true (tree_at (trees nodes.now) at) changes.now }
{
    match nodes.get(at) {
        Node::Basic(f) => adds_it(f, changes),
        _ => false,
    }
}

// Whether the number's tree is a fact that the changes delete, or the negation of one that they
// add.
fn is_broken(nodes: &Nodes, at: usize, changes: &FactChanges) -> bool
    requires { at < length (trees nodes.now) }
    ensures { IsTrue result → LeavesAfter false (tree_at (trees nodes.now) at) changes.now }
{
    match nodes.get(at) {
        Node::Basic(f) => deletes(f, changes),
        Node::Not(part) => is_made(nodes, *part, changes),
        _ => false,
    }
}

// Whether one of the conjunction's parts is a fact that the changes delete, or the negation of one
// that they add, seen by a look at each.
fn is_seen_broken(conjunction: &Conjunction<'_>, changed: &Changed, changes: &FactChanges) -> bool
    requires inside { conjunction.now.at < length (trees conjunction.now.nodes.now) }
    requires below { IsTrue (all_below conjunction.now.at conjunction.now.parts.now) }
    ensures { IsTrue result → OneLeavesFalse conjunction.now changes.now }
{
    let nodes = conjunction.nodes;
    for part in conjunction.parts.as_slice().iter() {
        if changed.may_break(nodes.mark(*part)) && is_broken(nodes, *part, changes) {
            return true;
        }
    }
    false
}

// Whether one of the conjunction's parts is found by the fingerprints of the changes to be a fact
// that they delete, or the negation of one that they add.
fn is_found_broken(
    conjunction: &Conjunction<'_>,
    places: &PartPlaces,
    marks: &[u64],
    changes: &FactChanges,
) -> bool
    requires inside { conjunction.now.at < length (trees conjunction.now.nodes.now) }
    requires below { IsTrue (all_below conjunction.now.at conjunction.now.parts.now) }
    ensures { IsTrue result → OneLeavesFalse conjunction.now changes.now }
{
    for mark in marks.iter() {
        if let Some(part) = places.part(conjunction, *mark) {
            if is_broken(conjunction.nodes, part, changes) {
                return true;
            }
        }
    }
    false
}

// Whether one of the conjunction's parts is a fact that the changes delete, or the negation of one
// that they add, as far as that is found.
fn is_one_broken(
    conjunction: &Conjunction<'_>,
    places: &mut PartPlaces,
    changes: &FactChanges,
) -> bool
    requires inside { conjunction.now.at < length (trees conjunction.now.nodes.now) }
    requires below { IsTrue (all_below conjunction.now.at conjunction.now.parts.now) }
    ensures { IsTrue result → OneLeavesFalse conjunction.now changes.now }
{
    let changed = Changed::of(changes.dels, changes.adds);
    if places.know(conjunction) {
        if let Some(marks) = changed.marks() {
            return is_found_broken(conjunction, places, marks, changes);
        }
    }
    is_seen_broken(conjunction, &changed, changes)
}

/// Whether the changes of facts decide that the number's tree leaves FALSE in the world after them:
/// it is a fact that they delete, or the negation of one that they add, or a conjunction with such
/// a part. Most residuals that prune a search are decided so, with no world made.
pub fn is_broken_by(
    nodes: &Nodes,
    id: usize,
    places: &mut PartPlaces,
    changes: &FactChanges,
) -> bool
    requires { id < length (trees nodes.now) }
    ensures { IsTrue result → LeavesAfter false (tree_at (trees nodes.now) id) changes.now }
{
    match nodes.get(id) {
        Node::And(parts) => {
            let conjunction = Conjunction {
                nodes,
                at: id,
                parts,
            };
            is_one_broken(&conjunction, places, changes)
        }
        _ => is_broken(nodes, id, changes),
    }
}
