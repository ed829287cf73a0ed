// Fingerprints of facts and of their negations. No clause speaks of them: two trees may have the
// same.

use super::filled::{mixed, word_of};
use crate::Node;
use tl_syntax::{Fact, Formula, Term};

/// The fingerprint of a fact, or of its negation: the first is odd, and the other one even.
pub fn fact_mark(fact: &Fact, holds: bool) -> u64 {
    let mut hash = mixed(0, fact.pred as u64);
    for value in fact.args.as_slice().iter() {
        hash = mixed(hash, word_of(Some(*value)));
    }
    if holds { hash | 1 } else { !(hash | 1) }
}

// That of a predicate with these terms, where all are values.
fn atom_mark(pred: u32, terms: &[Term]) -> u64 {
    let mut hash = mixed(0, pred as u64);
    for term in terms.iter() {
        match term {
            Term::Val(value) => {
                hash = mixed(hash, word_of(Some(*value)));
            }
            _ => return 0,
        }
    }
    hash | 1
}

// That of the negation of a tree with this fingerprint.
fn negated(mark: u64) -> u64 {
    if mark & 1 == 1 { !mark } else { 0 }
}

/// What is stored for a number.
pub(crate) fn mark_at(marks: &[u64], id: usize) -> u64 {
    match marks.get(id) {
        Some(mark) => *mark,
        None => 0,
    }
}

/// That of the node, over parts with these fingerprints.
pub(crate) fn mark_of(marks: &[u64], node: &Node) -> u64 {
    match node {
        Node::Basic(f) => match f {
            Formula::Atom(pred, terms) => atom_mark(*pred, terms.as_slice()),
            _ => 0,
        },
        Node::Not(part) => negated(mark_at(marks, *part)),
        _ => 0,
    }
}
