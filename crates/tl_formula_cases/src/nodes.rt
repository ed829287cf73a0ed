// Interned formulas: one number for one tree, simplified joins and negations, and fifty thousand
// nested nodes.
ghost use Rattle.std.specs.Prelude.{◌≡◌};
ghost use Rattle.tl_nodes.specs.Fits.{all_below};

use crate::checks::{is_number, is_true};
use crate::domains::filled_domain;
use crate::stop::Stop;
use std::alloc::Global;
use std::process::Abort;
use tl_nodes::{Node, Nodes};
use tl_syntax::{Formula, Formulas, Ids, Names, NoMemory, Terms};
use tl_tables::{column, is_row};

/// The domain text of a row whose first column is a list of formulas.
const DOMAIN: &str = "(domain d (predicate p 0) (control (and {0})))";

/// The numbers of the parts of a conjunction.
fn numbers_of(alloc: Global, nodes: &mut Nodes, f: &Formula) -> Result<Ids, NoMemory> {
    let mut ids = Ids::new(alloc);
    if let Formula::And(parts) = f {
        for part in parts.as_slice() {
            ids.push(nodes.of_tree(part)?)?;
        }
    }
    Ok(ids)
}

/// The numbers of the formulas of a row.
fn numbers_in(alloc: Global, nodes: &mut Nodes, row: &str) -> Result<Ids, Stop> {
    let mut names = Names::new(alloc);
    let domain = filled_domain(alloc, &mut names, DOMAIN, row)?;
    let numbers = numbers_of(alloc, nodes, &domain.control);
    drop(domain);
    Ok(numbers?)
}

/// Formulas that all differ.
const FORMULAS: &str = "true
false
(and)
(or)
(p)
(not (within 3 (p)))
(always (p))
(and (always true) (always false))";

/// Compares each number with all of them, of which only itself is the same.
fn are_apart<R: Abort>(rt: &R, ids: &[usize]) {
    for (i, one) in ids.iter().enumerate() {
        for (k, other) in ids.iter().enumerate() {
            is_true(rt, (one == other) == (i == k), "two numbers");
        }
    }
}

/// Compares the numbers that the formulas get when they come again, for which no node is added.
fn keep_their_numbers<R: Abort>(
    rt: &R,
    alloc: Global,
    nodes: &mut Nodes,
    ids: &[usize],
) -> Result<(), Stop> {
    let len = nodes.len();
    let again = numbers_in(alloc, nodes, FORMULAS)?;
    is_true(rt, again.as_slice() == ids, "the same numbers");
    is_number(rt, nodes.len(), len, "nodes");
    Ok(())
}

/// Each formula has one number, which no other one has, and which it keeps when it comes again.
#[test]
fn one_tree_has_one_number(rt: HostRuntime) -> Result<(), Stop> {
    let mut nodes = Nodes::new(rt.alloc())?;
    let ids = numbers_in(rt.alloc(), &mut nodes, FORMULAS)?;
    is_number(&rt, ids.len(), FORMULAS.lines().count(), "formulas");
    are_apart(&rt, ids.as_slice());
    keep_their_numbers(&rt, rt.alloc(), &mut nodes, ids.as_slice())
}

/// Rows of a formula, and whether it has a temporal word.
const TEMPORAL: &str = "
true | false
(p) | false
(not (within 3 (p))) | true
";

/// Compares the answer for the formula of a row.
fn is_told<R: Abort>(rt: &R, alloc: Global, nodes: &mut Nodes, row: &str) -> Result<(), Stop> {
    let ids = numbers_in(alloc, nodes, row)?;
    for id in ids.as_slice() {
        is_true(rt, *id < nodes.len(), row);
        is_true(rt, nodes.temporal(*id) == (column(row, 1) == "true"), row);
    }
    Ok(())
}

/// Goes over the rows of temporal words.
fn are_told<R: Abort>(rt: &R, alloc: Global, nodes: &mut Nodes) -> Result<(), Stop> {
    for row in TEMPORAL.lines() {
        if is_row(row) {
            is_told(rt, alloc, nodes, row)?;
        }
    }
    Ok(())
}

#[test]
fn temporal_words_are_told(rt: HostRuntime) -> Result<(), Stop> {
    let mut nodes = Nodes::new(rt.alloc())?;
    are_told(&rt, rt.alloc(), &mut nodes)
}

fn are_below(len: usize, ids: &[usize]) -> bool
    ensures { result ≡ all_below len ids.now }
{
    ids.iter().all(|id| *id < len)
}

/// The join, where its condition holds.
fn join(nodes: &mut Nodes, parts: &[usize], all: bool) -> Result<usize, NoMemory> {
    if are_below(nodes.len(), parts) {
        if all {
            nodes.and(parts)
        } else {
            nodes.or(parts)
        }
    } else {
        Err(NoMemory)
    }
}

/// The negation, where its condition holds.
fn negation(nodes: &mut Nodes, part: usize) -> Result<usize, NoMemory> {
    if part < nodes.len() {
        nodes.not(part)
    } else {
        Err(NoMemory)
    }
}

/// The join of parts, or their negation, where there is one.
fn made(nodes: &mut Nodes, word: &str, parts: &[usize]) -> Result<usize, NoMemory> {
    match parts {
        [part] if word == "not" => negation(nodes, *part),
        _ => join(nodes, parts, word == "and"),
    }
}

/// Rows of formulas, the word that makes one of all but the last of them, and the last of them,
/// which it makes.
const JOINS: &str = "
true | and
false | or
(and (always true) (always false)) true (always true) (and (always true) (always false)) | and
(always true) (always false) (always true) (and (always true) (always false)) | and
(always true) false (always false) false | and
(and) (always true) (always true) | and
(always true) true true | or
false (always false) (always false) (always false) | or
true false | not
false true | not
(always true) (not (always true)) | not
(not (always true)) (always true) | not
";

/// Compares what is made of the formulas of a row.
fn is_made<R: Abort>(rt: &R, alloc: Global, nodes: &mut Nodes, row: &str) -> Result<(), Stop> {
    let ids = numbers_in(alloc, nodes, row)?;
    let Some((wanted, parts)) = ids.as_slice().split_last() else {
        return Err(Stop::Row("the row has no formula"));
    };
    let found = made(nodes, column(row, 1), parts)?;
    is_number(rt, found, *wanted, row);
    Ok(())
}

/// Goes over the rows of joins.
fn are_made<R: Abort>(rt: &R, alloc: Global, nodes: &mut Nodes) -> Result<(), Stop> {
    for row in JOINS.lines() {
        if is_row(row) {
            is_made(rt, alloc, nodes, row)?;
        }
    }
    Ok(())
}

#[test]
fn joins_and_negations_simplify(rt: HostRuntime) -> Result<(), Stop> {
    let mut nodes = Nodes::new(rt.alloc())?;
    are_made(&rt, rt.alloc(), &mut nodes)
}

/// The number of `(always PART)`.
#[tactic(auto, using(tl_nodes::proofs::TreesOfNodes::fits_tests), unfolding(tl_nodes::specs::Fits::fits))]
fn always(nodes: &mut Nodes, part: usize) -> Result<usize, NoMemory> {
    if part < nodes.len() {
        nodes.intern(Node::Always(part))
    } else {
        Err(NoMemory)
    }
}

/// The number of `(and FIRST SECOND)`, as it stands.
#[tactic(auto, using(tl_nodes::proofs::TreesOfNodes::fits_tests), unfolding(tl_nodes::specs::Fits::fits))]
fn pair(alloc: Global, nodes: &mut Nodes, first: usize, second: usize) -> Result<usize, NoMemory> {
    let mut ids = Ids::new(alloc);
    ids.extend(&[first, second])?;
    if are_below(nodes.len(), ids.as_slice()) {
        nodes.intern(Node::And(ids))
    } else {
        Err(NoMemory)
    }
}

/// The number of `(p)`.
fn fact(alloc: Global, nodes: &mut Nodes) -> Result<usize, NoMemory> {
    nodes.of_tree(&Formula::Atom(0, Terms::new(alloc)))
}

/// Compares the number that the layer of `(always (p))` gets when it comes again, for which no node
/// is added.
fn come_again<R: Abort>(
    rt: &R,
    alloc: Global,
    nodes: &mut Nodes,
    f: usize,
    always_f: usize,
) -> Result<(), NoMemory> {
    let len = nodes.len();
    is_number(rt, fact(alloc, nodes)?, f, "(p)");
    is_number(rt, always(nodes, f)?, always_f, "(always (p))");
    is_number(rt, nodes.len(), len, "nodes");
    Ok(())
}

/// Compares the layer of a number.
fn is_layer<R: Abort>(rt: &R, nodes: &Nodes, id: usize, layer: &Node) {
    is_true(rt, id < nodes.len(), "the number of a node");
    is_true(rt, nodes.get(id) == layer, "the layer of a number");
}

/// The top layer that a number is given for is the one that it has, and the layer gets its number
/// again.
#[test]
fn one_layer_has_one_number(rt: HostRuntime) -> Result<(), Stop> {
    let mut nodes = Nodes::new(rt.alloc())?;
    let f = fact(rt.alloc(), &mut nodes)?;
    let always_f = always(&mut nodes, f)?;
    come_again(&rt, rt.alloc(), &mut nodes, f, always_f)?;
    is_layer(&rt, &nodes, always_f, &Node::Always(f));
    Ok(())
}

/// A chain of conjunctions, each of the one before and one part more; the last part; and a
/// conjunction that has each one before it twice.
#[derive(Clone, Copy)]
struct Nested {
    chain: usize,
    part: usize,
    doubled: usize,
}

/// Such conjunctions of fifty thousand steps, from one formula on.
fn make_nested(alloc: Global, nodes: &mut Nodes, f: usize) -> Result<Nested, NoMemory> {
    let mut chain = f;
    let mut part = f;
    let mut doubled = f;
    for _ in 0..50_000 {
        part = always(nodes, part)?;
        chain = pair(alloc, nodes, chain, part)?;
        doubled = pair(alloc, nodes, doubled, doubled)?;
    }
    Ok(Nested {
        chain,
        part,
        doubled,
    })
}

/// How many parts a conjunction has; 1 for another formula.
fn count_of_parts(nodes: &Nodes, id: usize) -> usize {
    if id >= nodes.len() {
        return 0;
    }
    match nodes.get(id) {
        Node::And(parts) => parts.len(),
        _ => 1,
    }
}

/// Compares what is made of the deep conjunctions.
fn are_walked<R: Abort>(rt: &R, nodes: &mut Nodes, f: usize, deep: Nested) -> Result<(), NoMemory> {
    let not_chain = negation(nodes, deep.chain)?;
    is_number(
        rt,
        negation(nodes, not_chain)?,
        deep.chain,
        "the negation of the negation",
    );
    is_number(
        rt,
        join(nodes, &[deep.doubled, f], true)?,
        f,
        "the doubled chain",
    );
    let flat = join(nodes, &[deep.chain, deep.part], true)?;
    is_number(rt, count_of_parts(nodes, flat), 50_001, "the flat chain");
    Ok(())
}

#[test]
fn fifty_thousand_nested_nodes_need_no_stack(rt: HostRuntime) -> Result<(), Stop> {
    let mut nodes = Nodes::new(rt.alloc())?;
    let f = fact(rt.alloc(), &mut nodes)?;
    let deep = make_nested(rt.alloc(), &mut nodes, f)?;
    are_walked(&rt, &mut nodes, f, deep)?;
    Ok(())
}
