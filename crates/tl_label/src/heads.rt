// The text of a node up to its parts.
ghost use Rattle.std.specs.Prelude.{◌≡◌, ◌<◌, ◌+◌, ◌^◌, ◌++◌, ◌∷◌, [], OnOk, IfSome, slice_get};
ghost use Rattle.std.specs.Fmt.{decimal};
ghost use Rattle.tl_label.specs.Heads.{head_text, part_ids, is_open, HasBasic};
ghost use Rattle.tl_label.specs.Labels.{variables_text};
ghost use Rattle.tl_label.specs.Lines.{after};
ghost use Rattle.tl_label.specs.Parts.{after_spaces};
ghost use Rattle.tl_label.specs.Terms.{bound_text};

use crate::basic::put_basic;
use crate::bounds::{put_bound, put_variables};
use crate::line::Line;
use crate::words::put_number;
use tl_nodes::Node;
use tl_syntax::{Bound, NoMemory, Problem, Vars};

/// Puts a word and a number of steps at the end.
#[tactic(auto, using(crate::proofs::Parentheses::written))]
fn put_steps(word: &[u8], steps: u32, line: &mut Line) -> Result<(), NoMemory>
    ensures { OnOk result
        (line.new ≡ after line.old (word.now ++ after_spaces (decimal steps ∷ []))) }
{
    line.put(word)?;
    line.put(b" ")?;
    put_number(steps, line)
}

/// Puts a word, the variables of a quantifier and their bound at the end.
#[tactic(auto, using(crate::proofs::Parentheses::written))]
fn put_quantifier(
    problem: &Problem,
    word: &[u8],
    vars: &Vars,
    bound: &Bound,
    line: &mut Line,
) -> Result<(), NoMemory>
    ensures { OnOk result (line.new ≡ after line.old (word.now ++ after_spaces
        (variables_text problem.now.names vars.now
        ∷ bound_text problem.now.names problem.now.domain bound.now ∷ []))) }
{
    line.put(word)?;
    line.put(b" ")?;
    put_variables(&problem.names, vars.as_slice(), line)?;
    line.put(b" ")?;
    put_bound(problem, bound, line)
}

/// Puts the text of a node up to its parts at the end.
pub(crate) fn put_head(problem: &Problem, node: &Node, line: &mut Line) -> Result<(), NoMemory>
    requires { HasBasic node.now }
    ensures { OnOk result
        (line.new ≡ after line.old (head_text problem.now.names problem.now.domain node.now)) }
{
    match node {
        Node::True => line.put(b"true"),
        Node::False => line.put(b"false"),
        Node::Basic(f) => put_basic(problem, f, line),
        Node::Not(_) => line.put(b"(not"),
        Node::And(_) => line.put(b"(and"),
        Node::Or(_) => line.put(b"(or"),
        Node::Next(_) => line.put(b"(next"),
        Node::Always(_) => line.put(b"(always"),
        Node::Eventually(_) => line.put(b"(eventually"),
        Node::Until(_, _) => line.put(b"(until"),
        Node::Within(steps, _) => put_steps(b"(within", *steps, line),
        Node::During(steps, _) => put_steps(b"(for", *steps, line),
        Node::ForAll(vars, bound, _) => put_quantifier(problem, b"(forall", vars, bound, line),
        Node::Exists(vars, bound, _) => put_quantifier(problem, b"(exists", vars, bound, line),
    }
}

/// Whether parts may follow the head, and then a closing parenthesis. It takes no memory.
pub(crate) fn is_open(node: &Node) -> bool
    ensures { result ≡ is_open node.now }
{
    match node {
        Node::True | Node::False | Node::Basic(_) => false,
        _ => true,
    }
}

/// The number of the part at a place, where there is one.
fn nth(ids: &[usize], k: usize) -> Option<usize>
    ensures part { result ≡ slice_get ids.now k }
    ensures few { IfSome result (λ _. k + 1 < 2 ^ 64) }
{
    ids.get(k).copied()
}

/// The number of a part, by its place, where the node has so many. It takes no memory.
pub(crate) fn part_of(node: &Node, k: usize) -> Option<usize>
    ensures part { result ≡ slice_get (part_ids node.now) k }
    ensures few { IfSome result (λ _. k + 1 < 2 ^ 64) }
{
    match node {
        Node::True | Node::False | Node::Basic(_) => None,
        Node::And(ids) => nth(ids.as_slice(), k),
        Node::Or(ids) => nth(ids.as_slice(), k),
        Node::Until(first, second) => nth(&[*first, *second], k),
        Node::Not(part) => nth(&[*part], k),
        Node::Next(part) => nth(&[*part], k),
        Node::Always(part) => nth(&[*part], k),
        Node::Eventually(part) => nth(&[*part], k),
        Node::Within(_, part) => nth(&[*part], k),
        Node::During(_, part) => nth(&[*part], k),
        Node::ForAll(_, _, part) => nth(&[*part], k),
        Node::Exists(_, _, part) => nth(&[*part], k),
    }
}
