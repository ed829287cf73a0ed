// The labels of formulas that are nested deeper than those of a file.
ghost use Rattle.std.specs.Prelude.{◌<◌, ℕ, length, IfOk};
ghost use Rattle.tl_nodes.specs.NodeTrees.{tree_at};
ghost use Rattle.tl_nodes.specs.Numbers.{trees};
ghost use Rattle.tl_syntax.specs.Named.{IsNamed};

use crate::checks::are_bytes;
use crate::stop::Stop;
use crate::tasks::problem_in;
use std::alloc::Global;
use std::process::Abort;
use tl_label::label_text;
use tl_nodes::{Node, Nodes};
use tl_syntax::Problem;

/// The number of the control formula.
fn control_number(nodes: &mut Nodes, problem: &Problem) -> Result<usize, Stop>
    ensures number { IfOk result (λ n. n < length (trees nodes.new)) }
    ensures named { IfOk result (λ n. IsNamed (length problem.now.names) (tree_at (trees nodes.new) n)) }
{
    let number = nodes.of_tree(&problem.domain.control)?;
    Ok(number)
}

/// The number of `(not (always F))`.
fn not_always(nodes: &mut Nodes, id: usize) -> Result<usize, Stop>
    requires { id < length (trees nodes.old) }
    ensures number { IfOk result (λ n. n < length (trees nodes.new)) }
    ensures named { IfOk result (λ n. (c : ℕ) → IsNamed c (tree_at (trees nodes.old) id) → IsNamed c (tree_at (trees nodes.new) n)) }
{
    let always = nodes.intern(Node::Always(id))?;
    let number = nodes.intern(Node::Not(always))?;
    Ok(number)
}

/// The number of the control formula in so many `(not (always F))`.
fn nested(nodes: &mut Nodes, problem: &Problem, times: u32) -> Result<usize, Stop>
    ensures number { IfOk result (λ n. n < length (trees nodes.new)) }
    ensures named { IfOk result (λ n. IsNamed (length problem.now.names) (tree_at (trees nodes.new) n)) }
{
    let mut id = control_number(nodes, problem)?;
    for _ in 0..times {
        id = not_always(nodes, id)?;
    }
    Ok(id)
}

/// Compares the label of the control formula in so many `(not (always F))`.
fn is_nested_label<R: Abort>(
    rt: &R,
    alloc: Global,
    problem: &Problem,
    times: u32,
    wanted: &str,
) -> Result<(), Stop> {
    let mut nodes = Nodes::new(alloc)?;
    let id = nested(&mut nodes, problem, times)?;
    let label = label_text(alloc, problem, &nodes, id)?;
    are_bytes(rt, label.as_slice(), wanted.as_bytes(), wanted);
    Ok(())
}

/// Compares the labels of a shallow formula and of one of 50,000 words.
fn are_nested_labels<R: Abort>(rt: &R, alloc: Global, problem: &Problem) -> Result<(), Stop> {
    is_nested_label(rt, alloc, problem, 1, "(not (always (p)))")?;
    is_nested_label(rt, alloc, problem, 25000, "long")
}

#[test]
fn a_deep_formula_is_long(rt: HostRuntime) -> Result<(), Stop> {
    let problem = problem_in(
        rt.alloc(),
        "(domain d (predicate p 0) (control (p)))",
        "(problem x (init) (goal))",
    )?;
    let compared = are_nested_labels(&rt, rt.alloc(), &problem);
    drop(problem);
    compared
}
