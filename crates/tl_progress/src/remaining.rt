// What remains of a formula for the positions that follow.
ghost use Rattle.std.specs.Prelude.{◌≡◌, ◌<◌, length, IfOk};
ghost use Rattle.tl_nodes.specs.Given.{GivesNumber};
ghost use Rattle.tl_nodes.specs.Numbering.{Keeps};
ghost use Rattle.tl_nodes.specs.Numbers.{trees, Denotes, filled_at};
ghost use Rattle.tl_progress.specs.Remaining.{remaining_at, with_remaining, until_remaining, steps_left_at};
ghost use Rattle.tl_progress.specs.Steps.{step_node};

use crate::few_bindings::FewBindings;
use crate::frames::{bindings_in, put_few};
use crate::joins::{decides, join};
use crate::substitution::put_in;
use std::alloc::Global;
use tl_eval::Env;
use tl_nodes::{Node, Nodes};
use tl_syntax::{Binding, Junction, NoMemory};

// The number of the tree with the values put in, which is remembered then.
fn put_in_anew(
    alloc: Global,
    nodes: &mut Nodes,
    bindings: &[Binding],
    at: usize,
) -> Result<usize, NoMemory>
    requires { at < length (trees nodes.old) }
    ensures kept { Keeps (trees nodes.old) (trees nodes.new) }
    ensures number { IfOk result (λ i. Denotes nodes.new i (filled_at nodes.old bindings.now at)) }
{
    let number = put_in(alloc, nodes, bindings, at)?;
    nodes.keep_filled(at, bindings, number);
    Ok(number)
}

// The number of the tree with the values put in: the one that is remembered, or else a new one.
fn filled(
    alloc: Global,
    nodes: &mut Nodes,
    bindings: &[Binding],
    at: usize,
) -> Result<usize, NoMemory>
    requires { at < length (trees nodes.old) }
    ensures kept { Keeps (trees nodes.old) (trees nodes.new) }
    ensures number { IfOk result (λ i. Denotes nodes.new i (filled_at nodes.old bindings.now at)) }
{
    if bindings.is_empty() {
        return Ok(at);
    }
    match nodes.find_filled(at, bindings) {
        Some(number) => Ok(number),
        None => put_in_anew(alloc, nodes, bindings, at),
    }
}

/// The number of the tree with the frame's values put in. It is made once, where it is remembered
/// still.
pub(crate) fn remaining(
    alloc: Global,
    nodes: &mut Nodes,
    env: &Env,
    at: usize,
) -> Result<usize, NoMemory>
    requires { at < length (trees nodes.old) }
    ensures kept { Keeps (trees nodes.old) (trees nodes.new) }
    ensures number { IfOk result (λ i. Denotes nodes.new i (remaining_at nodes.old env.now at)) }
{
    let frame = env.slots();
    let mut few = FewBindings::new();
    if put_few(&mut few, frame) {
        return filled(alloc, nodes, few.as_slice(), at);
    }
    let bindings = bindings_in(alloc, frame)?;
    filled(alloc, nodes, bindings.as_slice(), at)
}

/// A part of a join, and a tree of which what remains is joined to it.
#[derive(Clone, Copy)]
pub(crate) struct PartAndRest {
    /// All, or any.
    pub junction: Junction,
    /// The number of the part.
    pub part: usize,
    /// The number of the tree.
    pub at: usize,
}

/// The number of the join of a part and of what remains of a tree. Where the part decides, nothing
/// is put in.
pub(crate) fn with_remaining(
    alloc: Global,
    nodes: &mut Nodes,
    env: &Env,
    both: PartAndRest,
) -> Result<usize, NoMemory>
    requires part { both.part < length (trees nodes.old) }
    requires at { both.at < length (trees nodes.old) }
    ensures kept { Keeps (trees nodes.old) (trees nodes.new) }
    ensures number { GivesNumber nodes.new (with_remaining nodes.old env.now both) result }
{
    if decides(nodes, both.part, both.junction) {
        return Ok(both.part);
    }
    let rest = remaining(alloc, nodes, env, both.at)?;
    join(nodes, &[both.part, rest], both.junction)
}

/// An `until`, and what has to hold next for its second part and its first.
#[derive(Clone, Copy)]
pub(crate) struct UntilAnswers {
    /// The number of what has to hold next for the second part.
    pub second: usize,
    /// The number of what has to hold next for the first part.
    pub first: usize,
    /// The number of the `until`.
    pub at: usize,
}

/// The number of what has to hold next for an `until`, from those for its second part and its
/// first.
pub(crate) fn until_remaining(
    alloc: Global,
    nodes: &mut Nodes,
    env: &Env,
    answers: UntilAnswers,
) -> Result<usize, NoMemory>
    requires second { answers.second < length (trees nodes.old) }
    requires first { answers.first < length (trees nodes.old) }
    requires at { answers.at < length (trees nodes.old) }
    ensures kept { Keeps (trees nodes.old) (trees nodes.new) }
    ensures number { GivesNumber nodes.new (until_remaining nodes.old env.now answers) result }
{
    let first = PartAndRest {
        junction: Junction::All,
        part: answers.first,
        at: answers.at,
    };
    let both = with_remaining(alloc, nodes, env, first)?;
    join(nodes, &[answers.second, both], Junction::Any)
}

// The node of a `within` or a `for`.
fn step_node(junction: Junction, steps: u32, part: usize) -> Node
    ensures { result ≡ step_node junction steps part }
{
    match junction {
        Junction::All => Node::During(steps, part),
        Junction::Any => Node::Within(steps, part),
    }
}

/// A `within` or a `for`, and what has to hold next for its part.
#[derive(Clone, Copy)]
pub(crate) struct StepsAnswer {
    /// All steps, or any.
    pub junction: Junction,
    /// How many steps there are.
    pub steps: u32,
    /// The number of what has to hold next for the part.
    pub answer: usize,
    /// The number of the part.
    pub part: usize,
}

/// The number of what has to hold next for a `within` or a `for`, from that for its part: it has
/// one step less.
pub(crate) fn with_fewer_steps(
    alloc: Global,
    nodes: &mut Nodes,
    env: &Env,
    counted: StepsAnswer,
) -> Result<usize, NoMemory>
    requires answer { counted.answer < length (trees nodes.old) }
    requires part { counted.part < length (trees nodes.old) }
    ensures kept { Keeps (trees nodes.old) (trees nodes.new) }
    ensures number { GivesNumber nodes.new (steps_left_at nodes.old env.now counted) result }
{
    if counted.steps == 0 {
        return Ok(counted.answer);
    }
    let node = step_node(counted.junction, counted.steps - 1, counted.part);
    let fewer = nodes.intern(node)?;
    let both = PartAndRest {
        junction: counted.junction,
        part: counted.answer,
        at: fewer,
    };
    with_remaining(alloc, nodes, env, both)
}
