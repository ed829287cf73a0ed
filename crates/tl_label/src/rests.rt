// What is left to be written of formulas that are begun.
ghost use Rattle.std.specs.Prelude.{◌≡◌, ◌<◌, ◌≤◌, ◌⊎◌, [], ◌∷◌, ◌++◌, length, None, OnOk, IfSome, MatchOption};
ghost use Rattle.tl_nodes.specs.Numbers.{trees};
ghost use Rattle.tl_label.specs.Lines.{after, room};
ghost use Rattle.tl_label.specs.Rests.{text_at, rest_text, left_text, with_rests, AreThere};

use crate::heads::{is_open, part_of, put_head};
use crate::line::Line;
use tl_nodes::Nodes;
use tl_syntax::{NoMemory, Problem};

/// A formula that is begun: its number, and how many of its parts are written.
#[derive(Clone, Copy)]
pub(crate) struct Rest {
    id: usize,
    part: usize,
}

/// The formula that was begun last, where the text is not too long and one is left.
pub(crate) fn next_rest(line: &Line, rests: &mut Vec<Rest>) -> Option<Rest>
    ensures last { MatchOption result ((line.now ≡ None) ⊎ (rests.old.items ≡ []))
        (λ rest. rests.old.items ≡ rests.new.items ++ rest ∷ []) }
    ensures room { IfSome result (λ _. 0 < room line.now) }
{
    if line.is_long() {
        return None;
    }
    rests.pop()
}

/// Puts the text of a formula up to its parts at the end; its parts, where it has some, are left to
/// be written.
pub(crate) fn begin(
    problem: &Problem,
    nodes: &Nodes,
    id: usize,
    line: &mut Line,
    rests: &mut Vec<Rest>,
) -> Result<(), NoMemory>
    requires id { id < length (trees nodes.now) }
    requires rests { AreThere nodes.now rests.old.items }
    ensures text { OnOk result
        (with_rests problem.now nodes.now line.new rests.new.items ≡ after line.old
        (text_at problem.now nodes.now id ++ left_text problem.now nodes.now rests.old.items)) }
    ensures rests { OnOk result (AreThere nodes.now rests.new.items) }
    ensures room { OnOk result (room line.new ≤ room line.old) }
{
    let node = nodes.get(id);
    put_head(problem, node, line)?;
    if is_open(node) {
        rests.push(Rest { id, part: 0 })?;
    }
    Ok(())
}

/// Puts a space and the next part up to its own parts at the end, or the closing parenthesis where
/// no part is left.
pub(crate) fn go_on(
    problem: &Problem,
    nodes: &Nodes,
    rest: Rest,
    line: &mut Line,
    rests: &mut Vec<Rest>,
) -> Result<(), NoMemory>
    requires id { rest.id < length (trees nodes.now) }
    requires rests { AreThere nodes.now rests.old.items }
    requires room { 0 < room line.old }
    ensures text { OnOk result
        (with_rests problem.now nodes.now line.new rests.new.items ≡ after line.old
        (rest_text problem.now nodes.now rest ++ left_text problem.now nodes.now rests.old.items)) }
    ensures rests { OnOk result (AreThere nodes.now rests.new.items) }
    ensures room { OnOk result (room line.new < room line.old) }
{
    match part_of(nodes.get(rest.id), rest.part) {
        Some(part) => {
            rests.push(Rest {
                id: rest.id,
                part: rest.part + 1,
            })?;
            line.put(b" ")?;
            begin(problem, nodes, part, line, rests)
        }
        None => line.put(b")"),
    }
}
