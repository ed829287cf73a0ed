// The lines of what a search reports.
ghost use Rattle.std.specs.Prelude.{◌≡◌, ◌<◌, ◌++◌, length, codes, IfOk, OnOk};
ghost use Rattle.std.specs.Fmt.{decimal};
ghost use Rattle.std.specs.String.{string_bytes};
ghost use Rattle.tl_line.specs.NamedActions.{ActionIsNamed};
ghost use Rattle.tl_space.specs.Spaces.{kept_of};
ghost use Rattle.tl_text.specs.Traces.{label_line_in, action_end, event_text_in, IsWritableIn, AreWritableIn, trace_text_in};

use std::alloc::{AllocError, Global};
use tl_label::label_text;
use tl_line::put_action;
use tl_space::{Event, Space};
use tl_syntax::{Action, Bytes, NoMemory, Problem};

/// Puts the line of a label at the end.
fn put_label(label: &[u8], out: &mut Bytes) -> Result<(), AllocError>
    ensures { OnOk result (out.new ≡ out.old ++ (codes "; label " ++ (label.now ++ codes "\n"))) }
{
    out.extend(b"; label ")?;
    out.extend(label)?;
    out.extend(b"\n")
}

/// Puts the line of the label of a search node's residual at the end.
fn put_label_of(alloc: Global, space: &Space, at: usize, out: &mut Bytes) -> Result<(), NoMemory>
    requires { at < length (kept_of space.now) }
    ensures { OnOk result (out.new ≡ out.old ++ label_line_in space.now at) }
{
    let problem = &space.task().problem;
    let label = label_text(alloc, problem, space.nodes(), space.label(at))?;
    put_label(label.as_slice(), out)?;
    Ok(())
}

/// Puts a space, an action and the end of the line at the end.
#[tactic(auto, using(crate::proofs::Rulesets::growth))]
fn put_action_end(problem: &Problem, action: &Action, out: &mut Bytes) -> Result<(), NoMemory>
    requires { ActionIsNamed problem.now.names problem.now.domain.operators action.now }
    ensures { OnOk result
        (out.new ≡ out.old ++ action_end problem.now.names problem.now.domain action.now) }
{
    out.extend(b" ")?;
    put_action(problem, action, out)?;
    out.extend(b"\n")?;
    Ok(())
}

/// What stands before the action where the search node `at` is kept.
fn kept_from(alloc: Global, from: usize, at: usize) -> Result<String, AllocError>
    ensures { IfOk result (λ text. string_bytes text ≡ codes "; kept "
        ++ (decimal at ++ (codes " " ++ decimal from))) }
{
    format!(in alloc; "; kept {at} {from}")
}

/// What stands before the action where the search node `at` is met again.
fn seen_from(alloc: Global, from: usize, at: usize) -> Result<String, AllocError>
    ensures { IfOk result (λ text. string_bytes text ≡ codes "; seen "
        ++ (decimal at ++ (codes " " ++ decimal from))) }
{
    format!(in alloc; "; seen {at} {from}")
}

/// What stands before the action where a search node is pruned.
fn pruned_from(alloc: Global, from: usize) -> Result<String, AllocError>
    ensures { IfOk result (λ text. string_bytes text ≡ codes "; pruned " ++ decimal from) }
{
    format!(in alloc; "; pruned {from}")
}

/// Puts a text, an action and the end of the line at the end.
fn put_met(problem: &Problem, met: &str, action: &Action, out: &mut Bytes) -> Result<(), NoMemory>
    requires { ActionIsNamed problem.now.names problem.now.domain.operators action.now }
    ensures { OnOk result (out.new ≡ out.old
        ++ (met.now ++ action_end problem.now.names problem.now.domain action.now)) }
{
    out.extend(met.as_bytes())?;
    put_action_end(problem, action, out)
}

/// Puts the lines of an event at the end.
fn put_event(alloc: Global, space: &Space, event: &Event, out: &mut Bytes) -> Result<(), NoMemory>
    requires { IsWritableIn space.now event.now }
    ensures { OnOk result (out.new ≡ out.old ++ event_text_in space.now event.now) }
{
    let problem = &space.task().problem;
    match event {
        Event::RootKept => {
            out.extend(b"; kept 0\n")?;
            put_label_of(alloc, space, 0, out)
        }
        Event::RootPruned => {
            out.extend(b"; pruned\n")?;
            Ok(())
        }
        Event::Kept(from, action, at) => {
            let met = kept_from(alloc, *from, *at)?;
            put_met(problem, met.as_str(), action, out)?;
            put_label_of(alloc, space, *at, out)
        }
        Event::Seen(from, action, at) => {
            let met = seen_from(alloc, *from, *at)?;
            put_met(problem, met.as_str(), action, out)
        }
        Event::Pruned(from, action) => {
            let met = pruned_from(alloc, *from)?;
            put_met(problem, met.as_str(), action, out)
        }
    }
}

/// The lines of the events of a search, in their order, before those of what it answers: a kept
/// search node is followed by a line with the label of its residual. Actions and search nodes have
/// to be those of the space. It fails for want of memory alone.
pub fn trace_text(alloc: Global, space: &Space, events: &[Event]) -> Result<Bytes, NoMemory>
    requires { AreWritableIn space.now events.now }
    ensures { IfOk result (λ text. text ≡ trace_text_in space.now events.now) }
{
    let mut text = Bytes::new(alloc);
    for event in events {
        put_event(alloc, space, event, &mut text)?;
    }
    Ok(text)
}
