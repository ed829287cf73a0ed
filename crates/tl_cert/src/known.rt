// The actions of a node.
ghost use Rattle.std.specs.Prelude.{◌≡◌, ◌<◌, ◌↔◌, length, IfOk, IfErr, OnOk, IsTrue};
ghost use Rattle.tl_syntax.specs.Lists.{Among};
ghost use Rattle.tl_search.specs.NamedAnswers.{FaultIsNamed, IsNamedIn};
ghost use Rattle.tl_search.specs.Calls.{IsExecutableAt};
ghost use Rattle.tl_search.specs.SameTask.{HasSameTask};
ghost use Rattle.tl_cert.specs.Checking.{AreActionsAt, AreKnownActions, IsListingFault};

use std::alloc::Global;
use tl_search::{SearchFault, SearchSpace, search_node_fault};
use tl_syntax::{Action, Actions};

/// The executable actions of a node, which stay known while links that start from it come one after
/// another.
#[derive(Drop)]
pub(crate) struct NodeActions {
    /// The number of the node.
    pub(crate) at: usize,
    /// Its actions, in action order.
    pub(crate) actions: Actions,
}

/// Whether the action is one of these.
fn is_among(a: &Action, actions: &[Action]) -> bool
    ensures { IsTrue result ↔ Among a.now actions.now }
{
    for other in actions {
        if other == a {
            return true;
        }
    }
    false
}

/// The actions of a node, listed anew.
pub(crate) fn listed<S: SearchSpace>(
    alloc: Global,
    space: &mut S,
    at: usize,
) -> Result<NodeActions, SearchFault>
    requires at { at < length (S.kept space.old) }
    ensures same { HasSameTask S.task S.problem space.old space.new }
    ensures kept { S.kept space.new ≡ S.kept space.old }
    ensures known { IfOk result
        (AreActionsAt (S.task space.old) (S.problem space.old) (S.kept space.old)) }
    ensures place { IfOk result (λ known. known.at ≡ at) }
    ensures fault { IfErr result (IsListingFault (S.problem space.old) (S.kept space.old) at) }
    ensures named { IfErr result (FaultIsNamed (S.task space.old)) }
{
    match space.actions(at) {
        Ok(actions) => Ok(NodeActions { at, actions }),
        Err(fault) => Err(search_node_fault(alloc, space, at, fault)),
    }
}

/// The actions of a node: those that are known last, or else listed anew.
pub(crate) fn known_at<S: SearchSpace>(
    alloc: Global,
    space: &mut S,
    at: usize,
    last: Option<NodeActions>,
) -> Result<NodeActions, SearchFault>
    requires at { at < length (S.kept space.old) }
    requires last { AreKnownActions (S.task space.old) (S.problem space.old)
        (S.kept space.old) last }
    ensures same { HasSameTask S.task S.problem space.old space.new }
    ensures kept { S.kept space.new ≡ S.kept space.old }
    ensures known { IfOk result
        (AreActionsAt (S.task space.old) (S.problem space.old) (S.kept space.old)) }
    ensures place { IfOk result (λ known. known.at ≡ at) }
    ensures fault { IfErr result (IsListingFault (S.problem space.old) (S.kept space.old) at) }
    ensures named { IfErr result (FaultIsNamed (S.task space.old)) }
{
    match last {
        Some(known) => {
            if known.at == at {
                Ok(known)
            } else {
                drop(known);
                listed(alloc, space, at)
            }
        }
        None => listed(alloc, space, at),
    }
}

/// Whether the action has a step at the node, whose actions are known from now on.
pub(crate) fn has_step<S: SearchSpace>(
    alloc: Global,
    space: &mut S,
    at: usize,
    a: &Action,
    known: &mut Option<NodeActions>,
) -> Result<bool, SearchFault>
    requires at { at < length (S.kept space.old) }
    requires known { AreKnownActions (S.task space.old) (S.problem space.old)
        (S.kept space.old) known.old }
    ensures same { HasSameTask S.task S.problem space.old space.new }
    ensures kept { S.kept space.new ≡ S.kept space.old }
    ensures known { OnOk result
        (AreKnownActions (S.task space.old) (S.problem space.old) (S.kept space.old) known.new) }
    ensures has_step { IfOk result
        (λ has. IsTrue has ↔ IsExecutableAt (S.problem space.old) (S.kept space.old) at a.now) }
    ensures named { IfOk result (λ has. IsTrue has → IsNamedIn (S.task space.old) a.now) }
    ensures fault { IfErr result (IsListingFault (S.problem space.old) (S.kept space.old) at) }
    ensures path_named { IfErr result (FaultIsNamed (S.task space.old)) }
{
    let now = known_at(alloc, space, at, known.take())?;
    let has = is_among(a, now.actions.as_slice());
    *known = Some(now);
    Ok(has)
}
