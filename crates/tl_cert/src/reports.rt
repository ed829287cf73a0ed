// The proof that a search leaves.
ghost use Rattle.std.specs.Prelude.{◌≡◌, ◌<◌, ◌≤◌, ◌^◌, [], ◌∷◌, ◌++◌, length, IfOk, OnOk};
ghost use Rattle.tl_cert.specs.Covers.{Covers};
ghost use Rattle.tl_cert.specs.LawsReadBack.{StartBefore};
ghost use Rattle.tl_cert.specs.Reports.{bound_of, links_of, IsNoneReport, HasSmallStart};

use crate::proof::{Link, Links, Proof};
use std::alloc::Global;
use tl_search::{Event, Outcome, Report, SearchSpace};
use tl_syntax::{Action, NoMemory};

/// Adds the link by the action of the search node of this number.
fn add_link(alloc: Global, links: &mut Links, from: usize, action: &Action) -> Result<(), NoMemory>
    requires { from < 2 ^ 32 }
    ensures { OnOk result
        (links.new ≡ links.old ++ record { from = from; action = action.now } ∷ []) }
{
    let action = action.copy(alloc)?;
    links.push(Link {
        from: from as u32,
        action,
    })?;
    Ok(())
}

/// Adds the link of an event that keeps a search node after the root.
fn add_event(alloc: Global, links: &mut Links, event: &Event) -> Result<(), NoMemory>
    requires { HasSmallStart event.now }
    ensures { OnOk result (links.new ≡ links.old ++ links_of (event.now ∷ [])) }
{
    match event {
        Event::Kept(from, action, _) => add_link(alloc, links, *from, action),
        Event::RootKept => Ok(()),
        Event::RootPruned => Ok(()),
        Event::Seen(_, _, _) => Ok(()),
        Event::Pruned(_, _) => Ok(()),
    }
}

/// The bound of the proof of this answer of a search within so many actions.
fn bound_of(within: u32, outcome: &Outcome) -> Option<u32>
    ensures { result ≡ bound_of within outcome.now }
{
    match outcome {
        Outcome::Plan(_) => Some(within),
        Outcome::NoPlan => None,
        Outcome::NoneWithin => Some(within),
        Outcome::Spent => Some(within),
    }
}

/// The proof that a breadth-first search within so many actions leaves which found that there is no
/// plan: its links are the events that keep a search node, and it has a bound where the search was
/// cut off by its own. The space is the one that was searched. It fails for want of memory alone.
pub fn certificate<S: SearchSpace>(
    alloc: Global,
    space: &S,
    report: &Report,
    within: u32,
) -> Result<Proof, NoMemory>
    requires few { length (S.kept space.now) < 2 ^ 32 }
    requires none { IsNoneReport (S.problem space.now) within (S.kept space.now) report.now }
    ensures covers { IfOk result (Covers (S.problem space.now)) }
    ensures bound { IfOk result (λ proof. proof.bound ≡ bound_of within report.now.outcome) }
    ensures links { IfOk result (λ proof. proof.links ≡ links_of report.now.events) }
    ensures order { IfOk result (λ proof. StartBefore 0 proof.links) }
    ensures many { IfOk result (λ proof. length proof.links ≤ length (S.kept space.now)) }
{
    let mut links = Links::new(alloc);
    for event in report.events.as_slice() {
        add_event(alloc, &mut links, event)?;
    }
    let bound = bound_of(within, &report.outcome);
    Ok(Proof { bound, links })
}
