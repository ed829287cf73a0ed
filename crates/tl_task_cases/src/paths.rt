// The path of a search node.
ghost use Rattle.std.specs.Prelude.{◌≡◌, ◌<◌, []};
ghost use Rattle.tl_space.specs.Spaces.{kept_of};

use crate::checks::is_true;
use crate::stop::Stop;
use crate::tasks::task_of;
use std::alloc::Global;
use std::marker::Brand;
use std::process::Abort;
use std::sync::ledger::{Blank, Ledger};
use tl_breadth::search;
use tl_space::{Space, Task};
use tl_syntax::{Action, Actions, Problem, Value};
use tl_tables::filled;
use tl_terms::Steps;

/// Lamps of which none may be on that the goal does not want.
const DOMAIN: &str = "{lamps} (control (always (forall (?x) (on ?x) (goal (on ?x))))))";

/// The problem of two lamps, of which one is wanted.
const PROBLEM: &str = "(problem p (init (lamp a) (lamp b)) (goal (on b)))";

/// The path of search node 1 after a breadth-first search.
fn path_of_one<L: Ledger>(alloc: Global, space: &mut Space, blank: Blank) -> Result<Actions, Stop>
    requires empty { kept_of space.old ≡ [] }
    requires name { blank.name ≡ L.name }
    requires parts { blank.parts ≡ L.parts }
    requires some { 0 < blank.parts }
{
    let mut steps = Steps::<L>::new(blank);
    match search(alloc, space, 5, 100, false, &mut steps) {
        Ok(report) => drop(report),
        Err(_) => return Err(Stop::Row("there is no report")),
    }
    if space.kept() < 2 {
        return Err(Stop::Row("there is no search node 1"));
    }
    Ok(space.path(alloc, 1)?)
}

/// Compares a path with the action `(press b)`.
fn is_press_b<R: Abort>(rt: &R, problem: &Problem, path: &[Action]) {
    let [action] = path else {
        is_true(rt, false, "the path has one action");
        return;
    };
    is_true(rt, action.op == 0, "it presses");
    match (problem.names.find("b"), action.args.as_slice()) {
        (Some(b), [Value::Sym(name)]) => is_true(rt, *name == b, "it presses b"),
        _ => is_true(rt, false, "it presses something"),
    }
}

/// Compares the path of search node 1 of a space in which nothing is kept.
fn has_path<R: Abort, L: Ledger>(
    rt: &R,
    alloc: Global,
    space: &mut Space,
    blank: Blank,
) -> Result<(), Stop>
    requires empty { kept_of space.old ≡ [] }
    requires name { blank.name ≡ L.name }
    requires parts { blank.parts ≡ L.parts }
    requires some { 0 < blank.parts }
{
    let path = path_of_one::<L>(alloc, space, blank)?;
    is_press_b(rt, &space.task().problem, path.as_slice());
    Ok(())
}

/// Compares the path of search node 1 of the space of a task.
fn has_path_over<R: Abort>(rt: &R, alloc: Global, task: Task) -> Result<(), Stop> {
    let mut space = Space::start(alloc, task)?;
    let compared = has_path::<R, Brand>(rt, alloc, &mut space, Blank::new(1));
    drop(space);
    compared
}

#[test]
fn a_search_node_has_its_path(rt: HostRuntime) -> Result<(), Stop> {
    let domain = filled(rt.alloc(), DOMAIN, "")?;
    let task = task_of(rt.alloc(), domain.as_str(), PROBLEM)?;
    has_path_over(&rt, rt.alloc(), task)
}
