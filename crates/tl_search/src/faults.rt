// A search's faults, as they come of those of its space, with the paths of its search nodes.
ghost use Rattle.std.specs.Prelude.{◌≡◌, ◌<◌, [], ◌∷◌, ◌++◌, length, IfOk};
ghost use Rattle.tl_search.specs.Calls.{ForPair, AreNamedIn};
ghost use Rattle.tl_search.specs.Faults.{IsFaultAfter, IsOfPair, TellsChild, TellsPair};
ghost use Rattle.tl_search.specs.NamedAnswers.{FaultIsNamed, IsNamedIn};
ghost use Rattle.tl_world.specs.declared.task.Task.{Task};

use crate::fault::{SearchFault, SpaceFault};
use crate::search_space::SearchSpace;
use std::alloc::Global;
use tl_eval::RangeNote;
use tl_syntax::{Action, Actions, NoMemory};

/// The fault of an operation past range in the world of a search node.
fn fault_at<S: SearchSpace>(alloc: Global, space: &S, at: usize, note: RangeNote) -> SearchFault
    requires { at < length (S.kept space.now) }
    ensures fault { ForPair (S.kept space.now) at (λ x. IsFaultAfter x.path note result) }
    ensures named { FaultIsNamed (S.task space.now) result }
{
    match space.path(alloc, at) {
        Ok(path) => SearchFault::Range { path, note },
        Err(_) => SearchFault::NoMemory,
    }
}

/// The path of a search node with one action more.
fn path_after<S: SearchSpace>(
    alloc: Global,
    space: &S,
    at: usize,
    a: &Action,
) -> Result<Actions, NoMemory>
    requires at { at < length (S.kept space.now) }
    requires named { IsNamedIn (S.task space.now) a.now }
    ensures path { IfOk result
        (λ path. ForPair (S.kept space.now) at (λ x. path ≡ x.path ++ a.now ∷ [])) }
    ensures named { IfOk result (AreNamedIn (S.task space.now)) }
{
    let mut path = space.path(alloc, at)?;
    let action = a.copy(alloc)?;
    path.push(action)?;
    Ok(path)
}

/// The fault of an operation past range in the world after an action of a search node.
fn fault_after<S: SearchSpace>(
    alloc: Global,
    space: &S,
    at: usize,
    a: &Action,
    note: RangeNote,
) -> SearchFault
    requires at { at < length (S.kept space.now) }
    requires named { IsNamedIn (S.task space.now) a.now }
    ensures fault { ForPair (S.kept space.now) at
        (λ x. IsFaultAfter (x.path ++ a.now ∷ []) note result) }
    ensures named { FaultIsNamed (S.task space.now) result }
{
    match path_after(alloc, space, at, a) {
        Ok(path) => SearchFault::Range { path, note },
        Err(_) => SearchFault::NoMemory,
    }
}

/// The fault of the space at the search node of the empty path.
pub fn root_fault(alloc: Global, fault: SpaceFault) -> SearchFault
    requires { IsOfPair fault }
    ensures fault { TellsPair [] fault result }
    ensures named { (task : Task) → FaultIsNamed task result }
{
    match fault {
        SpaceFault::RangeHere(note) => {
            let path = Actions::new(alloc);
            SearchFault::Range { path, note }
        }
        SpaceFault::RangeAfter(_) => unreachable!(),
        SpaceFault::NoMemory => SearchFault::NoMemory,
    }
}

/// The fault of a call of the space that looks at a search node.
pub fn search_node_fault<S: SearchSpace>(
    alloc: Global,
    space: &S,
    at: usize,
    fault: SpaceFault,
) -> SearchFault
    requires at { at < length (S.kept space.now) }
    requires here { IsOfPair fault }
    ensures fault { ForPair (S.kept space.now) at (λ x. TellsPair x.path fault result) }
    ensures named { FaultIsNamed (S.task space.now) result }
{
    match fault {
        SpaceFault::RangeHere(note) => fault_at(alloc, space, at, note),
        SpaceFault::RangeAfter(_) => unreachable!(),
        SpaceFault::NoMemory => SearchFault::NoMemory,
    }
}

/// The fault at which an action of a search node ends.
pub fn child_fault<S: SearchSpace>(
    alloc: Global,
    space: &S,
    at: usize,
    a: &Action,
    fault: SpaceFault,
) -> SearchFault
    requires at { at < length (S.kept space.now) }
    requires named { IsNamedIn (S.task space.now) a.now }
    ensures fault { ForPair (S.kept space.now) at (λ x. TellsChild x.path a.now fault result) }
    ensures named { FaultIsNamed (S.task space.now) result }
{
    match fault {
        SpaceFault::RangeHere(note) => fault_at(alloc, space, at, note),
        SpaceFault::RangeAfter(note) => fault_after(alloc, space, at, a, note),
        SpaceFault::NoMemory => SearchFault::NoMemory,
    }
}
