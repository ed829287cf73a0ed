// The search space.
ghost use Rattle.std.specs.Prelude.{◌≡◌, [], length, IfOk};
ghost use Rattle.tl_action.specs.Listers.{ListsFor};
ghost use Rattle.tl_nodes.specs.Numbers.{trees};
ghost use Rattle.tl_space.specs.Kept.{AreKeptBy};
ghost use Rattle.tl_space.specs.KeptOnce.{kept-prop, all-remembered-prop, found-prop};
ghost use Rattle.tl_space.specs.Remembered.{AreFound, AreRemembered};
ghost use Rattle.tl_known.specs.WorldNumbers.{worlds_in};
ghost use Rattle.tl_syntax.specs.Lists.{Each};
ghost use Rattle.tl_syntax.specs.Signature.{signature_of};
ghost use Rattle.tl_terms.proofs.KeptOnce.{worlds_named-prop};
ghost use Rattle.tl_terms.specs.NamedWorlds.{WorldIsNamed};
ghost use Rattle.tl_terms.specs.ProblemMeaning.{plain_problem};

mod accepted;
mod actions;
mod arriving;
mod child;
mod keeping;
mod numbering;
mod path;
mod root;
mod view;

use crate::arrivals::Arrivals;
use crate::numbers::Numbers;
use crate::ways::Ways;
use indexmap::IndexSet;
use std::alloc::Global;
use tl_action::{Changes, Lister};
use tl_eval::Env;
use tl_known::Worlds;
use tl_nodes::Nodes;
use tl_progress::{PartPlaces, Residuals};
use tl_syntax::NoMemory;
use tl_world::{Task, Unmet};

/// Search nodes of a world and a residual, each kept once under a number, with the path by which it
/// was met first. A search node is two numbers, kept as the last growth of a call: after a refused
/// call the kept search nodes are as before, and the same call can be made again.
#[derive(Drop)]
pub struct Space {
    pub(crate) alloc: Global,
    pub(crate) task: Task,
    pub(crate) action_frame: Env,
    pub(crate) formula_frame: Env,
    pub(crate) lister: Lister,
    pub(crate) worlds: Worlds,
    pub(crate) nodes: Nodes,
    pub(crate) pairs: IndexSet<Numbers>,
    pub(crate) from: Ways,
    pub(crate) arrivals: Arrivals,
    pub(crate) residuals: Residuals,
    pub(crate) unmet: Unmet,
    pub(crate) places: PartPlaces,
    pub(crate) changes: Changes,
    ghost lists: { ListsFor task lister },
    ghost named_worlds: { Each (WorldIsNamed (length task.problem.names)) (worlds_in worlds) } by { worlds_named-prop (length task.problem.names) (worlds_in worlds) },
    ghost kept: { AreKeptBy (signature_of task.problem.domain) (length task.problem.names) (plain_problem task.problem) (worlds_in worlds) (trees nodes) pairs.keys from } by { kept-prop (signature_of task.problem.domain) (length task.problem.names) (plain_problem task.problem) (worlds_in worlds) (trees nodes) pairs.keys from },
    ghost remembered: { AreRemembered (plain_problem task.problem) (worlds_in worlds) (trees nodes) pairs.keys arrivals } by { all-remembered-prop (plain_problem task.problem) (worlds_in worlds) (trees nodes) pairs.keys arrivals },
    ghost found: { AreFound (plain_problem task.problem) (worlds_in worlds) (trees nodes) residuals } by { found-prop (plain_problem task.problem) (worlds_in worlds) (trees nodes) residuals },
}

/// What a space has beside its task before anything is kept.
#[derive(Drop)]
struct Beginning {
    action_frame: Env,
    formula_frame: Env,
    lister: Lister,
    nodes: Nodes,
}

/// Two times frames without values.
fn frames(alloc: Global, task: &Task) -> Result<(Env, Env), NoMemory> {
    let formula_frame = Env::for_task(alloc, task)?;
    let action_frame = formula_frame.copy(alloc)?;
    Ok((action_frame, formula_frame))
}

/// What is worked out of the operators, and the two constants.
fn tables(alloc: Global, task: &Task) -> Result<(Lister, Nodes), NoMemory>
    ensures { IfOk result (λ r. ListsFor task.now r.0) }
{
    let lister = Lister::for_task(alloc, task)?;
    let nodes = Nodes::new(alloc)?;
    Ok((lister, nodes))
}

/// What a space of the task begins with.
fn begun(alloc: Global, task: &Task) -> Result<Beginning, NoMemory>
    ensures { IfOk result (λ b. ListsFor task.now b.lister) }
{
    let (action_frame, formula_frame) = frames(alloc, task)?;
    let (lister, nodes) = tables(alloc, task)?;
    Ok(Beginning {
        action_frame,
        formula_frame,
        lister,
        nodes,
    })
}

impl Space {
    ghost use Rattle.tl_space.specs.Spaces.{task_of, kept_of};

    /// The space of the task, in which nothing is kept. It fails for want of memory alone, and then
    /// drops the task.
    pub fn start(alloc: Global, task: Task) -> Result<Space, NoMemory>
        ensures task { IfOk result (λ s. task_of s ≡ task) }
        ensures empty { IfOk result (λ s. kept_of s ≡ []) }
    {
        match begun(alloc, &task) {
            Ok(beginning) => Ok(Space::of(alloc, task, beginning)),
            Err(fault) => {
                drop(task);
                Err(fault)
            }
        }
    }

    /// The space of the task with what it begins with, in which nothing is kept. It takes no
    /// memory.
    fn of(alloc: Global, task: Task, beginning: Beginning) -> Space
        requires { ListsFor task beginning.lister }
        ensures task { task_of result ≡ task }
        ensures empty { kept_of result ≡ [] }
    {
        Space {
            alloc,
            task,
            action_frame: beginning.action_frame,
            formula_frame: beginning.formula_frame,
            lister: beginning.lister,
            worlds: Worlds::new(alloc),
            nodes: beginning.nodes,
            pairs: IndexSet::new(alloc),
            from: Ways::new(alloc),
            arrivals: Arrivals::new(alloc),
            residuals: Residuals::new(alloc),
            unmet: Unmet { table: 0, row: 0 },
            places: PartPlaces::new(alloc),
            changes: Changes::new(alloc),
        }
    }
}
