// All actions that are executable in a world.
ghost use Rattle.std.specs.Prelude.{◌≡◌, ◌++◌, map, IfOk, IfErr, OnOk};
ghost use Rattle.tl_action.specs.Actions.{action_of, ActionsAreNamed, name_count, AreActions, HasOperator, IsCausedBySome};
ghost use Rattle.tl_action.specs.OwnOrders.{own_order};
ghost use Rattle.tl_syntax.specs.Lists.{Each, Rises};
ghost use Rattle.tl_terms.specs.Orders.{action_cmp};
ghost use Rattle.tl_terms.specs.ProblemMeaning.{plain_problem};

use crate::here::Here;
use crate::operator_rows::rows_of;
use crate::own_order::OwnOrder;
use std::alloc::Global;
use tl_eval::{Env, EvalFault};
use tl_syntax::{Action, Actions, NoMemory, Operator, Values};
use tl_world::{Task, World};

/// Lists the actions of one task. What can be worked out before a world is there stands in it: the
/// parameters to which each bound of an operator gives values, and which effects cannot fail.
#[derive(Drop)]
pub struct Lister {
    alloc: Global,
    orders: Vec<OwnOrder>,
}

/// What is worked out of each operator. It fails for want of memory alone.
fn own_orders(alloc: Global, operators: &[Operator]) -> Result<Vec<OwnOrder>, NoMemory>
    ensures { IfOk result (λ orders. orders.items ≡ map own_order operators.now) }
{
    let mut orders = Vec::with_capacity(alloc, operators.len())?;
    for operator in operators {
        let own = OwnOrder::of(alloc, operator)?;
        orders.push(own)?;
    }
    Ok(orders)
}

/// Adds an action of the operator for each row. It fails for want of memory alone.
fn push_rows(op: u32, rows: Vec<Values>, found: &mut Actions) -> Result<(), NoMemory>
    ensures { OnOk result (found.new ≡ found.old ++ map (action_of op) rows.items) }
{
    for args in rows {
        found.push(Action { op, args })?;
    }
    Ok(())
}

impl Lister {
    ghost use Rattle.tl_action.specs.Listers.{ListsFor};

    /// A lister for the task. It fails for want of memory alone.
    pub fn for_task(alloc: Global, task: &Task) -> Result<Lister, NoMemory>
        ensures { IfOk result (ListsFor task.now) }
    {
        let orders = own_orders(alloc, task.problem.domain.operators.as_slice())?;
        Ok(Lister { alloc, orders })
    }

    /// All actions that are executable in the world, as `actions` lists them. The lister is for the
    /// task before and after the call, a refused one included.
    pub fn actions(&mut self, task: &Task, w: &World, env: &mut Env) -> Result<Actions, EvalFault>
        requires { ListsFor task.now self.old }
        ensures lister { ListsFor task.now self.new }
        ensures actions { IfOk result (AreActions (plain_problem task.now.problem) w.now) }
        ensures order { IfOk result (Rises action_cmp) }
        ensures fit { IfOk result (Each (HasOperator (plain_problem task.now.problem))) }
        ensures named { IfOk result (λ found. ActionsAreNamed (name_count task.now) w.now found) }
        ensures cause { IfErr result (IsCausedBySome (plain_problem task.now.problem) w.now) }
    {
        let operators = task.problem.domain.operators.as_slice();
        let here = Here {
            alloc: self.alloc,
            task,
            world: w,
        };
        let mut found = Actions::new(self.alloc);
        for (op, operator) in operators.iter().enumerate() {
            match rows_of(&here, env, operator, &mut self.orders[op]) {
                Ok(rows) => push_rows(op as u32, rows, &mut found)?,
                Err(fault) => return Err(fault),
            }
        }
        Ok(found)
    }
}

/// All actions that are executable in the world, each once, in action order: by operator, and then
/// by the arguments in value order. A range fault tells an operation that one of them looks at; the
/// frame is left with values of its own. For many worlds one takes a `Lister`.
pub fn actions(alloc: Global, task: &Task, w: &World, env: &mut Env) -> Result<Actions, EvalFault>
    ensures actions { IfOk result (AreActions (plain_problem task.now.problem) w.now) }
    ensures order { IfOk result (Rises action_cmp) }
    ensures fit { IfOk result (Each (HasOperator (plain_problem task.now.problem))) }
    ensures named { IfOk result (λ found. ActionsAreNamed (name_count task.now) w.now found) }
    ensures cause { IfErr result (IsCausedBySome (plain_problem task.now.problem) w.now) }
{
    let mut lister = Lister::for_task(alloc, task)?;
    lister.actions(task, w, env)
}
