// The rows of values with which an operator can be applied, by a join of its bounds.
ghost use Rattle.std.specs.Prelude.{◌<◌, ◌≤◌, IfNone, IfSome};
ghost use Rattle.tl_action.specs.Join.{bound_count};
ghost use Rattle.tl_action.specs.UnderFrames.{OperatorIsKept, IsPassedUnder, HasNoneUnder, RowIsJoined, RowsAreJoined, KeepsKnown, KeepsParameters};

use crate::early::is_ruled_out;
use crate::here::Here;
use crate::order::JoinOrder;
use crate::prepared::is_prepared;
use crate::values::row_of;
use tl_eval::{BoundPattern, Env, EvalFault, bound_holds};
use tl_syntax::Values;

/// Adds the row of the parameters' values in the frame, where each has one and the operator can be
/// applied with them. The bounds are not looked at.
fn find_row(
    here: &Here,
    env: &mut Env,
    order: &JoinOrder,
    rows: &mut Vec<Values>,
) -> Result<(), EvalFault>
    requires { OperatorIsKept here.now order.now.bounds.operator.now }
    ensures rows { RowIsJoined here.now order.now.bounds env.old rows.old rows.new result }
    ensures frame { KeepsParameters order.now.bounds.operator.now env.old env.new }
{
    let operator = order.bounds.operator;
    let params = operator.params.as_slice();
    let found = row_of(here, env, params)?;
    match found {
        Some(row) => match is_prepared(here, env, operator, order.sure) {
            Ok(true) => {
                rows.push(row)?;
                Ok(())
            }
            Ok(false) => Ok(()),
            Err(fault) => Err(fault),
        },
        None => Ok(()),
    }
}

/// The first bound from the `j`-th on that gives a parameter its value, or how many bounds there
/// are; None where a bound before it is false. The bounds before it are true, and their parameters
/// have their values already. It takes no memory.
fn next_bound(here: &Here, env: &Env, order: &JoinOrder, j: usize) -> Option<usize>
    requires keeps { OperatorIsKept here.now order.now.bounds.operator.now }
    requires within { j ≤ bound_count order.now.bounds }
    ensures passed { IfSome result (IsPassedUnder here.now order.now.bounds env.now j) }
    ensures none { IfNone result (HasNoneUnder here.now order.now.bounds env.now j) }
{
    let new_parameters = order.new_parameters.as_slice();
    let mut k = j;
    while k < new_parameters.len() && new_parameters[k].is_empty() {
        if !bound_holds(here.task, here.world, env, order.bounds.bound(k)) {
            return None;
        }
        k += 1;
    }
    Some(k)
}

/// Adds the rows that complete the frame with a tuple of the `j`-th bound for its new parameters:
/// those that agree with it on the parameters of the bounds before it, make it and the bounds after
/// it true, and with which the operator can be applied. The frame keeps those parameters' values.
#[cycle(joined)]
fn join_bound(
    here: &Here,
    env: &mut Env,
    order: &JoinOrder,
    j: usize,
    rows: &mut Vec<Values>,
) -> Result<(), EvalFault>
    requires keeps { OperatorIsKept here.now order.now.bounds.operator.now }
    requires within { j < bound_count order.now.bounds }
    ensures rows { RowsAreJoined here.now order.now.bounds j env.old rows.old rows.new result }
    ensures frame { KeepsKnown order.now.bounds j env.old env.new }
{
    if is_ruled_out(here, env, order, j) {
        return Ok(());
    }
    let new_parameters = order.new_parameters.as_slice();
    let vars = &new_parameters[j];
    let bound = order.bounds.bound(j);
    let mut pattern = BoundPattern::unopened(true);
    pattern.open_in_place(here.task, env, vars, bound);
    let mut tuples = pattern.tuples(here.task, here.world, bound);
    while tuples.next() {
        let _ = bound;
        env.put_values(vars.as_slice(), tuples.values());
        match join(here, env, order, j + 1, rows) {
            Ok(()) => {}
            Err(fault) => return Err(fault),
        }
    }
    Ok(())
}

/// Adds the rows that complete the frame: those that agree with it on the parameters of the first
/// `j` bounds, which keep their values, make the other bounds true, and with which the operator can
/// be applied. A row of values is given up at the first bound that it makes false.
#[cycle(joined)]
pub(crate) fn join(
    here: &Here,
    env: &mut Env,
    order: &JoinOrder,
    j: usize,
    rows: &mut Vec<Values>,
) -> Result<(), EvalFault>
    requires keeps { OperatorIsKept here.now order.now.bounds.operator.now }
    requires within { j ≤ bound_count order.now.bounds }
    ensures rows { RowsAreJoined here.now order.now.bounds j env.old rows.old rows.new result }
    ensures frame { KeepsKnown order.now.bounds j env.old env.new }
{
    match next_bound(here, env, order, j) {
        Some(k) => {
            if k < order.new_parameters.len() {
                join_bound(here, env, order, k, rows)
            } else {
                find_row(here, env, order, rows)
            }
        }
        None => Ok(()),
    }
}
