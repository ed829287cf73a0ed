// The rows of values with which an operator can be applied, in order.
ghost use Rattle.std.specs.Prelude.{◌≡◌, ◌<◌, length, IfErr};
ghost use Rattle.tl_action.specs.OwnOrders.{own_order};
ghost use Rattle.tl_action.specs.RowLists.{IsRows};
ghost use Rattle.tl_action.specs.UnderFrames.{OperatorIsKept, GivesRowsUnder, IsRowFaultUnder};

use crate::first_bound::first_bound;
use crate::here::Here;
use crate::join::join;
use crate::order::JoinOrder;
use crate::own_order::OwnOrder;
use tl_eval::{Env, EvalFault};
use tl_syntax::{Operator, Values};

/// The rows in lexicographic value order, each once. It takes no memory.
fn in_order(mut rows: Vec<Values>) -> Vec<Values>
    ensures { IsRows rows.items result.items }
{
    rows.sort_unstable();
    rows.dedup();
    rows
}

/// The rows of values with which the operator of the join order can be applied, in lexicographic
/// value order, each once. `many` is a guess how many there are.
fn rows_by(
    here: &Here,
    env: &mut Env,
    order: &JoinOrder,
    many: usize,
) -> Result<Vec<Values>, EvalFault>
    requires { OperatorIsKept here.now order.now.bounds.operator.now }
    ensures rows { GivesRowsUnder here.now order.now.bounds.operator.now env.old result }
    ensures cause { IfErr result (IsRowFaultUnder here.now order.now.bounds.operator.now env.old) }
{
    let mut rows = Vec::with_capacity(here.alloc, many)?;
    match join(here, env, order, 0, &mut rows) {
        Ok(()) => Ok(in_order(rows)),
        Err(fault) => Err(fault),
    }
}

/// How many rows were found.
fn count(found: &Result<Vec<Values>, EvalFault>) -> usize {
    match found {
        Ok(rows) => rows.len(),
        Err(_) => 0,
    }
}

/// The rows, where the bounds are joined in their own order.
fn own_rows(
    here: &Here,
    env: &mut Env,
    operator: &Operator,
    own: &mut OwnOrder,
) -> Result<Vec<Values>, EvalFault>
    requires keeps { OperatorIsKept here.now operator.now }
    requires own { own.old ≡ own_order operator.now }
    ensures own { own.new ≡ own_order operator.now }
    ensures rows { GivesRowsUnder here.now operator.now env.old result }
    ensures cause { IfErr result (IsRowFaultUnder here.now operator.now env.old) }
{
    let many = own.many();
    let order = own.lend(here.alloc, operator);
    let found = rows_by(here, env, &order, many);
    own.take_back(order, count(&found));
    found
}

/// The rows, where the bound at the place `first` is joined before the others.
fn moved_rows(
    here: &Here,
    env: &mut Env,
    operator: &Operator,
    first: usize,
) -> Result<Vec<Values>, EvalFault>
    requires keeps { OperatorIsKept here.now operator.now }
    requires first { 0 < length operator.now.bounds → first < length operator.now.bounds }
    ensures rows { GivesRowsUnder here.now operator.now env.old result }
    ensures cause { IfErr result (IsRowFaultUnder here.now operator.now env.old) }
{
    let order = JoinOrder::of(here.alloc, operator, first)?;
    rows_by(here, env, &order, 0)
}

/// The rows of values with which the operator can be applied, in lexicographic value order, each
/// once. The join order is worked out anew only where another bound comes before the first one.
pub(crate) fn rows_of(
    here: &Here,
    env: &mut Env,
    operator: &Operator,
    own: &mut OwnOrder,
) -> Result<Vec<Values>, EvalFault>
    requires keeps { OperatorIsKept here.now operator.now }
    requires own { own.old ≡ own_order operator.now }
    ensures own { own.new ≡ own_order operator.now }
    ensures rows { GivesRowsUnder here.now operator.now env.old result }
    ensures cause { IfErr result (IsRowFaultUnder here.now operator.now env.old) }
{
    let first = first_bound(here.task, here.world, operator);
    if first == 0 {
        own_rows(here, env, operator, own)
    } else {
        moved_rows(here, env, operator, first)
    }
}
