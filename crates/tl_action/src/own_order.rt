// What is worked out once of an operator whose bounds are joined in their own order.
ghost use Rattle.std.specs.Prelude.{◌≡◌, IfOk};
ghost use Rattle.tl_action.specs.OwnOrders.{own_order};

use crate::arranged::Arranged;
use crate::order::JoinOrder;
use std::alloc::Global;
use std::marker::Model;
use std::mem;
use tl_syntax::{NoMemory, Operator, Vars};

/// What is worked out once of an operator whose bounds are joined in their own order. Contracts see
/// the new parameters of each bound, and whether none of the effects can fail.
///
/// Before which bound a part of the precondition is tested, and how many rows there were last, are
/// kept as guesses: no contract speaks of them.
#[derive(Drop)]
pub(crate) struct OwnOrder {
    new_parameters: Vec<Vars>,
    sure: bool,
    early: Vec<usize>,
    many: usize,
}

impl Model for OwnOrder {
    ghost use Rattle.std.specs.Prelude.{List, Bool};
    ghost use Rattle.tl_syntax.specs.declared.variable.Var.{Var as PlainVar};

    ghost Value = { List (List PlainVar) × Bool };

    ghost view = { λ own. (own.new_parameters.items, own.sure) };
}

impl OwnOrder {
    /// What is worked out of the operator. It fails for want of memory alone.
    pub(crate) fn of(alloc: Global, operator: &Operator) -> Result<OwnOrder, NoMemory>
        ensures { IfOk result (λ own. own ≡ own_order operator.now) }
    {
        let order = JoinOrder::of(alloc, operator, 0)?;
        Ok(OwnOrder {
            new_parameters: order.new_parameters,
            sure: order.sure,
            early: order.early,
            many: 0,
        })
    }

    /// How many rows there were last.
    pub(crate) fn many(&self) -> usize {
        self.many
    }

    /// Lends the join order of the operator. It takes no memory.
    pub(crate) fn lend<'a>(&mut self, alloc: Global, operator: &'a Operator) -> JoinOrder<'a>
        requires { self.old ≡ own_order operator.now }
        ensures operator { result.bounds.operator.now ≡ operator.now }
        ensures first { result.bounds.first ≡ 0 }
    {
        let bounds = Arranged { operator, first: 0 };
        let new_parameters = mem::replace(&mut self.new_parameters, Vec::new(alloc));
        let early = mem::replace(&mut self.early, Vec::new(alloc));
        JoinOrder {
            bounds,
            new_parameters,
            sure: self.sure,
            early,
        }
    }

    /// Takes back what was lent, with how many rows there were. It takes no memory.
    pub(crate) fn take_back(&mut self, order: JoinOrder<'_>, many: usize)
        requires { order.bounds.first ≡ 0 }
        ensures { self.new ≡ own_order order.entry.bounds.operator.now }
    {
        self.new_parameters = order.new_parameters;
        self.sure = order.sure;
        self.early = order.early;
        self.many = many;
    }
}
