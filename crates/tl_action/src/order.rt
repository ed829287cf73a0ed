// The order in which the bounds of an operator are joined, and what is worked out before.
ghost use Rattle.std.specs.Prelude.{◌≡◌, ◌<◌, length};
ghost use Rattle.tl_action.specs.Join.{new_parameters_in};
ghost use Rattle.tl_action.specs.Sure.{are_sure};
ghost use Rattle.tl_syntax.specs.TreeOfEffect.{tree_of_effects};

use crate::arranged::Arranged;
use crate::early::early_parts;
use crate::new_parameters::new_parameters_of;
use crate::sure::are_sure;
use std::alloc::Global;
use tl_syntax::{NoMemory, Operator, Vars};

/// The join order of an operator: its bounds in the order in which they are joined, and which
/// parameters each of them gives values. It is worked out before the bounds are joined.
#[derive(Drop)]
pub(crate) struct JoinOrder<'a> {
    /// The bounds of the operator.
    pub(crate) bounds: Arranged<'a>,
    /// For each bound, in this order, the parameters that stand in it and in none before it.
    pub(crate) new_parameters: Vec<Vars>,
    /// Whether none of the effects can fail, so that the precondition alone decides.
    pub(crate) sure: bool,
    /// For the first parts of the precondition, the bound before which each is tested.
    pub(crate) early: Vec<usize>,
    pub(crate) ghost new_parameters_are: { new_parameters.items ≡ new_parameters_in bounds },
    pub(crate) ghost sure_is: { sure ≡ are_sure (tree_of_effects bounds.operator.now.effects) },
}

impl<'a> JoinOrder<'a> {
    ghost use Rattle.std.specs.Prelude.{IfOk};

    /// The join order of an operator whose bound at the place `first` comes before the others. It
    /// fails for want of memory alone.
    pub(crate) fn of(
        alloc: Global,
        operator: &'a Operator,
        first: usize,
    ) -> Result<JoinOrder<'a>, NoMemory>
        requires { 0 < length operator.now.bounds → first < length operator.now.bounds }
        ensures operator { IfOk result (λ order. order.bounds.operator.now ≡ operator.now) }
        ensures first { IfOk result (λ order. order.bounds.first ≡ first) }
    {
        let bounds = Arranged { operator, first };
        let new_parameters = new_parameters_of(alloc, &bounds)?;
        let early = early_parts(alloc, &bounds, new_parameters.as_slice())?;
        let sure = are_sure(&operator.effects);
        Ok(JoinOrder {
            bounds,
            new_parameters,
            sure,
            early,
        })
    }
}
