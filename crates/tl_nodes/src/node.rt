// One layer of a formula.

use tl_syntax::{Bound, Formula, Ids, Vars};

/// One layer of a formula. Its parts are numbers of other nodes.
#[derive(PartialEq, Eq, Hash, Drop)]
pub enum Node {
    /// The constant true.
    True,
    /// The constant false.
    False,
    /// A basic formula: one with no formula below it that is no constant.
    Basic(Formula),
    /// The part does not hold.
    Not(usize),
    /// All parts hold.
    And(Ids),
    /// Some part holds.
    Or(Ids),
    /// The part holds in the next state.
    Next(usize),
    /// The part holds from now on.
    Always(usize),
    /// The part holds now or later.
    Eventually(usize),
    /// The second part holds now or later, and the first one until then.
    Until(usize, usize),
    /// The part holds now or at one of this number of states that follow.
    Within(u32, usize),
    /// The part holds now and at each of this number of states that follow.
    During(u32, usize),
    /// The part holds for every tuple of the bound.
    ForAll(Vars, Bound, usize),
    /// The part holds for some tuple of the bound.
    Exists(Vars, Bound, usize),
}
