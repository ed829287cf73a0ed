// The parts of a join order.
ghost use Rattle.std.specs.List.{list_any};
ghost use Rattle.std.specs.Prelude.{◌≡◌, ◌≤◌, take, IfOk};
ghost use Rattle.tl_action.specs.Join.{arranged, bound_count, is_new, new_at, new_parameters_in, stands_in_one};
ghost use Rattle.tl_syntax.specs.BoundVariables.{is_that_variable, stands_in};

use crate::arranged::Arranged;
use std::alloc::Global;
use tl_syntax::{Arg, Bound, NoMemory, Var, Vars};

/// Whether the argument is the variable. It takes no memory.
fn is_that_variable(var: &Var, arg: &Arg) -> bool
    ensures { result ≡ is_that_variable var.now arg.now }
{
    match arg {
        Arg::Var(other) => other.slot == var.slot,
        Arg::Val(_) => false,
    }
}

/// Whether the variable is one of the arguments. It takes no memory.
fn is_among(var: &Var, args: &[Arg]) -> bool
    ensures { result ≡ list_any (is_that_variable var.now) args.now }
{
    args.iter().any(|arg| is_that_variable(var, arg))
}

/// Whether the variable stands in the bound. It takes no memory.
#[inline(always)]
pub(crate) fn stands_in(var: &Var, b: &Bound) -> bool
    ensures { result ≡ stands_in var.now b.now }
{
    match b {
        Bound::Fact(_, args) => is_among(var, args.as_slice()),
        Bound::Place(_, args, value) => {
            is_that_variable(var, value) || is_among(var, args.as_slice())
        }
        Bound::GoalFact(_, args) => is_among(var, args.as_slice()),
        Bound::GoalPlace(_, args, value) => {
            is_that_variable(var, value) || is_among(var, args.as_slice())
        }
        Bound::GoalNot(_, args) => is_among(var, args.as_slice()),
    }
}

/// Whether the variable stands in one of the first `j` bounds that are joined. It takes no memory.
pub(crate) fn stands_before(var: &Var, bounds: &Arranged, j: usize) -> bool
    requires { j ≤ bound_count bounds.now }
    ensures { result ≡ stands_in_one (take j (arranged bounds.now).bounds) var.now }
{
    for k in 0..j {
        if stands_in(var, bounds.bound(k)) {
            return true;
        }
    }
    false
}

/// Whether the variable stands in the bound and in none of the first `j` that are joined. It takes
/// no memory.
fn is_new(var: &Var, bounds: &Arranged, j: usize, b: &Bound) -> bool
    requires { j ≤ bound_count bounds.now }
    ensures { result ≡ is_new (take j (arranged bounds.now).bounds) b.now var.now }
{
    stands_in(var, b) && !stands_before(var, bounds, j)
}

/// The parameters that stand in the bound and in none of the first `j` that are joined. It fails
/// for want of memory alone.
fn new_variables(alloc: Global, bounds: &Arranged, j: usize, b: &Bound) -> Result<Vars, NoMemory>
    requires { j ≤ bound_count bounds.now }
    ensures { IfOk result (λ vars. vars ≡ new_at bounds.now j b.now) }
{
    let params = bounds.operator.params.as_slice();
    let mut vars = Vars::new(alloc);
    for param in params {
        if is_new(param, bounds, j, b) {
            vars.push(*param)?;
        }
    }
    Ok(vars)
}

/// For each bound, in the order in which they are joined, the parameters that stand in it and in
/// none before it, in their order. It fails for want of memory alone.
pub(crate) fn new_parameters_of(alloc: Global, bounds: &Arranged) -> Result<Vec<Vars>, NoMemory>
    ensures { IfOk result (λ new_parameters. new_parameters.items ≡ new_parameters_in bounds.now) }
{
    let mut new_parameters = Vec::with_capacity(alloc, bounds.len())?;
    for j in 0..bounds.len() {
        let vars = new_variables(alloc, bounds, j, bounds.bound(j))?;
        new_parameters.push(vars)?;
    }
    Ok(new_parameters)
}
