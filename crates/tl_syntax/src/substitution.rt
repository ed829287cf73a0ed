// Values put in for variables.
ghost use Rattle.std.specs.Prelude.{◌≡◌, [], ◌++◌, length, map, IfOk};
ghost use Rattle.tl_syntax.specs.Assignment.{bind, no_values};
ghost use Rattle.tl_syntax.specs.Bindings.{assignment_of, without_value};
ghost use Rattle.tl_syntax.specs.Substitution.{substituted, substituted_arg, substituted_args, substituted_bound};
ghost use Rattle.tl_syntax.specs.TreeOfFormula.{tree_of_formula};

use crate::{Arg, Args, Bound, Formula, Items, NoMemory, Value, Vars};
use std::alloc::Global;

/// What a slot stands for: a value, or, below a quantifier of its variable, itself.
#[derive(Clone, Copy)]
pub struct Binding {
    /// The slot.
    pub slot: u32,
    /// The value, where one is put in.
    pub value: Option<Value>,
}

/// A list of bindings, of which the first one for a slot counts.
pub type Bindings = Items<Binding>;

/// The value of a slot, where it has one. It takes no memory.
pub fn value_of(bindings: &[Binding], slot: u32) -> Option<Value>
    ensures { result ≡ assignment_of bindings.now slot }
{
    for binding in bindings.iter() {
        if binding.slot == slot {
            return binding.value;
        }
    }
    None
}

/// The bindings of variables to values. It fails for want of memory alone.
pub fn bindings_of(alloc: Global, vars: &Vars, values: &[Value]) -> Result<Bindings, NoMemory>
    requires { length vars.now ≡ length values.now }
    ensures { IfOk result (λ bindings. assignment_of bindings ≡ bind vars.now values.now no_values) }
{
    let slots = vars.as_slice();
    let mut out = Bindings::new(alloc);
    for i in 0..slots.len() {
        out.push(Binding {
            slot: slots[i].slot,
            value: Some(values[i]),
        })?;
    }
    Ok(out)
}

/// The bindings below a quantifier of the variables. It fails for want of memory alone.
pub fn bindings_below(
    alloc: Global,
    vars: &Vars,
    bindings: &[Binding],
) -> Result<Bindings, NoMemory>
    ensures { IfOk result (λ below. below ≡ map without_value vars.now ++ bindings.now) }
{
    let mut out = Bindings::new(alloc);
    for var in vars.as_slice().iter() {
        out.push(Binding {
            slot: var.slot,
            value: None,
        })?;
    }
    out.extend(bindings)?;
    Ok(out)
}

/// An argument with the values put in. It takes no memory.
pub fn arg_with_values(arg: Arg, bindings: &[Binding]) -> Arg
    ensures { result ≡ substituted_arg (assignment_of bindings.now) arg }
{
    match arg {
        Arg::Var(var) => match value_of(bindings, var.slot) {
            Some(value) => Arg::Val(value),
            None => Arg::Var(var),
        },
        Arg::Val(value) => Arg::Val(value),
    }
}

/// Arguments with the values put in. It fails for want of memory alone.
pub fn args_with_values(alloc: Global, args: &Args, bindings: &[Binding]) -> Result<Args, NoMemory>
    ensures { IfOk result (λ out. out ≡ substituted_args (assignment_of bindings.now) args.now) }
{
    let mut out = Args::new(alloc);
    for arg in args.as_slice().iter() {
        out.push(arg_with_values(*arg, bindings))?;
    }
    Ok(out)
}

/// A bound with the values put in. It fails for want of memory alone.
pub fn bound_with_values(
    alloc: Global,
    bound: &Bound,
    bindings: &[Binding],
) -> Result<Bound, NoMemory>
    ensures { IfOk result (λ out. out ≡ substituted_bound (assignment_of bindings.now) bound.now) }
{
    match bound {
        Bound::Fact(pred, args) => {
            let args = args_with_values(alloc, args, bindings)?;
            Ok(Bound::Fact(*pred, args))
        }
        Bound::Place(fun, args, value) => {
            let args = args_with_values(alloc, args, bindings)?;
            let value = arg_with_values(*value, bindings);
            Ok(Bound::Place(*fun, args, value))
        }
        Bound::GoalFact(pred, args) => {
            let args = args_with_values(alloc, args, bindings)?;
            Ok(Bound::GoalFact(*pred, args))
        }
        Bound::GoalPlace(fun, args, value) => {
            let args = args_with_values(alloc, args, bindings)?;
            let value = arg_with_values(*value, bindings);
            Ok(Bound::GoalPlace(*fun, args, value))
        }
        Bound::GoalNot(pred, args) => {
            let args = args_with_values(alloc, args, bindings)?;
            Ok(Bound::GoalNot(*pred, args))
        }
    }
}

/// The formula with the values put in for the free occurrences of the variables. It fails for want
/// of memory alone.
pub fn subst(alloc: Global, f: &Formula, vars: &Vars, values: &[Value]) -> Result<Formula, NoMemory>
    requires { length vars.now ≡ length values.now }
    ensures { IfOk result (λ out. tree_of_formula out
        ≡ substituted (bind vars.now values.now no_values) (tree_of_formula f.now)) }
{
    let bindings = bindings_of(alloc, vars, values)?;
    f.with_values(alloc, bindings.as_slice())
}

/// The bound with the values put in for the variables. It fails for want of memory alone.
pub fn subst_bound(
    alloc: Global,
    b: &Bound,
    vars: &Vars,
    values: &[Value],
) -> Result<Bound, NoMemory>
    requires { length vars.now ≡ length values.now }
    ensures { IfOk result (λ out. out ≡ substituted_bound (bind vars.now values.now no_values) b.now) }
{
    let bindings = bindings_of(alloc, vars, values)?;
    bound_with_values(alloc, b, bindings.as_slice())
}
