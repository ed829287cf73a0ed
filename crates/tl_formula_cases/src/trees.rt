// Copies, equality, basic formulas and substitution. The formulas are the parts of a conjunction in
// the scope of `?x` and `?y`, whose slots are 0 and 1; a variable below gets slot 2.

ghost use Rattle.std.specs.Prelude.{◌≡◌, length};

use crate::checks::{is_number, is_true};
use crate::domains::filled_domain;
use crate::stop::Stop;
use std::alloc::Global;
use std::process::Abort;
use tl_syntax::{
    Bound, Domain, Formula, Names, NoMemory, Value, Values, Var, Vars, subst, subst_bound,
};
use tl_tables::{column, filled, is_row};

/// The domain text of a row whose first column is the list of the parts. A part has at most 96
/// nested lists.
const DOMAIN: &str =
    "(domain d (predicate press 1) (predicate q 1) (predicate edge 2) (function f 1) (define (known) (press a)) (control (forall (?x ?y) (edge ?x ?y) (and {0}))))";

/// The parts of a conjunction.
fn conjuncts(f: &Formula) -> &[Formula] {
    match f {
        Formula::And(parts) => parts.as_slice(),
        _ => &[],
    }
}

/// The parts of the conjunction below the quantifier of the control formula.
fn parts_of(domain: &Domain) -> &[Formula] {
    match &domain.control {
        Formula::ForAll(_, _, body) => conjuncts(body),
        _ => &[],
    }
}

/// The domain of a row. What stands in braces is put into the row first.
fn domain_of_row(alloc: Global, names: &mut Names, row: &str) -> Result<Domain, Stop> {
    if names.len() > 4_194_304 {
        return Err(Stop::Row("there are too many names"));
    }
    let row = filled(alloc, row, "")?;
    filled_domain(alloc, names, DOMAIN, row.as_str())
}

/// Formulas that all differ, the last of them in the deepest trees of a file. Two lines of the same
/// words differ in the offset of their sum.
const FORMULAS: &str = "(press a)
(press ?x)
(press ?y)
(= (+ 1 2) 3)
(= (+ 1 2) 3)
(forall (?v) (q ?v) (press ?v))
(and)
(or)
(always (forall (?v) (q ?v) (and (within 2 (< (f ?v) (+ 1 2))) true)))
(always (forall (?v) (q ?v) (and (within 2 (< (f ?v) (+ 1 2))) true)))
{95 (not }(press ?x){95 )}
{95 (not }(press a){95 )}
(press {95 (+ }?x{95  1)})
(press {95 (+ }a{95  1)})
{48 (not }(press {47 (+ }?x{47  1)}){48 )}
{48 (not }(press {47 (+ }a{47  1)}){48 )}";

/// Compares two formulas, which are the same or not.
fn is_alike<R: Abort>(rt: &R, one: &Formula, other: &Formula, same: bool) {
    is_true(rt, one.is_same(other) == same, "the same formula");
    is_true(rt, (one == other) == same, "an equal formula");
}

/// Compares a formula with each of the formulas, of which only the one at `place` is the same.
fn is_at<R: Abort>(rt: &R, formula: &Formula, formulas: &[Formula], place: usize) {
    for (k, other) in formulas.iter().enumerate() {
        is_alike(rt, formula, other, k == place);
    }
}

/// Compares a copy of a formula with each of the formulas, of which only the one at `place` is the
/// same.
fn is_one_of<R: Abort>(
    rt: &R,
    alloc: Global,
    formulas: &[Formula],
    formula: &Formula,
    place: usize,
) -> Result<(), NoMemory> {
    let copy = formula.copy(alloc)?;
    is_at(rt, &copy, formulas, place);
    drop(copy);
    Ok(())
}

/// Compares each of the formulas with all of them.
fn are_apart<R: Abort>(rt: &R, alloc: Global, formulas: &[Formula]) -> Result<(), NoMemory> {
    is_number(rt, formulas.len(), FORMULAS.lines().count(), "formulas");
    for (place, formula) in formulas.iter().enumerate() {
        is_one_of(rt, alloc, formulas, formula, place)?;
    }
    Ok(())
}

#[test]
fn copies_are_equal_and_other_formulas_differ(rt: HostRuntime) -> Result<(), Stop> {
    let mut names = Names::new(rt.alloc());
    let domain = domain_of_row(rt.alloc(), &mut names, FORMULAS)?;
    let compared = are_apart(&rt, rt.alloc(), parts_of(&domain));
    drop(domain);
    Ok(compared?)
}

/// Rows of a formula, and whether it has no formula below.
const BASIC: &str = "
(press a) | true
(goal (not (press a))) | true
(not (press a)) | false
true | false
";

/// Whether the one formula of the domain has no formula below.
fn is_one_basic(domain: &Domain) -> Option<bool> {
    match parts_of(domain) {
        [formula] => Some(formula.is_basic()),
        _ => None,
    }
}

/// Compares the answer for the formula of a row.
fn is_told<R: Abort>(rt: &R, alloc: Global, row: &str) -> Result<(), Stop> {
    let mut names = Names::new(alloc);
    let domain = domain_of_row(alloc, &mut names, row)?;
    let basic = is_one_basic(&domain);
    drop(domain);
    is_true(rt, basic == Some(column(row, 1) == "true"), row);
    Ok(())
}

#[test]
fn basic_formulas_have_no_formula_below(rt: HostRuntime) -> Result<(), Stop> {
    for row in BASIC.lines() {
        if is_row(row) {
            is_told(&rt, rt.alloc(), row)?;
        }
    }
    Ok(())
}

/// The list of one variable.
fn one_variable(alloc: Global, slot: u32) -> Result<Vars, NoMemory> {
    let mut vars = Vars::new(alloc);
    vars.push(Var { slot, name: 9 })?;
    Ok(vars)
}

/// The list of one value.
fn one_value(alloc: Global, value: Value) -> Result<Values, NoMemory> {
    let mut values = Values::new(alloc);
    values.push(value)?;
    Ok(values)
}

/// The symbol `a`.
fn symbol_a(names: &Names) -> Result<Value, Stop> {
    match names.find("a") {
        Some(number) => Ok(Value::Sym(number)),
        None => Err(Stop::Row("there is no symbol a")),
    }
}

/// The bound of a formula for some tuple.
fn bound_of(f: &Formula) -> Option<&Bound> {
    match f {
        Formula::Exists(_, bound, _) => Some(bound),
        _ => None,
    }
}

/// Rows of a formula, of the same with the symbol `a` in place of the variable of a slot, and that
/// slot. Both are read at the same place, so sums stand at the same offsets.
const SUBSTITUTIONS: &str = "
(press ?x) | (press a) | 0
(press ?y) | (press ?y) | 0
# a variable that is bound is left
(forall (?v) (q ?v) (press ?v)) | (forall (?v) (q ?v) (press ?v)) | 2
# a bound
(exists (?v) (edge ?x ?v) true) | (exists (?v) (edge a ?v) true) | 0
# the deepest trees of a file
{95 (not }(press ?x){95 )} | {95 (not }(press a){95 )} | 0
(press {95 (+ }?x{95  1)}) | (press {95 (+ }a {95  1)}) | 0
{48 (not }(press {47 (+ }?x{47  1)}){48 )} | {48 (not }(press {47 (+ }a {47  1)}){48 )} | 0
";

/// Compares a formula with a value for its variable.
fn becomes<R: Abort>(
    rt: &R,
    alloc: Global,
    before: &Formula,
    after: &Formula,
    vars: &Vars,
    values: &[Value],
    row: &str,
) -> Result<(), NoMemory>
    requires { length vars.now ≡ length values.now }
{
    let found = subst(alloc, before, vars, values)?;
    let same = found.is_same(after);
    drop(found);
    is_true(rt, same, row);
    Ok(())
}

/// Compares a bound with a value for its variable.
fn bound_becomes<R: Abort>(
    rt: &R,
    alloc: Global,
    before: &Bound,
    after: &Bound,
    vars: &Vars,
    values: &[Value],
    row: &str,
) -> Result<(), NoMemory>
    requires { length vars.now ≡ length values.now }
{
    let found = subst_bound(alloc, before, vars, values)?;
    is_true(rt, found == *after, row);
    Ok(())
}

/// Compares two formulas, of which the second is the first with values for the variables, and their
/// bounds where both have one.
fn have_values<R: Abort>(
    rt: &R,
    alloc: Global,
    before: &Formula,
    after: &Formula,
    vars: &Vars,
    values: &[Value],
    row: &str,
) -> Result<(), NoMemory>
    requires { length vars.now ≡ length values.now }
{
    becomes(rt, alloc, before, after, vars, values, row)?;
    match (bound_of(before), bound_of(after)) {
        (Some(bound), Some(wanted)) => bound_becomes(rt, alloc, bound, wanted, vars, values, row),
        _ => Ok(()),
    }
}

/// Compares two formulas, of which the second is the first with a value for the variable of a slot.
fn both_become<R: Abort>(
    rt: &R,
    alloc: Global,
    before: &Formula,
    after: &Formula,
    slot: u32,
    value: Value,
    row: &str,
) -> Result<(), NoMemory> {
    let vars = one_variable(alloc, slot)?;
    let values = one_value(alloc, value)?;
    is_true(rt, vars.len() == values.len(), "as many values");
    have_values(rt, alloc, before, after, &vars, values.as_slice(), row)
}

/// Compares the one formula of a domain with the one of another.
fn are_substituted<R: Abort>(
    rt: &R,
    alloc: Global,
    names: &Names,
    before: &Domain,
    after: &Domain,
    row: &str,
) -> Result<(), Stop> {
    let ([before], [after]) = (parts_of(before), parts_of(after)) else {
        return Err(Stop::Row("there is not one formula"));
    };
    let slot = column(row, 2).parse::<u32>()?;
    let value = symbol_a(names)?;
    both_become(rt, alloc, before, after, slot, value, row)?;
    Ok(())
}

/// Compares the formula of a domain with the second one of a row.
fn is_other<R: Abort>(
    rt: &R,
    alloc: Global,
    names: &mut Names,
    before: &Domain,
    row: &str,
) -> Result<(), Stop> {
    let after = domain_of_row(alloc, names, column(row, 1))?;
    let compared = are_substituted(rt, alloc, names, before, &after, row);
    drop(after);
    compared
}

/// Compares the formulas of a row.
fn is_substituted<R: Abort>(rt: &R, alloc: Global, row: &str) -> Result<(), Stop> {
    let mut names = Names::new(alloc);
    let before = domain_of_row(alloc, &mut names, column(row, 0))?;
    let compared = is_other(rt, alloc, &mut names, &before, row);
    drop(before);
    compared
}

#[test]
fn substitution_leaves_what_is_bound(rt: HostRuntime) -> Result<(), Stop> {
    for row in SUBSTITUTIONS.lines() {
        if is_row(row) {
            is_substituted(&rt, rt.alloc(), row)?;
        }
    }
    Ok(())
}
