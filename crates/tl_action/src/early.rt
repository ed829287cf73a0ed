// Parts of a precondition that are tested before all parameters have values.
ghost use Rattle.std.specs.List.{list_all};
ghost use Rattle.std.specs.Prelude.{◌≡◌, ◌≤◌, ◌&&◌, true, false, IfSome, IsTrue};
ghost use Rattle.tl_action.specs.Early.{is_known_as, is_known_slot, is_known_term, AreKnown, IsConjunct, IsTruthHere, HasNoneFoundUnder, IsAmongParts};
ghost use Rattle.tl_action.specs.Join.{bound_count};
ghost use Rattle.tl_syntax.specs.FreeVariables.{free_slots};
ghost use Rattle.tl_syntax.specs.TreeOfFormula.{tree_of_formula};
ghost use Rattle.tl_syntax.specs.TreeOfTerm.{tree_of_term};

use crate::arranged::Arranged;
use crate::here::Here;
use crate::new_parameters::stands_before;
use crate::order::JoinOrder;
use std::alloc::Global;
use tl_eval::{Env, plain_state};
use tl_syntax::{Formula, Formulas, NoMemory, Term, Var, Vars};

/// Whether the parameter has the slot, and stands in one of the first `j` bounds that are joined.
/// It takes no memory.
fn is_known_as(param: &Var, slot: u32, bounds: &Arranged, j: usize) -> bool
    requires { j ≤ bound_count bounds.now }
    ensures { result ≡ is_known_as bounds.now j slot param.now }
{
    param.slot == slot && stands_before(param, bounds, j)
}

/// Whether a parameter of the slot does. It takes no memory.
fn is_known_slot(slot: u32, bounds: &Arranged, j: usize) -> bool
    requires { j ≤ bound_count bounds.now }
    ensures { result ≡ is_known_slot bounds.now j slot }
{
    let params = bounds.operator.params.as_slice();
    for param in params {
        if is_known_as(param, slot, bounds, j) {
            return true;
        }
    }
    false
}

/// Whether the term is a value or such a parameter. It takes no memory.
fn is_known(term: &Term, bounds: &Arranged, j: usize) -> bool
    requires { j ≤ bound_count bounds.now }
    ensures { result ≡ is_known_term bounds.now j (tree_of_term term.now) }
{
    match term {
        Term::Var(var) => is_known_slot(var.slot, bounds, j),
        Term::Val(_) => true,
        Term::Place(_, _) => false,
        Term::Arith(_, _, _, _) => false,
    }
}

/// Whether each of the terms is. It takes no memory.
fn are_known(terms: &[Term], bounds: &Arranged, j: usize) -> bool
    requires { j ≤ bound_count bounds.now }
    ensures { result ≡ list_all (λ t. is_known_term bounds.now j (tree_of_term t)) terms.now }
{
    for term in terms {
        if !is_known(term, bounds, j) {
            return false;
        }
    }
    true
}

/// Whether both terms are. It takes no memory.
fn both_known(left: &Term, right: &Term, bounds: &Arranged, j: usize) -> bool
    requires { j ≤ bound_count bounds.now }
    ensures { result ≡ (is_known_term bounds.now j (tree_of_term left.now)
        && is_known_term bounds.now j (tree_of_term right.now)) }
{
    is_known(left, bounds, j) && is_known(right, bounds, j)
}

/// Whether the formula is an atom or a comparison of such terms. It takes no memory.
fn is_known_basic(f: &Formula, bounds: &Arranged, j: usize) -> bool
    requires { j ≤ bound_count bounds.now }
    ensures { IsTrue result → AreKnown bounds.now j (free_slots (tree_of_formula f.now)) }
{
    match f {
        Formula::Atom(_, args) => are_known(args.as_slice(), bounds, j),
        Formula::Compare(_, left, right) => both_known(left, right, bounds, j),
        _ => false,
    }
}

/// Whether the formula is an atom or a comparison, or the negation of one, of values and parameters
/// that stand in the first `j` bounds that are joined. It takes no memory.
fn is_known_part(f: &Formula, bounds: &Arranged, j: usize) -> bool
    requires { j ≤ bound_count bounds.now }
    ensures { IsTrue result → AreKnown bounds.now j (free_slots (tree_of_formula f.now)) }
{
    match f {
        Formula::Not(part) => is_known_basic(part, bounds, j),
        _ => is_known_basic(f, bounds, j),
    }
}

/// The truth of an atom or a comparison of values and variables, where it is plain to read. It
/// takes no memory.
fn plain_truth(here: &Here, env: &Env, f: &Formula) -> Option<bool>
    ensures { IfSome result (IsTruthHere here.now env.now f.now) }
{
    match f {
        Formula::Atom(pred, args) if args.as_slice().is_empty() => {
            Some(here.world.holds(*pred, &[]))
        }
        _ => plain_state(here.world, env, f),
    }
}

/// Whether the formula is plainly true under the frame. It takes no memory.
fn is_plainly_true(here: &Here, env: &Env, f: &Formula) -> bool
    ensures { IsTrue result → IsTruthHere here.now env.now f.now true }
{
    match plain_truth(here, env, f) {
        Some(found) => found,
        None => false,
    }
}

/// Whether the formula is plainly false under the frame. It takes no memory.
fn is_plainly_false(here: &Here, env: &Env, f: &Formula) -> bool
    ensures { IsTrue result → IsTruthHere here.now env.now f.now false }
{
    match plain_truth(here, env, f) {
        Some(found) => !found,
        None => false,
    }
}

/// Whether the formula, or what it negates, is plain to read, and it is false under the frame. It
/// takes no memory.
fn is_false(here: &Here, env: &Env, f: &Formula) -> bool
    ensures { IsTrue result → IsTruthHere here.now env.now f.now false }
{
    match f {
        Formula::Not(part) => is_plainly_true(here, env, part),
        _ => is_plainly_false(here, env, f),
    }
}

/// How many parts the precondition has: those of a conjunction, or itself.
fn part_count(pre: &Formula) -> usize {
    match pre {
        Formula::And(parts) => parts.as_slice().len(),
        _ => 1,
    }
}

/// The formula of the list at this place. It takes no memory.
fn item_at(parts: &Formulas, place: usize) -> Option<&Formula>
    ensures { IfSome result (λ part. IsAmongParts parts.now part.now) }
{
    let items = parts.as_slice();
    if place < items.len() {
        Some(&items[place])
    } else {
        None
    }
}

/// The part of the precondition at this place. It takes no memory.
fn part_at(pre: &Formula, place: usize) -> Option<&Formula>
    ensures { IfSome result (λ part. IsConjunct pre.now part.now) }
{
    match pre {
        Formula::And(parts) => item_at(parts, place),
        _ => { if place == 0 { Some(pre) } else { None } }
    }
}

/// Whether the bound has new parameters. It takes no memory.
fn has_new(new_parameters: &[Vars], j: usize) -> bool {
    match new_parameters.get(j) {
        Some(vars) => !vars.is_empty(),
        None => false,
    }
}

/// The first bound with new parameters before which the part can be tested; how many bounds there
/// are, where there is none such; None where it is no atom or comparison, or the negation of one.
fn bound_for(part: &Formula, bounds: &Arranged, new_parameters: &[Vars]) -> Option<usize> {
    for j in 0..bounds.len() {
        if has_new(new_parameters, j) && is_known_part(part, bounds, j) {
            return Some(j);
        }
    }
    if is_known_part(part, bounds, bounds.len()) {
        Some(bounds.len())
    } else {
        None
    }
}

/// For the first parts of the precondition, none of which can be past range, the bound before which
/// each is tested. It fails for want of memory alone.
pub(crate) fn early_parts(
    alloc: Global,
    bounds: &Arranged,
    new_parameters: &[Vars],
) -> Result<Vec<usize>, NoMemory> {
    let mut early = Vec::new(alloc);
    let pre = &bounds.operator.pre;
    for place in 0..part_count(pre) {
        match part_at(pre, place) {
            Some(part) => match bound_for(part, bounds, new_parameters) {
                Some(j) => early.push(j)?,
                None => return Ok(early),
            },
            None => return Ok(early),
        }
    }
    Ok(early)
}

/// Whether the part of the precondition at this place is false whatever values the parameters get
/// that stand in none of the first `j` bounds. It takes no memory.
fn is_false_part(here: &Here, env: &Env, order: &JoinOrder, j: usize, place: usize) -> bool
    requires { j ≤ bound_count order.now.bounds }
    ensures { IsTrue result → HasNoneFoundUnder here.now order.now.bounds env.now j }
{
    match part_at(&order.bounds.operator.pre, place) {
        Some(part) => is_known_part(part, &order.bounds, j) && is_false(here, env, part),
        None => false,
    }
}

/// Whether no row can be found that completes the frame from the `j`-th bound on, since a part of
/// the precondition that is tested before that bound is false. It takes no memory.
pub(crate) fn is_ruled_out(here: &Here, env: &Env, order: &JoinOrder, j: usize) -> bool
    requires { j ≤ bound_count order.now.bounds }
    ensures { IsTrue result → HasNoneFoundUnder here.now order.now.bounds env.now j }
{
    for (place, before) in order.early.iter().enumerate() {
        if *before == j && is_false_part(here, env, order, j, place) {
            return true;
        }
    }
    false
}
