// Which bound of an operator is joined first.
ghost use Rattle.std.specs.Prelude.{◌<◌, length};

use crate::new_parameters::stands_in;
use tl_syntax::{Bound, Operator, Var};
use tl_world::{Task, World};

/// How many rows a table has at most for which its bound may come first.
const FEW: usize = 4;

/// How many rows the table of the first bound has at most where it stays first, whatever the others
/// have.
const SMALL: usize = 128;

/// How many facts of the predicate there are. It takes no memory.
fn count_facts(w: &World, pred: u32) -> usize {
    match w.rows(pred) {
        Some(rows) => rows.len(),
        None => 0,
    }
}

/// How many places of the function have values. It takes no memory.
fn count_places(w: &World, fun: u32) -> usize {
    match w.places(fun) {
        Some(rows) => rows.len(),
        None => 0,
    }
}

/// How many rows the table has that the bound reads. It takes no memory.
fn count_rows(task: &Task, w: &World, b: &Bound) -> usize {
    match b {
        Bound::Fact(pred, _) => count_facts(w, *pred),
        Bound::Place(fun, _, _) => count_places(w, *fun),
        Bound::GoalFact(pred, _) => count_facts(&task.goal, *pred),
        Bound::GoalPlace(fun, _, _) => count_places(&task.goal, *fun),
        Bound::GoalNot(pred, _) => count_facts(&task.avoid, *pred),
    }
}

/// Whether one of the variables stands in both bounds. It takes no memory.
fn have_common(vars: &[Var], a: &Bound, b: &Bound) -> bool {
    vars.iter()
        .any(|var| stands_in(var, a) && stands_in(var, b))
}

/// The place of the bound with the fewest rows, among those with at most 4 that have a parameter in
/// common with the first bound or have no row; 0 where there is none such. It takes no memory.
fn smallest_bound(task: &Task, w: &World, operator: &Operator) -> usize
    requires { 0 < length operator.now.bounds }
    ensures { result < length operator.now.bounds }
{
    let params = operator.params.as_slice();
    let bounds = operator.bounds.as_slice();
    let mut smallest = 0;
    let mut least = FEW + 1;
    for (k, b) in bounds.iter().enumerate() {
        let count = count_rows(task, w, b);
        if count < least && (count == 0 || have_common(params, &bounds[0], b)) {
            smallest = k;
            least = count;
        }
    }
    smallest
}

/// The place of the bound that is joined first: that of `smallest_bound` where the table of the
/// first bound has more than 128 rows, and else 0 (the smallest relation first, Selinger et al.
/// 1979). Any place would do: the rows that are found are the same. It takes no memory.
pub(crate) fn first_bound(task: &Task, w: &World, operator: &Operator) -> usize
    ensures { 0 < length operator.now.bounds → result < length operator.now.bounds }
{
    let bounds = operator.bounds.as_slice();
    if bounds.len() < 2 || count_rows(task, w, &bounds[0]) <= SMALL {
        return 0;
    }
    smallest_bound(task, w, operator)
}
