// The next tuple of a bound.
ghost use Rattle.std.specs.Prelude.{◌≡◌, length, IfSome};
ghost use Rattle.tl_eval.specs.Binders.{IsNextIn};
ghost use Rattle.tl_eval.specs.PatternOf.{world_read};
ghost use Rattle.tl_eval.specs.Reading.{situation_in};
ghost use Rattle.tl_syntax.specs.BoundVariables.{DifferInSlot, OccurIn};
ghost use Rattle.tl_syntax.specs.Fits.{BoundFits};
ghost use Rattle.tl_syntax.specs.Signature.{signature_of};

use crate::pattern_of::{no_pattern, put_pattern_of};
use crate::{Binder, Env};
use tl_match::Match;
use tl_syntax::{Bound, Value, Vars};
use tl_world::{Task, World};

/// The world that a bound speaks of: the current one, that of the goal list, or that of its negated
/// facts. It takes no memory.
pub(crate) fn world_of_bound<'a>(task: &'a Task, w: &'a World, b: &Bound) -> &'a World
    ensures { result.now ≡ world_read (situation_in task.now w.now) b.now }
{
    match b {
        Bound::Fact(_, _) => w,
        Bound::Place(_, _, _) => w,
        Bound::GoalFact(_, _) => &task.goal,
        Bound::GoalPlace(_, _, _) => &task.goal,
        Bound::GoalNot(_, _) => &task.avoid,
    }
}

/// `next_tuple` for a binder, and a frame that is given as a slice. It takes no memory.
fn next_tuple_in(
    task: &Task,
    w: &World,
    frame: &[Option<Value>],
    binder: &Binder,
    after: Option<Match>,
) -> Option<Match>
    requires differ { DifferInSlot binder.now.vars.now }
    requires occur { OccurIn binder.now.vars.now binder.now.bound.now }
    requires fits { BoundFits (signature_of task.now.problem.domain) binder.now.bound.now }
    requires after { IfSome after (λ m. m.len ≡ length binder.now.vars.now) }
    ensures next { IsNextIn task.now w.now frame.now
        binder.now.vars.now binder.now.bound.now after result }
    ensures len { IfSome result (λ m. m.len ≡ length binder.now.vars.now) }
{
    let mut pattern = no_pattern();
    if put_pattern_of(frame, binder.vars, binder.bound, &mut pattern) {
        world_of_bound(task, w, binder.bound).next_match(&pattern, after)
    } else {
        None
    }
}

/// The least tuple for the variables, in lexicographic value order, that makes the bound true in
/// the world and comes after `after`, where given; None where there is none. Other variables have
/// their values in the frame; with no variable it tests the bound. It takes no memory.
pub fn next_tuple(
    task: &Task,
    w: &World,
    env: &Env,
    vars: &Vars,
    b: &Bound,
    after: Option<Match>,
) -> Option<Match>
    requires differ { DifferInSlot vars.now }
    requires occur { OccurIn vars.now b.now }
    requires fits { BoundFits (signature_of task.now.problem.domain) b.now }
    requires after { IfSome after (λ m. m.len ≡ length vars.now) }
    ensures next { IsNextIn task.now w.now env.now vars.now b.now after result }
    ensures len { IfSome result (λ m. m.len ≡ length vars.now) }
{
    let binder = Binder {
        vars: vars.as_slice(),
        bound: b,
    };
    next_tuple_in(task, w, env.frame(), &binder, after)
}
