// A problem with its worlds.
ghost use Rattle.std.specs.Prelude.{◌≡◌, length, IfOk, IfSome};
ghost use Rattle.tl_terms.proofs.KeptOnce.{world_named-prop};
ghost use Rattle.tl_terms.proofs.SameWorlds.{world_paths};
ghost use Rattle.tl_terms.specs.Acceptance.{meets_goal};
ghost use Rattle.tl_terms.specs.NamedWorlds.{WorldIsNamed};
ghost use Rattle.tl_terms.specs.ProblemMeaning.{plain_problem};
ghost use Rattle.tl_world.specs.Calls.{LacksFacts};

use crate::World;
use crate::unmet::Unmet;
use std::alloc::Global;
use tl_syntax::{NoMemory, Problem};

/// A problem with its initial world and its goal list, seen as worlds, in which all is named as in
/// the problem.
#[derive(Drop)]
pub struct Task {
    /// The problem.
    pub problem: Problem,
    /// The initial world.
    pub first: World,
    /// The facts and places of the goal list.
    pub goal: World,
    /// The negated facts of the goal list.
    pub avoid: World,
    pub ghost first_is: { first ≡ (plain_problem problem).first } by { world_paths first (plain_problem problem).first },
    pub ghost goal_is: { goal ≡ (plain_problem problem).goal } by { world_paths goal (plain_problem problem).goal },
    pub ghost avoid_is: { avoid ≡ (plain_problem problem).avoid } by { world_paths avoid (plain_problem problem).avoid },
    pub ghost first_named: { WorldIsNamed (length problem.names) first } by { world_named-prop (length problem.names) first },
    pub ghost goal_named: { WorldIsNamed (length problem.names) goal } by { world_named-prop (length problem.names) goal },
    pub ghost avoid_named: { WorldIsNamed (length problem.names) avoid } by { world_named-prop (length problem.names) avoid },
}

/// The worlds of a problem, which its task takes.
#[derive(Drop)]
struct TaskWorlds {
    first: World,
    goal: World,
    avoid: World,
}

/// The worlds of the problem. It fails for want of memory alone.
fn worlds_of(alloc: Global, problem: &Problem) -> Result<TaskWorlds, NoMemory>
    ensures first { IfOk result (λ worlds. worlds.first ≡ (plain_problem problem.now).first) }
    ensures goal { IfOk result (λ worlds. worlds.goal ≡ (plain_problem problem.now).goal) }
    ensures avoid { IfOk result (λ worlds. worlds.avoid ≡ (plain_problem problem.now).avoid) }
{
    let first = World::of(
        alloc,
        problem.init_facts.as_slice(),
        problem.init_values.as_slice(),
    )?;
    let goal = World::of(
        alloc,
        problem.goal_facts.as_slice(),
        problem.goal_values.as_slice(),
    )?;
    let avoid = World::of(alloc, problem.goal_nots.as_slice(), &[])?;
    Ok(TaskWorlds { first, goal, avoid })
}

impl Task {
    /// The task of the problem. It fails for want of memory alone, and then drops the problem.
    pub fn of(alloc: Global, problem: Problem) -> Result<Task, NoMemory>
        ensures problem { IfOk result (λ task. task.problem ≡ problem) }
        ensures first { IfOk result (λ task. task.first ≡ (plain_problem problem).first) }
        ensures goal { IfOk result (λ task. task.goal ≡ (plain_problem problem).goal) }
        ensures avoid { IfOk result (λ task. task.avoid ≡ (plain_problem problem).avoid) }
    {
        match worlds_of(alloc, &problem) {
            Ok(worlds) => Ok(Task {
                problem,
                first: worlds.first,
                goal: worlds.goal,
                avoid: worlds.avoid,
            }),
            Err(fault) => {
                drop(problem);
                Err(fault)
            }
        }
    }

    /// The goal test: whether each fact of the goal is in the world, each place of the goal has its
    /// value there, and no negated fact is in the world.
    /// It takes no memory.
    pub fn met(&self, w: &World) -> bool
        ensures { result ≡ meets_goal w.now (plain_problem self.now.problem).goal (plain_problem self.now.problem).avoid }
    {
        w.has_all_facts(&self.goal) && (w.has_all_values(&self.goal) && w.has_no_fact(&self.avoid))
    }
    /// The goal test, as `met`, for many worlds one after another: a fact that the world lacks is
    /// looked for first from the place on at which one was found last, which the call leaves there
    /// for the next. It takes no memory.
    pub fn met_from(&self, w: &World, unmet: &mut Unmet) -> bool
        ensures { result ≡ meets_goal w.now (plain_problem self.now.problem).goal (plain_problem self.now.problem).avoid }
    {
        let _ = &self.goal;
        match self.lacked_by(w, *unmet) {
            Some(found) => {
                *unmet = found;
                false
            }
            None => self.met(w),
        }
    }

    /// The place of a fact of the goal that the world lacks: from the given place on in its table,
    /// or else in any table.
    fn lacked_by(&self, w: &World, from: Unmet) -> Option<Unmet>
        ensures { IfSome result (λ _. LacksFacts w.now self.now.goal) }
    {
        let found = w.lacking(&self.goal, from);
        if found.is_some() {
            return found;
        }
        for table in 0..self.goal.tables().facts.len() {
            let found = w.lacking(&self.goal, Unmet { table, row: 0 });
            if found.is_some() {
                return found;
            }
        }
        None
    }
}
