// How far a plan is explained.
ghost use Rattle.std.specs.Prelude.{◌≡◌, ◌<◌, ◌++◌, ◌^◌, IfOk, IfErr, OnOk};
ghost use Rattle.tl_line.specs.NamedActions.{ActionIsNamed};
ghost use Rattle.tl_terms.specs.ProblemMeaning.{plain_problem};
ghost use Rattle.tl_explain.specs.Explain.{end_line, stopped_line};
ghost use Rattle.tl_explain.specs.Explanations.{formula_in, ArrivesAtState, AwaitsFirst, ComesOf, IsArrivalFault, IsFit};

use crate::ExplainFault;
use crate::lines::{action_line, state_line, stopped_line};
use std::alloc::Global;
use std::sync::ledger::Ledger;
use tl_action::{Here, apply};
use tl_eval::Env;
use tl_nodes::Nodes;
use tl_progress::progress;
use tl_syntax::{Action, Bytes, NoMemory};
use tl_terms::Steps;
use tl_world::{Task, World};

/// How far a plan is explained: the last state that was reached, the formula there, and the lines
/// so far.
#[derive(Drop)]
pub(crate) struct Explanation {
    pub(crate) alloc: Global,
    /// The frame in which formulas are read.
    pub(crate) env: Env,
    /// The formulas by their numbers.
    pub(crate) nodes: Nodes,
    /// The last state.
    pub(crate) world: World,
    /// The number of the residual in it, or before its line of the formula that comes in.
    pub(crate) label: usize,
    /// The lines.
    pub(crate) text: Bytes,
}

/// The first world again, which shares its tables.
fn first_of(alloc: Global, task: &Task) -> Result<World, NoMemory>
    ensures { IfOk result (λ w. w ≡ (plain_problem task.now.problem).first) }
{
    task.first.changed(alloc, &[], &[], &[])
}

impl Explanation {
    /// Before the line of the first state.
    pub(crate) fn start(alloc: Global, task: &Task) -> Result<Explanation, NoMemory>
        ensures { IfOk result (AwaitsFirst task.now.problem) }
    {
        let env = Env::for_task(alloc, task)?;
        let world = first_of(alloc, task)?;
        let mut nodes = Nodes::new(alloc)?;
        let label = nodes.of_tree(&task.problem.domain.control)?;
        let text = Bytes::new(alloc);
        Ok(Explanation {
            alloc,
            env,
            nodes,
            world,
            label,
            text,
        })
    }

    /// The formula that comes in is progressed through the world, and the line of this state, which
    /// so many actions come before, is added.
    pub(crate) fn arrive(&mut self, task: &Task, before: u32) -> Result<(), ExplainFault>
        requires fit { IsFit task.now.problem self.old }
        ensures arrives { OnOk result (ArrivesAtState task.now.problem before self.old self.new) }
        ensures cause { IfErr result (IsArrivalFault task.now.problem before self.old.world (formula_in self.old)) }
    {
        match progress(
            self.alloc,
            &mut self.nodes,
            task,
            &self.world,
            &mut self.env,
            self.label,
        ) {
            Ok(label) => self.label = label,
            Err(fault) => return Err(ExplainFault::after(before, fault)),
        }
        let line = state_line(self.alloc, &task.problem, &self.nodes, self.label, before)?;
        self.text.extend(line.as_slice())?;
        Ok(())
    }

    /// Follows an action, which so many others come before, and adds its line and that of the state
    /// after it. False where the action has no step.
    pub(crate) fn follow<L: Ledger>(
        &mut self,
        task: &Task,
        a: &Action,
        before: u32,
        steps: &mut Steps<L>,
    ) -> Result<bool, ExplainFault>
        requires fit { IsFit task.now.problem self.old }
        requires named { ActionIsNamed task.now.problem.names task.now.problem.domain.operators a.now }
        requires few { before < 2 ^ 31 }
        ensures { ComesOf task.now.problem before a.now self.old self.new result }
    {
        let here = Here {
            alloc: self.alloc,
            task,
            world: &self.world,
        };
        match apply(&here, &mut self.env, a, steps) {
            Ok(Some(next)) => self.world = next,
            Ok(None) => return Ok(false),
            Err(fault) => return Err(ExplainFault::after(before, fault)),
        }
        let action = action_line(self.alloc, &task.problem, a)?;
        self.text.extend(action.as_slice())?;
        self.arrive(task, before + 1)?;
        Ok(true)
    }

    /// Adds the line that says that all actions execute.
    pub(crate) fn end(&mut self) -> Result<(), NoMemory>
        ensures { OnOk result (self.new.text ≡ self.old.text ++ end_line) }
    {
        self.text.extend(b"; end\n")?;
        Ok(())
    }

    /// Adds the line that says that the action of this number, counted from 1, has no step.
    pub(crate) fn stop(&mut self, number: u32) -> Result<(), NoMemory>
        ensures { OnOk result (self.new.text ≡ self.old.text ++ stopped_line number) }
    {
        let line = stopped_line(self.alloc, number)?;
        self.text.extend(line.as_bytes())?;
        Ok(())
    }
}
