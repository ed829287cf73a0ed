// The lines that explain a plan.
ghost use Rattle.std.specs.Prelude.{◌≡◌, ◌<◌, ◌≤◌, length, IfOk, IfErr, OnOk};
ghost use Rattle.tl_syntax.specs.Lists.{Each};
ghost use Rattle.tl_line.specs.NamedActions.{ActionIsNamed};
ghost use Rattle.tl_terms.specs.ProblemMeaning.{plain_problem};
ghost use Rattle.tl_explain.specs.Causes.{IsExplainCause};
ghost use Rattle.tl_explain.specs.Explain.{explain_text};
ghost use Rattle.tl_explain.specs.Explanations.{AwaitsFirst};

use crate::ExplainFault;
use crate::explanation::Explanation;
use std::alloc::Global;
use std::marker::Brand;
use std::sync::ledger::{Blank, Ledger};
use tl_syntax::{Action, Bytes};
use tl_terms::Steps;
use tl_world::Task;

/// Adds all lines, from the first state on.
fn explain_states<L: Ledger>(
    explanation: &mut Explanation,
    task: &Task,
    plan: &[Action],
    steps: &mut Steps<L>,
) -> Result<(), ExplainFault>
    requires start { AwaitsFirst task.now.problem explanation.old }
    requires named { Each (ActionIsNamed task.now.problem.names task.now.problem.domain.operators) plan.now }
    requires few { length plan.now ≤ 100000 }
    ensures text { OnOk result (explanation.new.text ≡ explain_text task.now.problem plan.now) }
    ensures cause { IfErr result (IsExplainCause (plain_problem task.now.problem) plan.now) }
{
    explanation.arrive(task, 0)?;
    for k in 0..plan.len() {
        if !explanation.follow(task, &plan[k], k as u32, steps)? {
            explanation.stop(k as u32 + 1)?;
            return Ok(());
        }
    }
    explanation.end()?;
    Ok(())
}

/// The lines that explain a plan, over a count of steps of its own.
fn explained<L: Ledger>(
    alloc: Global,
    task: &Task,
    plan: &[Action],
    blank: Blank,
) -> Result<Bytes, ExplainFault>
    requires named { Each (ActionIsNamed task.now.problem.names task.now.problem.domain.operators) plan.now }
    requires few { length plan.now ≤ 100000 }
    requires name { blank.name ≡ L.name }
    requires parts { blank.parts ≡ L.parts }
    requires some { 0 < blank.parts }
    ensures text { IfOk result (λ text. text ≡ explain_text task.now.problem plan.now) }
    ensures cause { IfErr result (IsExplainCause (plain_problem task.now.problem) plan.now) }
{
    let mut explanation = Explanation::start(alloc, task)?;
    let mut steps: Steps<L> = Steps::new(blank);
    match explain_states(&mut explanation, task, plan, &mut steps) {
        Ok(()) => Ok(explanation.text),
        Err(fault) => Err(fault),
    }
}

/// The lines that explain a plan of at most 100,000 actions: the residual of the control formula in
/// each state, up to the first action that has no step, and the actions between (Bacchus and
/// Kabanza 2000). Each action is applied once and each residual progressed once.
pub fn explain(alloc: Global, task: &Task, plan: &[Action]) -> Result<Bytes, ExplainFault>
    requires named { Each (ActionIsNamed task.now.problem.names task.now.problem.domain.operators) plan.now }
    requires few { length plan.now ≤ 100000 }
    ensures text { IfOk result (λ text. text ≡ explain_text task.now.problem plan.now) }
    ensures cause { IfErr result (IsExplainCause (plain_problem task.now.problem) plan.now) }
{
    explained::<Brand>(alloc, task, plan, Blank::new(1))
}
