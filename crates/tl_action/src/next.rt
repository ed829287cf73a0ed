// What an action changes that is known to be executable.
ghost use Rattle.std.specs.Prelude.{◌≡◌, ◌+◌, IfErr, OnOk};
ghost use Rattle.tl_action.specs.StepsHere.{IsExecutableHere, IsFaultHere, KeepNamesHere, MakeWorldHere};

use crate::changes::Changes;
use crate::collect::collect_all;
use crate::here::Here;
use std::sync::ledger::Ledger;
use tl_eval::{Env, EvalFault};
use tl_syntax::Action;
use tl_terms::Steps;

impl Changes {
    /// Makes these what an executable action changes in the world: its effects are read there from
    /// left to right, its bounds and its precondition are not tested again. Each call counts one
    /// step and leaves the frame with values of its own; where it fails there may be any changes.
    pub fn put_those_of<L: Ledger>(
        &mut self,
        here: &Here,
        env: &mut Env,
        a: &Action,
        steps: &mut Steps<L>,
    ) -> Result<(), EvalFault>
        requires executable { IsExecutableHere here.now a.now }
        ensures world { OnOk result (MakeWorldHere here.now a.now self.new) }
        ensures named { OnOk result (KeepNamesHere here.now a.now self.new) }
        ensures cause { IfErr result (IsFaultHere here.now a.now) }
        ensures ticks { steps.new ≡ steps.old + 1 }
    {
        steps.tick();
        let operator = &here.task.problem.domain.operators.as_slice()[a.op as usize];
        env.put_values(operator.params.as_slice(), a.args.as_slice());
        self.clear();
        match collect_all(here, env, &operator.effects, self) {
            Ok(_) => Ok(()),
            Err(fault) => Err(fault),
        }
    }
}
