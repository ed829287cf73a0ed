// Acceptance of a search node.
ghost use Rattle.std.specs.Prelude.{◌≡◌, ◌<◌, length, IfOk, IfErr};
ghost use Rattle.tl_search.specs.Calls.{TellsAcceptance, IsAcceptanceFault};
ghost use Rattle.tl_space.specs.Spaces.{problem_of, kept_of, Grows};

use super::Space;
use tl_eval::EvalFault;
use tl_progress::idle;
use tl_search::SpaceFault;

impl Space {
    /// Whether the search node is accepted: its world meets the goal, and its residual holds where
    /// that world is repeated for ever. Nothing that is kept changes.
    pub fn accepted(&mut self, at: usize) -> Result<bool, SpaceFault>
        requires { at < length (kept_of self.old) }
        ensures grows { Grows self.old self.new }
        ensures kept { kept_of self.new ≡ kept_of self.old }
        ensures accepted { IfOk result (TellsAcceptance (problem_of self.old) (kept_of self.old) at) }
        ensures cause { IfErr result (IsAcceptanceFault (problem_of self.old) (kept_of self.old) at) }
    {
        let numbers = self.numbers(at);
        let world = self.worlds.get(numbers.world);
        if !self.task.met_from(world, &mut self.unmet) {
            return Ok(false);
        }
        match idle(
            self.alloc,
            &self.nodes,
            &self.task,
            world,
            &mut self.formula_frame,
            numbers.label,
        ) {
            Ok(holds) => Ok(holds),
            Err(EvalFault::Range(note)) => Err(SpaceFault::RangeHere(note)),
            Err(EvalFault::NoMemory) => Err(SpaceFault::NoMemory),
        }
    }
}
