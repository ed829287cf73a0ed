// The executable actions of a search node.
ghost use Rattle.std.specs.Prelude.{◌≡◌, ◌<◌, length, IfOk, IfErr};
ghost use Rattle.tl_search.specs.Calls.{ListsActionsAt, AreNamedIn, IsActionsFault};
ghost use Rattle.tl_space.specs.Spaces.{task_of, problem_of, kept_of, Grows};

use super::Space;
use tl_eval::EvalFault;
use tl_search::SpaceFault;
use tl_syntax::Actions;

impl Space {
    /// The executable actions of the search node, each once, in action order. Nothing that is kept
    /// changes.
    pub fn actions(&mut self, at: usize) -> Result<Actions, SpaceFault>
        requires { at < length (kept_of self.old) }
        ensures grows { Grows self.old self.new }
        ensures kept { kept_of self.new ≡ kept_of self.old }
        ensures actions { IfOk result (ListsActionsAt (problem_of self.old) (kept_of self.old) at) }
        ensures named { IfOk result (AreNamedIn (task_of self.old)) }
        ensures cause { IfErr result (IsActionsFault (problem_of self.old) (kept_of self.old) at) }
    {
        let numbers = self.numbers(at);
        let world = self.worlds.get(numbers.world);
        match self
            .lister
            .actions(&self.task, world, &mut self.action_frame)
        {
            Ok(listed) => Ok(listed),
            Err(EvalFault::Range(note)) => Err(SpaceFault::RangeHere(note)),
            Err(EvalFault::NoMemory) => Err(SpaceFault::NoMemory),
        }
    }
}
