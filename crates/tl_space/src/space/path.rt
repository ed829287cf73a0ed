// The path of a search node.
ghost use Rattle.std.specs.Prelude.{◌<◌, length, IfOk};
ghost use Rattle.tl_search.specs.Calls.{IsPathOf, AreNamedIn};
ghost use Rattle.tl_space.specs.Spaces.{task_of, kept_of};

use super::Space;
use std::alloc::Global;
use tl_syntax::{Action, Actions, NoMemory};

impl Space {
    /// The path by which the search node was met first: an open path with that search node. It
    /// fails for want of memory alone.
    pub fn path(&self, alloc: Global, at: usize) -> Result<Actions, NoMemory>
        requires { at < length (kept_of self.now) }
        ensures path { IfOk result (IsPathOf (kept_of self.now) at) }
        ensures named { IfOk result (AreNamedIn (task_of self.now)) }
    {
        let mut back: Vec<Action> = Vec::new(alloc);
        let mut i = at;
        while let Some((j, action)) = self.from.last_step(i) {
            back.push(action.copy(alloc)?)?;
            i = j;
        }
        let mut path = Actions::new(alloc);
        while let Some(action) = back.pop() {
            path.push(action)?;
        }
        Ok(path)
    }
}
