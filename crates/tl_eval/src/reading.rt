// Where a formula is read.
ghost use Rattle.std.specs.Prelude.{◌≡◌, ◌==◌, cond, length};

use tl_world::Task;

/// Where a formula is read: the definitions before `number` are read whole, and the body of
/// definition `number` at `level`.
///
/// Outside of definitions the number is that of all definitions.
#[derive(Clone, Copy)]
pub(crate) struct Reading {
    /// How many definitions are read whole.
    pub(crate) number: u32,
    /// The level of the next one: where it is 0, its atoms are false.
    pub(crate) level: u32,
}

impl Reading {
    /// Outside of definitions: all are read whole. It takes no memory.
    pub(crate) fn whole(task: &Task) -> Reading
        ensures number { result.number ≡ length task.now.problem.domain.definitions }
        ensures level { result.level ≡ 0 }
    {
        let few = task.problem.domain.definitions.len();
        Reading {
            number: few as u32,
            level: 0,
        }
    }

    /// The level at which an atom of a definition reads its body: the definition's number of
    /// levels, or what is left of it. It takes no memory.
    pub(crate) fn level_of(self, number: u32, levels: u32) -> u32
        ensures { result ≡ cond (number == self.number) self.level levels }
    {
        if number == self.number {
            self.level
        } else {
            levels
        }
    }
}
