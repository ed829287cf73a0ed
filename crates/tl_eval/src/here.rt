// Where a formula is read.
use crate::reading::Reading;
use tl_world::{Task, World};

/// Where a formula is read: in a world of a task, outside of definitions or in the body of one.
#[derive(Clone, Copy)]
pub(crate) struct Here<'a> {
    /// The task.
    pub(crate) task: &'a Task,
    /// The world.
    pub(crate) world: &'a World,
    /// Which definitions are read whole, and which one at a level.
    pub(crate) reading: Reading,
}
