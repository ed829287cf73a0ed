// Where actions are looked at.
use std::alloc::Global;
use tl_world::{Task, World};

/// Where actions are looked at: a world of a task.
#[derive(Clone, Copy)]
pub struct Here<'a> {
    /// Where memory comes from.
    pub alloc: Global,
    /// The task.
    pub task: &'a Task,
    /// The world.
    pub world: &'a World,
}
