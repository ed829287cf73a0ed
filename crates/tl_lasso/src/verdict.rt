// The verdict on a plan with a repeated part.

/// The verdict on a plan with a repeated part. The first one in this order that is right is the
/// answer, and no other one is right.
#[derive(Clone, Copy, PartialEq, Eq)]
pub enum LoopVerdict {
    /// The plan is accepted for ever: all actions execute once, the repeated part ends in the state
    /// in which it began, the goal is met there, and the control formula holds along the states,
    /// those of the repeated part for ever.
    Valid,
    /// This action, counted from 1 through both parts, is the first that is not executable in its
    /// turn.
    NotExecutable(u32),
    /// All actions execute, and the repeated part ends in another state than it began in.
    NotClosed,
    /// The repeated part ends where it began, and an element of the goal is false there.
    GoalUnmet,
    /// The goal is met there, and the control formula is false.
    Disobeys,
}
