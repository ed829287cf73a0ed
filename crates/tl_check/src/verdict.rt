// The verdict on a plan.

/// The verdict on a plan. The first one in this order that is right is the answer, and no other one
/// is right: whether all actions execute is asked first, then the goal, then the control formula.
#[derive(Clone, Copy, PartialEq, Eq)]
pub enum Verdict {
    /// The plan is accepted: all actions execute, the goal is met in the last state, and the
    /// control formula holds along the states, the last of them repeated for ever.
    Valid,
    /// This action, counted from 1, is the first that is not executable in its turn.
    NotExecutable(u32),
    /// All actions execute, and an element of the goal is false in the last state.
    GoalUnmet,
    /// All actions execute and the goal is met, and the control formula is false.
    Disobeys,
}
