// The goal test.
ghost use Rattle.tl_terms.specs.LawsGoal.{GoalTestByMembership};

/// The goal test is passed exactly where each fact of the goal is in the world, each place of the
/// goal has its value there, and no fact to avoid is there.
pub fn goal_test_is_by_membership()
    ensures { GoalTestByMembership }
{}
