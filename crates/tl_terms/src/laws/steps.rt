// What a step leaves.
ghost use Rattle.tl_terms.specs.LawsStep.{StepByItsConditions, OrderOfInstances};

/// An action leads from one world to another exactly where all conditions on its operator, its
/// arguments and its effects hold, and the other world is the one described by them.
pub fn step_is_by_its_conditions()
    ensures { StepByItsConditions }
{}

/// Where no two instances set one place to different values, the next world depends on which
/// instances there are alone, and not on their order.
pub fn order_of_instances_does_not_matter()
    ensures { OrderOfInstances }
{}
