// Where the values of actions come from.
ghost use Rattle.tl_terms.specs.LawsValues.{ExecutedArgumentsPass};

/// The arguments of a plan that executes pass each test that all integers pass, and all values that
/// its problem writes down.
pub fn arguments_of_executed_plans_pass()
    ensures { ExecutedArgumentsPass }
{}
