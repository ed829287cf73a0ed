// Laws of what is printed and then read again, each the contract of a function that does nothing.
ghost use Rattle.tl_run.specs.ReadBack.{ExecutedPlansAreReadBack, PrintedPlansAreValid, PrintedProofsAreProved};

/// The lines of a plan of a lawful domain and problem that executes are a plan file of this plan,
/// where it has at most 100,000 actions and integers of 64 bits.
pub fn executed_plans_are_read_back()
    ensures { ExecutedPlansAreReadBack }
{}

/// Where the lines with which `plan` printed a plan, or `prove-none` one in place of a proof, fit
/// in a file, the files with this one as the third allow `check` to answer that the plan is valid.
pub fn printed_plans_are_valid()
    ensures { PrintedPlansAreValid }
{}

/// Where the lines that `prove-none` printed with a proof fit in a file, the files with this one as
/// the third allow `check-none` to answer that there is no plan.
pub fn printed_proofs_are_proved()
    ensures { PrintedProofsAreProved }
{}
