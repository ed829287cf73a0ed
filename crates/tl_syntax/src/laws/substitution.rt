// What a formula with values put in keeps.
ghost use Rattle.tl_syntax.specs.SubstitutionKeeps.{SubstitutedFits, SubstitutedBoundFits, SubstitutedIsNamed, SubstitutedBoundIsNamed, SubstitutedIsState, SubstitutedLeaves, SubstitutedBoundLeaves};

/// What fits a domain fits it with values put in.
pub fn substitution_keeps_fitting()
    ensures formula { SubstitutedFits }
    ensures bound { SubstitutedBoundFits }
{}

/// What names only numbers of a table does so with values of that table put in.
pub fn substitution_keeps_names()
    ensures formula { SubstitutedIsNamed }
    ensures bound { SubstitutedBoundIsNamed }
{}

/// A formula without temporal words has none with values put in.
pub fn substitution_keeps_state_formulas()
    ensures { SubstitutedIsState }
{}

/// The free variables that are left are those without a value, so a formula whose free variables
/// all have one has none left.
pub fn substitution_leaves_what_has_no_value()
    ensures formula { SubstitutedLeaves }
    ensures bound { SubstitutedBoundLeaves }
{}
