// Problems without arithmetic terms.
ghost use Rattle.tl_terms.specs.LawsCalm.{NoArithmeticLooksAtNothing};

/// Where no arithmetic term stands in a problem, no operation is looked at: not by an action, not
/// by the control formula along any states, and not by a search, which so meets none past range.
pub fn no_arithmetic_looks_at_nothing()
    ensures { NoArithmeticLooksAtNothing }
{}
