// The tuples of a bound.
ghost use Rattle.tl_terms.specs.LawsTuples.{TuplesAreThoseOfTheBound, TuplesRise};

/// The tuples of a bound are exactly those, of any values, that make it true; each variable has to
/// stand in the bound and to have a slot of its own.
pub fn tuples_are_those_of_the_bound()
    ensures { TuplesAreThoseOfTheBound }
{}

/// The tuples of a bound rise strictly in lexicographic value order, so none comes twice.
pub fn tuples_rise()
    ensures { TuplesRise }
{}
