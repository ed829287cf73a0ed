// What is proved of the tuples of bounds, each the contract of a function that does nothing.
ghost use Rattle.tl_eval.specs.LawsTuples.{TuplesAreTheChain, NextIsFirstOfTheRest};

/// The tuples of a bound from the first on, each got from the one before by `next_tuple`, are
/// exactly the list of its tuples: each once, in lexicographic value order, and with an end.
pub fn tuples_are_the_chain_of_next_tuples()
    ensures { TuplesAreTheChain }
{}

/// A step over the list of a bound's tuples: after those that are done, `next_tuple` gives the
/// first of the rest, and None exactly where there is no rest.
pub fn next_tuple_is_the_first_of_the_rest()
    ensures { NextIsFirstOfTheRest }
{}
