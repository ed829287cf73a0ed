// What is proved of matches, each the contract of a function that does nothing.
ghost use Rattle.tl_match.specs.Next.{ChainHasAllMatches, MatchesHaveAnEnd};

/// The matches of a pattern from the first on, each got from the one before by `World::next_match`,
/// are all tuples that make it true, each once, in lexicographic value order; and they have an end.
pub fn matches_are_all_tuples_in_order()
    ensures all { ChainHasAllMatches }
    ensures end { MatchesHaveAnEnd }
{}
