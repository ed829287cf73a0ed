// What a search answers.
ghost use Rattle.tl_search.specs.LawsOutcomes.{AnswersExcludeEachOther, FewPairsAreNotSpent};

/// A plan within the bound, no plan, and no plan within the bound exclude each other.
pub fn answers_exclude_each_other()
    ensures { AnswersExcludeEachOther }
{}

/// A search among few search nodes is not spent.
pub fn few_pairs_are_not_spent()
    ensures { FewPairsAreNotSpent }
{}
