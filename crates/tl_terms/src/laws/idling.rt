// One world that is repeated for ever.
ghost use Rattle.tl_terms.specs.LawsIdle.{IdleWordsLaw, IdlingCheckIsTruth};

/// Where one world is repeated for ever, `next`, `always`, `eventually`, `within` and `for` of a
/// formula mean the formula, and `until` means its second part.
pub fn idle_words_mean_their_formula()
    ensures { IdleWordsLaw }
{}

/// The idling check of a formula in a world is its truth where the world is repeated for ever.
pub fn idling_check_is_truth()
    ensures { IdlingCheckIsTruth }
{}
