// What a search looks at after paths.
ghost use Rattle.tl_search.specs.LawsRange.{LookedIsCause, CalmHasNoCause, CalmWithFewerActions};

/// An operation past range that a search looks at is the cause of a fault.
pub fn looked_is_cause()
    ensures { LookedIsCause }
{}

/// A calm search meets no cause of a fault past range.
pub fn calm_has_no_cause()
    ensures { CalmHasNoCause }
{}

/// A search that is calm with a bound on the number of actions is calm with every smaller one.
pub fn calm_with_fewer_actions()
    ensures { CalmWithFewerActions }
{}
