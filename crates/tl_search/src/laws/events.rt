// What true events say of a search.
ghost use Rattle.tl_search.specs.LawsEvents.{EventsBeginAtRoot, EventsPruneRightly, KeptPairsHaveEvents};

/// The first of true events is the root's: kept where the residual of the empty path is not FALSE,
/// and else pruned.
pub fn events_begin_at_the_root()
    ensures { EventsBeginAtRoot }
{}

/// Each branch that true events tell to be pruned executes, has the residual FALSE, and begins no
/// infinite sequence of worlds on which the control formula holds.
pub fn pruned_events_are_right()
    ensures { EventsPruneRightly }
{}

/// Each search node that is kept in the end has the event that kept it, before every event that
/// names it as seen.
pub fn kept_pairs_have_events()
    ensures { KeptPairsHaveEvents }
{}
