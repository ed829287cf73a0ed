// Open paths, accepted plans, distances and leading paths.
ghost use Rattle.tl_search.specs.LawsPaths.{PairGoesOn, WalksHavePairs, OpenPathsAreWalks, AcceptedPlansAreWalks, PrefixesAreOpen, DistanceIsOne, PrefixesAreLeading};

/// The search node of a path with one more action is the search node after that action.
pub fn pair_goes_on()
    ensures { PairGoesOn }
{}

/// A walk in the graph of search nodes leads to a search node exactly where it is a path with that
/// search node, whose residual is not FALSE.
pub fn walks_have_pairs()
    ensures { WalksHavePairs }
{}

/// The open paths are the walks in the graph of search nodes.
pub fn open_paths_are_walks()
    ensures { OpenPathsAreWalks }
{}

/// The accepted plans are the walks to accepted search nodes.
pub fn accepted_plans_are_walks()
    ensures { AcceptedPlansAreWalks }
{}

/// Each prefix of an open path or of an accepted plan is open, so pruning loses no plan.
pub fn prefixes_are_open()
    ensures { PrefixesAreOpen }
{}

/// Two distances of one search node are the same.
pub fn distance_is_one()
    ensures { DistanceIsOne }
{}

/// Each prefix of a leading path is leading.
pub fn prefixes_are_leading()
    ensures { PrefixesAreLeading }
{}
