// What is proved of worlds, each the contract of a function that does nothing.
ghost use Rattle.tl_syntax.specs.DerivedTests.{TellsSame};
ghost use Rattle.tl_terms.specs.SameWorlds.{world_eq};

/// The equality of worlds holds exactly where they have the same facts and the same places with the
/// same values.
pub fn equality_is_sameness()
    ensures { TellsSame world_eq }
{}
