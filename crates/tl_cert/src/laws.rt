// Laws of the definitions, each the contract of a function that does nothing.
ghost use Rattle.tl_cert.specs.Laws.{CoveredHasNone, OneNoneVerdict};
ghost use Rattle.tl_cert.specs.LawsMean.{ProofsMean};
ghost use Rattle.tl_cert.specs.LawsReadBack.{ProofsAreReadBack};

/// Where a proof covers the search space, no plan is accepted; with a bound, none of at most so
/// many actions.
pub fn covered_has_none()
    ensures { CoveredHasNone }
{}

/// One verdict is right of a proof.
pub fn one_none_verdict()
    ensures { OneNoneVerdict }
{}

/// The lines of a proof that can be written are read as this proof.
pub fn proofs_are_read_back()
    ensures { ProofsAreReadBack }
{}

/// The forms of a proof file mean a proof exactly where they break no rule.
pub fn proofs_mean()
    ensures { ProofsMean }
{}
