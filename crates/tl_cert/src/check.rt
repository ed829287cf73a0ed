// The check of a proof, as its callers see it.
ghost use Rattle.std.specs.Prelude.{◌≡◌, ◌<◌, ◌^◌, [], length, IfOk, IfErr};
ghost use Rattle.tl_search.specs.NamedAnswers.{FaultIsNamed};
ghost use Rattle.tl_search.specs.SameTask.{HasSameTask};
ghost use Rattle.tl_cert.specs.Causes.{IsNoneFault};
ghost use Rattle.tl_cert.specs.Checking.{VerdictIsNamed};
ghost use Rattle.tl_cert.specs.Verdicts.{IsNoneVerdict};

use crate::checking::Checking;
use crate::proof::Proof;
use crate::verdict::NoneVerdict;
use std::alloc::Global;
use std::sync::ledger::Ledger;
use tl_search::{SearchFault, SearchSpace};
use tl_terms::Steps;

/// The verdict on a proof that there is no plan, over a space in which nothing is kept; no search
/// stands behind it. The links are listed in their order, and then the listed nodes are judged:
/// each action of a node that has to be closed is tried once.
pub fn check_none<S: SearchSpace, L: Ledger>(
    alloc: Global,
    space: &mut S,
    proof: &Proof,
    steps: &mut Steps<L>,
) -> Result<NoneVerdict, SearchFault>
    requires empty { S.kept space.old ≡ [] }
    requires few { length proof.now.links < 2 ^ 32 }
    ensures same { HasSameTask S.task S.problem space.old space.new }
    ensures verdict { IfOk result (IsNoneVerdict (S.problem space.old) proof.now) }
    ensures fault { IfErr result (IsNoneFault (S.problem space.old) proof.now) }
    ensures named { IfOk result (VerdictIsNamed (S.task space.old)) }
    ensures path_named { IfErr result (FaultIsNamed (S.task space.old)) }
{
    let mut checking = Checking::begin(alloc, space, proof.bound)?;
    match checking.list_all(space, proof.links.as_slice(), steps)? {
        Some(number) => Ok(NoneVerdict::BadLink(number)),
        None => checking.verdict(space, steps),
    }
}
