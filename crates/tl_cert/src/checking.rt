// The nodes that a proof lists, while it is checked.
ghost use Rattle.std.specs.Prelude.{◌≡◌, [], ◌∷◌, IfOk, IfErr, OnOk};
ghost use Rattle.tl_search.specs.NamedAnswers.{FaultIsNamed};
ghost use Rattle.tl_search.specs.SameTask.{HasSameTask};
ghost use Rattle.tl_cert.specs.Checking.{depths_of, AreShort, IsRootCause};
ghost use Rattle.tl_cert.specs.Links.{ListsRoot};

use crate::known::NodeActions;
use std::alloc::{AllocError, Global};
use tl_search::{Arrival, SearchFault, SearchSpace, root_fault};
use tl_syntax::Numbers32;

/// What is known while a proof is checked, beside the nodes that the space keeps. Until all links
/// are listed these are the listed ones, under the same numbers.
#[derive(Drop)]
pub(crate) struct Checking {
    /// Where paths are stored.
    pub(crate) alloc: Global,
    /// The bound of the proof.
    pub(crate) bound: Option<u32>,
    /// How many actions the links take to each listed node.
    pub(crate) depths: Numbers32,
    /// The actions of the node that the last link starts from.
    pub(crate) known: Option<NodeActions>,
}

/// The depth of the node of the empty path alone.
fn root_depth(alloc: Global) -> Result<Numbers32, AllocError>
    ensures { IfOk result (λ depths. depths ≡ 0 ∷ []) }
{
    let mut depths = Numbers32::new(alloc);
    depths.push(0)?;
    Ok(depths)
}

/// Lists the node of the empty path, unless its residual is FALSE, and gives its depth.
fn list_root<S: SearchSpace>(alloc: Global, space: &mut S) -> Result<Numbers32, SearchFault>
    requires { S.kept space.old ≡ [] }
    ensures same { HasSameTask S.task S.problem space.old space.new }
    ensures root { OnOk result (ListsRoot (S.problem space.old) (S.kept space.new)) }
    ensures depths { IfOk result (λ depths. depths ≡ depths_of (S.kept space.new)) }
    ensures short { OnOk result (AreShort (S.kept space.new)) }
    ensures fault { IfErr result (IsRootCause (S.problem space.old)) }
    ensures named { IfErr result (FaultIsNamed (S.task space.old)) }
{
    match space.root() {
        Ok(Arrival::Fresh(_)) => Ok(root_depth(alloc)?),
        Ok(Arrival::Pruned) => Ok(Numbers32::new(alloc)),
        Ok(Arrival::Seen(_)) => unreachable!(),
        Err(fault) => Err(root_fault(alloc, fault)),
    }
}

impl Checking {
    ghost use Rattle.tl_cert.specs.Checking.{IsRightSoFar};

    /// Lists the node of the empty path, unless its residual is FALSE.
    pub(crate) fn begin<S: SearchSpace>(
        alloc: Global,
        space: &mut S,
        bound: Option<u32>,
    ) -> Result<Checking, SearchFault>
        requires empty { S.kept space.old ≡ [] }
        ensures same { HasSameTask S.task S.problem space.old space.new }
        ensures root { OnOk result (ListsRoot (S.problem space.old) (S.kept space.new)) }
        ensures ready { IfOk result
            (IsRightSoFar (S.task space.old) (S.problem space.old) (S.kept space.new)) }
        ensures bound { IfOk result (λ checking. checking.bound ≡ bound) }
        ensures fault { IfErr result (IsRootCause (S.problem space.old)) }
        ensures named { IfErr result (FaultIsNamed (S.task space.old)) }
    {
        let depths = list_root(alloc, space)?;
        Ok(Checking {
            alloc,
            bound,
            depths,
            known: None,
        })
    }
}
