// The links of a proof are listed, one after another.
ghost use Rattle.std.specs.Prelude.{◌≡◌, ◌<◌, ◌^◌, IsTrue, length, slice_get, IfOk, IfErr, OnErr};
ghost use Rattle.tl_search.specs.NamedAnswers.{FaultIsNamed};
ghost use Rattle.tl_search.specs.SameTask.{HasSameTask};
ghost use Rattle.tl_cert.specs.Causes.{IsNoneFaultOf};
ghost use Rattle.tl_cert.specs.Checking.{goes_on, IsRightSoFar, IsVisitFault, ListsLink, ListsLinks};
ghost use Rattle.tl_cert.specs.Links.{ListsRoot};

use crate::checking::Checking;
use crate::known::has_step;
use crate::proof::Link;
use std::sync::ledger::Ledger;
use tl_search::{Arrival, SearchFault, SearchSpace, child_fault};
use tl_terms::Steps;

impl Checking {
    /// Whether a path of one action more than so many is within the bound.
    pub(crate) fn goes_on(&self, depth: u32) -> bool
        ensures { result ≡ goes_on self.now.bound depth }
    {
        match self.bound {
            None => true,
            Some(bound) => depth < bound,
        }
    }

    /// How many actions the links take to the node of the number, where it is listed.
    fn depth(&self, at: usize) -> Option<u32>
        ensures { result ≡ slice_get self.now.depths at }
    {
        self.depths.as_slice().get(at).copied()
    }

    /// Lists the node of a link, where the link is good.
    fn list<S: SearchSpace, L: Ledger>(
        &mut self,
        space: &mut S,
        link: &Link,
        steps: &mut Steps<L>,
    ) -> Result<bool, SearchFault>
        requires ready { IsRightSoFar (S.task space.old) (S.problem space.old) (S.kept space.old)
            self.old }
        requires few { length (S.kept space.old) < 2 ^ 32 }
        ensures same { HasSameTask S.task S.problem space.old space.new }
        ensures bound { self.new.bound ≡ self.old.bound }
        ensures listed { IfOk result (ListsLink (S.problem space.old) self.old.bound
            (S.kept space.old) (S.kept space.new) link.now) }
        ensures ready { IfOk result (λ good. IsTrue good →
            IsRightSoFar (S.task space.old) (S.problem space.old) (S.kept space.new) self.new) }
        ensures fault { IfErr result
            (IsVisitFault (S.problem space.old) (S.kept space.old) link.now.from link.now.action) }
        ensures there { OnErr result (link.now.from < length (S.kept space.old)) }
        ensures named { IfErr result (FaultIsNamed (S.task space.old)) }
    {
        let from = link.from as usize;
        let Some(depth) = self.depth(from) else {
            return Ok(false);
        };
        if !self.goes_on(depth) {
            return Ok(false);
        }
        if !has_step(self.alloc, space, from, &link.action, &mut self.known)? {
            return Ok(false);
        }
        match space.child(from, &link.action, steps) {
            Ok(Arrival::Fresh(_)) => {
                self.depths.push(depth + 1)?;
                Ok(true)
            }
            Ok(Arrival::Seen(_)) => Ok(false),
            Ok(Arrival::Pruned) => Ok(false),
            Err(fault) => Err(child_fault(self.alloc, space, from, &link.action, fault)),
        }
    }

    /// Lists the nodes of the links, up to the first that is not good, whose number is counted from
    /// 1.
    pub(crate) fn list_all<S: SearchSpace, L: Ledger>(
        &mut self,
        space: &mut S,
        links: &[Link],
        steps: &mut Steps<L>,
    ) -> Result<Option<u32>, SearchFault>
        requires root { ListsRoot (S.problem space.old) (S.kept space.old) }
        requires ready { IsRightSoFar (S.task space.old) (S.problem space.old) (S.kept space.old)
            self.old }
        requires few { length links.now < 2 ^ 32 }
        ensures same { HasSameTask S.task S.problem space.old space.new }
        ensures bound { self.new.bound ≡ self.old.bound }
        ensures listed { IfOk result
            (ListsLinks (S.problem space.old) self.old.bound links.now (S.kept space.new)) }
        ensures ready { IfOk result (λ bad. bad ≡ None →
            IsRightSoFar (S.task space.old) (S.problem space.old) (S.kept space.new) self.new) }
        ensures fault { IfErr result
            (IsNoneFaultOf (S.problem space.old) self.old.bound links.now) }
        ensures named { IfErr result (FaultIsNamed (S.task space.old)) }
    {
        for (before, link) in links.iter().enumerate() {
            if !self.list(space, link, steps)? {
                return Ok(Some(before as u32 + 1));
            }
        }
        Ok(None)
    }
}
