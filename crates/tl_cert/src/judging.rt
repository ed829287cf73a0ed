// The listed nodes are judged, one after another.
ghost use Rattle.std.specs.Prelude.{◌≡◌, ◌<◌, ◌≤◌, ◌^◌, IsTrue, None, length, slice_index, IfOk, IfErr, IfSome};
ghost use Rattle.tl_search.specs.Calls.{IsExecutableAt, TellsAcceptance};
ghost use Rattle.tl_search.specs.NamedAnswers.{FaultIsNamed, IsNamedIn};
ghost use Rattle.tl_search.specs.SameTask.{HasSameTask};
ghost use Rattle.tl_cert.specs.Checking.{depths_of, is_no_farther, IsIdlingFault, IsJudgingFault, IsNodesFault, IsTurnFault, IsVisitFault, JudgesNode, JudgesNodes, TellsClosed, TellsInside, VerdictIsNamed};

use crate::checking::Checking;
use crate::known::listed;
use crate::verdict::NoneVerdict;
use std::sync::ledger::Ledger;
use tl_search::{Arrival, SearchFault, SearchSpace, child_fault, search_node_fault};
use tl_syntax::Action;
use tl_terms::Steps;

impl Checking {
    /// Whether the second node is no farther than one action after the first, where there is a
    /// bound.
    fn is_no_farther(&self, at: usize, other: usize) -> bool
        requires at { at < length self.now.depths }
        requires other { other < length self.now.depths }
        ensures { result ≡ is_no_farther self.now.bound (slice_index self.now.depths at)
            (slice_index self.now.depths other) }
    {
        let depths = self.depths.as_slice();
        match self.bound {
            None => true,
            Some(_) => u64::from(depths[other]) <= u64::from(depths[at]) + 1,
        }
    }

    /// Whether an action of a node leads to the residual FALSE or to a listed node. Where it does
    /// not, one node more may be kept.
    fn stays_inside<S: SearchSpace, L: Ledger>(
        &self,
        space: &mut S,
        at: usize,
        a: &Action,
        steps: &mut Steps<L>,
    ) -> Result<bool, SearchFault>
        requires at { at < length (S.kept space.old) }
        requires depths { self.now.depths ≡ depths_of (S.kept space.old) }
        requires executable { IsExecutableAt (S.problem space.old) (S.kept space.old) at a.now }
        requires named { IsNamedIn (S.task space.old) a.now }
        ensures same { HasSameTask S.task S.problem space.old space.new }
        ensures kept { IfOk result
            (λ inside. IsTrue inside → S.kept space.new ≡ S.kept space.old) }
        ensures inside { IfOk result
            (TellsInside (S.problem space.old) self.now.bound (S.kept space.old) at a.now) }
        ensures fault { IfErr result
            (IsVisitFault (S.problem space.old) (S.kept space.old) at a.now) }
        ensures path_named { IfErr result (FaultIsNamed (S.task space.old)) }
    {
        match space.child(at, a, steps) {
            Ok(Arrival::Fresh(_)) => Ok(false),
            Ok(Arrival::Seen(k)) => Ok(self.is_no_farther(at, k)),
            Ok(Arrival::Pruned) => Ok(true),
            Err(fault) => Err(child_fault(self.alloc, space, at, a, fault)),
        }
    }

    /// The first action of a node that leads out, where there is one.
    fn first_out<S: SearchSpace, L: Ledger>(
        &self,
        space: &mut S,
        at: usize,
        steps: &mut Steps<L>,
    ) -> Result<Option<Action>, SearchFault>
        requires at { at < length (S.kept space.old) }
        requires depths { self.now.depths ≡ depths_of (S.kept space.old) }
        ensures same { HasSameTask S.task S.problem space.old space.new }
        ensures kept { IfOk result
            (λ out. out ≡ None → S.kept space.new ≡ S.kept space.old) }
        ensures closed { IfOk result
            (TellsClosed (S.problem space.old) self.now.bound (S.kept space.old) at) }
        ensures named { IfOk result (λ out. IfSome out (IsNamedIn (S.task space.old))) }
        ensures fault { IfErr result (IsTurnFault (S.problem space.old) (S.kept space.old) at) }
        ensures path_named { IfErr result (FaultIsNamed (S.task space.old)) }
    {
        let known = listed(self.alloc, space, at)?;
        for a in known.actions.as_slice() {
            if !self.stays_inside(space, at, a, steps)? {
                return Ok(Some(a.copy(self.alloc)?));
            }
        }
        Ok(None)
    }

    /// Whether a node is accepted.
    fn accepted<S: SearchSpace>(&self, space: &mut S, at: usize) -> Result<bool, SearchFault>
        requires at { at < length (S.kept space.old) }
        ensures same { HasSameTask S.task S.problem space.old space.new }
        ensures kept { S.kept space.new ≡ S.kept space.old }
        ensures accepted { IfOk result
            (TellsAcceptance (S.problem space.old) (S.kept space.old) at) }
        ensures fault { IfErr result (IsIdlingFault (S.problem space.old) (S.kept space.old) at) }
        ensures path_named { IfErr result (FaultIsNamed (S.task space.old)) }
    {
        match space.accepted(at) {
            Ok(accepted) => Ok(accepted),
            Err(fault) => Err(search_node_fault(self.alloc, space, at, fault)),
        }
    }

    /// Why a node is not right, where it is not.
    fn judge<S: SearchSpace, L: Ledger>(
        &self,
        space: &mut S,
        at: usize,
        steps: &mut Steps<L>,
    ) -> Result<Option<NoneVerdict>, SearchFault>
        requires at { at < length (S.kept space.old) }
        requires depths { self.now.depths ≡ depths_of (S.kept space.old) }
        requires few { length (S.kept space.old) ≤ 2 ^ 32 }
        ensures same { HasSameTask S.task S.problem space.old space.new }
        ensures kept { IfOk result
            (λ wrong. wrong ≡ None → S.kept space.new ≡ S.kept space.old) }
        ensures judged { IfOk result
            (JudgesNode (S.problem space.old) self.now.bound (S.kept space.old) at) }
        ensures named { IfOk result (λ wrong. IfSome wrong (VerdictIsNamed (S.task space.old))) }
        ensures fault { IfErr result
            (IsJudgingFault (S.problem space.old) self.now.bound (S.kept space.old) at) }
        ensures path_named { IfErr result (FaultIsNamed (S.task space.old)) }
    {
        if self.accepted(space, at)? {
            return Ok(Some(NoneVerdict::Accepts(at as u32)));
        }
        if !self.goes_on(self.depths.as_slice()[at]) {
            return Ok(None);
        }
        match self.first_out(space, at, steps)? {
            Some(a) => Ok(Some(NoneVerdict::Open(at as u32, a))),
            None => Ok(None),
        }
    }

    /// Why the first node that is not right is not, where there is one.
    pub(crate) fn verdict<S: SearchSpace, L: Ledger>(
        &self,
        space: &mut S,
        steps: &mut Steps<L>,
    ) -> Result<NoneVerdict, SearchFault>
        requires depths { self.now.depths ≡ depths_of (S.kept space.old) }
        requires few { length (S.kept space.old) ≤ 2 ^ 32 }
        ensures same { HasSameTask S.task S.problem space.old space.new }
        ensures judged { IfOk result
            (JudgesNodes (S.problem space.old) self.now.bound (S.kept space.old)) }
        ensures named { IfOk result (VerdictIsNamed (S.task space.old)) }
        ensures fault { IfErr result
            (IsNodesFault (S.problem space.old) self.now.bound (S.kept space.old)) }
        ensures path_named { IfErr result (FaultIsNamed (S.task space.old)) }
    {
        for at in 0..self.depths.len() {
            match self.judge(space, at, steps)? {
                Some(wrong) => return Ok(wrong),
                None => {}
            }
        }
        Ok(NoneVerdict::Proved)
    }
}
