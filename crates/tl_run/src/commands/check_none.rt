// The command `check-none`: the verdict on a proof that there is no plan.
ghost use Rattle.std.specs.Prelude.{◌≡◌, ◌<◌, ◌≤◌, ℕ, List, [], length, IfOk, IfErr};
ghost use Rattle.tl_cert.specs.Causes.{IsNoneFault};
ghost use Rattle.tl_cert.specs.Checking.{VerdictIsNamed};
ghost use Rattle.tl_cert.specs.ProofTexts.{HasNamedAction};
ghost use Rattle.tl_cert.specs.Verdicts.{IsNoneVerdict};
ghost use Rattle.tl_search.specs.NamedAnswers.{FaultIsNamed};
ghost use Rattle.tl_space.specs.Spaces.{task_of, problem_of, kept_of};
ghost use Rattle.tl_terms.specs.ProblemMeaning.{plain_problem};
ghost use Rattle.tl_run.specs.CheckNone.{none_status};
ghost use Rattle.tl_run.specs.Commands as commands;
ghost use Rattle.tl_run.specs.Inputs.{a_proof};
ghost use Rattle.tl_run.specs.Replies.{Replies};
ghost use Rattle.tl_run.specs.Searched.{HasNamedPath};

use super::searching::space_of;
use crate::reply::Reply;
use crate::status::Status;
use std::alloc::Global;
use std::marker::Brand;
use std::sync::ledger::{Blank, Ledger};
use tl_cert::{NoneVerdict, Proof, none_text};
use tl_search::SearchFault;
use tl_space::Space;
use tl_syntax::{NoMemory, Problem};
use tl_terms::Steps;
use tl_terms::laws::step_is_by_its_conditions;
use tl_text::range_text;

/// The status with a verdict.
fn status_of(verdict: &NoneVerdict) -> Status
    ensures { result ≡ none_status verdict.now }
{
    match verdict {
        NoneVerdict::Proved => Status::Yes,
        NoneVerdict::BadLink(_) => Status::No,
        NoneVerdict::Accepts(_) => Status::No,
        NoneVerdict::Open(_, _) => Status::No,
    }
}

/// The reply with a verdict.
fn verdict_reply(
    alloc: Global,
    problem: &Problem,
    proof: &Proof,
    verdict: &NoneVerdict,
) -> Result<Reply, NoMemory>
    requires right { IsNoneVerdict (plain_problem problem.now) proof.now verdict.now }
    requires named { HasNamedAction problem.now.names problem.now.domain.operators verdict.now }
    ensures { (d p q : List ℕ) → IfOk result (Replies (commands.check_none d p q) (a_proof problem.now proof.now)) }
{
    let text = none_text(alloc, problem, proof, verdict)?;
    let status = status_of(verdict);
    Ok(Reply { status, text })
}

/// The reply where the check of a proof ends with a fault.
fn fault_reply(
    alloc: Global,
    problem: &Problem,
    proof: &Proof,
    fault: SearchFault,
) -> Result<Reply, NoMemory>
    requires few { length proof.now.links ≤ 100000 }
    requires cause { IsNoneFault (plain_problem problem.now) proof.now fault }
    requires named { HasNamedPath problem.now.names problem.now.domain.operators fault }
    ensures { (d p q : List ℕ) → IfOk result (Replies (commands.check_none d p q) (a_proof problem.now proof.now)) }
{
    match fault {
        SearchFault::Range { path, note } => {
            let after = path.len() as u32;
            let text = range_text(alloc, problem, &note, after, path.as_slice())?;
            let status = Status::Range;
            Ok(Reply { status, text })
        }
        SearchFault::NoMemory => Err(NoMemory),
    }
}

/// Checks a proof over a space in which nothing is kept, with a count of steps of its own.
fn checked<L: Ledger>(
    alloc: Global,
    space: &mut Space,
    proof: &Proof,
    blank: Blank,
) -> Result<NoneVerdict, SearchFault>
    requires empty { kept_of space.old ≡ [] }
    requires few { length proof.now.links ≤ 100000 }
    requires name { blank.name ≡ L.name }
    requires parts { blank.parts ≡ L.parts }
    requires some { 0 < blank.parts }
    ensures task { task_of space.new ≡ task_of space.old }
    ensures verdict { IfOk result (IsNoneVerdict (problem_of space.old) proof.now) }
    ensures fault { IfErr result (IsNoneFault (problem_of space.old) proof.now) }
    ensures named { IfOk result (VerdictIsNamed (task_of space.old)) }
    ensures path_named { IfErr result (FaultIsNamed (task_of space.old)) }
{
    let mut steps: Steps<L> = Steps::new(blank);
    tl_cert::check_none(alloc, space, proof, &mut steps)
}

/// The reply on a proof over a space in which nothing is kept.
fn space_reply(alloc: Global, space: &mut Space, proof: &Proof) -> Result<Reply, NoMemory>
    requires empty { kept_of space.old ≡ [] }
    requires few { length proof.now.links ≤ 100000 }
    ensures { (d p q : List ℕ) → IfOk result (Replies (commands.check_none d p q) (a_proof (task_of space.old).problem proof.now)) }
{
    step_is_by_its_conditions();
    let answer = checked::<Brand>(alloc, space, proof, Blank::new(1));
    let problem = &space.task().problem;
    match answer {
        Ok(verdict) => verdict_reply(alloc, problem, proof, &verdict),
        Err(fault) => fault_reply(alloc, problem, proof, fault),
    }
}

/// The verdict on a proof that a problem has no plan, or the operation past range that its check
/// looks at.
pub(crate) fn reply(alloc: Global, problem: Problem, proof: &Proof) -> Result<Reply, NoMemory>
    requires few { length proof.now.links ≤ 100000 }
    ensures { (d p q : List ℕ) → IfOk result (Replies (commands.check_none d p q) (a_proof problem proof.now)) }
{
    let mut space = space_of(alloc, problem)?;
    let reply = space_reply(alloc, &mut space, proof);
    drop(space);
    reply
}
