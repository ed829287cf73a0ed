// The command `sample`: a generated problem is searched, and the plan that is found is checked.
ghost use Rattle.std.specs.Prelude.{◌≡◌, ◌<◌, ◌≤◌, ◌*◌, [], IfOk, IfErr, OnOk};
ghost use Rattle.std.specs.String.{string_bytes};
ghost use Rattle.tl_search.specs.KeptPairs.{pairs_of};
ghost use Rattle.tl_search.specs.NamedAnswers.{OutcomeIsNamed, FaultIsNamed};
ghost use Rattle.tl_search.specs.Spent.{AreNear};
ghost use Rattle.tl_space.specs.Spaces.{task_of, problem_of, kept_of};
ghost use Rattle.tl_terms.specs.ProblemMeaning.{plain_problem};
ghost use Rattle.tl_text.specs.Outcomes.{HasNamedPlan};
ghost use Rattle.tl_run.specs.Commands as commands;
ghost use Rattle.tl_run.specs.Inputs.{a_problem};
ghost use Rattle.tl_run.specs.Plan.{IsOutcome};
ghost use Rattle.tl_run.specs.Replies.{Replies};
ghost use Rattle.tl_run.specs.Sample.{first_line, sample_search, sample_text, verdict_line, HasPrefixes, KeepsNodes};
ghost use Rattle.tl_run.specs.Searched.{IsSearchFault};
ghost use Rattle.tl_run.specs.Searches.{IsWithinLimits};

use super::check;
use super::searching::{fault_reply, space_of};
use crate::reply::Reply;
use crate::search::{Mode, Search};
use crate::status::Status;
use std::alloc::{AllocError, Global};
use std::marker::Brand;
use std::sync::ledger::{Blank, Ledger};
use tl_check::Verdict;
use tl_search::laws::{pair_goes_on, prefixes_are_open};
use tl_search::{Outcome, Report, SearchFault};
use tl_space::Space;
use tl_syntax::{Bytes, NoMemory, Problem};
use tl_terms::Steps;
use tl_terms::laws::{action_order_is_total, step_is_by_its_conditions};
use tl_text::verdict_text;
use tl_world::Task;

/// The search of the sample of so many balls.
fn search_of(balls: u32) -> Search
    requires { balls ≤ 100 }
    ensures search { result ≡ sample_search balls }
    ensures limits { IsWithinLimits result }
{
    Search {
        mode: Mode::Depth,
        within: 3 * balls,
        nodes: 20_000,
    }
}

/// The first line of an outcome.
fn first_line(alloc: Global, search: Search, outcome: &Outcome) -> Result<String, AllocError>
    ensures { IfOk result (λ line. string_bytes line ≡ first_line search outcome.now) }
{
    match outcome {
        Outcome::Plan(plan) => {
            let actions = plan.len();
            format!(in alloc; "; plan of {actions} actions\n")
        }
        Outcome::NoPlan => format!(in alloc; "; none\n"),
        Outcome::NoneWithin => {
            let within = search.within;
            format!(in alloc; "; none within {within}\n")
        }
        Outcome::Spent => {
            let nodes = search.nodes;
            format!(in alloc; "; spent {nodes}\n")
        }
    }
}

/// The line of a verdict, where there is one.
fn verdict_line(alloc: Global, verdict: Option<Verdict>) -> Result<Bytes, NoMemory>
    ensures { IfOk result (λ line. line ≡ verdict_line verdict) }
{
    match verdict {
        None => Ok(Bytes::new(alloc)),
        Some(verdict) => verdict_text(alloc, &verdict),
    }
}

/// The lines of a sample of so many balls, of whose search this is the outcome, with so many kept
/// search nodes.
fn summary(
    alloc: Global,
    balls: u32,
    kept: usize,
    outcome: &Outcome,
    verdict: Option<Verdict>,
) -> Result<Bytes, NoMemory>
    requires { balls ≤ 100 }
    ensures { IfOk result (λ text. text ≡ sample_text balls kept outcome.now verdict) }
{
    let first = first_line(alloc, search_of(balls), outcome)?;
    let lines = format!(in alloc; "; sample {balls}\n{first}; kept {kept} pairs\n")?;
    let last = verdict_line(alloc, verdict)?;
    let mut text = Bytes::new(alloc);
    text.extend(lines.as_bytes())?;
    text.extend(last.as_slice())?;
    Ok(text)
}

/// The reply with these lines, whatever the outcome.
fn summary_reply(
    alloc: Global,
    balls: u32,
    kept: usize,
    outcome: &Outcome,
    verdict: Option<Verdict>,
) -> Result<Reply, NoMemory>
    requires { balls ≤ 100 }
    ensures status { IfOk result (λ reply. reply.status ≡ Status.Yes) }
    ensures text { IfOk result (λ reply. reply.text ≡ sample_text balls kept outcome.now verdict) }
{
    let text = summary(alloc, balls, kept, outcome, verdict)?;
    let status = Status::Yes;
    Ok(Reply { status, text })
}

/// The reply with the outcome of the search, after the check of its plan where there is one.
fn outcome_reply(
    alloc: Global,
    task: &Task,
    balls: u32,
    kept: usize,
    outcome: &Outcome,
) -> Result<Reply, NoMemory>
    requires balls { balls ≤ 100 }
    requires right { IsOutcome (sample_search balls) (plain_problem task.now.problem) outcome.now }
    requires keeps { KeepsNodes (plain_problem task.now.problem) (3 * balls) outcome.now kept }
    requires named { HasNamedPlan task.now.problem.names task.now.problem.domain.operators outcome.now }
    ensures { IfOk result (Replies (commands.sample balls) (a_problem task.now.problem)) }
{
    match outcome {
        Outcome::Plan(plan) => match tl_check::check(alloc, task, plan.as_slice()) {
            Ok(verdict) => summary_reply(alloc, balls, kept, outcome, Some(verdict)),
            Err(fault) => check::fault_reply(alloc, &task.problem, plan.as_slice(), fault),
        },
        _ => summary_reply(alloc, balls, kept, outcome, None),
    }
}

/// Searches a space in which nothing is kept, depth-first and over a count of steps of its own.
/// Events are watched, since they say which search nodes were kept along the plan.
fn searched<L: Ledger>(
    alloc: Global,
    space: &mut Space,
    search: Search,
    blank: Blank,
) -> Result<Report, SearchFault>
    requires empty { kept_of space.old ≡ [] }
    requires limits { IsWithinLimits search }
    requires depth { search.mode ≡ Mode.Depth }
    requires name { blank.name ≡ L.name }
    requires parts { blank.parts ≡ L.parts }
    requires some { 0 < blank.parts }
    ensures task { task_of space.new ≡ task_of space.old }
    ensures outcome { IfOk result (λ report. IsOutcome search (problem_of space.old) report.outcome) }
    ensures near { OnOk result (AreNear (problem_of space.old) search.within (pairs_of (kept_of space.new))) }
    ensures prefixes { IfOk result (λ report. HasPrefixes (problem_of space.old) (pairs_of (kept_of space.new)) report.outcome) }
    ensures fault { IfErr result (IsSearchFault search (problem_of space.old)) }
    ensures named { IfOk result (λ report. OutcomeIsNamed (task_of space.old) report.outcome) }
    ensures path_named { IfErr result (FaultIsNamed (task_of space.old)) }
{
    pair_goes_on();
    prefixes_are_open();
    action_order_is_total();
    let mut steps: Steps<L> = Steps::new(blank);
    tl_depth::search(alloc, space, search.within, search.nodes, true, &mut steps)
}

/// The reply to the search of a space in which nothing is kept.
fn space_reply(alloc: Global, space: &mut Space, balls: u32) -> Result<Reply, NoMemory>
    requires empty { kept_of space.old ≡ [] }
    requires balls { balls ≤ 100 }
    ensures { IfOk result (Replies (commands.sample balls) (a_problem (task_of space.old).problem)) }
{
    step_is_by_its_conditions();
    let search = search_of(balls);
    match searched::<Brand>(alloc, space, search, Blank::new(1)) {
        Ok(report) => outcome_reply(alloc, space.task(), balls, space.kept(), &report.outcome),
        Err(fault) => fault_reply(alloc, &space.task().problem, search, fault),
    }
}

/// The outcome of the search of the sample of so many balls, whose problem this is, and the verdict
/// on its plan; or the operation past range at which one of them ends.
pub(crate) fn reply(alloc: Global, problem: Problem, balls: u32) -> Result<Reply, NoMemory>
    requires { balls ≤ 100 }
    ensures { IfOk result (Replies (commands.sample balls) (a_problem problem)) }
{
    let mut space = space_of(alloc, problem)?;
    let reply = space_reply(alloc, &mut space, balls);
    drop(space);
    reply
}
