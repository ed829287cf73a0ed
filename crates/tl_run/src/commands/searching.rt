// What `plan`, `trace`, `prove-none` and `sample` have in common: a space is searched, and the
// search may end at an operation past range.
ghost use Rattle.std.specs.Prelude.{◌≡◌, ◌<◌, ℕ, List, [], true, IfOk, IfErr};
ghost use Rattle.tl_search.specs.NamedAnswers.{EventsAreNamed, FaultIsNamed, OutcomeIsNamed};
ghost use Rattle.tl_space.specs.Spaces.{task_of, problem_of, kept_of};
ghost use Rattle.tl_terms.specs.ProblemMeaning.{plain_problem};
ghost use Rattle.tl_run.specs.Answers.{outcome_status};
ghost use Rattle.tl_run.specs.Commands as commands;
ghost use Rattle.tl_run.specs.Inputs.{a_problem};
ghost use Rattle.tl_run.specs.Plan.{IsOutcome};
ghost use Rattle.tl_run.specs.Replies.{Replies};
ghost use Rattle.tl_run.specs.Sample.{sample_search};
ghost use Rattle.tl_run.specs.Searched.{HasNamedPath, IsSearchFault, IsTraceReport};
ghost use Rattle.tl_run.specs.Searches.{IsWithinLimits};

use crate::reply::Reply;
use crate::search::{Mode, Search};
use crate::status::Status;
use std::alloc::Global;
use std::sync::ledger::{Blank, Ledger};
use tl_search::laws::{kept_pairs_have_events, pair_goes_on};
use tl_search::{Outcome, Report, SearchFault};
use tl_space::Space;
use tl_syntax::{NoMemory, Problem};
use tl_terms::Steps;
use tl_terms::laws::false_residual_begins_no_satisfying_run;
use tl_text::range_text;
use tl_world::Task;

/// The status with an outcome.
pub(crate) fn status_of(outcome: &Outcome) -> Status
    ensures { result ≡ outcome_status outcome.now }
{
    match outcome {
        Outcome::Plan(_) => Status::Yes,
        Outcome::NoPlan => Status::No,
        Outcome::NoneWithin => Status::No,
        Outcome::Spent => Status::Spent,
    }
}

/// The reply where a search ends with a fault: to `plan`, to `trace`, which shows no events then,
/// to `prove-none`, and to `sample` where this is its search.
pub(crate) fn fault_reply(
    alloc: Global,
    problem: &Problem,
    search: Search,
    fault: SearchFault,
) -> Result<Reply, NoMemory>
    requires limits { IsWithinLimits search }
    requires cause { IsSearchFault search (plain_problem problem.now) fault }
    requires named { HasNamedPath problem.now.names problem.now.domain.operators fault }
    ensures plan { (d p : List ℕ) → IfOk result (Replies (commands.search search d p) (a_problem problem.now)) }
    ensures trace { (d p : List ℕ) → IfOk result (Replies (commands.trace search d p) (a_problem problem.now)) }
    ensures prove_none { (d p : List ℕ) → IfOk result (Replies (commands.prove_none search d p) (a_problem problem.now)) }
    ensures sample { (m : ℕ) → search ≡ sample_search m → IfOk result (Replies (commands.sample m) (a_problem problem.now)) }
{
    match fault {
        SearchFault::Range { path, note } => {
            let after = path.len() as u32;
            let text = range_text(alloc, problem, &note, after, path.as_slice())?;
            let status = Status::Range;
            Ok(Reply { status, text })
        }
        SearchFault::NoMemory => Err(NoMemory),
    }
}

/// Searches a space in which nothing is kept, over a count of steps of its own, with or without
/// events: one line for each mode.
pub(crate) fn searched<L: Ledger>(
    alloc: Global,
    space: &mut Space,
    search: Search,
    watch: bool,
    blank: Blank,
) -> Result<Report, SearchFault>
    requires empty { kept_of space.old ≡ [] }
    requires limits { IsWithinLimits search }
    requires name { blank.name ≡ L.name }
    requires parts { blank.parts ≡ L.parts }
    requires some { 0 < blank.parts }
    ensures task { task_of space.new ≡ task_of space.old }
    ensures outcome { IfOk result (λ report. IsOutcome search (problem_of space.old) report.outcome) }
    ensures trace { watch ≡ true → IfOk result (IsTraceReport search (problem_of space.old) (kept_of space.new)) }
    ensures fault { IfErr result (IsSearchFault search (problem_of space.old)) }
    ensures named { IfOk result (λ report. OutcomeIsNamed (task_of space.old) report.outcome) }
    ensures events_named { IfOk result (λ report. EventsAreNamed (task_of space.old) report.events) }
    ensures path_named { IfErr result (FaultIsNamed (task_of space.old)) }
{
    kept_pairs_have_events();
    pair_goes_on();
    false_residual_begins_no_satisfying_run();
    let mut steps: Steps<L> = Steps::new(blank);
    let nodes = search.nodes;
    match search.mode {
        Mode::Breadth => {
            tl_breadth::search(alloc, space, search.within, nodes, watch, &mut steps)
        }
        Mode::Depth => tl_depth::search(alloc, space, search.within, nodes, watch, &mut steps),
    }
}

/// The space of a problem, in which nothing is kept.
pub(crate) fn space_of(alloc: Global, problem: Problem) -> Result<Space, NoMemory>
    ensures problem { IfOk result (λ space. (task_of space).problem ≡ problem) }
    ensures empty { IfOk result (λ space. kept_of space ≡ []) }
{
    let task = Task::of(alloc, problem)?;
    Space::start(alloc, task)
}
