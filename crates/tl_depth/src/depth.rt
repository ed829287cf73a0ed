// Depth-first search as its callers see it.
ghost use Rattle.std.specs.Prelude.{◌≡◌, ◌≤◌, [], IfOk, IfErr};
ghost use Rattle.tl_search.specs.NamedAnswers.{FaultIsNamed};
ghost use Rattle.tl_search.specs.Reports.{BeginsRightly, PrunesRightly, ReportIsNamed, AnswersWhereCalm};
ghost use Rattle.tl_search.specs.SameTask.{HasSameTask};
ghost use Rattle.tl_depth.specs.Outcomes.{IsDepthFirstFault};
ghost use Rattle.tl_depth.specs.Reports.{IsDepthFirstReport, AreFewSteps, ReportsHistory, TellsOutcome, EndsRightly};

use crate::expansions::Expansions;
use crate::stack::DepthFirst;
use std::alloc::Global;
use std::sync::ledger::Ledger;
use tl_search::{Events, Report, SearchFault, SearchSpace};
use tl_terms::Steps;

/// Depth-first search for a plan of at most `within` actions, among at most `nodes` search nodes
/// (Bacchus and Kabanza 2000): the first accepted plan in action order that repeats no search node.
/// `Spent` comes with one too many; where `watch` is true each arrival has an event.
pub fn search<S: SearchSpace, L: Ledger>(
    alloc: Global,
    space: &mut S,
    within: u32,
    nodes: u32,
    watch: bool,
    steps: &mut Steps<L>,
) -> Result<Report, SearchFault>
    requires empty { S.kept space.old ≡ [] }
    requires within { within ≤ 100000 }
    requires some_nodes { 1 ≤ nodes }
    requires nodes { nodes ≤ 100000 }
    ensures same { HasSameTask S.task S.problem space.old space.new }
    ensures outcome { IfOk result (IsDepthFirstReport (S.problem space.old) within nodes (S.kept space.new)) }
    ensures steps { AreFewSteps (S.problem space.old) within (S.kept space.new) steps.old steps.new }
    ensures reported { IfOk result (ReportsHistory (S.problem space.old) watch (S.kept space.new)) }
    ensures told { IfOk result (TellsOutcome (S.problem space.old) within watch (S.kept space.new)) }
    ensures first { IfOk result (BeginsRightly (S.problem space.old) watch) }
    ensures pruned { IfOk result (PrunesRightly (S.problem space.old) watch (S.kept space.new)) }
    ensures ends { IfOk result (EndsRightly watch (S.kept space.new)) }
    ensures calm { AnswersWhereCalm (S.problem space.old) within nodes result }
    ensures fault { IfErr result (IsDepthFirstFault (S.problem space.old) within) }
    ensures named { IfOk result (ReportIsNamed (S.task space.old)) }
    ensures path_named { IfErr result (FaultIsNamed (S.task space.old)) }
{
    let mut search = DepthFirst {
        within,
        watch,
        reenters: watch,
        most: Vec::new(alloc),
        stack: Vec::new(alloc),
        expansions: Expansions::new(alloc),
        events: Events::new(alloc),
    };
    match search.run(alloc, space, nodes as usize, steps) {
        Ok(outcome) => Ok(Report {
            outcome,
            events: search.events,
        }),
        Err(fault) => Err(fault),
    }
}
