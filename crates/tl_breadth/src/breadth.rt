// Breadth-first search as its callers see it.
ghost use Rattle.std.specs.Prelude.{◌≡◌, ◌≤◌, [], IfOk, IfErr};
ghost use Rattle.tl_search.specs.NamedAnswers.{FaultIsNamed};
ghost use Rattle.tl_search.specs.Reports.{BeginsRightly, PrunesRightly};
ghost use Rattle.tl_search.specs.Reports.{ReportIsNamed, AnswersWhereCalm};
ghost use Rattle.tl_search.specs.SameTask.{HasSameTask};
ghost use Rattle.tl_breadth.specs.Events.{IsTicked};
ghost use Rattle.tl_breadth.specs.Outcomes.{IsBreadthFirstFault};
ghost use Rattle.tl_breadth.specs.Reports.{IsBreadthFirstReport, ReportsArrivals, EndsRightly};

use crate::levels::BreadthFirst;
use std::alloc::Global;
use std::sync::ledger::Ledger;
use tl_search::{Events, Report, SearchFault, SearchSpace};
use tl_terms::Steps;

/// Breadth-first search for a plan of at most `within` actions, among at most `nodes` search nodes
/// (Bacchus and Kabanza 2000): the first accepted plan by length and then by actions (shortlex).
/// `Spent` comes with one search node too many; where `watch` is true each arrival has an event.
pub fn search<S: SearchSpace, L: Ledger>(
    alloc: Global,
    space: &mut S,
    within: u32,
    nodes: u32,
    watch: bool,
    steps: &mut Steps<L>,
) -> Result<Report, SearchFault>
    requires empty { S.kept space.old ≡ [] }
    requires within { within ≤ 100000 }
    requires some_nodes { 1 ≤ nodes }
    requires nodes { nodes ≤ 100000 }
    ensures same { HasSameTask S.task S.problem space.old space.new }
    ensures outcome { IfOk result (IsBreadthFirstReport (S.problem space.old) within nodes
        (S.kept space.new)) }
    ensures reported { IfOk result (ReportsArrivals (S.problem space.old) within watch steps.old
        (S.kept space.new) steps.new) }
    ensures steps { IsTicked (S.problem space.old) within steps.old (S.kept space.new) steps.new }
    ensures first { IfOk result (BeginsRightly (S.problem space.old) watch) }
    ensures pruned { IfOk result (PrunesRightly (S.problem space.old) watch (S.kept space.new)) }
    ensures calm { AnswersWhereCalm (S.problem space.old) within nodes result }
    ensures ends { IfOk result (EndsRightly watch (S.kept space.new)) }
    ensures fault { IfErr result (IsBreadthFirstFault (S.problem space.old) within) }
    ensures named { IfOk result (ReportIsNamed (S.task space.old)) }
    ensures path_named { IfErr result (FaultIsNamed (S.task space.old)) }
{
    let search = BreadthFirst {
        alloc,
        within,
        nodes: nodes as usize,
        watch,
    };
    let mut events = Events::new(alloc);
    match search.outcome(space, &mut events, steps) {
        Ok(outcome) => Ok(Report { outcome, events }),
        Err(fault) => Err(fault),
    }
}
