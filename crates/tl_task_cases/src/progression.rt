// Progression and the idling check of formulas, in the initial world.
ghost use Rattle.std.specs.Prelude.{◌≡◌, ◌<◌, length, get_or, IfOk};
ghost use Rattle.tl_nodes.specs.NodeTrees.{tree_at};
ghost use Rattle.tl_nodes.specs.Numbers.{trees};
ghost use Rattle.tl_progress.specs.Sentences.{IsSentence};
ghost use Rattle.tl_syntax.specs.Lists.{Among};
ghost use Rattle.tl_syntax.specs.Signature.{Signature, signature_of};

use crate::answers::note_text;
use crate::checks::{is_number, is_text, is_true};
use crate::stop::Stop;
use crate::tasks::task_of;
use std::alloc::Global;
use std::process::Abort;
use tl_eval::{Env, EvalFault};
use tl_nodes::{Node, Nodes};
use tl_progress::{idle, progress};
use tl_syntax::Ids;
use tl_tables::{column, filled, is_row};
use tl_world::Task;

/// The domain text up to the formulas of a row.
const OPENING: &str =
    "(domain d (predicate p 1) (predicate q 1) (function n 0) (operator (look)) (control (and ";

/// The problem text of a row.
const PROBLEM: &str = "(problem x (init {0}) (goal {1}))";

/// The number at a position.
fn number_at(ids: &Ids, i: usize) -> usize
    requires { i < length ids.now }
    ensures { result ≡ get_or ids.now i 0 }
{
    ids.as_slice()[i]
}

/// The number of one of the parts.
fn one_of(ids: &Ids, i: usize) -> Result<usize, Stop>
    ensures { IfOk result (λ n. Among n ids.now) }
{
    if i >= ids.len() {
        return Err(Stop::Row("there is no such part"));
    }
    Ok(number_at(ids, i))
}

/// The number of a part of a conjunction.
fn part_of(nodes: &Nodes, whole: usize, i: usize) -> Result<usize, Stop>
    requires { whole < length (trees nodes.now) }
    ensures number { IfOk result (λ n. n < length (trees nodes.now)) }
    ensures sentence { IfOk result (λ n. (g : Signature)
        → IsSentence g (tree_at (trees nodes.now) whole) → IsSentence g (tree_at (trees nodes.now) n)) }
{
    match nodes.get(whole) {
        Node::And(parts) => one_of(parts, i),
        _ => Err(Stop::Row("the formula is no conjunction")),
    }
}

/// The number of a part of the control formula, which is a conjunction.
fn part_number(nodes: &mut Nodes, task: &Task, i: usize) -> Result<usize, Stop>
    ensures number { IfOk result (λ n. n < length (trees nodes.new)) }
    ensures sentence { IfOk result (λ n. IsSentence (signature_of task.now.problem.domain) (tree_at (trees nodes.new) n)) }
{
    let whole = nodes.of_tree(&task.problem.domain.control)?;
    let number = part_of(nodes, whole, i)?;
    Ok(number)
}

/// Why there is no answer: the operation past range, with its offset in the formula.
fn fault_text(alloc: Global, fault: EvalFault) -> Result<String, Stop> {
    match fault {
        EvalFault::Range(note) => Ok(note_text(alloc, note, OPENING.len())?),
        EvalFault::NoMemory => Ok(format!(in alloc; "no memory")?),
    }
}

/// The idling check of a formula, as a text.
fn idle_text(alloc: Global, nodes: &Nodes, task: &Task, id: usize) -> Result<String, Stop>
    requires id { id < length (trees nodes.now) }
    requires sentence { IsSentence (signature_of task.now.problem.domain) (tree_at (trees nodes.now) id) }
{
    let mut env = Env::new(alloc)?;
    match idle(alloc, nodes, task, &task.first, &mut env, id) {
        Ok(truth) => Ok(format!(in alloc; "{truth}")?),
        Err(fault) => fault_text(alloc, fault),
    }
}

/// The formula that the formula of a row progresses to, or `true` where there is no answer.
fn wanted_formula(row: &str) -> &str {
    let text = column(row, 3);
    if text.starts_with("(") || text == "true" || text == "false" {
        text
    } else {
        "true"
    }
}

/// The task of a row. Its control formula has the formula of the row and what it progresses to.
fn task_in(alloc: Global, row: &str) -> Result<Task, Stop> {
    let formula = column(row, 2);
    let wanted = wanted_formula(row);
    let domain = format!(in alloc; "{OPENING}{formula} {wanted})))")?;
    let problem = filled(alloc, PROBLEM, row)?;
    task_of(alloc, domain.as_str(), problem.as_str())
}

/// Compares the idling check of a formula with the text that the row has.
fn is_idly<R: Abort>(
    rt: &R,
    alloc: Global,
    nodes: &Nodes,
    task: &Task,
    id: usize,
    row: &str,
) -> Result<(), Stop>
    requires id { id < length (trees nodes.now) }
    requires sentence { IsSentence (signature_of task.now.problem.domain) (tree_at (trees nodes.now) id) }
{
    let text = idle_text(alloc, nodes, task, id)?;
    is_text(rt, text.as_str(), column(row, 4), row);
    Ok(())
}

/// Compares why there is no answer with the text that the row has.
fn is_fault<R: Abort>(rt: &R, alloc: Global, fault: EvalFault, row: &str) -> Result<(), Stop> {
    let text = fault_text(alloc, fault)?;
    is_text(rt, text.as_str(), column(row, 3), row);
    Ok(())
}

/// Compares what a formula progresses to with the number that is wanted or, where there is no
/// answer, with the text that the row has.
fn is_next<R: Abort>(
    rt: &R,
    alloc: Global,
    nodes: &mut Nodes,
    task: &Task,
    id: usize,
    wanted: usize,
    row: &str,
) -> Result<(), Stop>
    requires id { id < length (trees nodes.old) }
    requires sentence { IsSentence (signature_of task.now.problem.domain) (tree_at (trees nodes.old) id) }
{
    let mut env = Env::new(alloc)?;
    match progress(alloc, nodes, task, &task.first, &mut env, id) {
        Ok(found) => {
            is_number(rt, found, wanted, row);
            Ok(())
        }
        Err(fault) => is_fault(rt, alloc, fault, row),
    }
}

/// Compares both answers for a row whose task is given.
fn are_answers<R: Abort>(rt: &R, alloc: Global, task: &Task, row: &str) -> Result<(), Stop> {
    let mut nodes = Nodes::new(alloc)?;
    let wanted = part_number(&mut nodes, task, 1)?;
    let id = part_number(&mut nodes, task, 0)?;
    is_idly(rt, alloc, &nodes, task, id, row)?;
    is_next(rt, alloc, &mut nodes, task, id, wanted, row)
}

/// Compares both answers for a row.
fn is_told<R: Abort>(rt: &R, alloc: Global, row: &str) -> Result<(), Stop> {
    let row = filled(alloc, row, "")?;
    let task = task_in(alloc, row.as_str())?;
    let compared = are_answers(rt, alloc, &task, row.as_str());
    drop(task);
    compared
}

/// Goes over the rows of a table: the initial world, the goal list, the formula, what it progresses
/// to, and the answer of the idling check.
fn are_told<R: Abort>(rt: &R, alloc: Global, table: &str) -> Result<(), Stop> {
    for row in table.lines() {
        if is_row(row) {
            is_told(rt, alloc, row)?;
        }
    }
    Ok(())
}

const WORDS: &str = "
- | - | (until (not (p a)) (p b)) | (until (not (p a)) (p b)) | false
(p a) | - | (until (not (p a)) (p b)) | false | false
(p b) | - | (until (not (p a)) (p b)) | true | true
- | - | (next (and)) | (and) | true
- | - | (next (or)) | (or) | false
- | - | (and) | true | true
- | - | (or) | false | false
- | - | (next (next (p a))) | (next (p a)) | false
(p a) | - | (always (p a)) | (always (p a)) | true
- | - | (always (p a)) | false | false
- | - | (eventually (p a)) | (eventually (p a)) | false
(p a) | - | (eventually (p a)) | true | true
# a part that is itself a conjunction is opened, and of equal parts the first stays
(p a) | - | (and (next (and (p a) (p b))) (p a) (next (p a))) | (and (p a) (p b)) | false
- | - | (or (next (p a)) (p a) (next (p a))) | (p a) | false
- | - | (or (next (p a)) (not (p a))) | true | true
- | - | (not (next (not (p a)))) | (p a) | false
# the goal list does not change
- | (p a) | (next (goal (p a))) | (goal (p a)) | true
- | (p a) | (always (goal (p a))) | (always (goal (p a))) | true
- | (not (p a)) | (eventually (goal (not (p a)))) | true | true
";

#[test]
fn words_progress(rt: HostRuntime) -> Result<(), Stop> {
    are_told(&rt, rt.alloc(), WORDS)
}

const QUANTIFIERS: &str = "
- | - | (forall (?x) (p ?x) false) | true | true
(p a) | - | (exists (?x) (p ?x) (p ?x)) | true | true
# a bound is read in this world, and values stand in what remains
(p a) | - | (always (forall (?x) (p ?x) (next (p ?x)))) | (and (p a) (always (forall (?x) (p ?x) (next (p ?x))))) | true
(p a) (p b) | - | (forall (?x) (p ?x) (next (q ?x))) | (and (q a) (q b)) | false
(p a) (p b) | - | (exists (?x) (p ?x) (always (p ?x))) | (or (always (p a)) (always (p b))) | true
(p a) (p b) (q b) | - | (exists (?x) (p ?x) (implies (q ?x) (next (q ?x)))) | true | true
(p a) (p b) (q a) | - | (forall (?x) (p ?x) (implies (q ?x) (always (q ?x)))) | (always (q a)) | true
(p a) (p b) | - | (forall (?x) (p ?x) (and (q ?x) (next (q ?x)))) | false | false
# an inner quantifier is read now, too
(p a) (q b) (q c) | - | (forall (?x) (p ?x) (exists (?y) (q ?y) (next (and (p ?x) (q ?y))))) | (or (and (p a) (q b)) (and (p a) (q c))) | true
";

#[test]
fn quantifiers_progress(rt: HostRuntime) -> Result<(), Stop> {
    are_told(&rt, rt.alloc(), QUANTIFIERS)
}

const STEPS: &str = "
(p a) | - | (within 0 (p a)) | true | true
- | - | (within 0 (p a)) | false | false
- | - | (within 1 (p a)) | (within 0 (p a)) | false
- | - | (within 100000 (p a)) | (within 99999 (p a)) | false
(p a) | - | (within 100000 (p a)) | true | true
(p a) | - | (for 0 (p a)) | true | true
- | - | (for 0 (p a)) | false | false
(p a) | - | (for 1 (p a)) | (for 0 (p a)) | true
(p a) | - | (for 100000 (p a)) | (for 99999 (p a)) | true
- | - | (for 100000 (p a)) | false | false
(p a) (p b) | - | (exists (?x) (p ?x) (within 2 (q ?x))) | (or (within 1 (q a)) (within 1 (q b))) | false
";

#[test]
fn steps_are_counted_down(rt: HostRuntime) -> Result<(), Stop> {
    are_told(&rt, rt.alloc(), STEPS)
}

const OPERATIONS: &str = "
{max} | - | (always (= (n) (+ (n) 1))) | + 9223372036854775807 1 at 15 | + 9223372036854775807 1 at 15
# below next it is not looked at
{max} | - | (and (next (= (n) (+ (n) 1))) false) | false | + 9223372036854775807 1 at 18
";

/// Rows whose operation past range is looked at.
#[test]
fn operations_past_range_are_noted(rt: HostRuntime) -> Result<(), Stop> {
    are_told(&rt, rt.alloc(), OPERATIONS)
}

/// What a formula progresses to, and how many nodes the call adds.
fn next_and_growth(
    alloc: Global,
    nodes: &mut Nodes,
    task: &Task,
    id: usize,
) -> Result<(usize, usize), Stop>
    requires id { id < length (trees nodes.old) }
    requires sentence { IsSentence (signature_of task.now.problem.domain) (tree_at (trees nodes.old) id) }
{
    let mut env = Env::new(alloc)?;
    let len = nodes.len();
    let next = progress(alloc, nodes, task, &task.first, &mut env, id)?;
    Ok((next, nodes.len().wrapping_sub(len)))
}

/// Sees that the formula of a task progresses to true, and that no node is added.
fn adds_no_node<R: Abort>(rt: &R, alloc: Global, task: &Task) -> Result<(), Stop> {
    let mut nodes = Nodes::new(alloc)?;
    let id = part_number(&mut nodes, task, 0)?;
    let (next, growth) = next_and_growth(alloc, &mut nodes, task, id)?;
    is_number(rt, next, 0, "the number of true");
    is_number(rt, growth, 0, "nodes");
    Ok(())
}

/// A row whose formula is a quantifier without temporal words over a hundred facts, all of them in
/// the goal.
fn row_of_facts(alloc: Global) -> Result<String, Stop> {
    let mut facts = String::new(alloc);
    for k in 0..100u32 {
        write!(facts, "(p {k})")?;
    }
    Ok(format!(in alloc; "{facts} | {facts} | (forall (?x) (p ?x) (goal (p ?x)))")?)
}

#[test]
fn a_state_formula_adds_no_node(rt: HostRuntime) -> Result<(), Stop> {
    let alloc = rt.alloc();
    let row = row_of_facts(alloc)?;
    let task = task_in(alloc, row.as_str())?;
    let compared = adds_no_node(&rt, alloc, &task);
    drop(task);
    compared
}

/// The number of `(not (always F))`.
fn not_always(nodes: &mut Nodes, id: usize) -> Result<usize, Stop>
    requires { id < length (trees nodes.old) }
    ensures number { IfOk result (λ n. n < length (trees nodes.new)) }
    ensures sentence { IfOk result (λ n. (g : Signature)
        → IsSentence g (tree_at (trees nodes.old) id) → IsSentence g (tree_at (trees nodes.new) n)) }
{
    let always = nodes.intern(Node::Always(id))?;
    let number = nodes.intern(Node::Not(always))?;
    Ok(number)
}

/// The number of a formula in so many `(not (always F))`.
fn nested(nodes: &mut Nodes, task: &Task, times: u32) -> Result<usize, Stop>
    ensures number { IfOk result (λ n. n < length (trees nodes.new)) }
    ensures sentence { IfOk result (λ n. IsSentence (signature_of task.now.problem.domain) (tree_at (trees nodes.new) n)) }
{
    let mut id = part_number(nodes, task, 0)?;
    for _ in 0..times {
        id = not_always(nodes, id)?;
    }
    Ok(id)
}

/// The idling check of a formula, and of what it progresses to.
fn idles_now_and_next(
    alloc: Global,
    nodes: &mut Nodes,
    task: &Task,
    id: usize,
) -> Result<(bool, bool), Stop>
    requires id { id < length (trees nodes.old) }
    requires sentence { IsSentence (signature_of task.now.problem.domain) (tree_at (trees nodes.old) id) }
{
    let mut env = Env::new(alloc)?;
    let first = idle(alloc, nodes, task, &task.first, &mut env, id)?;
    let next = progress(alloc, nodes, task, &task.first, &mut env, id)?;
    let second = idle(alloc, nodes, task, &task.first, &mut env, next)?;
    Ok((first, second))
}

/// Compares both truths of a formula in fifty thousand `(not (always F))`, which are false.
fn are_false<R: Abort>(rt: &R, alloc: Global, task: &Task) -> Result<(), Stop> {
    let mut nodes = Nodes::new(alloc)?;
    let id = nested(&mut nodes, task, 50_000)?;
    let (now, next) = idles_now_and_next(alloc, &mut nodes, task, id)?;
    is_true(rt, !now, "the formula");
    is_true(rt, !next, "what it progresses to");
    Ok(())
}

/// The idling check of fifty thousand nested nodes answers false, and so it does for what the
/// formula progresses to.
#[test]
fn fifty_thousand_nested_nodes_need_no_stack(rt: HostRuntime) -> Result<(), Stop> {
    let alloc = rt.alloc();
    let task = task_in(alloc, "- | - | (p a)")?;
    let compared = are_false(&rt, alloc, &task);
    drop(task);
    compared
}
