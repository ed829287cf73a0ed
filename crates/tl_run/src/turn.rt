// One file of a command: its bytes, and what they add to what was read before.
ghost use Rattle.std.specs.Prelude.{◌≡◌, ◌+◌, ◌≤◌, [], length, Some, IfOk, IfErr, OnOk};
ghost use Rattle.tl_outside.specs.Calls.{ReadsBy};
ghost use Rattle.tl_sexpr.specs.Offsets.{AreAsRead};
ghost use Rattle.tl_sexpr.specs.Spelling.{Spells, symbols_in_all};
ghost use Rattle.tl_sexpr.specs.Tree.{trees_of};
ghost use Rattle.tl_syntax.specs.Lists.{Each};
ghost use Rattle.tl_line.specs.NamedActions.{ActionIsNamed};
ghost use Rattle.tl_cert.specs.MeaningOfProofs.{proof_meant};
ghost use Rattle.tl_cert.specs.ProofTexts.{LinksAreNamed};
ghost use Rattle.tl_cost.specs.CostFiles.{costs_meant};
ghost use Rattle.tl_lasso.specs.MeaningOfLoops.{loop_meant};
ghost use Rattle.tl_text.specs.MeaningOfPlans.{plan_meant};
ghost use Rattle.tl_run.specs.declared.words.Role.TheVariants as role;
ghost use Rattle.tl_domain.specs.DomainFiles.{domain_file_breaks};
ghost use Rattle.tl_run.specs.Held.{HoldsFile, HoldsForms, IsHeld, KeepsBounds, KeepsParts, last_role, role_before};
ghost use Rattle.tl_run.specs.Inputs.{nothing, a_domain, a_problem, breaks_of, IsBroken, StandsFor};
ghost use Rattle.tl_run.specs.Inputs as inputs;
ghost use Rattle.tl_run.specs.Stops.{IsFileStop, IsFormsStop, IsTurnStop, has_read_fault};

use crate::stop::Stop;
use crate::words::{File, Role};
use std::alloc::Global;
use std::mem;
use tl_cert::{Proof, proof_of};
use tl_cost::{Costs, costs_of};
use tl_domain::{check_domain, problem_of};
use tl_lasso::{LoopPlan, loop_of};
use tl_outside::{Store, read_whole};
use tl_sexpr::{Forms, offsets_rise, read_forms};
use tl_syntax::{Actions, Problem};
use tl_text::plan_of;

/// What the files of a command that were read so far stand for.
pub(crate) enum Input {
    /// No file was read.
    Nothing,
    /// The forms of a domain file, which break no rule.
    Domain(Forms),
    /// A problem.
    Problem(Problem),
    /// A problem with a plan.
    Plan(Problem, Actions),
    /// A problem with a proof that it has no plan.
    Proof(Problem, Proof),
    /// A problem with the cost of each operator.
    Costs(Problem, Costs),
    /// A problem with a plan that has a repeated part.
    Loop(Problem, LoopPlan),
}

// Written out, so that what drops an input calls this; each value goes by a call of its own, which
// keeps the model of this function small.
impl Drop for Input {
    fn drop(self) {
        match self {
            Input::Nothing => {}
            Input::Domain(forms) => drop(forms),
            Input::Problem(problem) => drop(problem),
            Input::Plan(problem, actions) => {
                drop(problem);
                drop(actions);
            }
            Input::Proof(problem, proof) => {
                drop(problem);
                drop(proof);
            }
            Input::Costs(problem, costs) => {
                drop(problem);
                drop(costs);
            }
            Input::Loop(problem, plan) => {
                drop(problem);
                drop(plan);
            }
        }
    }
}

impl Input {
    /// The forms of the domain file that was read last.
    fn into_domain(self) -> Forms
        requires { last_role self ≡ Some role.Domain }
        ensures { self ≡ Input.Domain result }
    {
        match self {
            Input::Domain(forms) => forms,
            _ => unreachable!(),
        }
    }

    /// The problem that was read last.
    pub(crate) fn into_problem(self) -> Problem
        requires { last_role self ≡ Some role.Problem }
        ensures { self ≡ Input.Problem result }
    {
        match self {
            Input::Problem(problem) => problem,
            _ => unreachable!(),
        }
    }

    /// The plan that was read last, and the problem before it.
    pub(crate) fn into_plan(self) -> (Problem, Actions)
        requires { last_role self ≡ Some role.Plan }
        ensures { self ≡ Input.Plan result.0 result.1 }
    {
        match self {
            Input::Plan(problem, plan) => (problem, plan),
            _ => unreachable!(),
        }
    }

    /// The proof that was read last, and the problem before it.
    pub(crate) fn into_proof(self) -> (Problem, Proof)
        requires { last_role self ≡ Some role.Proof }
        ensures { self ≡ Input.Proof result.0 result.1 }
    {
        match self {
            Input::Proof(problem, proof) => (problem, proof),
            _ => unreachable!(),
        }
    }

    /// The costs that were read last, and the problem before them.
    pub(crate) fn into_costs(self) -> (Problem, Costs)
        requires { last_role self ≡ Some role.Costs }
        ensures { self ≡ Input.Costs result.0 result.1 }
    {
        match self {
            Input::Costs(problem, costs) => (problem, costs),
            _ => unreachable!(),
        }
    }

    /// The plan with a repeated part that was read last, and the problem before it.
    pub(crate) fn into_loop(self) -> (Problem, LoopPlan)
        requires { last_role self ≡ Some role.Loop }
        ensures { self ≡ Input.Loop result.0 result.1 }
    {
        match self {
            Input::Loop(problem, plan) => (problem, plan),
            _ => unreachable!(),
        }
    }
}

/// The greatest length of a file, in bytes.
const LIMIT: usize = 4_194_304;

/// The forms that the bytes of the file of this number spell.
fn forms_of(alloc: Global, number: u8, bytes: &[u8]) -> Result<Forms, Stop>
    requires { length bytes.now ≤ 4194304 }
    ensures spelled { IfOk result (λ forms. Spells bytes.now (trees_of forms)) }
    ensures few_symbols { IfOk result (λ forms. symbols_in_all (trees_of forms) ≤ length bytes.now) }
    ensures as_read { IfOk result (λ forms. AreAsRead (trees_of forms)) }
    ensures stop { (r : _) (before : inputs.Input) → IfErr result (IsFileStop number (IsBroken r before bytes.now)) }
{
    offsets_rise();
    match read_forms(alloc, bytes) {
        Ok(forms) => Ok(forms),
        Err(fault) => Err(Stop::of_text(number, fault)),
    }
}

/// The forms of a domain file, which are read once those of a problem file are there.
fn domain_in(alloc: Global, number: u8, forms: Forms) -> Result<Input, Stop>
    requires as_read { AreAsRead (trees_of forms) }
    requires few { symbols_in_all (trees_of forms) ≤ 4194304 }
    ensures held { IfOk result (HoldsForms role.Domain nothing (trees_of forms)) }
    ensures keeps { IfOk result KeepsBounds }
    ensures last { IfOk result (λ held. last_role held ≡ Some role.Domain) }
    ensures stop { IfErr result (IsFormsStop number (breaks_of role.Domain nothing (trees_of forms))) }
{
    match check_domain(alloc, &forms) {
        Ok(()) => Ok(Input::Domain(forms)),
        Err(fault) => {
            drop(forms);
            Err(Stop::of_forms(number, fault))
        }
    }
}

/// The problem of the forms of a file, after a domain file of these forms.
fn problem_in(alloc: Global, number: u8, first: Forms, forms: &Forms) -> Result<Input, Stop>
    requires as_read { AreAsRead (trees_of forms.now) }
    requires few { symbols_in_all (trees_of forms.now) ≤ 4194304 }
    requires lawful { domain_file_breaks (trees_of first) ≡ [] }
    requires few_first { symbols_in_all (trees_of first) ≤ 4194304 }
    ensures held { IfOk result (HoldsForms role.Problem (a_domain (trees_of first)) (trees_of forms.now)) }
    ensures keeps { IfOk result KeepsBounds }
    ensures last { IfOk result (λ held. last_role held ≡ Some role.Problem) }
    ensures stop { IfErr result (IsFormsStop number (breaks_of role.Problem (a_domain (trees_of first)) (trees_of forms.now))) }
{
    match problem_of(alloc, first, forms) {
        Ok(problem) => Ok(Input::Problem(problem)),
        Err(fault) => Err(Stop::of_forms(number, fault)),
    }
}

/// The actions of the forms of a file, after files that stand for this problem.
fn actions_in(alloc: Global, number: u8, forms: &Forms, problem: &Problem) -> Result<Actions, Stop>
    requires { AreAsRead (trees_of forms.now) }
    ensures lawful { OnOk result (breaks_of role.Plan (a_problem problem.now) (trees_of forms.now) ≡ []) }
    ensures meant { IfOk result (λ plan. plan ≡ plan_meant problem.now.names problem.now.domain.operators (trees_of forms.now)) }
    ensures few { IfOk result (λ plan. length plan ≤ 100000) }
    ensures named { IfOk result (λ plan. Each (ActionIsNamed problem.now.names problem.now.domain.operators) plan) }
    ensures stop { IfErr result (IsFormsStop number (breaks_of role.Plan (a_problem problem.now) (trees_of forms.now))) }
{
    match plan_of(alloc, forms, problem) {
        Ok(plan) => Ok(plan),
        Err(fault) => Err(Stop::of_forms(number, fault)),
    }
}

/// The plan of the forms of a file, after files that stand for this problem.
fn plan_in(alloc: Global, number: u8, forms: &Forms, problem: Problem) -> Result<Input, Stop>
    requires { AreAsRead (trees_of forms.now) }
    ensures held { IfOk result (HoldsForms role.Plan (a_problem problem) (trees_of forms.now)) }
    ensures keeps { IfOk result KeepsBounds }
    ensures last { IfOk result (λ held. last_role held ≡ Some role.Plan) }
    ensures stop { IfErr result (IsFormsStop number (breaks_of role.Plan (a_problem problem) (trees_of forms.now))) }
{
    match actions_in(alloc, number, forms, &problem) {
        Ok(plan) => Ok(Input::Plan(problem, plan)),
        Err(stop) => {
            drop(problem);
            Err(stop)
        }
    }
}

/// The links and the bound of the forms of a file, after files that stand for this problem.
fn links_in(alloc: Global, number: u8, forms: &Forms, problem: &Problem) -> Result<Proof, Stop>
    requires { AreAsRead (trees_of forms.now) }
    ensures lawful { OnOk result (breaks_of role.Proof (a_problem problem.now) (trees_of forms.now) ≡ []) }
    ensures meant { IfOk result (λ proof. proof ≡ proof_meant problem.now.names problem.now.domain.operators (trees_of forms.now)) }
    ensures few { IfOk result (λ proof. length proof.links ≤ 100000) }
    ensures named { IfOk result (λ proof. LinksAreNamed problem.now.names problem.now.domain.operators proof.links) }
    ensures stop { IfErr result (IsFormsStop number (breaks_of role.Proof (a_problem problem.now) (trees_of forms.now))) }
{
    match proof_of(alloc, forms, problem) {
        Ok(proof) => Ok(proof),
        Err(fault) => Err(Stop::of_forms(number, fault)),
    }
}

/// The proof of the forms of a file, after files that stand for this problem.
fn proof_in(alloc: Global, number: u8, forms: &Forms, problem: Problem) -> Result<Input, Stop>
    requires { AreAsRead (trees_of forms.now) }
    ensures held { IfOk result (HoldsForms role.Proof (a_problem problem) (trees_of forms.now)) }
    ensures keeps { IfOk result KeepsBounds }
    ensures last { IfOk result (λ held. last_role held ≡ Some role.Proof) }
    ensures stop { IfErr result (IsFormsStop number (breaks_of role.Proof (a_problem problem) (trees_of forms.now))) }
{
    match links_in(alloc, number, forms, &problem) {
        Ok(proof) => Ok(Input::Proof(problem, proof)),
        Err(stop) => {
            drop(problem);
            Err(stop)
        }
    }
}

/// The cost of each operator that the forms of a file give, after files that stand for this
/// problem.
fn prices_in(alloc: Global, number: u8, forms: &Forms, problem: &Problem) -> Result<Costs, Stop>
    requires { AreAsRead (trees_of forms.now) }
    ensures lawful { OnOk result (breaks_of role.Costs (a_problem problem.now) (trees_of forms.now) ≡ []) }
    ensures meant { IfOk result (λ costs. costs ≡ costs_meant problem.now.names problem.now.domain.operators (trees_of forms.now)) }
    ensures stop { IfErr result (IsFormsStop number (breaks_of role.Costs (a_problem problem.now) (trees_of forms.now))) }
{
    match costs_of(alloc, forms, problem) {
        Ok(costs) => Ok(costs),
        Err(fault) => Err(Stop::of_forms(number, fault)),
    }
}

/// The costs of the forms of a file, after files that stand for this problem.
fn costs_in(alloc: Global, number: u8, forms: &Forms, problem: Problem) -> Result<Input, Stop>
    requires { AreAsRead (trees_of forms.now) }
    ensures held { IfOk result (HoldsForms role.Costs (a_problem problem) (trees_of forms.now)) }
    ensures keeps { IfOk result KeepsBounds }
    ensures last { IfOk result (λ held. last_role held ≡ Some role.Costs) }
    ensures stop { IfErr result (IsFormsStop number (breaks_of role.Costs (a_problem problem) (trees_of forms.now))) }
{
    match prices_in(alloc, number, forms, &problem) {
        Ok(costs) => Ok(Input::Costs(problem, costs)),
        Err(stop) => {
            drop(problem);
            Err(stop)
        }
    }
}

/// Both parts of the plan of the forms of a file, after files that stand for this problem.
fn parts_in(alloc: Global, number: u8, forms: &Forms, problem: &Problem) -> Result<LoopPlan, Stop>
    requires { AreAsRead (trees_of forms.now) }
    ensures lawful { OnOk result (breaks_of role.Loop (a_problem problem.now) (trees_of forms.now) ≡ []) }
    ensures meant { IfOk result (λ plan. plan ≡ loop_meant problem.now.names problem.now.domain.operators (trees_of forms.now)) }
    ensures keeps { IfOk result (KeepsParts problem.now.names problem.now.domain.operators) }
    ensures stop { IfErr result (IsFormsStop number (breaks_of role.Loop (a_problem problem.now) (trees_of forms.now))) }
{
    match loop_of(alloc, forms, problem) {
        Ok(plan) => Ok(plan),
        Err(fault) => Err(Stop::of_forms(number, fault)),
    }
}

/// The plan with a repeated part of the forms of a file, after files that stand for this problem.
fn loop_in(alloc: Global, number: u8, forms: &Forms, problem: Problem) -> Result<Input, Stop>
    requires { AreAsRead (trees_of forms.now) }
    ensures held { IfOk result (HoldsForms role.Loop (a_problem problem) (trees_of forms.now)) }
    ensures keeps { IfOk result KeepsBounds }
    ensures last { IfOk result (λ held. last_role held ≡ Some role.Loop) }
    ensures stop { IfErr result (IsFormsStop number (breaks_of role.Loop (a_problem problem) (trees_of forms.now))) }
{
    match parts_in(alloc, number, forms, &problem) {
        Ok(plan) => Ok(Input::Loop(problem, plan)),
        Err(stop) => {
            drop(problem);
            Err(stop)
        }
    }
}

/// What the forms of a file of this role stand for, together with what was read before.
fn forms_in(
    alloc: Global,
    number: u8,
    role: Role,
    forms: Forms,
    before: Input,
) -> Result<Input, Stop>
    requires as_read { AreAsRead (trees_of forms) }
    requires few { symbols_in_all (trees_of forms) ≤ 4194304 }
    requires keeps { KeepsBounds before }
    requires in_order { role_before role ≡ last_role before }
    ensures held { (x : inputs.Input) → IsHeld before x → IfOk result (HoldsForms role x (trees_of forms)) }
    ensures keeps { IfOk result KeepsBounds }
    ensures last { IfOk result (λ held. last_role held ≡ Some role) }
    ensures stop { (x : inputs.Input) → IsHeld before x
        → IfErr result (IsFormsStop number (breaks_of role x (trees_of forms))) }
{
    match role {
        Role::Domain => domain_in(alloc, number, forms),
        Role::Problem => problem_in(alloc, number, before.into_domain(), &forms),
        Role::Plan => plan_in(alloc, number, &forms, before.into_problem()),
        Role::Proof => proof_in(alloc, number, &forms, before.into_problem()),
        Role::Costs => costs_in(alloc, number, &forms, before.into_problem()),
        Role::Loop => loop_in(alloc, number, &forms, before.into_problem()),
    }
}

/// Adds what the forms of a file of this role stand for to what was read before. After a stop
/// nothing is held.
fn add_forms(
    alloc: Global,
    number: u8,
    role: Role,
    forms: Forms,
    input: &mut Input,
) -> Result<(), Stop>
    requires as_read { AreAsRead (trees_of forms) }
    requires few { symbols_in_all (trees_of forms) ≤ 4194304 }
    requires keeps { KeepsBounds input.old }
    requires in_order { role_before role ≡ last_role input.old }
    ensures held { (x : inputs.Input) → IsHeld input.old x
        → OnOk result (HoldsForms role x (trees_of forms) input.new) }
    ensures keeps { OnOk result (KeepsBounds input.new) }
    ensures last { OnOk result (last_role input.new ≡ Some role) }
    ensures stop { (x : inputs.Input) → IsHeld input.old x
        → IfErr result (IsFormsStop number (breaks_of role x (trees_of forms))) }
{
    let before = mem::replace(input, Input::Nothing);
    *input = forms_in(alloc, number, role, forms, before)?;
    Ok(())
}

/// Adds what the bytes of the file of this number, which has this role, stand for to what was read
/// before.
pub(crate) fn add_bytes(
    alloc: Global,
    number: u8,
    role: Role,
    bytes: &[u8],
    input: &mut Input,
) -> Result<(), Stop>
    requires short { length bytes.now ≤ 4194304 }
    requires keeps { KeepsBounds input.old }
    requires in_order { role_before role ≡ last_role input.old }
    ensures held { (x : inputs.Input) → IsHeld input.old x
        → OnOk result ((y : inputs.Input) × StandsFor role x bytes.now y × IsHeld input.new y) }
    ensures keeps { OnOk result (KeepsBounds input.new) }
    ensures last { OnOk result (last_role input.new ≡ Some role) }
    ensures stop { (x : inputs.Input) → IsHeld input.old x
        → IfErr result (IsFileStop number (IsBroken role x bytes.now)) }
{
    let forms = forms_of(alloc, number, bytes)?;
    add_forms(alloc, number, role, forms, input)
}

/// Adds what the command's file of this number stands for to what was read before. It is begun, and
/// read to its end.
pub(crate) fn read_next<S: Store>(
    alloc: Global,
    store: &mut S,
    file: &File<'_>,
    number: u8,
    input: &mut Input,
) -> Result<(), Stop>
    requires keeps { KeepsBounds input.old }
    requires in_order { role_before file.now.role ≡ last_role input.old }
    ensures held { (x : inputs.Input) → IsHeld input.old x
        → OnOk result (HoldsFile (S.files store.old) file.now.role file.now.name.now x input.new) }
    ensures keeps { OnOk result (KeepsBounds input.new) }
    ensures last { OnOk result (last_role input.new ≡ Some file.now.role) }
    ensures stop { (x : inputs.Input) → IsHeld input.old x
        → IfErr result (IsTurnStop (S.files store.old) file.now.role file.now.name.now x number
        (S.faults store.old) (S.faults store.new)) }
    ensures files { S.files store.new ≡ S.files store.old }
    ensures calls { (x : inputs.Input) → IsHeld input.old x
        → ReadsBy (S.calls store.old) (S.calls store.new) file.now.name.now 4194304 (has_read_fault result) }
    ensures later { S.faults store.old ≤ S.faults store.new }
{
    match read_whole(alloc, store, file.name, LIMIT) {
        Ok(bytes) => add_bytes(alloc, number, file.role, bytes.as_slice(), input),
        Err(fault) => Err(Stop::of_reading(number, fault)),
    }
}
