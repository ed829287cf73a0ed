// Operators.
ghost use Rattle.std.specs.Prelude.{◌≤◌, length, IfOk};
ghost use Rattle.std.specs.List.{list_any};
ghost use Rattle.std.specs.Str.{bytes_eq};
ghost use Rattle.tl_rules.specs.Reads.{Checks, trees_in};
ghost use Rattle.tl_rules.specs.Rules.{breaks_if};
ghost use Rattle.tl_rules.specs.declared.rule.Rule.TheVariants.{Twice};
ghost use Rattle.tl_domain.specs.Parts.{list_tree};
ghost use Rattle.tl_domain.specs.Readers.{clause_tree, clauses_of, ReadsBoundsClause, ReadsPrecondition, ReadsPreClause};
ghost use Rattle.tl_domain.specs.Readers.{ReadsEffectsClause, ReadsOperatorHead, ReadsOperator};

use crate::clauses::Clauses;
use crate::heads::{Head, Within, check_parameters, read_head};
use crate::operator_names::OperatorNames;
use crate::parts::{List, Name};
use std::alloc::Global;
use tl_formulas::bounds::bounds;
use tl_formulas::effects::effects;
use tl_formulas::variables::{variables, with_variables};
use tl_formulas::{FormulaRole, NameSignature, Scope, formula};
use tl_rules::parts::{offset, one, rest_of};
use tl_rules::{FormFault, Rule, Vocabulary, breaks, number_of};
use tl_sexpr::Form;
use tl_syntax::{Bounds, Effects, Formula, Operator};

/// The bounds of an operator with this `bounds` clause.
fn bounds_of(
    vocabulary: &Vocabulary<'_, NameSignature<'_>>,
    scope: &Scope<'_>,
    clause: Option<&Form>,
) -> Result<Bounds, FormFault>
    ensures { ReadsBoundsClause result vocabulary.now scope.now (clause_tree clause.entry) }
{
    match clause {
        Some(clause) => bounds(vocabulary, scope, rest_of(clause)),
        None => Ok(Bounds::new(vocabulary.alloc)),
    }
}

/// The precondition of the elements after `pre`, in a clause at this offset.
#[tactic(auto, using(crate::proofs::ClauseParts::pre_parts))]
fn precondition(
    vocabulary: &Vocabulary<'_, NameSignature<'_>>,
    scope: &Scope<'_>,
    forms: &[Form],
    at: u32,
) -> Result<Formula, FormFault>
    ensures { ReadsPrecondition result vocabulary.now scope.now (trees_in forms.now) at }
{
    match one(forms) {
        Some(form) => formula(vocabulary, scope, FormulaRole::State, form),
        None => Err(breaks(Rule::Shape, at)),
    }
}

/// The precondition of an operator with this `pre` clause: the constant true where there is none.
#[tactic(auto, using(crate::proofs::Rulesets::formula_trees))]
fn pre_of(
    vocabulary: &Vocabulary<'_, NameSignature<'_>>,
    scope: &Scope<'_>,
    clause: Option<&Form>,
) -> Result<Formula, FormFault>
    ensures { ReadsPreClause result vocabulary.now scope.now (clause_tree clause.entry) }
{
    match clause {
        Some(clause) => precondition(vocabulary, scope, rest_of(clause), offset(clause)),
        None => Ok(Formula::True),
    }
}

/// The effects of an operator with this `effects` clause.
#[tactic(auto, using(crate::proofs::ClauseParts::effect_parts))]
fn effects_of(
    vocabulary: &Vocabulary<'_, NameSignature<'_>>,
    scope: &Scope<'_>,
    clause: Option<&Form>,
) -> Result<Effects, FormFault>
    ensures { ReadsEffectsClause result vocabulary.now scope.now (clause_tree clause.entry) }
{
    match clause {
        Some(clause) => effects(vocabulary, scope, rest_of(clause)),
        None => Ok(Effects::new(vocabulary.alloc)),
    }
}

/// Checks that an operator's name is new.
fn check_new(operators: &OperatorNames<'_>, name: Name<'_>) -> Result<(), FormFault>
    ensures { Checks result (breaks_if (list_any (bytes_eq name.entry.text.now) operators.now) Twice
        name.entry.at) }
{
    if operators.contains(name.text) {
        return Err(breaks(Rule::Twice, name.at));
    }
    Ok(())
}

/// The head of an operator with this `bounds` clause, whose name is none of these.
#[tactic(auto, using(crate::proofs::Rulesets::heads))]
pub(crate) fn operator_head<'a>(
    alloc: Global,
    operators: &OperatorNames<'_>,
    bounds: Option<&Form>,
    list: List<'a>,
) -> Result<Head<'a>, FormFault>
    ensures read { ReadsOperatorHead result operators.now (clause_tree bounds.entry)
        (list_tree list.entry) }
    ensures few { IfOk result (λ x. length x.variables.now ≤ 16) }
{
    let head = read_head(16, list)?;
    check_new(operators, head.name)?;
    check_parameters(alloc, Within::Bounds(bounds), head.variables)?;
    Ok(head)
}

/// An operator by its head and its clauses.
#[tactic(auto, using(crate::proofs::Rulesets::composed))]
pub(crate) fn operator(
    vocabulary: &Vocabulary<'_, NameSignature<'_>>,
    head: &Head<'_>,
    clauses: Clauses<'_>,
) -> Result<Operator, FormFault>
    requires { length head.now.variables.now ≤ 32 }
    ensures { ReadsOperator result vocabulary.now head.now (clauses_of clauses.entry) }
{
    let empty = Scope::new(vocabulary.alloc);
    let scope = with_variables(vocabulary.alloc, &empty, head.variables)?;
    let bounds = bounds_of(vocabulary, &scope, clauses.bounds)?;
    let pre = pre_of(vocabulary, &scope, clauses.pre)?;
    let effects = effects_of(vocabulary, &scope, clauses.effects)?;
    let params = variables(vocabulary.alloc, vocabulary.names, 0, head.variables)?;
    let name = number_of(vocabulary.names, head.name.text);
    Ok(Operator {
        name,
        params,
        bounds,
        pre,
        effects,
    })
}
