// Quantified formulas, and formulas over a number of steps.
#![tactic(auto, using(crate::proofs::Rulesets::formulas, crate::proofs::FormulaParts::formula_parts))]

ghost use Rattle.std.specs.Prelude.{◌≡◌, [], false};
ghost use Rattle.tl_formulas.specs.Readers.{ReadsFormulaParts};
ghost use Rattle.tl_formulas.specs.Shapes.{variables_tree};
ghost use Rattle.tl_formulas.specs.Variables.{is_crowded};
ghost use Rattle.tl_formulas.specs.declared.shapes.FormulaParts.TheVariants as parts;

use crate::bindings::{BoundVariables, bound_variables};
use crate::formula_leaves::{under_quantifier, under_steps};
use crate::formulas::boxed;
use crate::roles::FormulaRole;
use crate::scope::Scope;
use crate::shapes::{Counted, Quantified};
use crate::signature::NameSignature;
use crate::steps::steps;
use tl_rules::{FormFault, Vocabulary};
use tl_syntax::Formula;

/// A formula `(forall (V*) B F)` or `(exists (V*) B F)`.
#[cycle(formula)]
pub(crate) fn quantifier(
    vocabulary: &Vocabulary<'_, NameSignature<'_>>,
    scope: &Scope<'_>,
    role: FormulaRole,
    quantified: Quantified<'_>,
) -> Result<Formula, FormFault>
    requires room { is_crowded scope.now (variables_tree quantified.binding.list) ≡ false }
    ensures { ReadsFormulaParts vocabulary.now role scope.now []
        (parts.Quantified quantified.entry) result }
{
    let found = bound_variables(vocabulary, &*scope, quantified.binding)?;
    let BoundVariables { inner, vars, bound } = found;
    match boxed(vocabulary, &inner, role, quantified.form) {
        Ok(f) => Ok(under_quantifier(quantified.junction, vars, bound, f)),
        Err(fault) => {
            drop(vars);
            drop(bound);
            Err(fault)
        }
    }
}

/// A formula `(for K F)` or `(within K F)`.
#[cycle(formula)]
pub(crate) fn over_steps(
    vocabulary: &Vocabulary<'_, NameSignature<'_>>,
    scope: &Scope<'_>,
    role: FormulaRole,
    counted: Counted<'_>,
) -> Result<Formula, FormFault>
    ensures { ReadsFormulaParts vocabulary.now role scope.now [] (parts.Counted counted.entry)
        result }
{
    let number = steps(counted.steps, counted.steps_at)?;
    let f = boxed(vocabulary, scope, role, counted.form)?;
    Ok(under_steps(counted.junction, number, f))
}
