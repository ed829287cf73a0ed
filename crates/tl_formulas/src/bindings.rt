// Variables with their bound.
ghost use Rattle.std.specs.Prelude.{◌≡◌, false};
ghost use Rattle.tl_formulas.specs.Readers.{ReadsBinding};
ghost use Rattle.tl_formulas.specs.Shapes.{variables_tree};
ghost use Rattle.tl_formulas.specs.Variables.{is_crowded};

use crate::bounds::bound;
use crate::scope::Scope;
use crate::shapes::{Binding, VariableList};
use crate::signature::NameSignature;
use crate::variables::{check_variables, variables, with_variables};
use tl_rules::{FormFault, Vocabulary};
use tl_syntax::{Bound, Vars};

/// Whether with the variables of a list more than 32 are in scope.
#[tactic(auto, using(crate::proofs::Rulesets::composed))]
pub(crate) fn is_crowded(scope: &Scope<'_>, list: VariableList<'_>) -> bool
    ensures { result ≡ is_crowded scope.now (variables_tree list.entry) }
{
    scope.len() + list.variables.len() > 32
}

/// Variables with their bound, and what is in scope with them.
#[derive(Drop)]
pub(crate) struct BoundVariables<'a> {
    /// What is in scope with them.
    pub(crate) inner: Scope<'a>,
    /// The variables.
    pub(crate) vars: Vars,
    /// The bound that gives them their values.
    pub(crate) bound: Bound,
}

/// Variables with their bound.
#[tactic(auto, using(crate::proofs::Rulesets::composed))]
pub(crate) fn bound_variables<'a>(
    vocabulary: &Vocabulary<'_, NameSignature<'_>>,
    scope: &Scope<'a>,
    binding: Binding<'a>,
) -> Result<BoundVariables<'a>, FormFault>
    requires room { is_crowded scope.now (variables_tree binding.list) ≡ false }
    ensures { ReadsBinding vocabulary.now scope.now binding.entry result }
{
    let forms = binding.list.variables;
    check_variables(vocabulary.alloc, scope, forms, binding.bound)?;
    let inner = with_variables(vocabulary.alloc, scope, forms)?;
    let vars = variables(vocabulary.alloc, vocabulary.names, scope.len(), forms)?;
    let bound = bound(vocabulary, &inner, binding.bound)?;
    Ok(BoundVariables { inner, vars, bound })
}
