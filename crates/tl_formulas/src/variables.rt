// Variable lists.
ghost use Rattle.std.specs.Prelude.{◌≡◌, List, ℕ, ◌+◌, ◌++◌, ◌≤◌, [], length};
ghost use Rattle.tl_sexpr.specs.Tree.{list, tree_of};
ghost use Rattle.tl_syntax.specs.declared.variable.Var.{Var};
ghost use Rattle.tl_formulas.specs.MeaningOfFormulas.{variables_from};
ghost use Rattle.tl_rules.specs.Parts.{are_variables, is_variable_list, texts_of, occurs_in, occurs_in_any};
ghost use Rattle.tl_rules.specs.Reads.{Reads, Checks, trees_in};
ghost use Rattle.tl_formulas.specs.Variables.{variable_breaks, variables_breaks};
ghost use Rattle.tl_formulas.specs.Shapes.{FindsVariables};

use crate::scope::Scope;
use crate::shapes::VariableList;
use std::alloc::Global;
use tl_rules::parts::{is_variable, offset, symbol_text};
use tl_rules::{FormFault, Rule, breaks, number_of};
use tl_sexpr::Form;
use tl_syntax::{Names, Var, Vars};

/// Whether a symbol stands in a form, which may be the symbol itself.
#[cycle(occurs)]
#[tactic(auto, using(crate::proofs::Rulesets::form_trees))]
pub fn occurs(text: &str, form: &Form) -> bool
    ensures { result ≡ occurs_in text.now (tree_of form.now) }
{
    match form {
        Form::Sym(other, _) => text == other.as_str(),
        Form::Int(_, _) => false,
        Form::List(forms, _) => occurs_any(text, forms.as_slice()),
    }
}

/// Whether a symbol stands in one of the forms.
#[cycle(occurs)]
fn occurs_any(text: &str, forms: &[Form]) -> bool
    ensures { result ≡ occurs_in_any text.now (trees_in forms.now) }
{
    for form in forms {
        if occurs(text, form) {
            return true;
        }
    }
    false
}

/// Whether each of the forms is a variable.
pub fn are_variables(forms: &[Form]) -> bool
    ensures { result ≡ are_variables (trees_in forms.now) }
{
    for form in forms {
        match symbol_text(form) {
            Some(text) if is_variable(text) => {}
            _ => return false,
        }
    }
    true
}

/// The variables of a non-empty list of variables, and its offset.
#[tactic(auto, using(crate::proofs::Rulesets::form_trees, crate::proofs::VariableLists::variable_lists))]
pub(crate) fn variable_list(form: &Form) -> Option<VariableList<'_>>
    ensures { FindsVariables (tree_of form.now) result }
{
    match form {
        Form::Sym(_, _) => None,
        Form::Int(_, _) => None,
        Form::List(forms, at) => {
            if is_variable_list(forms.as_slice()) {
                Some(VariableList {
                    variables: forms.as_slice(),
                    at: *at,
                })
            } else {
                None
            }
        }
    }
}

/// Whether there are forms, and each is a variable.
fn is_variable_list(forms: &[Form]) -> bool
    ensures { result ≡ is_variable_list (list (trees_in forms.now) 0) }
{
    match forms {
        [] => false,
        _ => are_variables(forms),
    }
}

/// Checks a variable that stands after others of its list.
fn check_variable(
    earlier: &Scope<'_>,
    scope: &Scope<'_>,
    bound: &Form,
    text: &str,
    at: u32,
) -> Result<(), FormFault>
    ensures { Checks result
        (variable_breaks earlier.now scope.now (tree_of bound.now) text.now at) }
{
    if earlier.slot(text).is_some() {
        return Err(breaks(Rule::Twice, at));
    }
    if scope.slot(text).is_some() {
        return Err(breaks(Rule::Shadow, at));
    }
    if !occurs(text, bound) {
        return Err(breaks(Rule::NotInBound, at));
    }
    Ok(())
}

/// Checks the variables of a binding, at most 32.
#[tactic(auto, using(crate::proofs::VariableLists::variable_lists, crate::proofs::Rulesets::composed))]
pub(crate) fn check_variables(
    alloc: Global,
    scope: &Scope<'_>,
    variables: &[Form],
    bound: &Form,
) -> Result<(), FormFault>
    requires { length variables.now ≤ 32 }
    ensures { Checks result
        (variables_breaks [] scope.now (tree_of bound.now) (trees_in variables.now)) }
{
    let mut earlier = Scope::new(alloc);
    for form in variables {
        if let Some(text) = symbol_text(form) {
            check_variable(&earlier, scope, bound, text, offset(form))?;
            earlier.push(text)?;
        }
    }
    Ok(())
}

/// The scope with the variables of a list.
#[tactic(auto, using(crate::proofs::VariableLists::variable_lists, crate::proofs::Rulesets::composed))]
pub fn with_variables<'a>(
    alloc: Global,
    scope: &Scope<'a>,
    variables: &'a [Form],
) -> Result<Scope<'a>, FormFault>
    requires { length scope.now + length variables.now ≤ 32 }
    ensures { Reads (λ (x : List (List ℕ)). x) result []
        (scope.now ++ texts_of (trees_in variables.now)) }
{
    let mut inner = scope.copy(alloc)?;
    for form in variables {
        if let Some(text) = symbol_text(form) {
            inner.push(text)?;
        }
    }
    Ok(inner)
}

/// The variables of a list, in slots from this one on.
#[tactic(auto, using(crate::proofs::VariableLists::variable_lists, crate::proofs::Rulesets::composed))]
pub fn variables(
    alloc: Global,
    names: &Names,
    from: usize,
    variables: &[Form],
) -> Result<Vars, FormFault>
    requires { from + length variables.now ≤ 32 }
    ensures { Reads (λ (x : List Var). x) result []
        (variables_from names.now from (texts_of (trees_in variables.now))) }
{
    let mut vars = Vars::new(alloc);
    let mut slot = from as u32;
    for form in variables {
        if let Some(text) = symbol_text(form) {
            let name = number_of(names, text);
            vars.push(Var { slot, name })?;
            slot += 1;
        }
    }
    Ok(vars)
}
