// What a formula's list breaks itself, where it has the shape that its first word asks for.
ghost use Rattle.std.specs.Prelude.{◌≡◌, [], false, OnOk};
ghost use Rattle.tl_sexpr.specs.Tree.{tree_of};
ghost use Rattle.tl_formulas.specs.Formulas.{is_temporal, may_be_temporal, role_below, is_too_deep};
ghost use Rattle.tl_formulas.specs.Shapes.{word_of_parts, elements_of_parts, name_breaks_of, own_breaks_of, crowds};
ghost use Rattle.tl_rules.specs.Parts.{is_deeper, is_any_deeper};
ghost use Rattle.tl_rules.specs.Reads.{Checks, trees_in};

use crate::atoms::atom_name;
use crate::bindings::is_crowded;
use crate::roles::FormulaRole;
use crate::scope::Scope;
use crate::shapes::{Binary, FormulaParts, Unary};
use crate::signature::NameSignature;
use tl_rules::{Call, FormFault, Rule, breaks};
use tl_sexpr::Form;

/// Whether more lists than this number lie within one another in a form.
#[cycle(deeper)]
#[tactic(auto, using(crate::proofs::Rulesets::form_trees))]
fn is_deeper(limit: u32, form: &Form) -> bool
    ensures { result ≡ is_deeper limit (tree_of form.now) }
{
    match form {
        Form::Sym(_, _) => false,
        Form::Int(_, _) => false,
        Form::List(forms, _) => limit == 0 || is_any_deeper(limit - 1, forms.as_slice()),
    }
}

/// Whether more lists than this number lie within one another in one of the forms.
#[cycle(deeper)]
fn is_any_deeper(limit: u32, forms: &[Form]) -> bool
    ensures { result ≡ is_any_deeper limit (trees_in forms.now) }
{
    for form in forms {
        if is_deeper(limit, form) {
            return true;
        }
    }
    false
}

/// Whether the first word of a formula is temporal.
fn is_temporal(parts: FormulaParts<'_>) -> bool
    ensures { result ≡ is_temporal (word_of_parts parts.entry) }
{
    match parts {
        FormulaParts::One(word, _) => match word {
            Unary::Not => false,
            Unary::Next | Unary::Always | Unary::Eventually => true,
        },
        FormulaParts::Two(word, _) => match word {
            Binary::Implies => false,
            Binary::Until => true,
        },
        FormulaParts::Counted(_) => true,
        FormulaParts::Many(_, _)
        | FormulaParts::Quantified(_)
        | FormulaParts::Goal(_)
        | FormulaParts::Compare(_, _)
        | FormulaParts::Atom(_) => false,
    }
}

/// Whether temporal words may stand there.
fn may_be_temporal(role: FormulaRole) -> bool
    ensures { result ≡ may_be_temporal role }
{
    match role {
        FormulaRole::Control => true,
        FormulaRole::State | FormulaRole::Body => false,
    }
}

/// The role of the formulas in a formula.
pub(crate) fn role_below(role: FormulaRole) -> FormulaRole
    ensures { result ≡ role_below role }
{
    match role {
        FormulaRole::Control => FormulaRole::Control,
        FormulaRole::State | FormulaRole::Body => FormulaRole::State,
    }
}

/// Whether a list of these forms is the body of a definition and has more than 24 lists within one
/// another.
fn is_too_deep(role: FormulaRole, forms: &[Form]) -> bool
    ensures { result ≡ is_too_deep role (trees_in forms.now) }
{
    match role {
        FormulaRole::Control | FormulaRole::State => false,
        FormulaRole::Body => is_any_deeper(23, forms),
    }
}

/// Checks the name of an atom, and its number of arguments.
#[tactic(auto, using(crate::proofs::Rulesets::composed, crate::proofs::FormulaParts::formula_parts))]
fn check_name(
    signature: &NameSignature<'_>,
    parts: FormulaParts<'_>,
    call: Call<'_>,
) -> Result<(), FormFault>
    ensures { Checks result (name_breaks_of signature.now parts.entry call.entry) }
{
    match parts {
        FormulaParts::Atom(args) => match atom_name(signature, call.word, args.len(), call.at) {
            Ok(_) => Ok(()),
            Err(fault) => Err(fault),
        },
        _ => Ok(()),
    }
}

/// Whether with the variables of a quantifier more than 32 are in scope.
fn is_crowded_by(scope: &Scope<'_>, parts: FormulaParts<'_>) -> bool
    ensures { result ≡ crowds scope.now parts.entry }
{
    match parts {
        FormulaParts::Quantified(quantified) => is_crowded(scope, quantified.binding.list),
        _ => false,
    }
}

/// Checks a formula's list, of which these are the parts.
#[tactic(auto, using(crate::proofs::Rulesets::composed))]
pub(crate) fn check_formula_list(
    signature: &NameSignature<'_>,
    scope: &Scope<'_>,
    role: FormulaRole,
    parts: FormulaParts<'_>,
    call: Call<'_>,
) -> Result<(), FormFault>
    requires { trees_in call.rest.now ≡ elements_of_parts parts }
    ensures checked { Checks result
        (own_breaks_of role signature.now scope.now parts.entry call.entry) }
    ensures name { OnOk result (name_breaks_of signature.now parts.entry call.entry ≡ []) }
    ensures room { OnOk result (crowds scope.now parts.entry ≡ false) }
{
    check_name(signature, parts, call)?;
    if is_temporal(parts) && !may_be_temporal(role) {
        return Err(breaks(Rule::Temporal, call.at));
    }
    if is_crowded_by(scope, parts) || is_too_deep(role, call.rest) {
        return Err(breaks(Rule::Limit, call.at));
    }
    Ok(())
}
