// Declarations and definitions.
ghost use Rattle.std.specs.Prelude.{◌≡◌, ◌+◌, ◌≤◌, ℕ, length, IfOk};
ghost use Rattle.tl_sexpr.specs.Tree.{tree_of};
ghost use Rattle.tl_rules.specs.Reads.{Reads, Checks};
ghost use Rattle.tl_rules.specs.Rules.{breaks_if};
ghost use Rattle.tl_rules.specs.declared.rule.Rule.TheVariants.{Twice};
ghost use Rattle.tl_formulas.specs.Signatures.{is_taken};
ghost use Rattle.tl_domain.specs.Items.{arity_breaks, levels_breaks, natural_of};
ghost use Rattle.tl_domain.specs.Parts.{integer_tree, list_tree};
ghost use Rattle.tl_domain.specs.Readers.{ReadsDefinitionHead, ReadsDefinition};

use crate::heads::{Head, Within, check_parameters, read_head};
use crate::parts::{Integer, List, Name};
use std::alloc::Global;
use tl_formulas::variables::{variables, with_variables};
use tl_formulas::{FormulaRole, NameSignature, Scope, formula, is_reserved};
use tl_rules::{FormFault, Rule, Vocabulary, breaks, number_of};
use tl_sexpr::Form;
use tl_syntax::Definition;

/// Whether a name is a word of the language, or that of an earlier predicate, function or
/// definition.
pub(crate) fn is_taken(signature: &NameSignature<'_>, text: &str) -> bool
    ensures { result ≡ is_taken signature.now text.now }
{
    is_reserved(text)
        || signature.predicates.place(text).is_some()
        || signature.functions.place(text).is_some()
        || signature.definitions.place(text).is_some()
}

/// Checks that the name of a predicate, a function or a definition is new.
pub(crate) fn check_free(signature: &NameSignature<'_>, name: Name<'_>) -> Result<(), FormFault>
    ensures { Checks result (breaks_if (is_taken signature.now name.entry.text.now) Twice
        name.entry.at) }
{
    if is_taken(signature, name.text) {
        return Err(breaks(Rule::Twice, name.at));
    }
    Ok(())
}

/// The number of arguments of a declaration, from 0 to 8.
pub(crate) fn arity(number: Integer) -> Result<u32, FormFault>
    ensures { Reads (λ (x : ℕ). x) result (arity_breaks (integer_tree number))
        (natural_of (integer_tree number)) }
{
    if number.value < 0 || number.value > 8 {
        return Err(breaks(Rule::Limit, number.at));
    }
    Ok(number.value as u32)
}

/// The number of levels of a definition, at least 1, which together with those before is at most
/// 64.
pub(crate) fn levels(before: u32, number: Integer) -> Result<u32, FormFault>
    requires few { before ≤ 64 }
    ensures read { Reads (λ (x : ℕ). x) result (levels_breaks before (integer_tree number))
        (natural_of (integer_tree number)) }
    ensures few { IfOk result (λ x. before + x ≤ 64) }
{
    if number.value < 1 || number.value > 64 - before as i64 {
        return Err(breaks(Rule::Limit, number.at));
    }
    Ok(number.value as u32)
}

/// The head of a definition, whose name is new.
#[tactic(auto, using(crate::proofs::Rulesets::heads))]
pub(crate) fn definition_head<'a>(
    alloc: Global,
    signature: &NameSignature<'_>,
    list: List<'a>,
) -> Result<Head<'a>, FormFault>
    ensures read { ReadsDefinitionHead result signature.now (list_tree list.entry) }
    ensures few { IfOk result (λ x. length x.variables.now ≤ 8) }
{
    let head = read_head(8, list)?;
    check_free(signature, head.name)?;
    check_parameters(alloc, Within::Nothing, head.variables)?;
    Ok(head)
}

/// A definition of so many levels, by its head and the form of its body.
#[tactic(auto, using(crate::proofs::Rulesets::composed))]
pub(crate) fn definition(
    vocabulary: &Vocabulary<'_, NameSignature<'_>>,
    head: &Head<'_>,
    levels: u32,
    body: &Form,
) -> Result<Definition, FormFault>
    requires { length head.now.variables.now ≤ 32 }
    ensures { ReadsDefinition result vocabulary.now head.now levels (tree_of body.now) }
{
    let empty = Scope::new(vocabulary.alloc);
    let scope = with_variables(vocabulary.alloc, &empty, head.variables)?;
    let body = formula(vocabulary, &scope, FormulaRole::Body, body)?;
    let params = variables(vocabulary.alloc, vocabulary.names, 0, head.variables)?;
    let name = number_of(vocabulary.names, head.name.text);
    Ok(Definition {
        name,
        params,
        body,
        levels,
    })
}
