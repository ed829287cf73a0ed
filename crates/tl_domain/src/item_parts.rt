// Items by their first word: what the elements after it declare, and what they stand for.
ghost use Rattle.std.specs.Prelude.{◌≡◌, ◌≤◌, ◌<◌, ◌++◌, [], ◌∷◌, ℕ, List, OnOk, length};
ghost use Rattle.tl_rules.specs.Calls.{call_tree};
ghost use Rattle.tl_rules.specs.Reads.{Reads, trees_in};
ghost use Rattle.tl_rules.specs.Symbols.{number_in};
ghost use Rattle.tl_domain.specs.Items.{declaration_of, new_declaration_breaks};
ghost use Rattle.tl_domain.specs.Readers.{AddsItem, ReadsArity};
ghost use Rattle.tl_domain.specs.Words as item;

use crate::clauses::clauses_in;
use crate::definitions::{arity, check_free, definition, definition_head, levels};
use crate::draft::Draft;
use crate::item_shapes::{Declaration, declaration_in, define_in, defined_in};
use crate::operators::{operator, operator_head};
use crate::parts::list_in;
use std::alloc::{AllocError, Global};
use tl_formulas::{FormulaRole, NameSignature, Scope, Table, formula};
use tl_rules::parts::{one, split_first};
use tl_rules::{Call, FormFault, Rule, Vocabulary, breaks, number_of};
use tl_syntax::{Declared, Declareds, Names};

/// The number of arguments of a declaration, whose name is new.
#[tactic(auto, using(crate::proofs::Rulesets::composed))]
fn declared_arity(
    signature: &NameSignature<'_>,
    declaration: Declaration<'_>,
) -> Result<u32, FormFault>
    ensures { ReadsArity result signature.now declaration.entry }
{
    check_free(signature, declaration.name)?;
    arity(declaration.arity)
}

/// The name and the number of arguments of a declaration, before which there are so many of its
/// kind.
#[tactic(auto, using(crate::proofs::Rulesets::items))]
fn declared<'a>(
    signature: &NameSignature<'_>,
    before: usize,
    call: Call<'a>,
) -> Result<(&'a str, u32), FormFault>
    ensures read { Reads {Y = List ℕ × ℕ} (λ x. (x.0.now, x.1)) result
        (new_declaration_breaks signature.now before (trees_in call.entry.rest.now) call.entry.at)
        (declaration_of (trees_in call.entry.rest.now)) }
    ensures few { OnOk result (before < 256) }
{
    let Some(declaration) = declaration_in(call.rest) else {
        return Err(breaks(Rule::Shape, call.at));
    };
    if before >= 256 {
        return Err(breaks(Rule::Limit, call.at));
    }
    let arity = declared_arity(signature, declaration)?;
    Ok((declaration.name.text, arity))
}

/// A name of a kind with its number of arguments joins the names and the declarations of that kind.
fn declare<'a>(
    names: &Names,
    text: &'a str,
    arity: u32,
    table: &mut Table<'a>,
    listed: &mut Declareds,
) -> Result<(), AllocError>
    requires { length table.old < 256 }
    ensures table { OnOk result (table.new ≡ table.old ++ (text.now, arity) ∷ []) }
    ensures listed { OnOk result (listed.new ≡ listed.old
        ++ record { name = number_in names.now text.now; arity = arity } ∷ []) }
{
    table.push(text, arity)?;
    let name = number_of(names, text);
    listed.push(Declared { name, arity })?;
    Ok(())
}

/// An item `(predicate NAME ARITY)`.
#[tactic(auto, using(crate::proofs::Rulesets::items))]
pub(crate) fn predicate<'a>(
    names: &Names,
    draft: &mut Draft<'a>,
    call: Call<'a>,
) -> Result<(), FormFault>
    ensures { AddsItem result names.now item.Predicate (call_tree call.entry) draft.old draft.new }
{
    let before = draft.signature.predicates.len();
    let (text, arity) = declared(&draft.signature, before, call)?;
    declare(
        names,
        text,
        arity,
        &mut draft.signature.predicates,
        &mut draft.domain.predicates,
    )?;
    Ok(())
}

/// An item `(function NAME ARITY)`.
#[tactic(auto, using(crate::proofs::Rulesets::items))]
pub(crate) fn function<'a>(
    names: &Names,
    draft: &mut Draft<'a>,
    call: Call<'a>,
) -> Result<(), FormFault>
    ensures { AddsItem result names.now item.Function (call_tree call.entry) draft.old draft.new }
{
    let before = draft.signature.functions.len();
    let (text, arity) = declared(&draft.signature, before, call)?;
    declare(
        names,
        text,
        arity,
        &mut draft.signature.functions,
        &mut draft.domain.functions,
    )?;
    Ok(())
}

/// An item `(define HEAD F)`, whose name can be used only after it.
#[tactic(auto, using(crate::proofs::Rulesets::items))]
pub(crate) fn define<'a>(
    alloc: Global,
    names: &Names,
    draft: &mut Draft<'a>,
    call: Call<'a>,
) -> Result<(), FormFault>
    ensures { AddsItem result names.now item.Define (call_tree call.entry) draft.old draft.new }
{
    let Some(parts) = define_in(call.rest) else {
        return Err(breaks(Rule::Shape, call.at));
    };
    if draft.signature.definitions.len() >= 64 {
        return Err(breaks(Rule::Limit, call.at));
    }
    let head = definition_head(alloc, &draft.signature, parts.head)?;
    let vocabulary = Vocabulary {
        alloc,
        names,
        declared: &draft.signature,
    };
    let definition = definition(&vocabulary, &head, 1, parts.body)?;
    let count = head.variables.len() as u32;
    draft.signature.definitions.push(head.name.text, count)?;
    draft.domain.definitions.push(definition)?;
    Ok(())
}

/// An item `(defined N HEAD F)`, whose name can be used in its own body.
#[tactic(auto, using(crate::proofs::Rulesets::items))]
pub(crate) fn defined<'a>(
    alloc: Global,
    names: &Names,
    draft: &mut Draft<'a>,
    call: Call<'a>,
) -> Result<(), FormFault>
    requires few { draft.old.levels ≤ 64 }
    ensures read { AddsItem result names.now item.Defined (call_tree call.entry) draft.old
        draft.new }
    ensures few { OnOk result (draft.new.levels ≤ 64) }
{
    let Some(parts) = defined_in(call.rest) else {
        return Err(breaks(Rule::Shape, call.at));
    };
    if draft.signature.definitions.len() >= 64 {
        return Err(breaks(Rule::Limit, call.at));
    }
    let levels = levels(draft.levels, parts.levels)?;
    let head = definition_head(alloc, &draft.signature, parts.head)?;
    let count = head.variables.len() as u32;
    draft.signature.definitions.push(head.name.text, count)?;
    let vocabulary = Vocabulary {
        alloc,
        names,
        declared: &draft.signature,
    };
    let definition = definition(&vocabulary, &head, levels, parts.body)?;
    draft.domain.definitions.push(definition)?;
    draft.levels += levels;
    Ok(())
}

/// An item `(operator HEAD CLAUSE*)`.
#[tactic(auto, using(crate::proofs::Rulesets::items))]
pub(crate) fn operator_item<'a>(
    alloc: Global,
    names: &Names,
    draft: &mut Draft<'a>,
    call: Call<'a>,
) -> Result<(), FormFault>
    ensures { AddsItem result names.now item.Operator (call_tree call.entry) draft.old draft.new }
{
    let Some((head, rest)) = split_first(call.rest) else {
        return Err(breaks(Rule::Shape, call.at));
    };
    let Some(list) = list_in(head) else {
        return Err(breaks(Rule::Shape, call.at));
    };
    let Some(clauses) = clauses_in(rest) else {
        return Err(breaks(Rule::Shape, call.at));
    };
    if draft.operators.len() >= 256 {
        return Err(breaks(Rule::Limit, call.at));
    }
    let head = operator_head(alloc, &draft.operators, clauses.bounds, list)?;
    let vocabulary = Vocabulary {
        alloc,
        names,
        declared: &draft.signature,
    };
    let operator = operator(&vocabulary, &head, clauses)?;
    draft.operators.push(head.name.text)?;
    draft.domain.operators.push(operator)?;
    Ok(())
}

/// An item `(control F)`, of which there is one at most.
#[tactic(auto, using(crate::proofs::Rulesets::items))]
pub(crate) fn control<'a>(
    alloc: Global,
    names: &Names,
    draft: &mut Draft<'a>,
    call: Call<'a>,
) -> Result<(), FormFault>
    ensures { AddsItem result names.now item.Control (call_tree call.entry) draft.old draft.new }
{
    let Some(form) = one(call.rest) else {
        return Err(breaks(Rule::Shape, call.at));
    };
    if draft.controlled {
        return Err(breaks(Rule::Twice, call.at));
    }
    let empty = Scope::new(alloc);
    let vocabulary = Vocabulary {
        alloc,
        names,
        declared: &draft.signature,
    };
    draft.domain.control = formula(&vocabulary, &empty, FormulaRole::Control, form)?;
    draft.controlled = true;
    Ok(())
}
