// Items in their order, of which each may use what those before it declare.
ghost use Rattle.std.specs.Prelude.{◌≤◌, OnOk};
ghost use Rattle.tl_sexpr.specs.Tree.{tree_of};
ghost use Rattle.tl_rules.specs.Reads.{trees_in};
ghost use Rattle.tl_domain.specs.Readers.{AddsItem, AddsForm, AddsItems};
ghost use Rattle.tl_domain.specs.Words.{item_word};
ghost use Rattle.tl_rules.specs.Calls.{call_tree};

use crate::draft::Draft;
use crate::item_parts::{control, define, defined, function, operator_item, predicate};
use std::alloc::Global;
use tl_rules::parts::offset;
use tl_rules::{Call, FormFault, Rule, breaks, call_in};
use tl_sexpr::Form;
use tl_syntax::Names;

/// An item that begins with a symbol.
#[tactic(auto, using(crate::proofs::ItemOrder::few_levels))]
fn called_item<'a>(
    alloc: Global,
    names: &Names,
    draft: &mut Draft<'a>,
    call: Call<'a>,
) -> Result<(), FormFault>
    requires few { draft.old.levels ≤ 64 }
    ensures read { AddsItem result names.now (item_word call.entry.word.now) (call_tree call.entry)
        draft.old draft.new }
    ensures few { OnOk result (draft.new.levels ≤ 64) }
{
    match call.word {
        "predicate" => predicate(names, draft, call),
        "function" => function(names, draft, call),
        "define" => define(alloc, names, draft, call),
        "defined" => defined(alloc, names, draft, call),
        "operator" => operator_item(alloc, names, draft, call),
        "control" => control(alloc, names, draft, call),
        _ => Err(breaks(Rule::Shape, call.at)),
    }
}

/// An item, which joins the draft.
fn item<'a>(
    alloc: Global,
    names: &Names,
    draft: &mut Draft<'a>,
    form: &'a Form,
) -> Result<(), FormFault>
    requires few { draft.old.levels ≤ 64 }
    ensures read { AddsForm result names.now (tree_of form.now) draft.old draft.new }
    ensures few { OnOk result (draft.new.levels ≤ 64) }
{
    match call_in(form) {
        Some(call) => called_item(alloc, names, draft, call),
        None => Err(breaks(Rule::Shape, offset(form))),
    }
}

/// Items one after the other, which join the draft.
#[tactic(auto, using(crate::proofs::Rulesets::composed))]
pub(crate) fn items<'a>(
    alloc: Global,
    names: &Names,
    draft: &mut Draft<'a>,
    forms: &'a [Form],
) -> Result<(), FormFault>
    requires few { draft.old.levels ≤ 64 }
    ensures { AddsItems result names.now (trees_in forms.now) draft.old draft.new }
{
    for form in forms {
        item(alloc, names, draft, form)?;
    }
    Ok(())
}
