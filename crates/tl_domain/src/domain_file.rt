// The domain form, which is the one form of a file.
ghost use Rattle.std.specs.Prelude.{◌≡◌};
ghost use Rattle.tl_sexpr.specs.Tree.{list, tree_of};
ghost use Rattle.tl_rules.specs.Parts.{elements_of};
ghost use Rattle.tl_rules.specs.Reads.{Reads, trees_in};
ghost use Rattle.tl_rules.specs.Symbols.{number_in};
ghost use Rattle.tl_domain.specs.Declarations.{nothing_declared};
ghost use Rattle.tl_domain.specs.DomainFiles.{domain_form_breaks, domain_file_breaks};
ghost use Rattle.tl_domain.specs.DomainTrees.{domain_tree};
ghost use Rattle.tl_domain.specs.Items.{items_breaks};
ghost use Rattle.tl_domain.specs.MeaningOfItems.{with_items, empty_domain, domain_meant, domain_file_meant};

use crate::draft::{Draft, empty_draft};
use crate::items::items;
use crate::parts::name_in;
use std::alloc::Global;
use tl_rules::parts::{is_word, split_first};
use tl_rules::{FormFault, Rule, breaks, check_last, number_of};
use tl_sexpr::Form;
use tl_syntax::{Domain, Names};

/// The domain of a name with these items.
fn named_domain(
    alloc: Global,
    names: &Names,
    text: &str,
    forms: &[Form],
) -> Result<Domain, FormFault>
    ensures { Reads domain_tree result (items_breaks nothing_declared (trees_in forms.now))
        (with_items names.now nothing_declared (empty_domain (number_in names.now text.now))
        (trees_in forms.now)) }
{
    let mut draft = empty_draft(alloc, number_of(names, text));
    match items(alloc, names, &mut draft, forms) {
        Ok(()) => Ok(into_domain(draft)),
        Err(fault) => {
            drop(draft);
            Err(fault)
        }
    }
}

/// The domain that a draft stands for.
fn into_domain(draft: Draft<'_>) -> Domain
    ensures { result ≡ draft.entry.domain }
{
    let Draft {
        signature,
        operators,
        levels: _,
        controlled: _,
        domain,
    } = draft;
    drop(signature);
    drop(operators);
    domain
}

/// The domain of a domain form, by the elements of its list and its offset.
#[tactic(auto, using(crate::proofs::DomainParts::domain_parts))]
fn domain_list(alloc: Global, names: &Names, forms: &[Form], at: u32) -> Result<Domain, FormFault>
    ensures { Reads domain_tree result (domain_form_breaks (list (trees_in forms.now) at))
        (domain_meant names.now (trees_in forms.now)) }
{
    let Some((word, later)) = split_first(forms) else {
        return Err(breaks(Rule::Shape, at));
    };
    let Some((name, items)) = split_first(later) else {
        return Err(breaks(Rule::Shape, at));
    };
    let Some(name) = name_in(name) else {
        return Err(breaks(Rule::Shape, at));
    };
    if !is_word("domain", word) {
        return Err(breaks(Rule::Shape, at));
    }
    named_domain(alloc, names, name.text, items)
}

/// The domain of a domain form.
#[tactic(auto, using(crate::proofs::Rulesets::form_trees))]
fn domain_form(alloc: Global, names: &Names, form: &Form) -> Result<Domain, FormFault>
    ensures { Reads domain_tree result (domain_form_breaks (tree_of form.now))
        (domain_meant names.now (elements_of (tree_of form.now))) }
{
    match form {
        Form::Sym(_, at) | Form::Int(_, at) => Err(breaks(Rule::Shape, *at)),
        Form::List(forms, at) => domain_list(alloc, names, forms.as_slice(), *at),
    }
}

/// The domain of the forms of a file, whose symbols are among the names.
#[tactic(auto, using(crate::proofs::Rulesets::composed))]
pub(crate) fn domain_file(alloc: Global, names: &Names, forms: &[Form]) -> Result<Domain, FormFault>
    ensures { Reads domain_tree result (domain_file_breaks (trees_in forms.now))
        (domain_file_meant names.now (trees_in forms.now)) }
{
    let Some((first, later)) = split_first(forms) else {
        return Err(breaks(Rule::Shape, 0));
    };
    let domain = domain_form(alloc, names, first)?;
    check_last(later)?;
    Ok(domain)
}
