// Proof files.
ghost use Rattle.std.specs.Prelude.{◌≡◌, ◌<◌, ◌≤◌, ℕ, List, Option, length, not, option_map, IfErr, IfOk};
ghost use Rattle.tl_sexpr.specs.Offsets.{AreAsRead};
ghost use Rattle.tl_sexpr.specs.Tree.{tree_of, trees_of};
ghost use Rattle.tl_rules.specs.Parts.{is_within, natural};
ghost use Rattle.tl_rules.specs.Reads.{Reads, IsLeastFault, trees_in};
ghost use Rattle.tl_rules.specs.Rules.{breaks_if};
ghost use Rattle.tl_line.specs.NamedActions.{ActionIsNamed};
ghost use Rattle.tl_cert.specs.declared.proof.Link.{Link};
ghost use Rattle.tl_cert.specs.declared.proof.Proof.{Proof};
ghost use Rattle.tl_cert.specs.MeaningOfProofs.{length_bound_meant, link_meant, links_meant, proof_meant};
ghost use Rattle.tl_cert.specs.ProofFiles.{bounded_head, proof_head_breaks, head_in, head_parts, link_breaks, link_in, link_of_three, link_parts, links_breaks, proof_breaks};
ghost use Rattle.tl_cert.specs.ProofTexts.{LinksAreNamed};

use crate::proof::{Link, Links, Proof};
use std::alloc::Global;
use tl_line::action_of;
use tl_rules::parts::{is_call, is_word, offset, one, split_first, three, two};
use tl_rules::{FormFault, Rule, breaks};
use tl_sexpr::{Form, Forms};
use tl_syntax::Problem;

/// How many links a proof file may have.
const MOST_LINKS: usize = 100_000;

/// The integer, where it is from 0 to `most`; else the form at this offset breaks this rule.
fn number_within(number: i64, most: u32, broken: Rule, at: u32) -> Result<u32, FormFault>
    ensures { Reads (λ (x : ℕ). x) result (breaks_if (not (is_within 0 most number)) broken at)
        (natural number) }
{
    if number < 0 || number > i64::from(most) {
        return Err(breaks(broken, at));
    }
    Ok(number as u32)
}

/// The bound of the head with one element more than its word, with its offset, where these two are
/// a head.
#[tactic(auto, using(crate::proofs::Rulesets::form_trees))]
fn bounded_head(word: &Form, bound: &Form) -> Option<Option<(i64, u32)>>
    ensures { result ≡ bounded_head (tree_of word.now) (tree_of bound.now) }
{
    match bound {
        Form::Sym(_, _) => None,
        Form::Int(number, at) => {
            if is_word("none-within", word) {
                Some(Some((*number, *at)))
            } else {
                None
            }
        }
        Form::List(_, _) => None,
    }
}

/// The bound of the head with these elements, with its offset, where it has one; other elements are
/// no head.
#[tactic(auto, using(crate::proofs::ProofForms::head_elements))]
fn head_in(forms: &[Form]) -> Option<Option<(i64, u32)>>
    ensures { result ≡ head_in (trees_in forms.now) }
{
    if let Some(word) = one(forms) {
        return if is_word("none", word) {
            Some(None)
        } else {
            None
        };
    }
    match two(forms) {
        Some((word, bound)) => bounded_head(word, bound),
        None => None,
    }
}

/// The bound of a head, with its offset, where it has one; other forms are no head.
#[tactic(auto, using(crate::proofs::Rulesets::form_trees))]
fn head_parts(form: &Form) -> Option<Option<(i64, u32)>>
    ensures { result ≡ head_parts (tree_of form.now) }
{
    match form {
        Form::Sym(_, _) => None,
        Form::Int(_, _) => None,
        Form::List(forms, _) => head_in(forms.as_slice()),
    }
}

/// The bound of the head of a proof file.
fn head(form: &Form) -> Result<Option<u32>, FormFault>
    ensures { Reads (λ (x : Option ℕ). x) result (proof_head_breaks (tree_of form.now))
        (length_bound_meant (tree_of form.now)) }
{
    match head_parts(form) {
        None => Err(breaks(Rule::Shape, offset(form))),
        Some(None) => Ok(None),
        Some(Some((number, at))) => Ok(Some(number_within(number, 100_000, Rule::Limit, at)?)),
    }
}

/// The number of the search node of a link with these three elements, with its offset, and the form
/// of its action; other elements are no link.
#[tactic(auto, using(crate::proofs::Rulesets::form_trees))]
fn three_parts<'a>(word: &Form, from: &Form, action: &'a Form) -> Option<(i64, u32, &'a Form)>
    ensures { option_map (λ parts. (parts.0, parts.1, tree_of parts.2.now)) result
        ≡ link_of_three (tree_of word.now) (tree_of from.now) (tree_of action.entry.now) }
{
    match from {
        Form::Sym(_, _) => None,
        Form::Int(number, at) => {
            if is_word("pair", word) && is_call(action) {
                Some((*number, *at, action))
            } else {
                None
            }
        }
        Form::List(_, _) => None,
    }
}

/// The parts of a link, by its elements.
#[tactic(auto, using(crate::proofs::ProofForms::link_elements))]
fn link_in(forms: &[Form]) -> Option<(i64, u32, &Form)>
    ensures { option_map (λ parts. (parts.0, parts.1, tree_of parts.2.now)) result
        ≡ link_in (trees_in forms.now) }
{
    match three(forms) {
        Some((word, from, action)) => three_parts(word, from, action),
        None => None,
    }
}

/// The parts of a link; other forms are no link.
#[tactic(auto, using(crate::proofs::Rulesets::form_trees))]
fn link_parts(form: &Form) -> Option<(i64, u32, &Form)>
    ensures { option_map (λ parts. (parts.0, parts.1, tree_of parts.2.now)) result
        ≡ link_parts (tree_of form.now) }
{
    match form {
        Form::Sym(_, _) => None,
        Form::Int(_, _) => None,
        Form::List(forms, _) => link_in(forms.as_slice()),
    }
}

/// The link of a form with so many links before it.
fn link(alloc: Global, form: &Form, problem: &Problem, before: usize) -> Result<Link, FormFault>
    ensures read { Reads (λ (x : Link). x) result
        (link_breaks problem.now.names problem.now.domain.operators before (tree_of form.now))
        (link_meant problem.now.names problem.now.domain.operators (tree_of form.now)) }
    ensures named { IfOk result
        (λ link. ActionIsNamed problem.now.names problem.now.domain.operators link.action) }
    ensures few { IfOk result (λ _. before < 100000) }
{
    let Some((number, at, action)) = link_parts(form) else {
        return Err(breaks(Rule::Shape, offset(form)));
    };
    if before >= MOST_LINKS {
        return Err(breaks(Rule::Limit, offset(form)));
    }
    let from = number_within(number, before as u32, Rule::NoPair, at)?;
    let action = action_of(alloc, action, problem)?;
    Ok(Link { from, action })
}

/// The links of forms.
#[tactic(auto, using(crate::proofs::Rulesets::composed, crate::proofs::Rulesets::each_more))]
fn links(alloc: Global, forms: &[Form], problem: &Problem) -> Result<Links, FormFault>
    ensures read { Reads (λ (xs : List Link). xs) result
        (links_breaks problem.now.names problem.now.domain.operators 0 (trees_in forms.now))
        (links_meant problem.now.names problem.now.domain.operators (trees_in forms.now)) }
    ensures few { IfOk result (λ links. length links ≤ 100000) }
    ensures named { IfOk result (LinksAreNamed problem.now.names problem.now.domain.operators) }
{
    let mut links = Links::new(alloc);
    for form in forms {
        let link = link(alloc, form, problem, links.len())?;
        links.push(link)?;
    }
    Ok(links)
}

/// The proof that forms stand for.
fn proof(alloc: Global, forms: &[Form], problem: &Problem) -> Result<Proof, FormFault>
    ensures read { Reads (λ (x : Proof). x) result
        (proof_breaks problem.now.names problem.now.domain.operators (trees_in forms.now))
        (proof_meant problem.now.names problem.now.domain.operators (trees_in forms.now)) }
    ensures few { IfOk result (λ proof. length proof.links ≤ 100000) }
    ensures named { IfOk result
        (λ proof. LinksAreNamed problem.now.names problem.now.domain.operators proof.links) }
{
    let Some((first, rest)) = split_first(forms) else {
        return Err(breaks(Rule::Shape, 0));
    };
    let bound = head(first)?;
    let links = links(alloc, rest, problem)?;
    Ok(Proof { bound, links })
}

/// The proof that the forms of a proof file stand for: `(none)` or `(none-within N)`, N at most
/// 100,000, and then at most 100,000 links `(pair J ACTION)`, J at most the number of links before.
/// Or the fault with the least offset, and there the least rule.
#[tactic(auto, using(crate::proofs::Rulesets::form_trees, crate::proofs::ProofOrder::least_fault))]
pub fn proof_of(alloc: Global, forms: &Forms, problem: &Problem) -> Result<Proof, FormFault>
    ensures read { Reads (λ (x : Proof). x) result
        (proof_breaks problem.now.names problem.now.domain.operators (trees_of forms.now))
        (proof_meant problem.now.names problem.now.domain.operators (trees_of forms.now)) }
    ensures least { AreAsRead (trees_of forms.now) → IfErr result
        (IsLeastFault
        (proof_breaks problem.now.names problem.now.domain.operators (trees_of forms.now))) }
    ensures few { IfOk result (λ proof. length proof.links ≤ 100000) }
    ensures named { IfOk result
        (λ proof. LinksAreNamed problem.now.names problem.now.domain.operators proof.links) }
{
    proof(alloc, forms.as_slice(), problem)
}
