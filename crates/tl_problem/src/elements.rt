// The elements of `init` and of `goal`.
ghost use Rattle.tl_sexpr.specs.Tree.{tree_of};
ghost use Rattle.tl_rules.specs.Reads.{trees_in};
ghost use Rattle.tl_rules.specs.Calls.{call_tree};
ghost use Rattle.tl_problem.specs.ElementWords as word;
ghost use Rattle.tl_problem.specs.ElementWords.{element_word};
ghost use Rattle.tl_problem.specs.Readers.{AddsCall, AddsElement, AddsElements};

use crate::facts::{equality, fact, negation};
use crate::literals::LiteralTables;
use tl_rules::parts::offset;
use tl_rules::{Call, FormFault, Rule, Vocabulary, breaks, call_in};
use tl_sexpr::Form;
use tl_syntax::Domain;

/// Where the elements of a problem file stand.
#[derive(Clone, Copy)]
pub enum Section {
    /// In `init`, which says what is true at first.
    Init,
    /// In `goal`, which says what is wanted, and where facts may be negated.
    Goal,
}

/// Reads a fact `(p c*)`.
#[tactic(auto, using(crate::proofs::OrElse::in_turn))]
fn read_fact(
    vocabulary: &Vocabulary<'_, Domain>,
    literals: &mut LiteralTables,
    call: Call<'_>,
) -> Result<(), FormFault>
    ensures { AddsCall result vocabulary.now word.Fact (call_tree call.entry) literals.old
        literals.new }
{
    let predicates = vocabulary.declared.predicates.as_slice();
    let fact = fact(vocabulary.alloc, vocabulary.names, predicates, call)?;
    literals.add_fact(fact, call.at)
}

/// Reads a negated fact `(not X)`.
#[tactic(auto, using(crate::proofs::OrElse::in_turn))]
fn read_negation(
    vocabulary: &Vocabulary<'_, Domain>,
    literals: &mut LiteralTables,
    call: Call<'_>,
) -> Result<(), FormFault>
    ensures { AddsCall result vocabulary.now word.Negation (call_tree call.entry) literals.old
        literals.new }
{
    let predicates = vocabulary.declared.predicates.as_slice();
    let fact = negation(vocabulary.alloc, vocabulary.names, predicates, call)?;
    literals.add_not(fact, call.at)
}

/// Reads an equality `(= X c)`.
#[tactic(auto, using(crate::proofs::OrElse::in_turn))]
fn read_equality(
    vocabulary: &Vocabulary<'_, Domain>,
    literals: &mut LiteralTables,
    call: Call<'_>,
) -> Result<(), FormFault>
    ensures { AddsCall result vocabulary.now word.Equality (call_tree call.entry) literals.old
        literals.new }
{
    let functions = vocabulary.declared.functions.as_slice();
    let entry = equality(vocabulary.alloc, vocabulary.names, functions, call)?;
    literals.add_value(entry, call.at)
}

/// Reads an element that begins with a symbol.
fn read_call(
    vocabulary: &Vocabulary<'_, Domain>,
    section: Section,
    literals: &mut LiteralTables,
    call: Call<'_>,
) -> Result<(), FormFault>
    ensures { AddsCall result vocabulary.now (element_word section call.entry.word.now)
        (call_tree call.entry) literals.old literals.new }
{
    match (section, call.word) {
        (_, "=") => read_equality(vocabulary, literals, call),
        (Section::Goal, "not") => read_negation(vocabulary, literals, call),
        _ => read_fact(vocabulary, literals, call),
    }
}

/// Reads an element.
fn read_element(
    vocabulary: &Vocabulary<'_, Domain>,
    section: Section,
    literals: &mut LiteralTables,
    form: &Form,
) -> Result<(), FormFault>
    ensures { AddsElement result vocabulary.now section (tree_of form.now) literals.old
        literals.new }
{
    match call_in(form) {
        Some(call) => read_call(vocabulary, section, literals, call),
        None => Err(breaks(Rule::Shape, offset(form))),
    }
}

/// Reads elements one after the other.
#[tactic(auto, using(crate::proofs::Rulesets::composed))]
pub(crate) fn read_elements(
    vocabulary: &Vocabulary<'_, Domain>,
    section: Section,
    literals: &mut LiteralTables,
    forms: &[Form],
) -> Result<(), FormFault>
    ensures { AddsElements result vocabulary.now section (trees_in forms.now) literals.old
        literals.new }
{
    for form in forms {
        read_element(vocabulary, section, literals, form)?;
    }
    Ok(())
}
