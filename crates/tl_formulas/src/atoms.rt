// Atoms.
ghost use Rattle.std.specs.Prelude.{◌≡◌, []};
ghost use Rattle.tl_formulas.specs.declared.atoms.AtomName.{AtomName};
ghost use Rattle.tl_formulas.specs.declared.words.FormulaWord.TheVariants as word;
ghost use Rattle.tl_formulas.specs.Atoms.{atom_name};
ghost use Rattle.tl_formulas.specs.Formulas.{atom_breaks, name_breaks};
ghost use Rattle.tl_formulas.specs.Readers.{ReadsAtom};
ghost use Rattle.tl_rules.specs.Reads.{Reads, trees_in};

use crate::scope::Scope;
use crate::signature::NameSignature;
use crate::terms::{called, terms};
use tl_rules::{Call, FormFault, Rule, Vocabulary, breaks};
use tl_syntax::Formula;

/// What the first word of an atom names.
#[derive(Clone, Copy)]
pub(crate) enum AtomName {
    /// A declared predicate, by its place.
    Predicate(u32),
    /// A defined one.
    Definition(u32),
}

/// What an atom of this name with so many arguments names: a declared predicate, or else a defined
/// one.
pub(crate) fn atom_name(
    signature: &NameSignature<'_>,
    text: &str,
    count: usize,
    at: u32,
) -> Result<AtomName, FormFault>
    ensures { Reads (λ (x : AtomName). x) result (atom_breaks signature.now text.now count at)
        (atom_name signature.now text.now) }
{
    let Some(predicate) = signature.predicates.place(text) else {
        let definition = called(&signature.definitions, text, count, at)?;
        return Ok(AtomName::Definition(definition));
    };
    if !signature.predicates.has_arity(predicate, count) {
        return Err(breaks(Rule::Arity, at));
    }
    Ok(AtomName::Predicate(predicate))
}

/// An atom of a declared or a defined predicate.
#[tactic(auto, using(crate::proofs::Rulesets::formulas, crate::proofs::AtomNames::atom_names))]
pub(crate) fn atom(
    vocabulary: &Vocabulary<'_, NameSignature<'_>>,
    scope: &Scope<'_>,
    call: Call<'_>,
) -> Result<Formula, FormFault>
    requires { name_breaks vocabulary.now.declared.now word.Name call.word.now
        (trees_in call.rest.now) call.at ≡ [] }
    ensures { ReadsAtom vocabulary.now scope.now call.entry.word.now
        (trees_in call.entry.rest.now) result }
{
    let name = atom_name(vocabulary.declared, call.word, call.rest.len(), call.at)?;
    let terms = terms(vocabulary, scope, call.rest)?;
    match name {
        AtomName::Predicate(predicate) => Ok(Formula::Atom(predicate, terms)),
        AtomName::Definition(definition) => Ok(Formula::Defined(definition, terms)),
    }
}
