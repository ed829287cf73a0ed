// Terms.
ghost use Rattle.std.specs.Prelude.{◌≡◌, Some, None};
ghost use Rattle.tl_sexpr.specs.Tree.{tree_of};
ghost use Rattle.tl_syntax.specs.TreeOfTerm.{tree_of_term};
ghost use Rattle.tl_formulas.specs.MeaningOfTerms.{term_of_argument};
ghost use Rattle.tl_formulas.specs.Readers.{ReadsTerm, ReadsTermCall, ReadsTerms};
ghost use Rattle.tl_formulas.specs.Signatures.{call_breaks, place_of};
ghost use Rattle.tl_formulas.specs.Words.{operation_named};
ghost use Rattle.tl_rules.specs.Reads.{Reads, trees_in};

use crate::arguments::symbol;
use crate::scope::Scope;
use crate::signature::{NameSignature, Table};
use crate::words::operation;
use tl_rules::parts::two;
use tl_rules::{Call, FormFault, Rule, Vocabulary, breaks, call_in};
use tl_sexpr::Form;
use tl_syntax::{Arg, Op, Term, Terms, Value};

/// An argument as a term.
#[tactic(auto, using(crate::proofs::TermTrees::term_trees))]
fn term_of(arg: Arg) -> Term
    ensures { tree_of_term result ≡ term_of_argument arg }
{
    match arg {
        Arg::Var(variable) => Term::Var(variable),
        Arg::Val(value) => Term::Val(value),
    }
}

/// The place of a name in a table, where it has so many arguments.
pub(crate) fn called(table: &Table<'_>, text: &str, count: usize, at: u32) -> Result<u32, FormFault>
    ensures { Reads (λ place. Some place) result (call_breaks table.now text.now count at)
        (place_of table.now text.now) }
{
    let Some(place) = table.place(text) else {
        return Err(breaks(Rule::Unknown, at));
    };
    if !table.has_arity(place, count) {
        return Err(breaks(Rule::Arity, at));
    }
    Ok(place)
}

/// A term.
#[cycle(term)]
#[tactic(auto, using(crate::proofs::Rulesets::terms))]
pub(crate) fn term(
    vocabulary: &Vocabulary<'_, NameSignature<'_>>,
    scope: &Scope<'_>,
    form: &Form,
) -> Result<Term, FormFault>
    ensures { ReadsTerm vocabulary.now scope.now (tree_of form.now) result }
{
    match form {
        Form::Sym(text, at) => {
            let arg = symbol(vocabulary, scope, text.as_str(), *at)?;
            Ok(term_of(arg))
        }
        Form::Int(value, _) => Ok(Term::Val(Value::Int(*value))),
        Form::List(_, at) => match call_in(form) {
            Some(call) => term_call(vocabulary, scope, call),
            None => Err(breaks(Rule::Shape, *at)),
        },
    }
}

/// The term of a list that begins with a word.
#[cycle(term)]
#[tactic(auto, using(crate::proofs::Rulesets::terms))]
fn term_call(
    vocabulary: &Vocabulary<'_, NameSignature<'_>>,
    scope: &Scope<'_>,
    call: Call<'_>,
) -> Result<Term, FormFault>
    ensures { ReadsTermCall vocabulary.now scope.now
        (operation_named call.entry.word.now) call.entry result }
{
    match operation(call.word) {
        Some(op) => arithmetic(vocabulary, scope, op, call),
        None => fluent(vocabulary, scope, call),
    }
}

/// A place of the function of this name.
#[cycle(term)]
#[tactic(auto, using(crate::proofs::Rulesets::terms))]
fn fluent(
    vocabulary: &Vocabulary<'_, NameSignature<'_>>,
    scope: &Scope<'_>,
    call: Call<'_>,
) -> Result<Term, FormFault>
    ensures { ReadsTermCall vocabulary.now scope.now None call.entry result }
{
    let functions = &vocabulary.declared.functions;
    let function = called(functions, call.word, call.rest.len(), call.at)?;
    let args = terms(vocabulary, scope, call.rest)?;
    Ok(Term::Place(function, args))
}

/// An operation on the elements after its word.
#[cycle(term)]
#[tactic(auto, using(crate::proofs::Rulesets::terms))]
fn arithmetic(
    vocabulary: &Vocabulary<'_, NameSignature<'_>>,
    scope: &Scope<'_>,
    op: Op,
    call: Call<'_>,
) -> Result<Term, FormFault>
    ensures { ReadsTermCall vocabulary.now scope.now (Some op) call.entry result }
{
    let Some((left, right)) = two(call.rest) else {
        return Err(breaks(Rule::Shape, call.at));
    };
    let left = Box::new(vocabulary.alloc, term(vocabulary, scope, left)?)?;
    let right = Box::new(vocabulary.alloc, term(vocabulary, scope, right)?)?;
    Ok(Term::Arith(op, left, right, call.at))
}

/// Terms.
#[cycle(term)]
#[tactic(auto, using(crate::proofs::Rulesets::terms, crate::proofs::TermTrees::term_steps))]
pub(crate) fn terms(
    vocabulary: &Vocabulary<'_, NameSignature<'_>>,
    scope: &Scope<'_>,
    forms: &[Form],
) -> Result<Terms, FormFault>
    ensures { ReadsTerms vocabulary.now scope.now (trees_in forms.now) result }
{
    let mut terms = Terms::new(vocabulary.alloc);
    for form in forms {
        let one = term(vocabulary, scope, form)?;
        terms.push(one)?;
    }
    Ok(terms)
}
