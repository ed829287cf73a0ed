// The text of a term.
ghost use Rattle.std.specs.Prelude.{◌≡◌, OnOk};
ghost use Rattle.tl_label.specs.Lines.{after};
ghost use Rattle.tl_label.specs.Parts.{after_spaces};
ghost use Rattle.tl_label.specs.Terms.{term_text, term_texts};
ghost use Rattle.tl_syntax.specs.TreeOfTerm.{tree_of_term, tree_of_terms};

use crate::bounds::function_name;
use crate::line::Line;
use crate::words::{operation_sign, put_name, put_value};
use tl_syntax::{NoMemory, Problem, Term, Terms};

/// Puts a term at the end. It goes as deep as the term is nested, which the reader of files bounds.
#[cycle(put_term)]
pub(crate) fn put_term(problem: &Problem, term: &Term, line: &mut Line) -> Result<(), NoMemory>
    ensures { OnOk result (line.new ≡ after line.old
        (term_text problem.now.names problem.now.domain (tree_of_term term.now))) }
{
    match term {
        Term::Var(var) => put_name(&problem.names, var.name, line),
        Term::Val(value) => put_value(&problem.names, *value, line),
        Term::Place(fun, args) => {
            line.put(b"(")?;
            line.put(function_name(problem, *fun).as_bytes())?;
            put_terms(problem, args, line)?;
            line.put(b")")
        }
        Term::Arith(op, left, right, _) => {
            line.put(b"(")?;
            line.put(operation_sign(*op).as_bytes())?;
            line.put(b" ")?;
            put_term(problem, left, line)?;
            line.put(b" ")?;
            put_term(problem, right, line)?;
            line.put(b")")
        }
    }
}

/// Puts a space and a term at the end, for each term.
#[cycle(put_term)]
pub(crate) fn put_terms(problem: &Problem, terms: &Terms, line: &mut Line) -> Result<(), NoMemory>
    ensures { OnOk result (line.new ≡ after line.old
        (after_spaces
        (term_texts problem.now.names problem.now.domain (tree_of_terms terms.now)))) }
{
    for term in terms.as_slice().iter() {
        line.put(b" ")?;
        put_term(problem, term, line)?;
    }
    Ok(())
}
