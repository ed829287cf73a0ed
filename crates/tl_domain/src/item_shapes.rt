// The elements of items after their first word, where these have the shape that the word asks for.
ghost use Rattle.std.specs.Prelude.{◌≡◌, false, MatchOption};
ghost use Rattle.tl_rules.specs.Reads.{trees_in};
ghost use Rattle.tl_domain.specs.Items.{has_declaration_shape, has_define_shape, has_defined_shape};
ghost use Rattle.tl_domain.specs.ItemShapes.{IsDeclaration, IsDefine, IsDefined};

use crate::parts::{Integer, List, Name, integer_in, list_in, name_in};
use tl_rules::parts::{three, two};
use tl_sexpr::Form;

/// A name and a number of arguments, of `predicate` or `function`.
#[derive(Clone, Copy)]
pub(crate) struct Declaration<'a> {
    pub(crate) name: Name<'a>,
    pub(crate) arity: Integer,
}

/// A head and a body, of `define`.
#[derive(Clone, Copy)]
pub(crate) struct Define<'a> {
    pub(crate) head: List<'a>,
    pub(crate) body: &'a Form,
}

/// A number of levels, a head and a body, of `defined`.
#[derive(Clone, Copy)]
pub(crate) struct Defined<'a> {
    pub(crate) levels: Integer,
    pub(crate) head: List<'a>,
    pub(crate) body: &'a Form,
}

/// The elements as a declaration, where they are one.
#[tactic(auto, using(crate::proofs::ItemParts::shapes))]
pub(crate) fn declaration_in(rest: &[Form]) -> Option<Declaration<'_>>
    ensures { MatchOption result (has_declaration_shape (trees_in rest.now) ≡ false)
        (IsDeclaration (trees_in rest.now)) }
{
    let Some((name, arity)) = two(rest) else {
        return None;
    };
    let Some(name) = name_in(name) else {
        return None;
    };
    match integer_in(arity) {
        Some(arity) => Some(Declaration { name, arity }),
        None => None,
    }
}

/// The elements as a head and a body, where they are that.
#[tactic(auto, using(crate::proofs::ItemParts::shapes))]
pub(crate) fn define_in(rest: &[Form]) -> Option<Define<'_>>
    ensures { MatchOption result (has_define_shape (trees_in rest.now) ≡ false)
        (IsDefine (trees_in rest.now)) }
{
    let Some((head, body)) = two(rest) else {
        return None;
    };
    match list_in(head) {
        Some(head) => Some(Define { head, body }),
        None => None,
    }
}

/// The elements as a number of levels, a head and a body, where they are that.
#[tactic(auto, using(crate::proofs::ItemParts::shapes))]
pub(crate) fn defined_in(rest: &[Form]) -> Option<Defined<'_>>
    ensures { MatchOption result (has_defined_shape (trees_in rest.now) ≡ false)
        (IsDefined (trees_in rest.now)) }
{
    let Some((levels, head, body)) = three(rest) else {
        return None;
    };
    let Some(levels) = integer_in(levels) else {
        return None;
    };
    match list_in(head) {
        Some(head) => Some(Defined { levels, head, body }),
        None => None,
    }
}
