// Lists that begin with a symbol.
ghost use Rattle.std.specs.Prelude.{◌≡◌, ◌<◌, option_map, IfSome};
ghost use Rattle.tl_sexpr.specs.Tree.{list, more_forms, tree_of};
ghost use Rattle.tl_rules.specs.Calls.{FindsCall, call_in, call_with, call_tree};
ghost use Rattle.tl_rules.specs.Parts.{size, sizes};
ghost use Rattle.tl_rules.specs.Reads.{trees_in};

use crate::parts::split_first;
use tl_sexpr::Form;

/// A list that begins with a symbol.
#[derive(Clone, Copy)]
pub struct Call<'a> {
    /// The text of the symbol.
    pub word: &'a str,
    /// The offset of the symbol.
    pub word_at: u32,
    /// The elements after it.
    pub rest: &'a [Form],
    /// The offset of the list.
    pub at: u32,
}

/// A form as a list that begins with a symbol, where it is one.
#[tactic(auto, using(crate::proofs::FormTrees::form_trees))]
pub fn call_in(form: &Form) -> Option<Call<'_>>
    ensures found { FindsCall (tree_of form.now) result }
    ensures parts { option_map call_tree result ≡ call_in (tree_of form.now) }
    ensures smaller { IfSome result (λ call. sizes (trees_in call.rest.now)
        < size (tree_of form.now)) }
{
    match form {
        Form::Sym(_, _) => None,
        Form::Int(_, _) => None,
        Form::List(forms, at) => call_among(forms.as_slice(), *at),
    }
}

/// The list of these elements at an offset, where it begins with a symbol.
fn call_among(forms: &[Form], at: u32) -> Option<Call<'_>>
    ensures found { FindsCall (list (trees_in forms.now) at) result }
    ensures parts { option_map call_tree result ≡ call_with (trees_in forms.now) at }
    ensures smaller { IfSome result (λ call. sizes (trees_in call.rest.now)
        < sizes (trees_in forms.now)) }
{
    match split_first(forms) {
        Some((first, rest)) => call_of(first, rest, at),
        None => None,
    }
}

/// The list of this first element and these after it, where the first is a symbol.
#[tactic(auto, using(crate::proofs::FormTrees::form_trees))]
fn call_of<'a>(first: &'a Form, rest: &'a [Form], at: u32) -> Option<Call<'a>>
    ensures found { FindsCall (list (more_forms (tree_of first.now) (trees_in rest.now)) at)
        result }
    ensures parts { option_map call_tree result ≡ call_with
        (more_forms (tree_of first.now) (trees_in rest.now)) at }
    ensures rest { IfSome result (λ call. trees_in call.rest.now ≡ trees_in rest.now) }
{
    match first {
        Form::Sym(word, word_at) => Some(Call {
            word: word.as_str(),
            word_at: *word_at,
            rest,
            at,
        }),
        Form::Int(_, _) => None,
        Form::List(_, _) => None,
    }
}
