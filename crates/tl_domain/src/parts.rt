// Names, integers and lists, taken apart.
ghost use Rattle.std.specs.Prelude.{◌≡◌, false, MatchOption};
ghost use Rattle.tl_sexpr.specs.Tree.{integer, tree_of};
ghost use Rattle.tl_rules.specs.Parts.{is_integer, is_list, is_name};
ghost use Rattle.tl_domain.specs.Parts.{IsName, list_tree};

use tl_rules::parts::is_variable;
use tl_sexpr::Form;

/// A symbol that is a name.
#[derive(Clone, Copy)]
pub(crate) struct Name<'a> {
    /// The text of the symbol.
    pub(crate) text: &'a str,
    /// The offset of its first byte.
    pub(crate) at: u32,
}

/// An integer.
#[derive(Clone, Copy)]
pub(crate) struct Integer {
    /// The number.
    pub(crate) value: i64,
    /// The offset of its first byte.
    pub(crate) at: u32,
}

/// A list.
#[derive(Clone, Copy)]
pub(crate) struct List<'a> {
    /// The elements.
    pub(crate) elements: &'a [Form],
    /// The offset of its first byte.
    pub(crate) at: u32,
}

/// A form as a name, where it is one.
#[tactic(auto, using(crate::proofs::Rulesets::form_trees))]
pub(crate) fn name_in(form: &Form) -> Option<Name<'_>>
    ensures { MatchOption result (is_name (tree_of form.now) ≡ false)
        (IsName (tree_of form.now)) }
{
    match form {
        Form::Sym(text, at) => {
            let text = text.as_str();
            if is_variable(text) {
                return None;
            }
            Some(Name { text, at: *at })
        }
        Form::Int(_, _) | Form::List(_, _) => None,
    }
}

/// A form as an integer, where it is one.
#[tactic(auto, using(crate::proofs::Rulesets::form_trees))]
pub(crate) fn integer_in(form: &Form) -> Option<Integer>
    ensures { MatchOption result (is_integer (tree_of form.now) ≡ false)
        (λ x. tree_of form.now ≡ integer x.value x.at) }
{
    match form {
        Form::Int(value, at) => Some(Integer {
            value: *value,
            at: *at,
        }),
        Form::Sym(_, _) | Form::List(_, _) => None,
    }
}

/// A form as a list, where it is one.
#[tactic(auto, using(crate::proofs::Rulesets::form_trees))]
pub(crate) fn list_in(form: &Form) -> Option<List<'_>>
    ensures { MatchOption result (is_list (tree_of form.now) ≡ false)
        (λ x. tree_of form.now ≡ list_tree x) }
{
    match form {
        Form::List(forms, at) => Some(List {
            elements: forms.as_slice(),
            at: *at,
        }),
        Form::Sym(_, _) | Form::Int(_, _) => None,
    }
}
