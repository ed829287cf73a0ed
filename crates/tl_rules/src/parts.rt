// The parts of forms.
ghost use Rattle.std.specs.Prelude.{◌≡◌, ◌<◌, ◌==◌, false, option_map, IfSome, MatchOption};
ghost use Rattle.tl_sexpr.specs.Tree.{tree_of, no_form, more_forms};
ghost use Rattle.tl_rules.specs.Parts.{is_variable, elements_of, is_integer, is_name, offset_of, is_list, any_list, count, is_word, sizes, symbol_text, call_of, is_call, rest_of, begins_with};
ghost use Rattle.tl_rules.specs.Reads.{trees_in};

use tl_sexpr::Form;

/// Whether a form is a list.
#[tactic(auto, using(crate::proofs::FormTrees::form_trees))]
pub fn is_list(form: &Form) -> bool
    ensures { result ≡ is_list (tree_of form.now) }
{
    match form {
        Form::Sym(_, _) => false,
        Form::Int(_, _) => false,
        Form::List(_, _) => true,
    }
}

/// Whether one of the forms is a list.
pub fn any_list(forms: &[Form]) -> bool
    ensures { result ≡ any_list (trees_in forms.now) }
{
    for form in forms {
        if is_list(form) {
            return true;
        }
    }
    false
}

/// The text of a symbol.
#[tactic(auto, using(crate::proofs::FormTrees::form_trees))]
pub fn symbol_text(form: &Form) -> Option<&str>
    ensures { option_map (λ text. text.now) result ≡ symbol_text (tree_of form.now) }
{
    match form {
        Form::Sym(text, _) => Some(text.as_str()),
        Form::Int(_, _) => None,
        Form::List(_, _) => None,
    }
}

/// The first word and the forms after it, where the first form is a symbol.
pub fn call(forms: &[Form]) -> Option<(&str, &[Form])>
    ensures found { option_map (λ found. (found.0.now, trees_in found.1.now)) result
        ≡ call_of (trees_in forms.now) }
    ensures smaller { IfSome result (λ found. sizes (trees_in found.1.now)
        < sizes (trees_in forms.now)) }
{
    let [first, rest @ ..] = forms else {
        return None;
    };
    match symbol_text(first) {
        Some(text) => Some((text, rest)),
        None => None,
    }
}

/// Whether a form is a list that begins with a symbol.
#[tactic(auto, using(crate::proofs::FormTrees::form_trees))]
pub fn is_call(form: &Form) -> bool
    ensures { result ≡ is_call (tree_of form.now) }
{
    match form {
        Form::Sym(_, _) => false,
        Form::Int(_, _) => false,
        Form::List(forms, _) => call(forms.as_slice()).is_some(),
    }
}

/// The first form and those after it, where there is one.
pub fn split_first(forms: &[Form]) -> Option<(&Form, &[Form])>
    ensures { MatchOption result (trees_in forms.now ≡ no_form)
        (λ found. trees_in forms.now ≡ more_forms (tree_of found.0.now) (trees_in found.1.now)) }
{
    match forms {
        [first, rest @ ..] => Some((first, rest)),
        [] => None,
    }
}

/// The one form, where there is one.
#[tactic(auto, using(crate::proofs::Composed::composed))]
pub fn one(forms: &[Form]) -> Option<&Form>
    ensures found { MatchOption result ((count (trees_in forms.now) == 1) ≡ false)
        (λ found. trees_in forms.now ≡ more_forms (tree_of found.now) no_form) }
{
    match forms {
        [first] => Some(first),
        _ => None,
    }
}

/// The two forms, where there are two.
#[tactic(auto, using(crate::proofs::Composed::composed))]
pub fn two(forms: &[Form]) -> Option<(&Form, &Form)>
    ensures found { MatchOption result ((count (trees_in forms.now) == 2) ≡ false)
        (λ found. trees_in forms.now ≡ more_forms (tree_of found.0.now)
        (more_forms (tree_of found.1.now) no_form)) }
{
    match forms {
        [first, second] => Some((first, second)),
        _ => None,
    }
}

/// Whether a form is the symbol of this word.
pub fn is_word(word: &str, form: &Form) -> bool
    ensures { result ≡ is_word word.now (tree_of form.now) }
{
    match symbol_text(form) {
        Some(text) => text == word,
        None => false,
    }
}

/// The offset of a form's first byte.
#[tactic(auto, using(crate::proofs::FormTrees::form_trees))]
pub fn offset(form: &Form) -> u32
    ensures { result ≡ offset_of (tree_of form.now) }
{
    match form {
        Form::Sym(_, at) => *at,
        Form::Int(_, at) => *at,
        Form::List(_, at) => *at,
    }
}

/// Whether a form is an integer.
#[tactic(auto, using(crate::proofs::FormTrees::form_trees))]
pub fn is_integer(form: &Form) -> bool
    ensures { result ≡ is_integer (tree_of form.now) }
{
    match form {
        Form::Sym(_, _) => false,
        Form::Int(_, _) => true,
        Form::List(_, _) => false,
    }
}

/// The three forms, where there are three.
#[tactic(auto, using(crate::proofs::Composed::composed))]
pub fn three(forms: &[Form]) -> Option<(&Form, &Form, &Form)>
    ensures found { MatchOption result ((count (trees_in forms.now) == 3) ≡ false)
        (λ found. trees_in forms.now ≡ more_forms (tree_of found.0.now)
        (more_forms (tree_of found.1.now) (more_forms (tree_of found.2.now) no_form))) }
{
    match forms {
        [first, second, third] => Some((first, second, third)),
        _ => None,
    }
}

/// The four forms, where there are four.
#[tactic(auto, using(crate::proofs::Composed::composed))]
pub fn four(forms: &[Form]) -> Option<(&Form, &Form, &Form, &Form)>
    ensures found { MatchOption result ((count (trees_in forms.now) == 4) ≡ false)
        (λ found. trees_in forms.now ≡ more_forms (tree_of found.0.now)
        (more_forms (tree_of found.1.now)
        (more_forms (tree_of found.2.now) (more_forms (tree_of found.3.now) no_form)))) }
{
    match forms {
        [first, second, third, fourth] => Some((first, second, third, fourth)),
        _ => None,
    }
}

/// Whether a text is that of a variable.
pub fn is_variable(text: &str) -> bool
    ensures { result ≡ is_variable text.now }
{
    text.as_bytes().first() == Some(&b'?')
}

/// Whether a form is a name: a symbol that is no variable.
#[tactic(auto, using(crate::proofs::FormTrees::form_trees))]
pub fn is_name(form: &Form) -> bool
    ensures { result ≡ is_name (tree_of form.now) }
{
    match form {
        Form::Sym(text, _) => !is_variable(text.as_str()),
        Form::Int(_, _) => false,
        Form::List(_, _) => false,
    }
}

/// The elements of a list.
#[tactic(auto, using(crate::proofs::FormTrees::form_trees))]
fn elements(form: &Form) -> &[Form]
    ensures { trees_in result.now ≡ elements_of (tree_of form.now) }
{
    match form {
        Form::Sym(_, _) | Form::Int(_, _) => &[],
        Form::List(forms, _) => forms.as_slice(),
    }
}

/// The elements of a list after the first.
#[tactic(auto, using(crate::proofs::AfterFirst::after_first))]
pub fn rest_of(form: &Form) -> &[Form]
    ensures { trees_in result.now ≡ rest_of (tree_of form.now) }
{
    match split_first(elements(form)) {
        Some((_, rest)) => rest,
        None => &[],
    }
}

/// Whether a form is a list that begins with this word.
pub fn begins_with(word: &str, form: &Form) -> bool
    ensures { result ≡ begins_with word.now (tree_of form.now) }
{
    match split_first(elements(form)) {
        Some((first, _)) => is_word(word, first),
        None => false,
    }
}
