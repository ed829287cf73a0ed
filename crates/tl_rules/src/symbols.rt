// The symbols of a file, and the numbers of names.
ghost use Rattle.std.specs.Prelude.{◌≡◌, ◌+◌, ◌<◌, ◌^◌, length, OnOk};
ghost use Rattle.tl_sexpr.specs.Spelling.{symbols_in};
ghost use Rattle.tl_sexpr.specs.Tree.{tree_of};
ghost use Rattle.tl_rules.specs.Reads.{trees_in};
ghost use Rattle.tl_rules.specs.Symbols.{names_with, names_with_all, number_in, BeginsWith, HaveRoom};

use tl_sexpr::Form;
use tl_syntax::{Names, NoMemory};

/// The number of a text, or the one that it would get if it is not there yet.
pub fn number_of(names: &Names, text: &str) -> u32
    ensures { result ≡ number_in names.now text.now }
{
    match names.find(text) {
        Some(number) => number,
        None => names.len(),
    }
}

/// Adds the symbols of a form, in reading order. Whatever is answered, every text that was there
/// keeps its number, and no other text joins.
#[cycle(add_symbols)]
#[tactic(auto, using(crate::proofs::FormTrees::form_trees, crate::proofs::Beginnings::beginnings))]
pub fn add_form(form: &Form, names: &mut Names) -> Result<(), NoMemory>
    requires room { length names.old + symbols_in (tree_of form.now) < 2 ^ 32 }
    ensures added { OnOk result (names.new ≡ names_with names.old (tree_of form.now)) }
    ensures kept { BeginsWith names.new names.old }
    ensures no_other { BeginsWith (names_with names.old (tree_of form.now)) names.new }
{
    match form {
        Form::Sym(text, _) => {
            names.add(text.as_str())?;
            Ok(())
        }
        Form::Int(_, _) => Ok(()),
        Form::List(forms, _) => add_forms(forms.as_slice(), names),
    }
}

/// Adds the symbols of forms, in reading order. Whatever is answered, every text that was there
/// keeps its number, and no other text joins.
#[cycle(add_symbols)]
#[tactic(auto, using(crate::proofs::Beginnings::beginnings))]
pub fn add_forms(forms: &[Form], names: &mut Names) -> Result<(), NoMemory>
    requires room { HaveRoom names.old (trees_in forms.now) }
    ensures added { OnOk result (names.new ≡ names_with_all names.old (trees_in forms.now)) }
    ensures kept { BeginsWith names.new names.old }
    ensures no_other { BeginsWith (names_with_all names.old (trees_in forms.now)) names.new }
{
    for form in forms {
        add_form(form, names)?;
    }
    Ok(())
}
