// Variables and values.
ghost use Rattle.std.specs.Prelude.{◌≡◌, false};
ghost use Rattle.tl_sexpr.specs.Tree.{symbol, tree_of};
ghost use Rattle.tl_formulas.specs.Readers.{ReadsArgument, ReadsArguments};
ghost use Rattle.tl_formulas.specs.Shapes.{FindsLeaf, leaf_tree};
ghost use Rattle.tl_rules.specs.Parts.{any_list};
ghost use Rattle.tl_rules.specs.Reads.{trees_in};

use crate::scope::Scope;
use crate::shapes::Leaf;
use crate::signature::NameSignature;
use tl_rules::parts::is_variable;
use tl_rules::{FormFault, Rule, Vocabulary, breaks, number_of};
use tl_sexpr::Form;
use tl_syntax::{Arg, Args, Value, Var};

/// A symbol as an argument: a variable in scope, or a value.
pub(crate) fn symbol(
    vocabulary: &Vocabulary<'_, NameSignature<'_>>,
    scope: &Scope<'_>,
    text: &str,
    at: u32,
) -> Result<Arg, FormFault>
    ensures { ReadsArgument vocabulary.now scope.now (symbol text.now at) result }
{
    let name = number_of(vocabulary.names, text);
    if !is_variable(text) {
        return Ok(Arg::Val(Value::Sym(name)));
    }
    match scope.slot(text) {
        Some(slot) => Ok(Arg::Var(Var { slot, name })),
        None => Err(breaks(Rule::Unbound, at)),
    }
}

/// A form that is no list, where it is none.
#[tactic(auto, using(crate::proofs::Rulesets::form_trees))]
pub(crate) fn leaf_in(form: &Form) -> Option<Leaf<'_>>
    ensures { FindsLeaf (tree_of form.now) result }
{
    match form {
        Form::Sym(text, at) => Some(Leaf::Symbol(text.as_str(), *at)),
        Form::Int(value, at) => Some(Leaf::Integer(*value, *at)),
        Form::List(_, _) => None,
    }
}

/// An argument, which is no list.
pub(crate) fn argument(
    vocabulary: &Vocabulary<'_, NameSignature<'_>>,
    scope: &Scope<'_>,
    leaf: Leaf<'_>,
) -> Result<Arg, FormFault>
    ensures { ReadsArgument vocabulary.now scope.now (leaf_tree leaf.entry) result }
{
    match leaf {
        Leaf::Symbol(text, at) => symbol(vocabulary, scope, text, at),
        Leaf::Integer(value, _) => Ok(Arg::Val(Value::Int(value))),
    }
}

/// Arguments, none of which is a list.
pub(crate) fn arguments(
    vocabulary: &Vocabulary<'_, NameSignature<'_>>,
    scope: &Scope<'_>,
    forms: &[Form],
) -> Result<Args, FormFault>
    requires { any_list (trees_in forms.now) ≡ false }
    ensures { ReadsArguments vocabulary.now scope.now (trees_in forms.now) result }
{
    let mut args = Args::new(vocabulary.alloc);
    for form in forms {
        if let Some(leaf) = leaf_in(form) {
            args.push(argument(vocabulary, scope, leaf)?)?;
        }
    }
    Ok(args)
}
