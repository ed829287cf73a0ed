// The arguments of actions.
ghost use Rattle.tl_sexpr.specs.Tree.{symbol, tree_of};
ghost use Rattle.tl_syntax.specs.declared.value.Value.{Value};
ghost use Rattle.tl_syntax.specs.declared.value.Value.TheVariants as value;
ghost use Rattle.tl_rules.specs.Reads.{Reads, trees_in};
ghost use Rattle.tl_rules.specs.Symbols.{number_in};
ghost use Rattle.tl_line.specs.Actions.{named_value_breaks};
ghost use Rattle.tl_line.specs.ReadActions.{ReadsValue, ReadsValues};

use std::alloc::Global;
use tl_rules::parts::is_variable;
use tl_rules::{FormFault, Rule, breaks};
use tl_sexpr::Form;
use tl_syntax::{Names, Value, Values};

/// A symbol as an argument.
fn symbol_value(names: &Names, text: &str, at: u32) -> Result<Value, FormFault>
    ensures { Reads (λ (x : Value). x) result (named_value_breaks names.now (symbol text.now at))
        (value.Sym (number_in names.now text.now)) }
{
    if is_variable(text) {
        return Err(breaks(Rule::NotAValue, at));
    }
    match names.find(text) {
        Some(number) => Ok(Value::Sym(number)),
        None => Err(breaks(Rule::NotAValue, at)),
    }
}

/// An argument.
#[tactic(auto, using(crate::proofs::Rulesets::form_trees))]
fn argument(names: &Names, form: &Form) -> Result<Value, FormFault>
    ensures { ReadsValue names.now (tree_of form.now) result }
{
    match form {
        Form::Sym(text, at) => symbol_value(names, text.as_str(), *at),
        Form::Int(value, _) => Ok(Value::Int(*value)),
        Form::List(_, at) => Err(breaks(Rule::NotAValue, *at)),
    }
}

/// The arguments of an action.
#[tactic(auto, using(crate::proofs::Rulesets::composed))]
pub(crate) fn arguments(alloc: Global, names: &Names, forms: &[Form]) -> Result<Values, FormFault>
    ensures { ReadsValues names.now (trees_in forms.now) result }
{
    let mut args = Values::new(alloc);
    for form in forms {
        args.push(argument(names, form)?)?;
    }
    Ok(args)
}
