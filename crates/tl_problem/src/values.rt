// Ground values.
ghost use Rattle.std.specs.Prelude.{List};
ghost use Rattle.tl_sexpr.specs.Tree.{tree_of};
ghost use Rattle.tl_syntax.specs.declared.value.Value.{Value};
ghost use Rattle.tl_rules.specs.Reads.{Reads, trees_in};
ghost use Rattle.tl_rules.specs.Values.{value_meant, values_meant};
ghost use Rattle.tl_problem.specs.Values.{value_breaks, values_breaks};

use std::alloc::Global;
use tl_rules::parts::is_variable;
use tl_rules::{FormFault, Rule, breaks, number_of};
use tl_sexpr::Form;
use tl_syntax::{Names, Value, Values};

/// A value: a name or an integer.
#[tactic(auto, using(crate::proofs::Rulesets::form_trees))]
pub(crate) fn value(names: &Names, form: &Form) -> Result<Value, FormFault>
    ensures { Reads (λ (x : Value). x) result (value_breaks (tree_of form.now))
        (value_meant names.now (tree_of form.now)) }
{
    match form {
        Form::Sym(text, at) => {
            let text = text.as_str();
            if is_variable(text) {
                return Err(breaks(Rule::NotGround, *at));
            }
            Ok(Value::Sym(number_of(names, text)))
        }
        Form::Int(value, _) => Ok(Value::Int(*value)),
        Form::List(_, at) => Err(breaks(Rule::NotGround, *at)),
    }
}

/// Values.
#[tactic(auto, using(crate::proofs::Rulesets::composed))]
pub(crate) fn values(alloc: Global, names: &Names, forms: &[Form]) -> Result<Values, FormFault>
    ensures { Reads (λ (xs : List Value). xs) result (values_breaks (trees_in forms.now))
        (values_meant names.now (trees_in forms.now)) }
{
    let mut values = Values::new(alloc);
    for form in forms {
        values.push(value(names, form)?)?;
    }
    Ok(values)
}
