// Files of one form.
ghost use Rattle.std.specs.Prelude.{IfErr};
ghost use Rattle.tl_rules.specs.OneForm.{second_form_breaks};
ghost use Rattle.tl_rules.specs.Reads.{Checks, IsBreak, trees_in};

use crate::parts::{offset, split_first};
use crate::rule::{FormFault, Rule, breaks};
use tl_sexpr::Form;

/// Checks that no form of a file stands after its first, given those that do: the second one breaks
/// the rule of shapes. It takes no memory.
pub fn check_last(forms: &[Form]) -> Result<(), FormFault>
    ensures lawful { Checks result (second_form_breaks (trees_in forms.now)) }
    ensures no_memory { IfErr result IsBreak }
{
    match split_first(forms) {
        Some((second, _)) => Err(breaks(Rule::Shape, offset(second))),
        None => Ok(()),
    }
}
