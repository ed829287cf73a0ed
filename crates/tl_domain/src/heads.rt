// Heads of definitions and operators.
ghost use Rattle.std.specs.Prelude.{◌≡◌, ◌≤◌, [], length, is_some, IfOk};
ghost use Rattle.tl_domain.specs.Operators.{head_list_breaks, parameters_breaks, parameter_breaks};
ghost use Rattle.tl_domain.specs.Parts.{list_tree};
ghost use Rattle.tl_domain.specs.Readers.{head_elements, occurs_within};
ghost use Rattle.tl_rules.specs.Reads.{Reads, Checks, trees_in};

use crate::parts::{List, Name, name_in};
use std::alloc::Global;
use tl_formulas::Scope;
use tl_formulas::variables::{are_variables, occurs};
use tl_rules::parts::{offset, split_first, symbol_text};
use tl_rules::{FormFault, Rule, breaks};
use tl_sexpr::Form;

/// The name and the variables of a head.
#[derive(Clone, Copy)]
pub(crate) struct Head<'a> {
    pub(crate) name: Name<'a>,
    pub(crate) variables: &'a [Form],
}

/// Where the variables of a head have to occur.
#[derive(Clone, Copy)]
pub(crate) enum Within<'a> {
    /// Nowhere, as those of a definition.
    Nothing,
    /// In the `bounds` clause, as those of an operator.
    Bounds(Option<&'a Form>),
}

/// Whether a variable occurs where it has to.
fn occurs_within(within: Within<'_>, text: &str) -> bool
    ensures { result ≡ occurs_within within.entry text.now }
{
    match within {
        Within::Nothing => true,
        Within::Bounds(Some(clause)) => occurs(text, clause),
        Within::Bounds(None) => false,
    }
}

/// A head, which has at most so many variables.
#[tactic(auto, using(crate::proofs::Rulesets::composed))]
pub(crate) fn read_head(most: usize, list: List<'_>) -> Result<Head<'_>, FormFault>
    ensures read { Reads head_elements result (head_list_breaks most (list_tree list.entry))
        (trees_in list.entry.elements.now) }
    ensures few { IfOk result (λ x. length x.variables.now ≤ most) }
{
    let Some((first, variables)) = split_first(list.elements) else {
        return Err(breaks(Rule::Shape, list.at));
    };
    let Some(name) = name_in(first) else {
        return Err(breaks(Rule::Shape, list.at));
    };
    if !are_variables(variables) {
        return Err(breaks(Rule::Shape, list.at));
    }
    if variables.len() > most {
        return Err(breaks(Rule::Limit, list.at));
    }
    Ok(Head { name, variables })
}

/// Checks a variable of a head that stands after others.
fn check_parameter(
    earlier: &Scope<'_>,
    within: Within<'_>,
    text: &str,
    at: u32,
) -> Result<(), FormFault>
    ensures { Checks result (parameter_breaks (occurs_within within.entry) earlier.now text.now
        at) }
{
    if earlier.slot(text).is_some() {
        return Err(breaks(Rule::Twice, at));
    }
    if !occurs_within(within, text) {
        return Err(breaks(Rule::NotInBound, at));
    }
    Ok(())
}

/// Checks the variables of a head, of which none stands twice.
#[tactic(auto, using(crate::proofs::Rulesets::parameters))]
pub(crate) fn check_parameters(
    alloc: Global,
    within: Within<'_>,
    variables: &[Form],
) -> Result<(), FormFault>
    requires { length variables.now ≤ 32 }
    ensures { Checks result (parameters_breaks (occurs_within within.entry) []
        (trees_in variables.now)) }
{
    let mut earlier = Scope::new(alloc);
    for form in variables {
        if let Some(text) = symbol_text(form) {
            check_parameter(&earlier, within, text, offset(form))?;
            earlier.push(text)?;
        }
    }
    Ok(())
}
