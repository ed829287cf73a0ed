// What the domain declares.
ghost use Rattle.std.specs.Prelude.{◌≡◌, ◌==◌, ◌<◌, ℕ, IfSome, length, unwrap_or};
ghost use Rattle.std.specs.List.{position};
ghost use Rattle.tl_rules.specs.Reads.{Reads};
ghost use Rattle.tl_rules.specs.Calls.{call_tree};
ghost use Rattle.tl_problem.specs.Declarations.{declared_call_breaks_at, position_meant, declared_call_breaks};

use tl_rules::{Call, FormFault, Rule, breaks, number_of};
use tl_syntax::{Declared, Names};

/// The position of the declaration with a name.
fn position_among(declared: &[Declared], name: u32) -> Option<usize>
    ensures position { result ≡ position (λ d. d.name == name) declared.now }
    ensures within { IfSome result (λ position. position < length declared.now) }
{
    declared.iter().position(|one| one.name == name)
}

/// The position of the declaration of a name, which is called with so many arguments by the form at
/// an offset.
/// A domain declares far less than what 32 bits can number; past them the answer is want of memory.
fn position_with(declared: &[Declared], name: u32, count: usize, at: u32) -> Result<u32, FormFault>
    ensures { Reads (λ (x : ℕ). x) result (declared_call_breaks_at declared.now
        (position (λ d. d.name == name) declared.now) count at)
        (unwrap_or (position (λ d. d.name == name) declared.now) 0) }
{
    let Some(position) = position_among(declared, name) else {
        return Err(breaks(Rule::Unknown, at));
    };
    if declared[position].arity as usize != count {
        return Err(breaks(Rule::Arity, at));
    }
    match u32::try_from(position) {
        Ok(position) => Ok(position),
        Err(_) => Err(FormFault::NoMemory),
    }
}

/// The position of what a list calls.
#[tactic(auto, using(crate::proofs::Rulesets::composed))]
pub(crate) fn called(names: &Names, declared: &[Declared], call: Call<'_>) -> Result<u32, FormFault>
    ensures { Reads (λ (x : ℕ). x) result (declared_call_breaks names.now declared.now
        (call_tree call.entry))
        (position_meant names.now declared.now call.entry.word.now) }
{
    let name = number_of(names, call.word);
    position_with(declared, name, call.rest.len(), call.at)
}
