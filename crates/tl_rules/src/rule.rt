// The rules of files, and the answer for a file that breaks one.
ghost use Rattle.std.specs.Prelude.{◌≡◌};
ghost use Rattle.tl_rules.specs.Rules.{rule_number};
ghost use Rattle.tl_rules.specs.declared.rule.FormFault.TheVariants as fault;

use std::alloc::{AllocError, AllocFailed};
use tl_syntax::NoMemory;

/// A rule of domain, problem, plan and proof files. `docs/COMMANDS.md` says when a form breaks
/// which rule.
#[derive(Clone, Copy, PartialEq, Eq)]
pub enum Rule {
    /// The form has no shape that its place asks for.
    Shape,
    /// The name is not declared.
    Unknown,
    /// The name, the variable or the item stands twice.
    Twice,
    /// The name has another number of arguments.
    Arity,
    /// The variable is not in scope.
    Unbound,
    /// The variable is in scope already.
    Shadow,
    /// The variable does not occur in the bounds that have to give its values.
    NotInBound,
    /// A temporal word in a formula that is read in one state.
    Temporal,
    /// The argument of `goal` is no fact, equality or negated fact.
    GoalArg,
    /// A number or a count is past its limit.
    Limit,
    /// A value of a problem is a variable or a list.
    NotGround,
    /// A place has two values, or a fact of the goal is also negated.
    TwoValues,
    /// The action names no operator.
    NoOperator,
    /// The action has another number of arguments than its operator has parameters.
    ArgumentCount,
    /// The argument of an action is no value of the files.
    NotAValue,
    /// A link of a proof file begins at a search node that no link before it makes.
    NoPair,
}

impl Rule {
    /// The number by which a refusal names the rule, from 10 to 33. It takes no memory.
    pub fn number(self) -> u8
        ensures { result ≡ rule_number self }
    {
        match self {
            Rule::Shape => 10,
            Rule::Unknown => 11,
            Rule::Twice => 12,
            Rule::Arity => 13,
            Rule::Unbound => 14,
            Rule::Shadow => 15,
            Rule::NotInBound => 16,
            Rule::Temporal => 17,
            Rule::GoalArg => 18,
            Rule::Limit => 19,
            Rule::NotGround => 20,
            Rule::TwoValues => 21,
            Rule::NoOperator => 30,
            Rule::ArgumentCount => 31,
            Rule::NotAValue => 32,
            Rule::NoPair => 33,
        }
    }
}

/// The fault that the form at this offset breaks this rule.
pub fn breaks(broken: Rule, at: u32) -> FormFault
    ensures { result ≡ fault.Breaks broken at }
{
    FormFault::Breaks { broken, at }
}

/// Why forms stand for nothing.
#[derive(Clone, Copy, PartialEq, Eq)]
pub enum FormFault {
    /// The form at an offset of the file breaks a rule.
    Breaks {
        /// The rule.
        broken: Rule,
        /// The offset of the form's first byte.
        at: u32,
    },
    /// Memory ran out.
    NoMemory,
}

impl From<AllocError> for FormFault {
    ghost from_gives = { λ _ e. e ≡ fault.NoMemory };

    fn from(_: AllocError) -> Self {
        FormFault::NoMemory
    }
}

impl From<NoMemory> for FormFault {
    ghost from_gives = { λ _ e. e ≡ fault.NoMemory };

    fn from(_: NoMemory) -> Self {
        FormFault::NoMemory
    }
}

impl<T: Drop> From<AllocFailed<T>> for FormFault {
    ghost from_gives = { λ _ e. e ≡ fault.NoMemory };

    fn from(_: AllocFailed<T>) -> Self {
        FormFault::NoMemory
    }
}
