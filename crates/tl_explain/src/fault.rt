// Why a plan is not explained.
ghost use Rattle.std.specs.Prelude.{◌≡◌};
ghost use Rattle.tl_explain.specs.Explanations.{fault_after};

use std::alloc::AllocError;
use tl_eval::{EvalFault, RangeNote};
use tl_syntax::NoMemory;

/// Why a plan is not explained.
#[derive(Clone, Copy, PartialEq, Eq)]
pub enum ExplainFault {
    /// An operation is past range.
    Range {
        /// How many actions of the plan execute before the world in which the operation is looked
        /// at.
        after: u32,
        /// The operation.
        note: RangeNote,
    },
    /// Want of memory. No clause ties it to a cause.
    NoMemory,
}

impl ExplainFault {
    /// For an action that comes after so many others, or for progression in the state there. It
    /// takes no memory.
    pub(crate) fn after(after: u32, fault: EvalFault) -> ExplainFault
        ensures { result ≡ fault_after after fault }
    {
        match fault {
            EvalFault::Range(note) => ExplainFault::Range { after, note },
            EvalFault::NoMemory => ExplainFault::NoMemory,
        }
    }
}

impl From<NoMemory> for ExplainFault {
    ghost use Rattle.tl_explain.specs.declared.fault.ExplainFault.TheVariants as fault;

    ghost from_gives = { λ _ e. e ≡ fault.NoMemory };

    fn from(_: NoMemory) -> Self {
        ExplainFault::NoMemory
    }
}

impl From<AllocError> for ExplainFault {
    ghost use Rattle.tl_explain.specs.declared.fault.ExplainFault.TheVariants as fault;

    ghost from_gives = { λ _ e. e ≡ fault.NoMemory };

    fn from(_: AllocError) -> Self {
        ExplainFault::NoMemory
    }
}
