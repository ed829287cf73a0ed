// What a check of a plan may end with in place of a verdict.
ghost use Rattle.std.specs.Prelude.{◌≡◌};
ghost use Rattle.tl_action.specs.declared.check_fault.CheckFault.TheVariants as fault;

use std::alloc::AllocError;
use tl_eval::RangeNote;
use tl_syntax::NoMemory;

/// What a check of a plan may end with in place of a verdict. Both checkers have it: that of plans
/// that end, and that of plans with a part that is repeated for ever.
#[derive(Clone, Copy, PartialEq, Eq)]
pub enum CheckFault {
    /// An operation is past range.
    Range {
        /// How many actions of the plan execute before the world in which the operation is looked
        /// at.
        after: u32,
        /// The operation.
        note: RangeNote,
    },
    /// Want of memory.
    NoMemory,
}

impl From<NoMemory> for CheckFault {
    ghost from_gives = { λ _ e. e ≡ fault.NoMemory };

    fn from(_: NoMemory) -> Self {
        CheckFault::NoMemory
    }
}

impl From<AllocError> for CheckFault {
    ghost from_gives = { λ _ e. e ≡ fault.NoMemory };

    fn from(_: AllocError) -> Self {
        CheckFault::NoMemory
    }
}
