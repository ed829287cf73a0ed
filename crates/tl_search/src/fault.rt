// Why a call gives no answer.
ghost use Rattle.std.specs.Prelude.{◌≡◌};
ghost use Rattle.tl_search.specs.declared.fault.SearchFault.TheVariants as fault;

use std::alloc::AllocError;
use tl_eval::RangeNote;
use tl_syntax::{Actions, NoMemory};

/// Why a search space gives no answer. What it keeps is as before the call.
#[derive(Clone, Copy, PartialEq, Eq)]
pub enum SpaceFault {
    /// An operation past the 64 bits of an integer, in the world of the search node; for the root,
    /// in the initial world.
    RangeHere(RangeNote),
    /// An operation past the 64 bits of an integer, in the world after the action.
    RangeAfter(RangeNote),
    /// Want of memory. No clause ties it to a cause.
    NoMemory,
}

/// Why a search gives no answer.
#[derive(Drop)]
pub enum SearchFault {
    /// An operation past the 64 bits of an integer, in the last world of the path.
    Range {
        /// The path, which executes.
        path: Actions,
        /// The operation.
        note: RangeNote,
    },
    /// Want of memory. No clause ties it to a cause.
    NoMemory,
}

impl From<NoMemory> for SearchFault {
    ghost from_gives = { λ _ e. e ≡ fault.NoMemory };

    fn from(_: NoMemory) -> Self {
        SearchFault::NoMemory
    }
}

impl From<AllocError> for SearchFault {
    ghost from_gives = { λ _ e. e ≡ fault.NoMemory };

    fn from(_: AllocError) -> Self {
        SearchFault::NoMemory
    }
}
