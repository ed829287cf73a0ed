// Why a case was not tried to its end.

use std::alloc::{AllocError, AllocFailed};
use std::num::ParseIntError;
use tl_eval::EvalFault;
use tl_rules::FormFault;
use tl_sexpr::TextFault;
use tl_syntax::NoMemory;

/// Why a case was not tried to its end: for want of memory, or since something of it is not as its
/// row says.
#[derive(Clone, Copy, Debug)]
pub(crate) enum Stop {
    NoMemory,
    Row(&'static str),
}

impl From<AllocError> for Stop {
    fn from(_: AllocError) -> Stop {
        Stop::NoMemory
    }
}

impl<T: Drop> From<AllocFailed<T>> for Stop {
    fn from(_: AllocFailed<T>) -> Stop {
        Stop::NoMemory
    }
}

impl From<NoMemory> for Stop {
    fn from(_: NoMemory) -> Stop {
        Stop::NoMemory
    }
}

impl From<TextFault> for Stop {
    fn from(_: TextFault) -> Stop {
        Stop::Row("a text has no forms")
    }
}

impl From<FormFault> for Stop {
    fn from(_: FormFault) -> Stop {
        Stop::Row("a file breaks a rule")
    }
}

impl From<ParseIntError> for Stop {
    fn from(_: ParseIntError) -> Stop {
        Stop::Row("a column is no number")
    }
}

impl From<EvalFault> for Stop {
    fn from(_: EvalFault) -> Stop {
        Stop::Row("a formula does not progress")
    }
}
