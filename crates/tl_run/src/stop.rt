// Why a file is refused, and why the files of a command are not read on.
ghost use Rattle.std.specs.Prelude.{◌≡◌};
ghost use Rattle.tl_run.specs.Refusals.{refusal_rule, refusal_offset};
ghost use Rattle.tl_run.specs.Stops.{stop_of_forms, stop_of_reading, stop_of_text};
ghost use Rattle.tl_run.specs.declared.stop.Stop.TheVariants as stop;

use std::alloc::AllocError;
use tl_outside::ReadFault;
use tl_rules::{FormFault, Rule};
use tl_sexpr::TextFault;
use tl_syntax::NoMemory;

/// The rule by which a file is refused. The `u32` is the offset of the byte that it is about.
#[derive(Clone, Copy, PartialEq, Eq)]
pub(crate) enum Broken {
    /// Outside comments a byte that is no blank, no byte of a token and no parenthesis.
    BadByte(u32),
    /// A `)` where no list is open.
    StrayClose(u32),
    /// The file ends while lists are open. This is the `(` of the outermost of them.
    Unclosed(u32),
    /// A `(` where 100 lists are open.
    TooDeep(u32),
    /// The first byte of an integer that 64 bits with a sign do not hold.
    BigInteger(u32),
    /// It has more than 4,194,304 bytes.
    TooLong,
    /// The form at this offset breaks this rule.
    Form(Rule, u32),
}

impl Broken {
    /// The rule's number.
    pub(crate) fn number(self) -> u8
        ensures { result ≡ refusal_rule self }
    {
        match self {
            Broken::BadByte(_) => 1,
            Broken::StrayClose(_) => 2,
            Broken::Unclosed(_) => 3,
            Broken::TooDeep(_) => 4,
            Broken::BigInteger(_) => 5,
            Broken::TooLong => 6,
            Broken::Form(rule, _) => rule.number(),
        }
    }

    /// The offset in the file that is reported with it.
    pub(crate) fn offset(self) -> u32
        ensures { result ≡ refusal_offset self }
    {
        match self {
            Broken::BadByte(offset) => offset,
            Broken::StrayClose(offset) => offset,
            Broken::Unclosed(offset) => offset,
            Broken::TooDeep(offset) => offset,
            Broken::BigInteger(offset) => offset,
            Broken::TooLong => 4_194_304,
            Broken::Form(_, offset) => offset,
        }
    }
}

/// Why the files of a command are not read on.
#[derive(Clone, Copy, PartialEq, Eq)]
pub(crate) enum Stop {
    /// A file could not be read.
    ReadFault,
    /// Want of memory.
    NoMemory,
    /// The file of this place among the command's files, counted from 1, breaks this rule.
    Refused(u8, Broken),
}

impl Stop {
    /// For the file of this number, which could not be read by this fault.
    pub(crate) fn of_reading(number: u8, fault: ReadFault) -> Stop
        ensures { result ≡ stop_of_reading number fault }
    {
        match fault {
            ReadFault::Failed => Stop::ReadFault,
            ReadFault::TooLong => Stop::Refused(number, Broken::TooLong),
            ReadFault::NoMemory => Stop::NoMemory,
        }
    }

    /// For the file of this number, whose text has this fault.
    pub(crate) fn of_text(number: u8, fault: TextFault) -> Stop
        ensures { result ≡ stop_of_text number fault }
    {
        match fault {
            TextFault::BadByte(at) => Stop::Refused(number, Broken::BadByte(at)),
            TextFault::StrayClose(at) => Stop::Refused(number, Broken::StrayClose(at)),
            TextFault::Unclosed(at) => Stop::Refused(number, Broken::Unclosed(at)),
            TextFault::TooDeep(at) => Stop::Refused(number, Broken::TooDeep(at)),
            TextFault::BigInteger(at) => Stop::Refused(number, Broken::BigInteger(at)),
            TextFault::NoMemory => Stop::NoMemory,
        }
    }

    /// For the file of this number, whose forms have this fault.
    pub(crate) fn of_forms(number: u8, fault: FormFault) -> Stop
        ensures { result ≡ stop_of_forms number fault }
    {
        match fault {
            FormFault::Breaks { broken, at } => Stop::Refused(number, Broken::Form(broken, at)),
            FormFault::NoMemory => Stop::NoMemory,
        }
    }
}

impl From<NoMemory> for Stop {
    ghost from_gives = { λ _ e. e ≡ stop.NoMemory };

    fn from(_: NoMemory) -> Self {
        Stop::NoMemory
    }
}

impl From<AllocError> for Stop {
    ghost from_gives = { λ _ e. e ≡ stop.NoMemory };

    fn from(_: AllocError) -> Self {
        Stop::NoMemory
    }
}
