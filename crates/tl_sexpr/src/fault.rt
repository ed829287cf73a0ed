// Why bytes were not read.
ghost use Rattle.std.specs.Prelude.{◌≡◌};
ghost use Rattle.tl_sexpr.specs.declared.fault.TextFault.TheVariants as fault;

use std::alloc::AllocError;

/// Why bytes were not read as forms. A `u32` is the offset of the byte that the fault is about: the
/// least one, and `Unclosed` only where no other fault stands. A list is open between its `(` and
/// its `)`, and what is in a comment does not count.
#[derive(Clone, Copy, PartialEq, Eq)]
pub enum TextFault {
    /// Outside comments a byte that is no blank, no byte of a token and no parenthesis.
    BadByte(u32),
    /// A `)` where no list is open.
    StrayClose(u32),
    /// The bytes end while lists are open. This is the `(` of the outermost of them.
    Unclosed(u32),
    /// A `(` where 100 lists are open.
    TooDeep(u32),
    /// The first byte of an integer that 64 bits with a sign do not hold.
    BigInteger(u32),
    /// Memory ran out.
    NoMemory,
}

impl From<AllocError> for TextFault {
    ghost from_gives = { λ _ e. e ≡ fault.NoMemory };

    fn from(_: AllocError) -> Self {
        TextFault::NoMemory
    }
}
