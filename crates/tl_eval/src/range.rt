// Operations of terms in 64 bits.
ghost use Rattle.tl_eval.specs.Operates.{Operates};

use tl_syntax::{Op, Value};

/// An operation whose exact result is past the 64 bits of an integer.
#[derive(Clone, Copy, PartialEq, Eq)]
pub struct RangeNote {
    /// The offset of its form in the domain file, in bytes.
    pub at: u32,
    /// The operation.
    pub op: Op,
    /// The first operand.
    pub left: i64,
    /// The second operand.
    pub right: i64,
}

/// An operation of a term, without its operands.
#[derive(Clone, Copy)]
pub(crate) struct Operator {
    /// The offset of its form in the domain file, in bytes.
    pub(crate) at: u32,
    /// The operation.
    pub(crate) op: Op,
}

/// The exact result of the operation, or a note where it is past range. It takes no memory.
pub(crate) fn operate(operator: Operator, left: i64, right: i64) -> Result<Option<Value>, RangeNote>
    ensures { Operates operator.at operator.op left right result }
{
    let exact = match operator.op {
        Op::Plus => left.checked_add(right),
        Op::Minus => left.checked_sub(right),
        Op::Times => left.checked_mul(right),
    };
    match exact {
        Some(value) => Ok(Some(Value::Int(value))),
        None => Err(RangeNote {
            at: operator.at,
            op: operator.op,
            left,
            right,
        }),
    }
}
