// Values, tuples and notes, as texts.

use crate::stop::Stop;
use std::alloc::{AllocError, Global};
use tl_eval::RangeNote;
use tl_syntax::{Names, Op, Value};

/// Puts the text of a value at the end.
fn put_value(names: &Names, value: Value, out: &mut String) -> Result<(), Stop> {
    match value {
        Value::Int(number) => write!(out, "{number}")?,
        Value::Sym(name) if name < names.len() => out.push_str(names.text(name))?,
        Value::Sym(_) => return Err(Stop::Row("there is no such name")),
    }
    Ok(())
}

/// Puts values at the end as a tuple: in parentheses, with a space between two.
pub(crate) fn put_tuple(names: &Names, values: &[Value], out: &mut String) -> Result<(), Stop> {
    out.push_str("(")?;
    for (k, value) in values.iter().enumerate() {
        if k > 0 {
            out.push_str(" ")?;
        }
        put_value(names, *value, out)?;
    }
    out.push_str(")")?;
    Ok(())
}

/// A note: the operation, the two operands, and how far after `start` its form begins.
pub(crate) fn note_text(
    alloc: Global,
    note: RangeNote,
    start: usize,
) -> Result<String, AllocError> {
    let op = match note.op {
        Op::Plus => "+",
        Op::Minus => "-",
        Op::Times => "*",
    };
    let at = (note.at as usize).wrapping_sub(start);
    let left = note.left;
    let right = note.right;
    format!(in alloc; "{op} {left} {right} at {at}")
}
