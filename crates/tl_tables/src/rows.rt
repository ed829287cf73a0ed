// The rows of a table: their columns, and the texts that braces stand for.

use crate::named_texts::named;
use std::alloc::{AllocError, Global};

/// Whether a line of a table is a row: it is not empty, and no comment.
pub fn is_row(line: &str) -> bool {
    !line.is_empty() && !line.starts_with("# ")
}

/// The column of a row with this number, counted from 0. Columns are separated by ` | `; one that
/// is `-`, or left out, is empty.
pub fn column(row: &str, number: usize) -> &str {
    for (k, text) in row.split(" | ").enumerate() {
        if k == number && text != "-" {
            return text;
        }
    }
    ""
}

/// Puts a text so many times at the end. It is doubled again and again, so that a text of some
/// megabytes is put together in a few steps.
fn put_repeated(alloc: Global, part: &str, times: u32, out: &mut String) -> Result<(), AllocError> {
    let mut unit = String::from_str(alloc, part)?;
    let mut left = times;
    for _ in 0..32u32 {
        if left % 2 == 1 {
            out.push_str(unit.as_str())?;
        }
        left /= 2;
        if left == 0 {
            break;
        }
        unit = unit.as_str().repeat(alloc, 2)?;
    }
    Ok(())
}

/// How many times a text is asked for, and the text, where a name is a number, a space, and the
/// text.
fn repetition(name: &str) -> Option<(u32, &str)> {
    let (times, part) = name.split_once(' ')?;
    match times.parse::<u32>() {
        Ok(times) => Some((times, part)),
        Err(_) => None,
    }
}

/// Puts at the end what a text in braces stands for: a column of the row, where it is a number, a
/// text so many times, or the text of this name.
fn put_braces(alloc: Global, name: &str, row: &str, out: &mut String) -> Result<(), AllocError> {
    match (name.parse::<u32>(), repetition(name)) {
        (Ok(number), _) => out.push_str(column(row, number as usize)),
        (_, Some((times, part))) => put_repeated(alloc, part, times, out),
        _ => out.push_str(named(name)),
    }
}

/// A text in which each part in braces is replaced by what it stands for; the numbers among them
/// are columns of the row.
pub fn filled(alloc: Global, text: &str, row: &str) -> Result<String, AllocError> {
    let mut out = String::new(alloc);
    for piece in text.split('{') {
        match piece.split_once('}') {
            Some((name, rest)) => {
                put_braces(alloc, name, row, &mut out)?;
                out.push_str(rest)?;
            }
            None => out.push_str(piece)?,
        }
    }
    Ok(out)
}
