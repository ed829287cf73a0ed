// The rows of a table by their second value.
ghost use Rattle.std.specs.Prelude.{◌≡◌, Some, None, IfNone, IfSome, IfOk};
ghost use Rattle.tl_rows.specs.Second.{exchanged, KeepsWith, KeepsWithout};

use crate::runs::{Runs, find_row};
use crate::shared::MOST;
use std::alloc::Global;
use std::marker::Model;
use tl_syntax::{NoMemory, Value, Values};

/// The rows of a table with their first two values exchanged, in order, where the table keeps them
/// so too: then they are the rows by their second value, their first and the others (secondary
/// index, Comer 1979). Contracts see the list of them, or none.
#[derive(Drop)]
pub struct Second {
    rows: Option<Box<Runs>>,
}

impl Model for Second {
    ghost use Rattle.std.specs.Prelude.{List, Option};
    ghost use Rattle.std.specs.Option.{option_map};
    ghost use Rattle.tl_syntax.specs.declared.value.Value.{Value as PlainValue};

    ghost Value = { Option (List (List PlainValue)) };

    ghost view = { λ s. option_map (λ b. b.value) s.rows };
}

/// The values with the first two exchanged.
pub(crate) fn exchanged(alloc: Global, row: &[Value]) -> Result<Values, NoMemory>
    ensures { IfOk result (λ out. out ≡ exchanged row.now) }
{
    let mut out = Values::new(alloc);
    if row.len() < 2 {
        out.extend(row)?;
        return Ok(out);
    }
    out.extend(&[row[1], row[0]])?;
    out.extend(&row[2..])?;
    Ok(out)
}

impl Second {
    /// No second order is kept. It takes no memory.
    pub fn none() -> Second
        ensures { result ≡ None }
    {
        Second { rows: None }
    }

    /// The rows, which are exchanged and in order.
    pub(crate) fn of(alloc: Global, rows: Runs) -> Result<Second, NoMemory>
        ensures { IfOk result (λ s. s ≡ Some rows) }
    {
        let boxed = Box::new(alloc, rows)?;
        Ok(Second { rows: Some(boxed) })
    }

    /// The exchanged rows, where they are kept.
    #[inline]
    pub fn rows(&self) -> Option<&Runs>
        ensures some { IfSome result (λ rows. self.now ≡ Some rows.now) }
        ensures none { IfNone result (self.now ≡ None) }
    {
        match &self.rows {
            Some(rows) => Some(rows.as_ref()),
            None => None,
        }
    }

    /// What is kept with one more row. Nothing is kept any more where the row was there.
    pub(crate) fn with(&self, alloc: Global, row: &[Value]) -> Result<Second, NoMemory>
        ensures { IfOk result (KeepsWith self.now row.now) }
    {
        let Some(rows) = self.rows() else {
            return Ok(Second::none());
        };
        let other = exchanged(alloc, row)?;
        match find_row(rows, other.as_slice()) {
            Ok(_) => Ok(Second::none()),
            Err(k) => Second::of(alloc, rows.with(alloc, k, other.as_slice())?),
        }
    }

    /// What is kept without the row. Nothing is kept any more where few rows are left.
    pub(crate) fn without(&self, alloc: Global, gone: &[Value]) -> Result<Second, NoMemory>
        ensures { IfOk result (KeepsWithout self.now gone.now) }
    {
        let Some(rows) = self.rows() else {
            return Ok(Second::none());
        };
        if rows.len() <= MOST {
            return Ok(Second::none());
        }
        let other = exchanged(alloc, gone)?;
        match find_row(rows, other.as_slice()) {
            Ok(k) => Second::of(alloc, rows.without(alloc, k)?),
            Err(_) => Ok(Second::none()),
        }
    }

    /// What is kept with one more row, which is put into the exchanged rows. Nothing is kept any
    /// more where the row was there.
    pub(crate) fn put_row(self, alloc: Global, row: &[Value]) -> Result<Second, NoMemory>
        ensures { IfOk result (KeepsWith self row.now) }
    {
        let Some(mut rows) = self.rows else {
            return Ok(Second::none());
        };
        let other = exchanged(alloc, row)?;
        match find_row(rows.as_ref(), other.as_slice()) {
            Ok(_) => Ok(Second::none()),
            Err(k) => {
                rows.put_row(alloc, k, other.as_slice())?;
                Ok(Second { rows: Some(rows) })
            }
        }
    }

    /// What is kept without the row, which is taken out of the exchanged rows. Nothing is kept any
    /// more where few rows are left.
    pub(crate) fn cut_row(self, alloc: Global, gone: &[Value]) -> Result<Second, NoMemory>
        ensures { IfOk result (KeepsWithout self gone.now) }
    {
        let Some(mut rows) = self.rows else {
            return Ok(Second::none());
        };
        if rows.len() <= MOST {
            return Ok(Second::none());
        }
        let other = exchanged(alloc, gone)?;
        match find_row(rows.as_ref(), other.as_slice()) {
            Ok(k) => {
                rows.cut_row(alloc, k)?;
                Ok(Second { rows: Some(rows) })
            }
            Err(_) => Ok(Second::none()),
        }
    }
}
