// Rows of one length, one after another in one list.
ghost use Rattle.std.specs.List.{insert, remove};
ghost use Rattle.std.specs.Prelude.{◌≡◌, ◌<◌, ◌≤◌, ◌+◌, ◌-◌, ◌*◌, ◌^◌, ℕ, List, [], ◌∷◌, ◌++◌, length, take, drop, slice_index_or, IfOk, OnOk, IsTrue};
ghost use Rattle.tl_syntax.proofs.Telling.{tells-partial};
ghost use Rattle.tl_rows.specs.Cuts.{even_rows, items_with, items_without, HaveOneWidth, HaveWidth};
ghost use Rattle.tl_rows.specs.Runs.{between};
ghost use Rattle.tl_rows.specs.RowTests.{rows_eq, rows-tell};

use crate::same_row::is_same_row;
use std::alloc::Global;
use std::marker::Model;
use tl_syntax::{NoMemory, Value};

/// One more than the greatest number of rows that is counted.
pub(crate) const COUNTED: usize = 9223372036854775808;

/// Rows of one length, one after another in one list. Contracts see the list of the rows.
#[derive(Drop)]
pub struct Flat {
    width: usize,
    count: usize,
    values: Vec<Value>,
}

impl Model for Flat {
    ghost use Rattle.std.specs.Prelude.{◌≡◌, ◌<◌, ◌*◌, ◌^◌, List, length};
    ghost use Rattle.tl_syntax.specs.declared.value.Value.{Value as PlainValue};
    ghost use Rattle.tl_rows.specs.Cuts.{even_rows};

    ghost Value = { List (List PlainValue) };

    ghost view = { λ f. even_rows f.width f.count f.values.items };

    ghost invariant = { λ f. (f.width * f.count ≡ length f.values.items) × (f.count < 2 ^ 63) };
}

/// So many values from a place on.
#[inline(always)]
fn run(values: &[Value], from: usize, size: usize) -> &[Value]
    requires { from + size ≤ length values.now }
    ensures { result.now ≡ take size (drop from values.now) }
{
    &values[from..from + size]
}

/// The values from a place on.
#[inline]
fn values_from(values: &[Value], from: usize) -> &[Value]
    requires { from ≤ length values.now }
    ensures { result.now ≡ drop from values.now }
{
    &values[from..]
}

/// How many values at the beginning of the two lists are the same. It takes no memory.
#[inline]
fn count_same(a: &[Value], b: &[Value]) -> usize
    ensures same { take result a.now ≡ take result b.now }
    ensures within { result ≤ length a.now }
    ensures other { result ≤ length b.now }
{
    let most = a.len().min(b.len());
    let mut n = 0;
    while n < most {
        if a[n] != b[n] {
            return n;
        }
        n += 1;
    }
    n
}

/// How many rows of a length so many values are at most.
#[inline]
fn whole_rows(values: usize, width: usize) -> usize
    requires { 0 < width }
    ensures { width * result ≤ values }
{
    if width == 1 { values } else { values / width }
}

/// The values with those of the row before those from `at` on.
pub(crate) fn values_with(
    alloc: Global,
    values: &[Value],
    at: usize,
    row: &[Value],
) -> Result<Vec<Value>, NoMemory>
    requires { at ≤ length values.now }
    ensures { IfOk result (λ v. v.items ≡ items_with values.now at row.now) }
{
    let mut out = Vec::with_capacity(alloc, values.len().saturating_add(row.len()))?;
    out.extend_from_slice(&values[..at])?;
    out.extend_from_slice(row)?;
    out.extend_from_slice(&values[at..])?;
    Ok(out)
}

/// The values without so many from `at` on.
fn values_without(
    alloc: Global,
    values: &[Value],
    at: usize,
    size: usize,
) -> Result<Vec<Value>, NoMemory>
    requires { at + size ≤ length values.now }
    ensures { IfOk result (λ v. v.items ≡ items_without values.now at size) }
{
    let mut out = Vec::with_capacity(alloc, values.len() - size)?;
    out.extend_from_slice(&values[..at])?;
    out.extend_from_slice(&values[at + size..])?;
    Ok(out)
}

impl PartialEq for Flat {
    ghost eq = { λ x y. rows_eq x y };

    ghost laws = { tells-partial rows_eq rows-tell };

    fn eq(&self, other: &Flat) -> bool {
        if self.count != other.count {
            return false;
        }
        if self.count > 0 && self.width != other.width {
            return false;
        }
        is_same_row(self.values.as_slice(), other.values.as_slice())
    }
}

impl Flat {
    /// No rows. It takes no memory.
    #[inline]
    pub(crate) fn none(alloc: Global) -> Flat
        ensures { result ≡ [] }
    {
        Flat {
            width: 0,
            count: 0,
            values: Vec::new(alloc),
        }
    }

    /// One row.
    pub(crate) fn of_one(alloc: Global, row: &[Value]) -> Result<Flat, NoMemory>
        ensures { IfOk result (λ f. f ≡ row.now ∷ []) }
    {
        Ok(Flat {
            width: row.len(),
            count: 1,
            values: Vec::from_slice(alloc, row)?,
        })
    }

    /// Makes room for as many values in all, where there are no rows yet, and no more.
    pub(crate) fn reserve(&mut self, values: usize) -> Result<(), NoMemory>
        ensures { self.new ≡ self.old }
    {
        if self.values.is_empty() {
            self.values.reserve_exact(values)?;
        }
        Ok(())
    }

    /// How many rows there are.
    #[inline]
    pub(crate) fn len(&self) -> usize
        ensures len { result ≡ length self.now }
        ensures small { result < 2 ^ 63 }
    {
        self.count
    }

    /// How many values each row has.
    #[inline]
    pub(crate) fn width(&self) -> usize
        ensures { HaveWidth result self.now }
    {
        self.width
    }

    /// Whether a row of so many values fits in with the rows.
    #[inline]
    pub(crate) fn takes(&self, width: usize) -> bool
        ensures { IsTrue result → HaveWidth width self.now }
    {
        self.count == 0 || self.width == width
    }

    /// How many values there are in all.
    pub(crate) fn value_count(&self) -> usize {
        self.values.len()
    }

    /// Row `k`, counted from 0.
    #[inline(always)]
    pub(crate) fn row(&self, k: usize) -> &[Value]
        requires { k < length self.now }
        ensures { result.now ≡ slice_index_or self.now k result.now }
    {
        run(self.values.as_slice(), self.width * k, self.width)
    }

    /// The values of the rows `from..to`.
    #[inline]
    fn values_of(&self, from: usize, to: usize) -> &[Value]
        requires range { from < to }
        requires bound { to ≤ length self.now }
        ensures rows { (w : ℕ) → HaveWidth w self.now
            → even_rows w (to - from) result.now ≡ between self.now from to }
        ensures size { (w : ℕ) → HaveWidth w self.now → w * (to - from) ≡ length result.now }
    {
        run(
            self.values.as_slice(),
            self.width * from,
            self.width * (to - from),
        )
    }

    /// How many rows from place `k` on are those of the other from place `l` on. The values are
    /// compared one after another.
    pub(crate) fn same_rows(&self, k: usize, other: &Flat, l: usize) -> usize
        requires row { k ≤ length self.now }
        requires other { l ≤ length other.now }
        ensures same { take result (drop k self.now) ≡ take result (drop l other.now) }
        ensures many { length (take result (drop k self.now)) ≡ result }
    {
        let width = self.width;
        if width != other.width {
            return 0;
        }
        if width == 0 {
            return (self.count - k).min(other.count - l);
        }
        let these = values_from(self.values.as_slice(), width * k);
        let those = values_from(other.values.as_slice(), width * l);
        whole_rows(count_same(these, those), width)
    }

    /// One more row at the end.
    pub(crate) fn push(&mut self, row: &[Value]) -> Result<(), NoMemory>
        requires { HaveWidth (length row.now) self.old }
        ensures { OnOk result (self.new ≡ self.old ++ row.now ∷ []) }
    {
        if self.count + 1 >= COUNTED {
            return Err(NoMemory);
        }
        self.values.extend_from_slice(row)?;
        self.width = row.len();
        self.count += 1;
        Ok(())
    }

    /// The rows `from..to` of the other at the end.
    pub(crate) fn push_rows(&mut self, other: &Flat, from: usize, to: usize) -> Result<(), NoMemory>
        requires range { from < to }
        requires bound { to ≤ length other.now }
        requires fits { HaveOneWidth self.old other.now }
        ensures { OnOk result (self.new ≡ self.old ++ between other.now from to) }
    {
        let width = other.width;
        let more = to - from;
        if self.count + more >= COUNTED {
            return Err(NoMemory);
        }
        self.values.extend_from_slice(other.values_of(from, to))?;
        self.width = width;
        self.count += more;
        Ok(())
    }

    /// The rows `from..to` alone.
    pub(crate) fn part(&self, alloc: Global, from: usize, to: usize) -> Result<Flat, NoMemory>
        requires range { from < to }
        requires bound { to ≤ length self.now }
        ensures { IfOk result (λ f. f ≡ between self.now from to) }
    {
        Ok(Flat {
            width: self.width,
            count: to - from,
            values: Vec::from_slice(alloc, self.values_of(from, to))?,
        })
    }

    /// The rows with one more at place `k`.
    pub(crate) fn with(&self, alloc: Global, k: usize, row: &[Value]) -> Result<Flat, NoMemory>
        requires place { k ≤ length self.now }
        requires fits { HaveWidth (length row.now) self.now }
        ensures { IfOk result (λ f. f ≡ insert self.now k row.now) }
    {
        if self.count + 1 >= COUNTED {
            return Err(NoMemory);
        }
        let width = row.len();
        Ok(Flat {
            width,
            count: self.count + 1,
            values: values_with(alloc, self.values.as_slice(), width * k, row)?,
        })
    }

    /// The rows without that at place `k`.
    pub(crate) fn without(&self, alloc: Global, k: usize) -> Result<Flat, NoMemory>
        requires { k < length self.now }
        ensures { IfOk result (λ f. f ≡ remove self.now k) }
    {
        let width = self.width;
        Ok(Flat {
            width,
            count: self.count - 1,
            values: values_without(alloc, self.values.as_slice(), width * k, width)?,
        })
    }
}
