// The rows of a table, in runs.
ghost use Rattle.std.specs.List.{insert, remove};
ghost use Rattle.std.specs.List.Sorted.{IsBinarySearchResult, IsSearchInRange};
ghost use Rattle.std.specs.Prelude.{◌≡◌, ◌<◌, ◌≤◌, ◌+◌, ◌^◌, ◌↔◌, ◌++◌, [], ◌∷◌, length, take, drop, slice_index_or, IfOk, IfSome, OnErr, OnOk, IsTrue};
ghost use Rattle.tl_syntax.proofs.Telling.{tells-partial};
ghost use Rattle.tl_rows.specs.RowTests.{rows_eq, rows-tell};
ghost use Rattle.tl_rows.specs.Runs.{between, GainsSomeUpTo, GainsUpTo, IsPart, IsPartFor};
ghost use Rattle.tl_rows.specs.Tables.{row_cmp};

use crate::flat::Flat;
use crate::row_search::{begins_after, find_in};
use crate::same_row::is_same_row;
use crate::shared::{FEWEST, MOST, Shared};
use std::alloc::Global;
use std::marker::Model;
use std::mem;
use std::rc::Rc;
use tl_syntax::{NoMemory, Value};

/// Rows in runs that other tables may share, but for the last ones, the table's own; contracts see
/// the list of all rows. A change copies its run and the last rows, and shares the other runs
/// (unrolled linked lists, Shao, Reppy and Appel 1994; leaves of a B+-tree, Comer 1979).
#[derive(Drop)]
pub struct Runs {
    shared: Shared,
    last: Flat,
}

impl Model for Runs {
    ghost use Rattle.std.specs.Prelude.{List, ◌++◌};
    ghost use Rattle.tl_syntax.specs.declared.value.Value.{Value as PlainValue};

    ghost Value = { List (List PlainValue) };

    ghost view = { λ r. r.shared ++ r.last };
}

impl Runs {
    /// The table of one row.
    pub(crate) fn of_one(alloc: Global, row: &[Value]) -> Result<Runs, NoMemory>
        ensures { IfOk result (λ r. r ≡ row.now ∷ []) }
    {
        Ok(Runs {
            shared: Shared::none(alloc),
            last: Flat::of_one(alloc, row)?,
        })
    }

    /// No rows. It takes no memory.
    pub(crate) fn none(alloc: Global) -> Runs
        ensures { result ≡ [] }
    {
        Runs {
            shared: Shared::none(alloc),
            last: Flat::none(alloc),
        }
    }

    /// The rows of one list, which are not cut into runs.
    #[inline]
    pub(crate) fn of_list(alloc: Global, rows: Flat) -> Runs
        ensures { result ≡ rows }
    {
        Runs {
            shared: Shared::none(alloc),
            last: rows,
        }
    }

    /// No rows, with room for the runs of the table, and for one or two more.
    pub(crate) fn with_room(&self, alloc: Global) -> Result<Runs, NoMemory>
        ensures { IfOk result (λ r. r ≡ []) }
    {
        let runs = self.shared.runs();
        let shared = Shared::with_room(alloc, if runs == 0 { 0 } else { runs.saturating_add(2) })?;
        let last = Flat::none(alloc);
        Ok(Runs { shared, last })
    }

    /// How many rows there are.
    #[inline]
    pub fn len(&self) -> usize
        ensures { result ≡ length self.now }
    {
        self.shared.len() + self.last.len()
    }

    /// The rows in one list, where they are not cut into runs.
    #[inline(always)]
    pub(crate) fn uncut(&self) -> Option<&Flat>
        ensures { IfSome result (λ rows. rows.now ≡ self.now) }
    {
        if self.shared.len() == 0 {
            Some(&self.last)
        } else {
            None
        }
    }

    /// The rows with which row `k` stands in one list, and the place at which they begin. A run is
    /// found by halves where it is not the one that is guessed.
    #[inline]
    fn part_of(&self, k: usize, guess: usize) -> (&Flat, usize)
        ensures part { IsPart self.now result.1 result.0.now }
        ensures from { result.1 ≤ k }
        ensures to { k < length self.now → k < result.1 + length result.0.now }
    {
        let full = self.shared.len();
        if k >= full {
            (&self.last, full)
        } else {
            let mut guess = guess;
            let (rows, from) = self.shared.run_of(k, &mut guess);
            (rows.as_ref(), from)
        }
    }

    /// The rows among which one with these arguments stands or would stand, and the place at which
    /// they begin.
    #[inline]
    fn part_for(&self, args: &[Value]) -> (&Flat, usize)
        ensures part { IsPartFor args.now self.now result.1 result.0.now }
        ensures small { result.1 + length result.0.now < 2 ^ 64 }
    {
        let full = self.shared.len();
        let count = self.last.len();
        if full == 0 || (count > 0 && !begins_after(&self.last, args)) {
            (&self.last, full)
        } else {
            self.shared.run_for(args)
        }
    }

    /// Row `k`, counted from 0.
    #[inline]
    pub fn row(&self, k: usize) -> &[Value]
        requires { k < length self.now }
        ensures { result.now ≡ slice_index_or self.now k result.now }
    {
        match self.uncut() {
            Some(rows) => rows.row(k),
            None => self.row_in_runs(k),
        }
    }

    /// Row `k` of a table that is cut into runs.
    #[inline(never)]
    fn row_in_runs(&self, k: usize) -> &[Value]
        requires { k < length self.now }
        ensures { result.now ≡ slice_index_or self.now k result.now }
    {
        let (rows, from) = self.part_of(k, k / MOST);
        rows.row(k - from)
    }

    /// Makes the last rows a run, and others the last rows.
    fn begin_last(&mut self, alloc: Global, rows: Flat) -> Result<(), NoMemory>
        ensures { OnOk result (self.new ≡ self.old ++ rows) }
    {
        let before = mem::replace(&mut self.last, rows);
        self.shared.push_rows(alloc, before)
    }

    /// Makes the last rows a run, so that new last rows begin.
    pub(crate) fn close(&mut self, alloc: Global) -> Result<(), NoMemory>
        ensures { OnOk result (self.new ≡ self.old) }
    {
        let rows = mem::replace(&mut self.last, Flat::none(alloc));
        self.shared.push_rows(alloc, rows)
    }

    /// The rows of a run at the end, which is shared.
    fn share(&mut self, alloc: Global, rows: &Rc<Flat>) -> Result<(), NoMemory>
        ensures { OnOk result (self.new ≡ self.old ++ rows.now.value) }
    {
        if self.last.len() == 0 {
            return self.shared.push(rows.clone()?);
        }
        let before = mem::replace(&mut self.last, Flat::none(alloc));
        self.shared.push_rows(alloc, before)?;
        self.shared.push(rows.clone()?)
    }

    /// The rows `from..to` of those at the end.
    fn copy_rows(
        &mut self,
        alloc: Global,
        rows: &Flat,
        from: usize,
        to: usize,
    ) -> Result<(), NoMemory>
        requires range { from < to }
        requires bound { to ≤ length rows.now }
        ensures { OnOk result (self.new ≡ self.old ++ between rows.now from to) }
    {
        let room = rows.value_count().saturating_add(rows.width());
        let count = self.last.len();
        if self.last.takes(rows.width())
            && (count == 0 || from > 0 || to <= MOST.saturating_sub(count))
        {
            self.last.reserve(room)?;
            return self.last.push_rows(rows, from, to);
        }
        let mut next = Flat::none(alloc);
        next.reserve(room)?;
        next.push_rows(rows, from, to)?;
        self.begin_last(alloc, next)
    }

    /// One more row at the end.
    pub(crate) fn push(&mut self, alloc: Global, row: &[Value]) -> Result<(), NoMemory>
        ensures { OnOk result (self.new ≡ self.old ++ row.now ∷ []) }
    {
        if self.last.len() < MOST && self.last.takes(row.len()) {
            return self.last.push(row);
        }
        let next = Flat::of_one(alloc, row)?;
        self.begin_last(alloc, next)
    }

    /// Whether the run goes in by sharing: one with few rows is copied, and so is one that fits in
    /// with the last rows.
    fn takes_run(&self, rows: &Flat) -> bool {
        let count = self.last.len();
        rows.len() >= FEWEST && (count == 0 || count + rows.len() > MOST)
    }

    /// Some rows of the other from place `k` on, at the end, but none from the place `to` on. It
    /// gives the place after them. `guess` is a guess for the run of the other.
    fn push_some(
        &mut self,
        alloc: Global,
        other: &Runs,
        k: usize,
        to: usize,
        guess: &mut usize,
    ) -> Result<usize, NoMemory>
        requires some { k < to }
        requires bound { to ≤ length other.now }
        ensures { IfOk result (GainsSomeUpTo self.old self.new other.now k to) }
    {
        let full = other.shared.len();
        if k >= full {
            self.copy_rows(alloc, &other.last, k - full, to - full)?;
            return Ok(to);
        }
        let (rows, from) = other.shared.run_of(k, guess);
        let next = to.min(from + rows.len());
        if next - k == rows.len() && self.takes_run(rows.as_ref()) {
            self.share(alloc, rows)?;
        } else {
            self.copy_rows(alloc, rows.as_ref(), k - from, next - from)?;
        }
        Ok(next)
    }

    /// Whole runs of the other from place `k` on at the end, where there are no last rows before
    /// them. It gives the place after them. `guess` is a guess for the run of the other.
    fn push_whole(
        &mut self,
        other: &Runs,
        k: usize,
        to: usize,
        guess: &mut usize,
    ) -> Result<usize, NoMemory>
        requires { k < to }
        ensures { IfOk result (GainsUpTo self.old self.new other.now k to) }
    {
        let count = self.last.len();
        if count > 0 {
            return Ok(k);
        }
        let full = other.shared.len();
        if k >= full {
            return Ok(k);
        }
        self.shared.push_runs(&other.shared, k, to, guess)
    }

    /// Some rows of the other from place `k` on, at the end, but none from the place `to` on, whole
    /// runs first. It gives the place after them. `guess` is a guess for the run of the other.
    fn push_more(
        &mut self,
        alloc: Global,
        other: &Runs,
        k: usize,
        to: usize,
        guess: &mut usize,
    ) -> Result<usize, NoMemory>
        requires some { k < to }
        requires bound { to ≤ length other.now }
        ensures { IfOk result (GainsSomeUpTo self.old self.new other.now k to) }
    {
        let next = self.push_whole(other, k, to, guess)?;
        if next >= to {
            return Ok(next);
        }
        let after = self.push_some(alloc, other, next, to, guess)?;
        Ok(after)
    }

    /// The rows `from..to` of the other at the end.
    pub(crate) fn push_rows(
        &mut self,
        alloc: Global,
        other: &Runs,
        from: usize,
        to: usize,
    ) -> Result<(), NoMemory>
        requires range { from ≤ to }
        requires bound { to ≤ length other.now }
        ensures { OnOk result (self.new ≡ self.old ++ between other.now from to) }
    {
        let mut k = from;
        let mut guess = 0;
        while k < to {
            k = self.push_more(alloc, other, k, to, &mut guess)?;
        }
        if self.last.len() > MOST {
            return self.close(alloc);
        }
        Ok(())
    }

    /// Puts one more row at place `k`, into its run or the last rows where these have room. After a
    /// failure the rows are those of before.
    pub(crate) fn put_row(&mut self, alloc: Global, k: usize, row: &[Value]) -> Result<(), NoMemory>
        requires { k ≤ length self.old }
        ensures all { OnOk result (self.new ≡ insert self.old k row.now) }
        ensures same { OnErr result (self.new ≡ self.old) }
    {
        let full = self.shared.len();
        if k >= full && self.last.len() < MOST && self.last.takes(row.len()) {
            self.last = self.last.with(alloc, k - full, row)?;
            return Ok(());
        }
        if k < full && self.shared.put_row(alloc, k, row)? {
            return Ok(());
        }
        *self = self.with(alloc, k, row)?;
        Ok(())
    }

    /// Takes row `k` out, of the last rows where it is among them or of its run where that has enough.
    /// After a failure the rows are those of before.
    pub(crate) fn cut_row(&mut self, alloc: Global, k: usize) -> Result<(), NoMemory>
        requires { k < length self.old }
        ensures all { OnOk result (self.new ≡ remove self.old k) }
        ensures same { OnErr result (self.new ≡ self.old) }
    {
        let full = self.shared.len();
        if k >= full {
            self.last = self.last.without(alloc, k - full)?;
            return Ok(());
        }
        if self.shared.cut_row(alloc, k)? {
            return Ok(());
        }
        *self = self.without(alloc, k)?;
        Ok(())
    }

    /// Whether the rows stand in the table from the place on, by a comparison of each row.
    fn has_each_at(&self, at: usize, rows: &Flat) -> bool
        requires bound { at + length rows.now ≤ length self.now }
        requires small { at + length rows.now < 2 ^ 64 }
        ensures { IsTrue result ↔ (between self.now at (at + length rows.now) ≡ rows.now) }
    {
        let mut i = 0;
        while i < rows.len() {
            if !is_same_row(self.row(at + i), rows.row(i)) {
                return false;
            }
            i += 1;
        }
        true
    }

    /// Whether the rows stand in the table from the place on. `guess` is a guess for the run.
    fn has_at(&self, at: usize, rows: &Flat, guess: usize) -> bool
        requires bound { at + length rows.now ≤ length self.now }
        requires small { at + length rows.now < 2 ^ 64 }
        ensures { IsTrue result ↔ (between self.now at (at + length rows.now) ≡ rows.now) }
    {
        let (part, from) = self.part_of(at, guess);
        if from == at && part.len() == rows.len() {
            *part == *rows
        } else {
            self.has_each_at(at, rows)
        }
    }

    /// How many rows from place `k` on are found to be those of the other from place `l` on, by one
    /// comparison of values: all rows of a run, where one with the same rows begins at each of the
    /// places, and else none.
    pub(crate) fn same_from(&self, k: usize, other: &Runs, l: usize) -> usize
        ensures same { take result (drop k self.now) ≡ take result (drop l other.now) }
        ensures many { length (take result (drop k self.now)) ≡ result }
    {
        let (rows, from) = self.part_of(k, k / MOST);
        let (others, start) = other.part_of(l, l / MOST);
        if from == k && start == l && *rows == *others {
            rows.len()
        } else {
            0
        }
    }

    /// How many rows from place `k` on are those of the other from place `l` on, up to the end of a
    /// run of one of the two. A run with the same rows as one of the other is compared in one go,
    /// where the table is cut into runs.
    pub(crate) fn same_rows(&self, k: usize, other: &Runs, l: usize) -> usize
        requires row { k < length self.now }
        requires other { l < length other.now }
        ensures same { take result (drop k self.now) ≡ take result (drop l other.now) }
        ensures many { length (take result (drop k self.now)) ≡ result }
    {
        if self.shared.len() > 0 {
            let whole = self.same_from(k, other, l);
            if whole > 0 {
                return whole;
            }
        }
        let (rows, from) = self.part_of(k, k / MOST);
        let (others, start) = other.part_of(l, l / MOST);
        rows.same_rows(k - from, others, l - start)
    }

    /// Whether the table begins with the rows of the runs.
    fn begins_with(&self, shared: &Shared) -> bool
        requires { length shared.now ≤ length self.now }
        ensures { IsTrue result ↔ (take (length shared.now) self.now ≡ shared.now) }
    {
        let mut k = 0;
        let mut guess = 0;
        while k < shared.len() {
            let run = guess;
            let (rows, from) = shared.run_of(k, &mut guess);
            if !self.has_at(from, rows.as_ref(), run) {
                return false;
            }
            k = from + rows.len();
        }
        true
    }
}

impl PartialEq for Runs {
    ghost eq = { λ x y. rows_eq x y };

    ghost laws = { tells-partial rows_eq rows-tell };

    fn eq(&self, other: &Runs) -> bool {
        if self.len() != other.len() {
            return false;
        }
        if !self.begins_with(&other.shared) {
            return false;
        }
        self.has_at(other.shared.len(), &other.last, self.shared.runs())
    }
}

/// The place of the row with these arguments, or the place at which it would stand, by halves:
/// first over the first rows of the runs, and then in one of them.
#[inline(never)]
fn find_in_runs(rows: &Runs, args: &[Value]) -> Result<usize, usize>
    ensures range { IsSearchInRange result (length rows.now) }
    ensures place { IsBinarySearchResult (λ r. row_cmp r args.now) rows.now result }
{
    let (part, from) = rows.part_for(args);
    match find_in(part, args) {
        Ok(k) => Ok(from + k),
        Err(k) => Err(from + k),
    }
}

/// The place of the row with these arguments, or the place at which it would stand, by halves.
#[inline(always)]
pub fn find_row(rows: &Runs, args: &[Value]) -> Result<usize, usize>
    ensures range { IsSearchInRange result (length rows.now) }
    ensures place { IsBinarySearchResult (λ r. row_cmp r args.now) rows.now result }
{
    match rows.uncut() {
        Some(list) => find_in(list, args),
        None => find_in_runs(rows, args),
    }
}
