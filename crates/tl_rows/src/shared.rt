// Runs of rows that tables share.
ghost use Rattle.std.specs.List.{insert, remove};
ghost use Rattle.std.specs.Prelude.{◌≡◌, ◌≢◌, ◌<◌, ◌≤◌, ◌+◌, ◌^◌, [], ◌++◌, length, map, take, drop, false, IfOk, OnErr, OnOk, IsTrue};
ghost use Rattle.std.specs.declared.cmp.Ordering.TheVariants.{Greater};
ghost use Rattle.tl_rows.specs.Cuts.{HaveWidth};
ghost use Rattle.tl_rows.specs.Runs.{between, first_row, lowered, raised, rows_in, run_place, AreCounted, BeginsAfter, IsPart, IsPartFor};
ghost use Rattle.tl_rows.specs.Tables.{row_cmp};

use crate::flat::{COUNTED, Flat};
use crate::row_search::begins_after;
use std::alloc::Global;
use std::marker::Model;
use std::rc::Rc;
use tl_syntax::{NoMemory, Value};

/// How many rows a run has at most, and so how many a table has that is not cut into runs.
pub(crate) const MOST: usize = 48;

/// How many rows a run has at least that is shared. One with fewer is copied, and so joined to the
/// next.
pub(crate) const FEWEST: usize = 12;

/// A run of rows, with the place at which the next one begins.
#[derive(Drop)]
pub struct Run {
    rows: Rc<Flat>,
    end: usize,
}

/// Runs of rows that follow one another. Contracts see the list of all rows.
#[derive(Drop)]
pub struct Shared {
    runs: Vec<Run>,
}

impl Model for Shared {
    ghost use Rattle.std.specs.Prelude.{List};
    ghost use Rattle.tl_syntax.specs.declared.value.Value.{Value as PlainValue};
    ghost use Rattle.tl_rows.specs.Runs.{rows_in, AreCounted};

    ghost Value = { List (List PlainValue) };

    ghost view = { λ s. rows_in s.runs.items };

    ghost invariant = { λ s. AreCounted 0 s.runs.items };
}

/// The place at which run `i` begins.
#[inline]
fn begin(runs: &[Run], i: usize) -> usize
    requires counted { AreCounted 0 runs.now }
    requires bound { i ≤ length runs.now }
    ensures place { result ≡ run_place runs.now i }
    ensures small { result < 2 ^ 63 }
{
    if i == 0 { 0 } else { runs[i - 1].end }
}

/// The run in which row `k` stands, found by halves.
#[inline(never)]
fn halve_runs(runs: &[Run], k: usize) -> usize
    requires counted { AreCounted 0 runs.now }
    requires bound { k < length (rows_in runs.now) }
    ensures bound { result < length runs.now }
    ensures from { run_place runs.now result ≤ k }
    ensures to { k < run_place runs.now (result + 1) }
{
    let mut low = 0;
    let mut high = runs.len();
    while low < high {
        let middle = low + (high - low) / 2;
        if runs[middle].end <= k {
            low = middle + 1;
        } else {
            high = middle;
        }
    }
    low
}

/// The run in which row `k` stands, found by halves where it is not the one that is guessed.
#[inline]
fn find_run(runs: &[Run], k: usize, guess: usize) -> usize
    requires counted { AreCounted 0 runs.now }
    requires bound { k < length (rows_in runs.now) }
    ensures bound { result < length runs.now }
    ensures from { run_place runs.now result ≤ k }
    ensures to { k < run_place runs.now (result + 1) }
{
    if guess < runs.len() && begin(runs, guess) <= k && k < runs[guess].end {
        return guess;
    }
    halve_runs(runs, k)
}

/// The last run that does not begin after the arguments, or else the first one, found by halves.
fn find_run_for(runs: &[Run], args: &[Value]) -> usize
    requires counted { AreCounted 0 runs.now }
    requires some { 0 < length runs.now }
    ensures bound { result < length runs.now }
    ensures before { 0 < result → row_cmp (first_row runs.now result) args.now ≢ Greater }
    ensures after { BeginsAfter runs.now (result + 1) args.now }
{
    let mut low = 0;
    let mut high = runs.len();
    while low + 1 < high {
        let middle = low + (high - low) / 2;
        if begins_after(runs[middle].rows.as_ref(), args) {
            high = middle;
        } else {
            low = middle;
        }
    }
    low
}

/// Whether the run ends at the place or before and has rows enough to be shared.
#[inline]
fn is_whole(run: &Run, to: usize) -> bool
    ensures { IsTrue result → run.now.end ≤ to }
{
    run.end <= to && run.rows.len() >= FEWEST
}

/// Takes row `k` out of the run. After a failure its rows are those of before.
fn cut_in_run(alloc: Global, run: &mut Run, k: usize) -> Result<(), NoMemory>
    requires { k < length run.old.rows.value }
    ensures end { run.new.end ≡ run.old.end }
    ensures all { OnOk result (run.new.rows.value ≡ remove run.old.rows.value k) }
    ensures same { OnErr result (run.new.rows.value ≡ run.old.rows.value) }
{
    let rows = run.rows.without(alloc, k)?;
    run.rows = Rc::new(alloc, rows)?;
    Ok(())
}

/// Puts one more row at place `k` into the run. After a failure its rows are those of before.
fn put_in_run(alloc: Global, run: &mut Run, k: usize, row: &[Value]) -> Result<(), NoMemory>
    requires place { k ≤ length run.old.rows.value }
    requires fits { HaveWidth (length row.now) run.old.rows.value }
    ensures end { run.new.end ≡ run.old.end }
    ensures all { OnOk result (run.new.rows.value ≡ insert run.old.rows.value k row.now) }
    ensures same { OnErr result (run.new.rows.value ≡ run.old.rows.value) }
{
    let rows = run.rows.with(alloc, k, row)?;
    run.rows = Rc::new(alloc, rows)?;
    Ok(())
}

/// One less at each of the ends from run `i` on.
fn lower_ends(runs: &mut Vec<Run>, i: usize)
    requires { i ≤ length runs.old.items }
    ensures { runs.new.items ≡ take i runs.old.items ++ map lowered (drop i runs.old.items) }
{
    let mut j = runs.len();
    while j > i {
        j -= 1;
        runs[j].end = runs[j].end.saturating_sub(1);
    }
}

/// One more at each of the ends from run `i` on.
fn raise_ends(runs: &mut Vec<Run>, i: usize)
    requires { i ≤ length runs.old.items }
    ensures { runs.new.items ≡ take i runs.old.items ++ map raised (drop i runs.old.items) }
{
    let mut j = runs.len();
    while j > i {
        j -= 1;
        runs[j].end = runs[j].end.wrapping_add(1);
    }
}

impl Shared {
    /// Takes row `k` out of its run, where that has rows enough: whether it has. After a failure
    /// the rows are those of before.
    pub(crate) fn cut_row(&mut self, alloc: Global, k: usize) -> Result<bool, NoMemory>
        requires { k < length self.old }
        ensures all { IfOk result (λ b. IsTrue b → self.new ≡ remove self.old k) }
        ensures none { IfOk result (λ b. b ≡ false → self.new ≡ self.old) }
        ensures same { OnErr result (self.new ≡ self.old) }
    {
        let i = find_run(self.runs.as_slice(), k, k / MOST);
        let from = begin(self.runs.as_slice(), i);
        if self.runs[i].rows.len() <= FEWEST {
            return Ok(false);
        }
        cut_in_run(alloc, &mut self.runs[i], k - from)?;
        lower_ends(&mut self.runs, i);
        Ok(true)
    }

    /// Puts one more row at place `k` into the run that has one there, where that has room: whether
    /// it has. After a failure the rows are those of before.
    pub(crate) fn put_row(
        &mut self,
        alloc: Global,
        k: usize,
        row: &[Value],
    ) -> Result<bool, NoMemory>
        requires { k < length self.old }
        ensures all { IfOk result (λ b. IsTrue b → self.new ≡ insert self.old k row.now) }
        ensures none { IfOk result (λ b. b ≡ false → self.new ≡ self.old) }
        ensures same { OnErr result (self.new ≡ self.old) }
    {
        let i = find_run(self.runs.as_slice(), k, k / MOST);
        let from = begin(self.runs.as_slice(), i);
        if self.runs[i].rows.len() >= MOST || self.len() + 1 >= COUNTED {
            return Ok(false);
        }
        if !self.runs[i].rows.takes(row.len()) {
            return Ok(false);
        }
        put_in_run(alloc, &mut self.runs[i], k - from, row)?;
        raise_ends(&mut self.runs, i);
        Ok(true)
    }
}

impl Shared {
    /// No runs. It takes no memory.
    #[inline]
    pub(crate) fn none(alloc: Global) -> Shared
        ensures { result ≡ [] }
    {
        Shared {
            runs: Vec::new(alloc),
        }
    }

    /// No runs, with room for as many as are given.
    pub(crate) fn with_room(alloc: Global, runs: usize) -> Result<Shared, NoMemory>
        ensures { IfOk result (λ s. s ≡ []) }
    {
        Ok(Shared {
            runs: Vec::with_capacity(alloc, runs)?,
        })
    }

    /// How many runs there are.
    pub(crate) fn runs(&self) -> usize {
        self.runs.len()
    }

    /// How many rows there are.
    #[inline]
    pub(crate) fn len(&self) -> usize
        ensures len { result ≡ length self.now }
        ensures small { result < 2 ^ 63 }
    {
        let runs = self.runs.as_slice();
        begin(runs, runs.len())
    }

    /// The run in which row `k` stands, and the place at which it begins. It is found by halves
    /// where it is not the one that is guessed. The next run is then the guess.
    #[inline]
    pub(crate) fn run_of(&self, k: usize, guess: &mut usize) -> (&Rc<Flat>, usize)
        requires { k < length self.now }
        ensures part { IsPart self.now result.1 result.0.now.value }
        ensures from { result.1 ≤ k }
        ensures to { k < result.1 + length result.0.now.value }
    {
        let runs = self.runs.as_slice();
        let i = find_run(runs, k, *guess);
        *guess = i + 1;
        (&runs[i].rows, begin(runs, i))
    }

    /// The run in which a row with these arguments stands or would stand, and the place at which it
    /// begins.
    pub(crate) fn run_for(&self, args: &[Value]) -> (&Flat, usize)
        requires { 0 < length self.now }
        ensures part { IsPartFor args.now self.now result.1 result.0.now }
        ensures filled { 0 < length result.0.now }
    {
        let runs = self.runs.as_slice();
        let i = find_run_for(runs, args);
        (runs[i].rows.as_ref(), begin(runs, i))
    }

    /// One more run at the end, which is shared. One without rows is left out.
    pub(crate) fn push(&mut self, rows: Rc<Flat>) -> Result<(), NoMemory>
        ensures { OnOk result (self.new ≡ self.old ++ rows.value) }
    {
        let count = rows.len();
        if count == 0 {
            return Ok(());
        }
        let end = self.len() + count;
        if end >= COUNTED {
            return Err(NoMemory);
        }
        self.runs.push(Run { rows, end })?;
        Ok(())
    }

    /// Runs of the other at the end, which are shared: those from place `k` on, up to the first
    /// that has few rows or goes past the place `to`, and none where no run begins at `k`. It gives
    /// the place after them. `guess` is a guess for the run of the other.
    pub(crate) fn push_runs(
        &mut self,
        other: &Shared,
        k: usize,
        to: usize,
        guess: &mut usize,
    ) -> Result<usize, NoMemory>
        requires some { k < to }
        requires bound { k < length other.now }
        ensures range { IfOk result (λ n. (k ≤ n) × (n ≤ to) × (n ≤ length other.now)) }
        ensures rows { IfOk result (λ n. self.new ≡ self.old ++ between other.now k n) }
    {
        let runs = other.runs.as_slice();
        let mut i = find_run(runs, k, *guess);
        if begin(runs, i) != k {
            return Ok(k);
        }
        while i < runs.len() {
            if !is_whole(&runs[i], to) {
                *guess = i;
                return Ok(begin(runs, i));
            }
            let rows = runs[i].rows.clone()?;
            self.push(rows)?;
            i += 1;
        }
        *guess = i;
        Ok(begin(runs, i))
    }

    /// Rows at the end, as one run or, where they are many, as two.
    pub(crate) fn push_rows(&mut self, alloc: Global, rows: Flat) -> Result<(), NoMemory>
        ensures { OnOk result (self.new ≡ self.old ++ rows) }
    {
        let count = rows.len();
        if count == 0 {
            return Ok(());
        }
        if count <= MOST {
            let run = Rc::new(alloc, rows)?;
            return self.push(run);
        }
        let half = count / 2;
        let front = Rc::new(alloc, rows.part(alloc, 0, half)?)?;
        self.push(front)?;
        let back = Rc::new(alloc, rows.part(alloc, half, count)?)?;
        self.push(back)
    }
}
