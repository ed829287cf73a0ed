// The rows of one predicate.
ghost use Rattle.std.specs.Hash as fed;
ghost use Rattle.std.specs.Hash.{same_Alike};
ghost use Rattle.std.specs.List.{insert, remove};
ghost use Rattle.std.specs.Prelude.{◌≡◌, ◌<◌, ◌≤◌, ◌==◌, [], ◌∷◌, length, take, drop, slice_index_or, IfOk, IfSome, OnOk};
ghost use Rattle.tl_syntax.proofs.Telling.{tells-partial, tells-equivalence};
ghost use Rattle.tl_rows.specs.Codes.{row_code, rows_code};
ghost use Rattle.tl_rows.specs.RowTests.{rows_eq, rows-tell};
ghost use Rattle.tl_rows.specs.Second.{IsSecond};

use crate::runs::Runs;
use crate::second::Second;
use std::alloc::Global;
use std::hash::{FoldHasher, Hash, Hasher};
use std::marker::Model;
use std::mem;
use std::rc::Rc;
use tl_syntax::{NoMemory, Value};

/// The argument lists of one predicate's facts. Contracts see it as the list of its rows.
///
/// The rows stand in runs, which tables share. A large table of rows with two values or more keeps
/// them by their second value too.
#[derive(Drop)]
pub struct Rows {
    runs: Runs,
    second: Second,
    code: u64,
}

/// How many rows a table has at least that is given a second order.
const LARGE: usize = 129;

impl Model for Rows {
    ghost use Rattle.std.specs.Prelude.{List, ◌≡◌};
    ghost use Rattle.tl_syntax.specs.declared.value.Value.{Value as PlainValue};
    ghost use Rattle.tl_rows.specs.Codes.{rows_code};
    ghost use Rattle.tl_rows.specs.Second.{IsKept};

    ghost Value = { List (List PlainValue) };

    ghost view = { λ r. r.runs };

    ghost invariant = { λ r. (r.code ≡ rows_code r.runs) × IsKept r.runs r.second };
}

/// The code of a row.
#[tactic(auto, unfolding(crate::specs::Codes::row_code))]
pub fn code_of_row(row: &[Value]) -> u64
    ensures { result ≡ row_code row.now }
{
    let mut hasher = FoldHasher::default();
    row.hash(&mut hasher);
    hasher.finish()
}

/// The rows, for worlds to share.
#[inline(always)]
pub fn share_rows(alloc: Global, rows: Rows) -> Result<Rc<Rows>, NoMemory>
    ensures { IfOk result (λ shared. shared.value ≡ rows) }
{
    Ok(Rc::new(alloc, rows)?)
}

impl Rows {
    /// How many rows there are.
    pub fn len(&self) -> usize
        ensures { result ≡ length self.now }
    {
        self.runs.len()
    }

    /// Whether there is no row.
    pub fn is_empty(&self) -> bool
        ensures { result ≡ (length self.now == 0) }
    {
        self.runs.len() == 0
    }

    /// The arguments of the fact at place `k`, counted from 0. Its run, where there are several, is
    /// guessed, and found by halves where the guess is wrong.
    pub fn row(&self, k: usize) -> &[Value]
        requires { k < length self.now }
        ensures { result.now ≡ slice_index_or self.now k result.now }
    {
        self.runs.row(k)
    }

    /// How many rows from place `k` on are those of the other from place `l` on. There may be more
    /// where the rows are cut into runs, but 0 tells that the first ones differ. It takes no
    /// memory.
    pub fn same_rows(&self, k: usize, other: &Rows, l: usize) -> usize
        requires row { k < length self.now }
        requires other { l < length other.now }
        ensures same { take result (drop k self.now) ≡ take result (drop l other.now) }
        ensures many { length (take result (drop k self.now)) ≡ result }
    {
        self.runs.same_rows(k, &other.runs, l)
    }

    /// The code of the rows. It takes no memory.
    pub fn code(&self) -> u64 {
        self.code
    }

    /// The rows alone.
    pub fn runs(&self) -> &Runs
        ensures { result.now ≡ self.now }
    {
        &self.runs
    }

    /// The rows with their first two values exchanged, in order, where the table keeps them so too.
    #[inline]
    pub fn second(&self) -> Option<&Runs>
        ensures { IfSome result (λ second. IsSecond self.now second.now) }
    {
        self.second.rows()
    }

    /// Whether the table is large enough for a second order and has none.
    pub(crate) fn wants_second(&self) -> bool {
        self.runs.len() >= LARGE && self.runs.row(0).len() > 1 && self.second.rows().is_none()
    }

    /// The same rows, with their second order.
    pub(crate) fn with_second(self, alloc: Global) -> Result<Rows, NoMemory>
        ensures { IfOk result (λ r. r ≡ self) }
    {
        let second = Second::of_rows(alloc, &self.runs)?;
        Ok(Rows {
            runs: self.runs,
            second,
            code: self.code,
        })
    }

    /// The table of one row.
    pub fn of_one(alloc: Global, row: &[Value]) -> Result<Rows, NoMemory>
        ensures { IfOk result (λ r. r ≡ row.now ∷ []) }
    {
        Ok(Rows {
            runs: Runs::of_one(alloc, row)?,
            second: Second::none(),
            code: code_of_row(row),
        })
    }

    /// The rows with one more at place `k`.
    pub(crate) fn with(&self, alloc: Global, k: usize, row: &[Value]) -> Result<Rows, NoMemory>
        requires { k ≤ length self.now }
        ensures { IfOk result (λ r. r ≡ insert self.now k row.now) }
    {
        Ok(Rows {
            runs: self.runs.with(alloc, k, row)?,
            second: self.second.with(alloc, row)?,
            code: self.code.wrapping_add(code_of_row(row)),
        })
    }

    /// The rows without that at place `k`.
    pub(crate) fn without(&self, alloc: Global, k: usize) -> Result<Rows, NoMemory>
        requires { k < length self.now }
        ensures { IfOk result (λ r. r ≡ remove self.now k) }
    {
        Ok(Rows {
            runs: self.runs.without(alloc, k)?,
            second: self.second.without(alloc, self.runs.row(k))?,
            code: self.code.wrapping_sub(code_of_row(self.runs.row(k))),
        })
    }

    /// The rows with one more at place `k`, for worlds to share.
    pub fn shared_with(&self, alloc: Global, k: usize, row: &[Value]) -> Result<Rc<Rows>, NoMemory>
        requires { k ≤ length self.now }
        ensures { IfOk result (λ rows. rows.value ≡ insert self.now k row.now) }
    {
        share_rows(alloc, self.with(alloc, k, row)?)
    }

    /// The rows without that at place `k`, for worlds to share.
    pub fn shared_without(&self, alloc: Global, k: usize) -> Result<Rc<Rows>, NoMemory>
        requires { k < length self.now }
        ensures { IfOk result (λ rows. rows.value ≡ remove self.now k) }
    {
        share_rows(alloc, self.without(alloc, k)?)
    }
}

impl Rows {
    /// Puts one more row at place `k` into the table.
    pub fn put_row(&mut self, alloc: Global, k: usize, row: &[Value]) -> Result<(), NoMemory>
        requires { k ≤ length self.old }
        ensures { OnOk result (self.new ≡ insert self.old k row.now) }
    {
        let code = self.code.wrapping_add(code_of_row(row));
        let second = mem::replace(&mut self.second, Second::none()).put_row(alloc, row)?;
        self.runs.put_row(alloc, k, row)?;
        self.second = second;
        self.code = code;
        Ok(())
    }

    /// Takes the row at place `k` out of the table.
    pub fn cut_row(&mut self, alloc: Global, k: usize) -> Result<(), NoMemory>
        requires { k < length self.old }
        ensures { OnOk result (self.new ≡ remove self.old k) }
    {
        let gone = self.runs.row(k);
        let code = self.code.wrapping_sub(code_of_row(gone));
        let second = mem::replace(&mut self.second, Second::none()).cut_row(alloc, gone)?;
        self.runs.cut_row(alloc, k)?;
        self.second = second;
        self.code = code;
        Ok(())
    }
}

impl PartialEq for Rows {
    ghost eq = { λ x y. rows_eq x y };

    ghost laws = { tells-partial rows_eq rows-tell };

    fn eq(&self, other: &Rows) -> bool {
        if self.code != other.code {
            return false;
        }
        self.runs == other.runs
    }
}

impl Eq for Rows {
    ghost laws = { tells-equivalence rows_eq rows-tell };
}

impl Hash for Rows {
    ghost hash_input = { λ x. fed.u64 (rows_code x) };

    ghost respects_eq = { (same_Alike (λ x. fed.u64 (rows_code x)) rows-tell).fed };

    fn hash<H: Hasher>(&self, state: &mut H) {
        self.code.hash(state);
    }
}
