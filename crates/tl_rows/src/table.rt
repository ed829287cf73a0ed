// The places of one function.
ghost use Rattle.std.specs.Hash as fed;
ghost use Rattle.std.specs.Hash.{same_Alike};
ghost use Rattle.std.specs.List.{insert};
ghost use Rattle.std.specs.Prelude.{◌≡◌, ◌<◌, ◌≤◌, ◌==◌, [], ◌∷◌, length, map, slice_index_or, slice_set, IfOk, OnErr, OnOk};
ghost use Rattle.tl_syntax.proofs.Telling.{tells-partial, tells-equivalence};
ghost use Rattle.tl_rows.specs.Codes.{place_code, places_code};
ghost use Rattle.tl_rows.specs.Places.{place_put, place_set};
ghost use Rattle.tl_rows.specs.RowTests.{place_rows_eq, place_rows-tell};

use crate::flat::values_with;
use crate::runs::Runs;
use std::alloc::Global;
use std::hash::{FoldHasher, Hash, Hasher};
use std::marker::Model;
use std::rc::Rc;
use tl_syntax::{NoMemory, Value, Values};

/// A place of a function, by its arguments, with its value.
#[derive(PartialEq, Eq, Hash, Drop)]
pub struct PlaceRow {
    /// The arguments, as many as the function's arity.
    pub args: Values,
    /// The value of the place.
    pub value: Value,
}

/// The places of one function with their values. Contracts see it as the list of its rows.
///
/// The arguments of all places stand in one list, and their values in another. Tables that differ
/// in values alone share the arguments.
#[derive(Drop)]
pub struct PlaceRows {
    args: Rc<Runs>,
    values: Vec<Value>,
    code: u64,
}

impl Model for PlaceRows {
    ghost use Rattle.std.specs.Prelude.{List, ◌≡◌, length};
    ghost use Rattle.tl_rows.specs.declared.table.PlaceRow.{PlaceRow as PlainPlaceRow};
    ghost use Rattle.tl_rows.specs.Codes.{places_code};
    ghost use Rattle.tl_rows.specs.Places.{place_rows};

    ghost Value = { List PlainPlaceRow };

    ghost view = { λ t. place_rows t.args.value t.values.items };

    ghost invariant = { λ t. (length t.args.value ≡ length t.values.items) × (t.code ≡ places_code (place_rows t.args.value t.values.items)) };
}

/// A place with its value, where it stands in its table. Contracts see it as the row.
#[derive(Drop)]
pub struct Place<'a> {
    args: &'a [Value],
    value: Value,
}

impl<'a> Model for Place<'a> {
    ghost use Rattle.tl_rows.specs.declared.table.PlaceRow.{PlaceRow as PlainPlaceRow};

    ghost Value = { PlainPlaceRow };

    ghost view = { λ p. record { args = p.args.now; value = p.value } };
}

impl<'a> Place<'a> {
    /// The arguments.
    #[inline]
    pub fn place_args(&self) -> &[Value]
        ensures { result.now ≡ self.now.args }
    {
        self.args
    }

    /// The value.
    #[inline]
    pub fn place_value(&self) -> Value
        ensures { result ≡ self.now.value }
    {
        self.value
    }
}

/// The code of a place with its value.
#[tactic(auto, unfolding(crate::specs::Codes::place_code))]
fn code_of_place(args: &[Value], value: Value) -> u64
    ensures { result ≡ place_code (record { args = args.now; value = value }) }
{
    let mut hasher = FoldHasher::default();
    args.hash(&mut hasher);
    value.hash(&mut hasher);
    hasher.finish()
}

/// The values with another one at place `k`.
fn values_set(
    alloc: Global,
    values: &[Value],
    k: usize,
    value: Value,
) -> Result<Vec<Value>, NoMemory>
    requires { k < length values.now }
    ensures { IfOk result (λ v. v.items ≡ slice_set values.now k value) }
{
    let mut out = Vec::from_slice(alloc, values)?;
    out[k] = value;
    Ok(out)
}

/// Puts one more row at place `k`, in place where no other table shares the rows. After a failure
/// they are those of before.
fn put_args(alloc: Global, args: &mut Rc<Runs>, k: usize, row: &[Value]) -> Result<(), NoMemory>
    requires { k ≤ length args.old.value }
    ensures all { OnOk result (args.new.value ≡ insert args.old.value k row.now) }
    ensures same { OnErr result (args.new.value ≡ args.old.value) }
{
    match Rc::get_mut(args) {
        Some(list) => list.put_row(alloc, k, row),
        None => {
            let list = args.with(alloc, k, row)?;
            *args = Rc::new(alloc, list)?;
            Ok(())
        }
    }
}

impl PlaceRows {
    /// How many rows there are.
    pub fn len(&self) -> usize
        ensures { result ≡ length self.now }
    {
        self.values.len()
    }

    /// The arguments of the function's place at place `k` of the list, counted from 0.
    pub fn args(&self, k: usize) -> &[Value]
        requires { k < length self.now }
        ensures { (d : _) → result.now ≡ (slice_index_or self.now k d).args }
    {
        self.args.row(k)
    }

    /// The value of the function's place at place `k` of the list, counted from 0.
    pub fn value(&self, k: usize) -> Value
        requires { k < length self.now }
        ensures { (d : _) → result ≡ (slice_index_or self.now k d).value }
    {
        self.values[k]
    }

    /// The place at place `k` of the list, with its value.
    #[inline]
    pub fn place(&self, k: usize) -> Place<'_>
        requires { k < length self.now }
        ensures { (d : _) → result ≡ slice_index_or self.now k d }
    {
        Place {
            args: self.args(k),
            value: self.value(k),
        }
    }

    /// The code of the places with their values. It takes no memory.
    pub fn code(&self) -> u64 {
        self.code
    }

    /// The arguments of the places.
    pub fn all_args(&self) -> &Runs
        ensures { result.now ≡ map (λ r. r.args) self.now }
    {
        self.args.as_ref()
    }

    /// The table of one row.
    pub fn of_one(alloc: Global, args: &[Value], value: Value) -> Result<PlaceRows, NoMemory>
        ensures { IfOk result (λ t. t ≡ record { args = args.now; value = value } ∷ []) }
    {
        let list = Runs::of_one(alloc, args)?;
        let mut values = Vec::new(alloc);
        values.push(value)?;
        Ok(PlaceRows {
            args: Rc::new(alloc, list)?,
            values,
            code: code_of_place(args, value),
        })
    }

    /// The rows with another value at place `k`. Their arguments are shared.
    pub fn with_value(&self, alloc: Global, k: usize, value: Value) -> Result<PlaceRows, NoMemory>
        requires { k < length self.now }
        ensures { IfOk result (λ t. t ≡ place_set self.now k value) }
    {
        let args = self.args.row(k);
        let less = self.code.wrapping_sub(code_of_place(args, self.values[k]));
        let code = less.wrapping_add(code_of_place(args, value));
        Ok(PlaceRows {
            args: self.args.clone()?,
            values: values_set(alloc, self.values.as_slice(), k, value)?,
            code,
        })
    }

    /// The rows with one more at place `k`.
    pub fn with(
        &self,
        alloc: Global,
        k: usize,
        args: &[Value],
        value: Value,
    ) -> Result<PlaceRows, NoMemory>
        requires { k ≤ length self.now }
        ensures { IfOk result (λ t. t ≡ place_put self.now k args.now value) }
    {
        let list = self.args.with(alloc, k, args)?;
        Ok(PlaceRows {
            args: Rc::new(alloc, list)?,
            values: values_with(alloc, self.values.as_slice(), k, &[value])?,
            code: self.code.wrapping_add(code_of_place(args, value)),
        })
    }

    /// Puts another value at place `k`.
    pub fn set_value(&mut self, k: usize, value: Value)
        requires { k < length self.old }
        ensures { self.new ≡ place_set self.old k value }
    {
        let args = self.args.row(k);
        let less = self.code.wrapping_sub(code_of_place(args, self.values[k]));
        self.code = less.wrapping_add(code_of_place(args, value));
        self.values[k] = value;
    }

    /// Puts one more row at place `k`.
    pub fn put_row(
        &mut self,
        alloc: Global,
        k: usize,
        args: &[Value],
        value: Value,
    ) -> Result<(), NoMemory>
        requires { k ≤ length self.old }
        ensures { OnOk result (self.new ≡ place_put self.old k args.now value) }
    {
        let code = self.code.wrapping_add(code_of_place(args, value));
        self.values.insert(k, value)?;
        match put_args(alloc, &mut self.args, k, args) {
            Ok(()) => {
                self.code = code;
                Ok(())
            }
            Err(fault) => {
                self.values.remove(k);
                Err(fault)
            }
        }
    }
}

impl PartialEq for PlaceRows {
    ghost eq = { λ x y. place_rows_eq x y };

    ghost laws = { tells-partial place_rows_eq place_rows-tell };

    fn eq(&self, other: &PlaceRows) -> bool {
        if self.code != other.code {
            return false;
        }
        if *self.args != *other.args {
            return false;
        }
        self.values == other.values
    }
}

impl Eq for PlaceRows {
    ghost laws = { tells-equivalence place_rows_eq place_rows-tell };
}

impl Hash for PlaceRows {
    ghost hash_input = { λ x. fed.u64 (places_code x) };

    ghost respects_eq = { (same_Alike (λ x. fed.u64 (places_code x)) place_rows-tell).fed };

    fn hash<H: Hasher>(&self, state: &mut H) {
        self.code.hash(state);
    }
}
