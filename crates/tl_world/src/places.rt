// Tables of places with their values, and what changes them.
ghost use Rattle.std.specs.List.{insert};
ghost use Rattle.std.specs.List.Sorted.{IsBinarySearchResult, IsSearchInRange, IsStableBy};
ghost use Rattle.std.specs.Prelude.{◌≡◌, ◌<◌, ◌≤◌, length, IfOk, OnOk};
ghost use Rattle.tl_syntax.specs.Keys.{key_cmp, place_entry};
ghost use Rattle.tl_world.specs.Edits.{SetsPlace, SetsPlaces};
ghost use Rattle.tl_world.specs.Falling.{is_above};
ghost use Rattle.tl_rows.specs.Places.{place_set, GainsPlaceAt};
ghost use Rattle.tl_rows.specs.Tables.{InOrder, place_tables, row_cmp};

use crate::facts::MANY;
use std::alloc::Global;
use std::cmp::Ordering;
use std::rc::Rc;
use tl_rows::{Named, PlaceRows, find_row, find_table};
use tl_syntax::{NoMemory, PlaceValue, Value, Values};

/// The place of the row with these arguments, or the place at which it would stand.
pub(crate) fn find_place(rows: &PlaceRows, args: &[Value]) -> Result<usize, usize>
    ensures range { IsSearchInRange result (length rows.now) }
    ensures place { IsBinarySearchResult (λ r. row_cmp r.args args.now) rows.now result }
{
    find_row(rows.all_args(), args)
}

/// Puts another value at place `k` of the table. The values are copied where another world shares
/// them.
fn set_value(
    alloc: Global,
    table: &mut Named<PlaceRows>,
    k: usize,
    value: Value,
) -> Result<(), NoMemory>
    requires { k < length table.old.rows.value }
    ensures name { table.new.name ≡ table.old.name }
    ensures rows { OnOk result (table.new.rows.value ≡ place_set table.old.rows.value k value) }
{
    match Rc::get_mut(&mut table.rows) {
        Some(rows) => {
            rows.set_value(k, value);
            Ok(())
        }
        None => {
            let rows = table.rows.with_value(alloc, k, value)?;
            table.rows = Rc::new(alloc, rows)?;
            Ok(())
        }
    }
}

/// Puts one more row at place `k` of the table. The rows are copied where another world shares
/// them.
fn put_place(
    alloc: Global,
    table: &mut Named<PlaceRows>,
    k: usize,
    args: &[Value],
    value: Value,
) -> Result<(), NoMemory>
    requires { k ≤ length table.old.rows.value }
    ensures name { table.new.name ≡ table.old.name }
    ensures rows { OnOk result (GainsPlaceAt table.old k args.now value table.new) }
{
    match Rc::get_mut(&mut table.rows) {
        Some(rows) => rows.put_row(alloc, k, args, value),
        None => {
            let rows = table.rows.with(alloc, k, args, value)?;
            table.rows = Rc::new(alloc, rows)?;
            Ok(())
        }
    }
}

/// Gives the place the value.
fn with_place(
    alloc: Global,
    tables: &mut Vec<Named<PlaceRows>>,
    fun: u32,
    args: &Values,
    value: Value,
) -> Result<(), NoMemory>
    requires { InOrder (place_tables tables.old.items) }
    ensures order { OnOk result (InOrder (place_tables tables.new.items)) }
    ensures set { OnOk result (SetsPlace (fun, args.now) value tables.old.items tables.new.items) }
{
    match find_table(tables.as_slice(), fun) {
        Err(i) => {
            let rows = PlaceRows::of_one(alloc, args.as_slice(), value)?;
            let shared = Rc::new(alloc, rows)?;
            let fresh = Named {
                name: fun,
                rows: shared,
            };
            tables.insert(i, fresh)?;
            Ok(())
        }
        Ok(i) => {
            let t = &tables[i];
            match find_place(t.rows.as_ref(), args.as_slice()) {
                Ok(k) => set_value(alloc, &mut tables[i], k, value),
                Err(k) => put_place(alloc, &mut tables[i], k, args.as_slice(), value),
            }
        }
    }
}

/// Gives the places their values, from the last on.
#[inline(always)]
fn with_places(
    alloc: Global,
    tables: &mut Vec<Named<PlaceRows>>,
    sets: &[PlaceValue],
) -> Result<(), NoMemory>
    requires { InOrder (place_tables tables.old.items) }
    ensures order { OnOk result (InOrder (place_tables tables.new.items)) }
    ensures places { OnOk result (SetsPlaces sets.now tables.old.items tables.new.items) }
{
    let mut k = sets.len();
    while k > 0 {
        k -= 1;
        let p = &sets[k];
        with_place(alloc, tables, p.fun, &p.args, p.value)?;
    }
    Ok(())
}

/// How the places of the two stand by function and then by arguments in value order.
#[tactic(auto, using(tl_rows::proofs::Order::orders))]
fn order_of(a: &PlaceValue, b: &PlaceValue) -> Ordering
    ensures { result ≡ key_cmp (place_entry a.now).0 (place_entry b.now).0 }
{
    match a.fun.cmp(&b.fun) {
        Ordering::Less => Ordering::Less,
        Ordering::Equal => a.args.as_slice().cmp(b.args.as_slice()),
        Ordering::Greater => Ordering::Greater,
    }
}

/// The places with their values by falling places. Of two values for one place the earlier still
/// comes first.
fn falling(alloc: Global, sets: &[PlaceValue]) -> Result<Vec<PlaceValue>, NoMemory>
    ensures { IfOk result (λ v. IsStableBy is_above sets.now v.items) }
{
    let mut out = Vec::with_capacity(alloc, sets.len())?;
    for p in sets {
        out.push(p.copy(alloc)?)?;
    }
    out.sort_by(|a, b| order_of(b, a))?;
    Ok(out)
}

/// Gives the places their values; of two values for one place the earlier counts. Many are sorted
/// first, so that each comes after the rows that are there, where a table is new.
pub(crate) fn change_places(
    alloc: Global,
    tables: &mut Vec<Named<PlaceRows>>,
    sets: &[PlaceValue],
) -> Result<(), NoMemory>
    requires { InOrder (place_tables tables.old.items) }
    ensures order { OnOk result (InOrder (place_tables tables.new.items)) }
    ensures places { OnOk result (SetsPlaces sets.now tables.old.items tables.new.items) }
{
    if sets.len() < MANY {
        with_places(alloc, tables, sets)
    } else {
        let sorted = falling(alloc, sets)?;
        with_places(alloc, tables, sorted.as_slice())
    }
}
