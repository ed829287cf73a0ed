// Places of two worlds that have the same values but for those that are set.
ghost use Rattle.std.specs.Ordering.{eq_by_cmp};
ghost use Rattle.std.specs.Prelude.{◌≡◌, [], drop, IsTrue};
ghost use Rattle.tl_syntax.specs.Keys.{key_cmp, place_entry};
ghost use Rattle.tl_rows.specs.RowTests.{place_row_eq};
ghost use Rattle.tl_known.specs.TableNumbers.{sets_fun};
ghost use Rattle.tl_known.specs.Unset.{is_set, ArePlacesBeside, ArePlaceTablesBeside, TellPlaces};

use crate::same_number::is_same_number;
use tl_rows::{Named, Place, PlaceRows, is_same_row};
use tl_syntax::{PlaceValue, Value};

/// Tables of places with their numbers, as far as these are known: where two tables of one function
/// have one number, their places have the same values.
#[derive(Clone, Copy)]
pub(crate) struct NumberedPlaces<'a> {
    pub(crate) tables: &'a [Named<PlaceRows>],
    pub(crate) numbers: &'a [u32],
}

/// Whether the place is that of the function with these arguments.
fn is_place(place: &PlaceValue, fun: u32, args: &[Value]) -> bool
    ensures { result ≡ eq_by_cmp key_cmp (fun, args.now) (place_entry place.now).0 }
{
    place.fun == fun && is_same_row(place.args.as_slice(), args)
}

/// Whether the place of the function with these arguments is set. It takes no memory.
fn is_one_set(sets: &[PlaceValue], fun: u32, args: &[Value]) -> bool
    ensures { result ≡ is_set sets.now (fun, args.now) }
{
    sets.iter().any(|p| is_place(p, fun, args))
}

/// Whether one of the places is of the function. It takes no memory.
pub(crate) fn has_fun(sets: &[PlaceValue], fun: u32) -> bool
    ensures { result ≡ sets_fun sets.now fun }
{
    sets.iter().any(|p| p.fun == fun)
}

/// Whether the places are the same and have the same value. It takes no memory.
fn is_same_place(place: &Place<'_>, other: &Place<'_>) -> bool
    ensures { result ≡ place_row_eq place.now other.now }
{
    is_same_row(place.place_args(), other.place_args())
        && place.place_value() == other.place_value()
}

/// Whether all places from one on are set. It takes no memory.
fn are_set_from(fun: u32, rows: &PlaceRows, from: usize, sets: &[PlaceValue]) -> bool
    ensures { IsTrue result → ArePlacesBeside sets.now fun (drop from rows.now) [] }
{
    let mut k = from;
    while k < rows.len() {
        let r = rows.place(k);
        if !is_one_set(sets, fun, r.place_args()) {
            return false;
        }
        k += 1;
    }
    true
}

/// Whether the places of a function are found to have the same values in both tables, but for those
/// that are set. It takes no memory.
///
/// Both tables are gone over once, side by side.
fn are_places_beside(fun: u32, rows: &PlaceRows, others: &PlaceRows, sets: &[PlaceValue]) -> bool
    ensures { IsTrue result → ArePlacesBeside sets.now fun rows.now others.now }
{
    let mut k = 0;
    let mut l = 0;
    while k < rows.len() && l < others.len() {
        let r = rows.place(k);
        let o = others.place(l);
        if is_same_place(&r, &o) {
            k += 1;
            l += 1;
        } else if is_one_set(sets, fun, r.place_args()) {
            k += 1;
        } else if is_one_set(sets, fun, o.place_args()) {
            l += 1;
        } else {
            return false;
        }
    }
    are_set_from(fun, rows, k, sets) && are_set_from(fun, others, l, sets)
}

/// Whether all places of the tables from one on are set. It takes no memory.
fn are_tables_set_from(tables: &[Named<PlaceRows>], from: usize, sets: &[PlaceValue]) -> bool
    ensures { IsTrue result → ArePlaceTablesBeside sets.now (drop from tables.now) [] }
{
    let mut i = from;
    while i < tables.len() {
        let t = &tables[i];
        if !are_set_from(t.name, t.rows.as_ref(), 0, sets) {
            return false;
        }
        i += 1;
    }
    true
}

/// Whether the places of the two lists of tables, which are gone over once, side by side, are found
/// to have the same values, but for those that are set. Tables with one number are passed without a
/// look at their places. It takes no memory.
pub(crate) fn are_place_tables_beside(
    these: &NumberedPlaces<'_>,
    those: &NumberedPlaces<'_>,
    sets: &[PlaceValue],
) -> bool
    requires { TellPlaces these.now.tables.now these.now.numbers.now
        those.now.tables.now those.now.numbers.now }
    ensures { IsTrue result
        → ArePlaceTablesBeside sets.now these.now.tables.now those.now.tables.now }
{
    let tables = these.tables;
    let others = those.tables;
    let mut i = 0;
    let mut j = 0;
    while i < tables.len() && j < others.len() {
        let t = &tables[i];
        let u = &others[j];
        if t.name == u.name {
            if !is_same_number(these.numbers, i, those.numbers, j)
                && !are_places_beside(t.name, t.rows.as_ref(), u.rows.as_ref(), sets)
            {
                return false;
            }
            i += 1;
            j += 1;
        } else if t.name < u.name {
            if !are_set_from(t.name, t.rows.as_ref(), 0, sets) {
                return false;
            }
            i += 1;
        } else {
            if !are_set_from(u.name, u.rows.as_ref(), 0, sets) {
                return false;
            }
            j += 1;
        }
    }
    are_tables_set_from(tables, i, sets) && are_tables_set_from(others, j, sets)
}
