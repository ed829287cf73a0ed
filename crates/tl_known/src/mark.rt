// Marks of worlds, by which a world that changes make is guessed. No clause speaks of them.
use crate::named_facts::is_one_of;
use crate::table_name::TableName;
use std::hash::{FoldHasher, Hash, Hasher};
use tl_rows::{Named, PlaceRows, Rows, code_of_row};
use tl_syntax::{Fact, PlaceValue, Value};
use tl_world::World;

/// An odd number for the predicate, and another one for the function with this number.
const FACTORS: [u64; 2] = [0x9e37_79b9_7f4a_7c15, 0xc2b2_ae3d_27d4_eb4f];

/// The code of a table, or of a row, as a part of the mark.
fn part(code: u64, name: u32, factor: u64) -> u64 {
    code.wrapping_mul(u64::from(name).wrapping_mul(factor) | 1)
}

/// The mark of the facts of a predicate: the sum of those of each.
fn mark_of_rows(rows: &Rows, pred: u32) -> u64 {
    part(rows.code(), pred, FACTORS[0])
}

/// The mark of tables of facts: the sum of those of their facts.
fn mark_of_facts(tables: &[Named<Rows>]) -> u64 {
    let mut mark = 0u64;
    for t in tables {
        mark = mark.wrapping_add(mark_of_rows(t.rows.as_ref(), t.name));
    }
    mark
}

/// The mark of the places of a function: the sum of those of each with its value.
fn mark_of_place_rows(rows: &PlaceRows, fun: u32) -> u64 {
    part(rows.code(), fun, FACTORS[1])
}

/// The mark of tables of places: the sum of those of their places with their values.
fn mark_of_places(tables: &[Named<PlaceRows>]) -> u64 {
    let mut mark = 0u64;
    for t in tables {
        mark = mark.wrapping_add(mark_of_place_rows(t.rows.as_ref(), t.name));
    }
    mark
}

/// How many added facts are gone through for each deleted one.
const FEW: usize = 64;

/// The mark of a fact.
fn mark_of_fact(fact: &Fact) -> u64 {
    part(code_of_row(fact.args.as_slice()), fact.pred, FACTORS[0])
}

/// The mark after the facts of `dels` are deleted and those of `adds` added, as if each that is
/// deleted were there and each that is added were not; of many, as if one that is both were there.
fn changed_mark(mark: u64, dels: &[Fact], adds: &[Fact]) -> u64 {
    let are_many = adds.len() > FEW;
    let mut mark = mark;
    for d in dels {
        if are_many || !is_one_of(adds, d.pred, d.args.as_slice()) {
            mark = mark.wrapping_sub(mark_of_fact(d));
        }
    }
    for a in adds {
        mark = mark.wrapping_add(mark_of_fact(a));
    }
    mark
}

/// The mark of a place with a value.
fn mark_of_place(place: &PlaceValue, value: Value) -> u64 {
    let mut hasher = FoldHasher::default();
    place.args.hash(&mut hasher);
    value.hash(&mut hasher);
    part(hasher.finish(), place.fun, FACTORS[1])
}

/// The mark after a place is set that had a value before, or none.
fn set_mark(mark: u64, before: Option<Value>, place: &PlaceValue) -> u64 {
    let without = match before {
        Some(value) => mark.wrapping_sub(mark_of_place(place, value)),
        None => mark,
    };
    without.wrapping_add(mark_of_place(place, place.value))
}

/// A number that is the same for worlds with the same table of this name, and seldom for
/// others. It takes no memory.
pub(crate) fn mark_of_table(world: &World, table: TableName) -> u64 {
    match table {
        TableName::Pred(pred) => match world.rows(pred) {
            Some(rows) => mark_of_rows(rows, pred),
            None => 0,
        },
        TableName::Fun(fun) => match world.places(fun) {
            Some(rows) => mark_of_place_rows(rows, fun),
            None => 0,
        },
    }
}

/// A number that is the same for equal worlds, and seldom for others. It takes no memory.
pub(crate) fn mark_of(world: &World) -> u64 {
    let tables = world.tables();
    mark_of_facts(tables.facts).wrapping_add(mark_of_places(tables.places))
}

/// The mark of the world that the changes make of this one, where each deleted fact is in it
/// and no added one is. It takes no memory.
pub(crate) fn mark_after(world: &World, dels: &[Fact], adds: &[Fact], sets: &[PlaceValue]) -> u64 {
    let mut mark = changed_mark(mark_of(world), dels, adds);
    for p in sets {
        let before = world.value(p.fun, p.args.as_slice());
        mark = set_mark(mark, before, p);
    }
    mark
}

/// That mark, where a deleted fact may not be in this world and an added one may be. It takes
/// no memory.
#[inline(never)]
pub(crate) fn corrected_mark(world: &World, mark: u64, dels: &[Fact], adds: &[Fact]) -> u64 {
    let mut exact = mark;
    for d in dels {
        let args = d.args.as_slice();
        if !world.holds(d.pred, args) && !is_one_of(adds, d.pred, args) {
            exact = exact.wrapping_add(mark_of_fact(d));
        }
    }
    for a in adds {
        if world.holds(a.pred, a.args.as_slice()) {
            exact = exact.wrapping_sub(mark_of_fact(a));
        }
    }
    exact
}
