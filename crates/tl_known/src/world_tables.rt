// The tables of a world by their names.
ghost use Rattle.std.specs.Prelude.{◌≡◌, ◌<◌, length, slice_get, slice_index_or, Some, IfSome, IsTrue};
ghost use Rattle.tl_known.specs.TableNumbers.{tables_in, AreAlikeOf};
ghost use Rattle.tl_known.specs.declared.table_name.TableName.TheVariants.{Pred, Fun};

use crate::table_name::TableName;
use tl_rows::{Named, find_table};
use tl_world::World;

/// How many predicates have facts, and how many functions have places with a value, together.
pub(crate) fn table_count(world: &World) -> usize
    ensures { result ≡ length (tables_in world.now) }
{
    let tables = world.tables();
    tables.facts.len() + tables.places.len()
}

/// The table at place `i` of the list.
fn table_in<R>(tables: &[Named<R>], i: usize) -> &Named<R>
    requires { i < length tables.now }
    ensures { result.now ≡ slice_index_or tables.now i result.now }
{
    &tables[i]
}

/// The name of the table at place `i`: those of facts come first.
pub(crate) fn table_at(world: &World, i: usize) -> TableName
    requires { i < length (tables_in world.now) }
    ensures { slice_get (tables_in world.now) i ≡ Some result }
{
    let tables = world.tables();
    let facts = tables.facts;
    if i < facts.len() {
        let t = table_in(facts, i);
        TableName::Pred(t.name)
    } else {
        let u = table_in(tables.places, i - facts.len());
        TableName::Fun(u.name)
    }
}

/// The place of the table of the predicate.
fn place_of_pred(world: &World, pred: u32) -> Option<usize>
    ensures { IfSome result (λ i. slice_get (tables_in world.now) i ≡ Some (Pred pred)) }
{
    match find_table(world.tables().facts, pred) {
        Ok(i) => Some(i),
        Err(_) => None,
    }
}

/// The place of the table of the function.
fn place_of_fun(world: &World, fun: u32) -> Option<usize>
    ensures { IfSome result (λ i. slice_get (tables_in world.now) i ≡ Some (Fun fun)) }
{
    let tables = world.tables();
    match find_table(tables.places, fun) {
        Ok(i) => Some(tables.facts.len() + i),
        Err(_) => None,
    }
}

/// The place of the table of this name.
pub(crate) fn place_of_table(world: &World, table: TableName) -> Option<usize>
    ensures { IfSome result (λ i. slice_get (tables_in world.now) i ≡ Some table) }
{
    match table {
        TableName::Pred(pred) => place_of_pred(world, pred),
        TableName::Fun(fun) => place_of_fun(world, fun),
    }
}

/// Whether the worlds are found to have the same facts of the predicate. It takes no memory.
fn has_same_facts(world: &World, other: &World, pred: u32) -> bool
    ensures { IsTrue result → AreAlikeOf (Pred pred) world.now other.now }
{
    match (world.rows(pred), other.rows(pred)) {
        (Some(rows), Some(others)) => *rows == *others,
        _ => false,
    }
}

/// Whether the worlds are found to have the same values at the places of the function. It takes
/// no memory.
fn has_same_values(world: &World, other: &World, fun: u32) -> bool
    ensures { IsTrue result → AreAlikeOf (Fun fun) world.now other.now }
{
    match (world.places(fun), other.places(fun)) {
        (Some(rows), Some(others)) => *rows == *others,
        _ => false,
    }
}

/// Whether the worlds are found to have the same table of this name. It takes no memory.
pub(crate) fn is_alike(world: &World, other: &World, table: TableName) -> bool
    ensures { IsTrue result → AreAlikeOf table world.now other.now }
{
    match table {
        TableName::Pred(pred) => has_same_facts(world, other, pred),
        TableName::Fun(fun) => has_same_values(world, other, fun),
    }
}
