// Numbers of the tables of worlds, by which tables that two worlds have in common are told.
ghost use Rattle.std.specs.Prelude.{◌≡◌, ◌<◌, ◌++◌, List, [], length, take, slice_get, Some, IfOk, IfSome, OnOk, OnErr};
ghost use Rattle.tl_terms.specs.World.{World as PlainWorld};
ghost use Rattle.tl_known.specs.TableNumbers.{changes_table, numbers_at, AllOrNone, AreNumbered, StandFor, AreOneEach, ComesFrom, GainsStart, IsTableNumber};

use crate::mark::mark_of_table;
use crate::marks::Marks;
use crate::named_facts::has_pred;
use crate::places_beside::has_fun;
use crate::table_name::TableName;
use crate::world_tables::{is_alike, place_of_table, table_at, table_count};
use indexmap::IndexSet;
use std::alloc::Global;
use tl_syntax::{Fact, NoMemory, PlaceValue};
use tl_world::World;

/// The numbers of the tables of worlds, those of the first worlds, as far as there was memory: each
/// is the number of the first world that was found to have the same facts of the predicate, or the
/// same values at the places of the function.
#[derive(Drop)]
pub(crate) struct TableNumbers {
    pub(crate) alloc: Global,
    pub(crate) starts: Vec<usize>,
    pub(crate) all: Vec<u32>,
    by_mark: Marks,
}

/// Where a world comes from: the number of another one, the facts that are deleted and added, and
/// the places that are set.
#[derive(Clone, Copy)]
pub(crate) struct Source<'a> {
    pub(crate) from: usize,
    pub(crate) dels: &'a [Fact],
    pub(crate) adds: &'a [Fact],
    pub(crate) sets: &'a [PlaceValue],
}

impl<'a> Source<'a> {
    /// Whether the changes name a fact of the predicate, or a place of the function. It takes no
    /// memory.
    fn changes(&self, table: TableName) -> bool
        ensures { result
            ≡ changes_table self.now.dels.now self.now.adds.now self.now.sets.now table }
    {
        match table {
            TableName::Pred(pred) => has_pred(self.dels, pred) || has_pred(self.adds, pred),
            TableName::Fun(fun) => has_fun(self.sets, fun),
        }
    }
}

/// The world of the number.
fn world_at(worlds: &IndexSet<World>, number: u32) -> &World
    requires { number < length worlds.now.keys }
    ensures { slice_get worlds.now.keys number ≡ Some result.now }
{
    worlds.get_index(number as usize).unwrap()
}

/// The number of the table, where a world before is found that has the same one.
fn known(by_mark: &Marks, worlds: &IndexSet<World>, world: &World, table: TableName) -> Option<u32>
    ensures { IfSome result (IsTableNumber worlds.now.keys table world.now) }
{
    let number = by_mark.get(mark_of_table(world, table))?;
    if number > u32::MAX as usize {
        return None;
    }
    let other = worlds.get_index(number)?;
    if is_alike(other, world, table) {
        Some(number as u32)
    } else {
        None
    }
}

/// The number of the table that the world of a number has: that of a world before, or else its own,
/// which is noted then.
fn number_anew(by_mark: &mut Marks, worlds: &IndexSet<World>, number: u32, table: TableName) -> u32
    requires { number < length worlds.now.keys }
    ensures { (w : PlainWorld) → slice_get worlds.now.keys number ≡ Some w
        → IsTableNumber worlds.now.keys table w result }
{
    let world = world_at(worlds, number);
    match known(by_mark, worlds, world, table) {
        Some(before) => before,
        None => {
            by_mark.note(mark_of_table(world, table), number);
            number
        }
    }
}

impl TableNumbers {
    /// No numbers. It takes no memory.
    pub(crate) fn new(alloc: Global) -> TableNumbers
        ensures starts { result.starts.items ≡ [] }
        ensures all { result.all.items ≡ [] }
    {
        TableNumbers {
            alloc,
            starts: Vec::new(alloc),
            all: Vec::new(alloc),
            by_mark: Marks::new(alloc),
        }
    }

    /// The numbers of the tables of the world of a number, from its first table on; those of other
    /// worlds follow. It takes no memory.
    pub(crate) fn of(&self, number: usize) -> &[u32]
        ensures { result.now ≡ numbers_at self.now.starts.items self.now.all.items number }
    {
        match self.starts.get(number) {
            Some(start) => {
                if *start <= self.all.len() {
                    &self.all[*start..]
                } else {
                    &[]
                }
            }
            None => &[],
        }
    }

    /// The number of the table that a world comes by with its source: None where the changes name
    /// its predicate or its function, or where the table has no number there.
    fn inherited(
        &self,
        worlds: &IndexSet<World>,
        source: &Source<'_>,
        table: TableName,
    ) -> Option<u32>
        requires { AreNumbered worlds.now.keys self.now.starts.items self.now.all.items }
        ensures { IfSome result (λ k. (w : PlainWorld)
            → ComesFrom worlds.now.keys source.now.from
            source.now.dels.now source.now.adds.now source.now.sets.now w
            → IsTableNumber worlds.now.keys table w k) }
    {
        if source.changes(table) {
            return None;
        }
        let place = place_of_table(worlds.get_index(source.from)?, table)?;
        let numbers = self.of(source.from);
        if place < numbers.len() {
            Some(numbers[place])
        } else {
            None
        }
    }

    /// The number of the table that the world of a number has, which comes from a source.
    fn number_of(
        &mut self,
        worlds: &IndexSet<World>,
        number: u32,
        source: &Source<'_>,
        table: TableName,
    ) -> u32
        requires number { number < length worlds.now.keys }
        requires numbered { AreNumbered worlds.now.keys self.old.starts.items self.old.all.items }
        ensures starts { self.new.starts.items ≡ self.old.starts.items }
        ensures all { self.new.all.items ≡ self.old.all.items }
        ensures number { (w : PlainWorld) → slice_get worlds.now.keys number ≡ Some w
            → ComesFrom worlds.now.keys source.now.from
            source.now.dels.now source.now.adds.now source.now.sets.now w
            → IsTableNumber worlds.now.keys table w result }
    {
        match self.inherited(worlds, source, table) {
            Some(before) => before,
            None => number_anew(&mut self.by_mark, worlds, number, table),
        }
    }

    /// The numbers of all tables of the world of a number, which comes from a source.
    fn numbers_of(
        &mut self,
        worlds: &IndexSet<World>,
        number: u32,
        source: &Source<'_>,
    ) -> Result<Vec<u32>, NoMemory>
        requires number { number < length worlds.now.keys }
        requires numbered { AreNumbered worlds.now.keys self.old.starts.items self.old.all.items }
        ensures starts { self.new.starts.items ≡ self.old.starts.items }
        ensures all { self.new.all.items ≡ self.old.all.items }
        ensures many { IfOk result (λ v. AreOneEach worlds.now.keys number v.items) }
        ensures numbers { IfOk result (λ v. StandFor worlds.now.keys source.now number v.items) }
    {
        let world = world_at(worlds, number);
        let count = table_count(world);
        let mut numbers = Vec::with_capacity(self.alloc, count)?;
        for i in 0..count {
            let one = self.number_of(worlds, number, source, table_at(world, i));
            numbers.push(one)?;
        }
        Ok(numbers)
    }

    /// Puts the numbers of the tables of one more world after the others, where there is memory for
    /// them.
    fn push(&mut self, numbers: &[u32]) -> Result<(), NoMemory>
        ensures starts { OnOk result (GainsStart self.old self.new) }
        ensures refused { OnErr result (self.new.starts.items ≡ self.old.starts.items) }
        ensures all { OnOk result (self.new.all.items ≡ self.old.all.items ++ numbers.now) }
        ensures rest { OnErr result (AllOrNone self.old.all.items numbers.now self.new.all.items) }
    {
        let start = self.all.len();
        self.all.extend_from_slice(numbers)?;
        self.starts.push(start)?;
        Ok(())
    }

    /// Adds the numbers of the tables of the world of a number, which comes from a source, where it
    /// is the last one, those of all worlds before are known and there is memory for them.
    pub(crate) fn add(&mut self, worlds: &IndexSet<World>, number: usize, source: &Source<'_>)
        requires number { number < length worlds.now.keys }
        requires numbered { AreNumbered worlds.now.keys self.old.starts.items self.old.all.items }
        requires source { (w : PlainWorld) → slice_get worlds.now.keys number ≡ Some w
            → ComesFrom worlds.now.keys source.now.from
            source.now.dels.now source.now.adds.now source.now.sets.now w }
        ensures { AreNumbered worlds.now.keys self.new.starts.items self.new.all.items }
    {
        if number != self.starts.len() || number + 1 != worlds.len() {
            return;
        }
        if number > u32::MAX as usize {
            return;
        }
        match self.numbers_of(worlds, number as u32, source) {
            Ok(numbers) => match self.push(numbers.as_slice()) {
                Ok(()) => {}
                Err(_) => {}
            },
            Err(_) => {}
        }
    }

    /// Keeps the numbers of the tables of so many worlds at most, and lets those of later ones go.
    /// It takes no memory.
    pub(crate) fn keep_first(&mut self, worlds: usize)
        ensures { (ws : List PlainWorld)
            → AreNumbered ws self.old.starts.items self.old.all.items
            → AreNumbered (take worlds ws) self.new.starts.items self.new.all.items }
    {
        if worlds < self.starts.len() {
            let start = self.starts[worlds];
            self.starts.truncate(worlds);
            self.all.truncate(start);
        }
    }
}
