// Worlds by numbers.
ghost use Rattle.std.specs.Prelude.{◌≡◌, ◌<◌, ◌-◌, ℕ, [], length, take, slice_get, Some, Ok, IfOk, IfSome, OnErr};
ghost use Rattle.tl_terms.specs.World.{World as PlainWorld};
ghost use Rattle.tl_known.specs.NumberedLists.{IsOnce, IsAdded, Stay};
ghost use Rattle.tl_known.specs.TableNumbers.{AreNumbered, AreTableNumbers, ComesFrom};
ghost use Rattle.tl_known.specs.Unchanged.{IsNumberAfter, changed_world};

use crate::is_after::Numbered;
use crate::mark::{corrected_mark, mark_after, mark_of};
use crate::marks::Marks;
use crate::table_numbers::{Source, TableNumbers};
use indexmap::IndexSet;
use std::alloc::Global;
use tl_syntax::{Fact, NoMemory, PlaceValue};
use tl_world::World;

/// Worlds by numbers: each number below `len` is of one world, and equal worlds have one number.
/// Numbers keep their worlds after every call but that which lets one go, a refused one included. A
/// world is found by its code, or by the mark that changes give before it is made.
#[derive(Drop)]
pub struct Worlds {
    alloc: Global,
    table: IndexSet<World>,
    by_mark: Marks,
    numbers: TableNumbers,
    pub ghost one_to_one: { IsOnce table.keys },
    ghost numbered: { AreNumbered table.keys numbers.starts.items numbers.all.items },
}

/// Notes the number of a new world with the mark, where there is memory for it.
fn note(by_mark: &mut Marks, is_new: bool, mark: u64, number: usize) {
    if is_new && number <= u32::MAX as usize {
        by_mark.note(mark, number as u32);
    }
}

impl Worlds {
    ghost use Rattle.tl_known.specs.WorldNumbers.{worlds_in};

    /// No world. It takes no memory.
    pub fn new(alloc: Global) -> Worlds
        ensures { worlds_in result ≡ [] }
    {
        Worlds {
            alloc,
            table: IndexSet::new(alloc),
            by_mark: Marks::new(alloc),
            numbers: TableNumbers::new(alloc),
        }
    }

    /// How many worlds have a number. It takes no memory.
    pub fn len(&self) -> usize
        ensures len { result ≡ length (worlds_in self.now) }
        ensures one_to_one { IsOnce (worlds_in self.now) }
    {
        self.table.len()
    }

    /// The world of the number. It takes no memory.
    pub fn get(&self, number: usize) -> &World
        requires { number < length (worlds_in self.now) }
        ensures { slice_get (worlds_in self.now) number ≡ Some result.now }
    {
        self.table.get_index(number).unwrap()
    }

    /// The number of the world: the one that it has, or else the next one. It fails for want of
    /// memory alone, for a world without a number, and then drops the world.
    pub fn number(&mut self, world: World) -> Result<usize, NoMemory>
        ensures number { IfOk result (λ n. slice_get (worlds_in self.new) n ≡ Some world) }
        ensures known { (n : ℕ) → slice_get (worlds_in self.old) n ≡ Some world → result ≡ Ok n }
        ensures kept { IsAdded (worlds_in self.old) world (worlds_in self.new) }
        ensures stay { Stay (worlds_in self.old) (worlds_in self.new) }
        ensures refused { OnErr result (worlds_in self.new ≡ worlds_in self.old) }
    {
        let source = Source {
            from: self.len(),
            dels: &[],
            adds: &[],
            sets: &[],
        };
        self.keep(world, &source)
    }

    /// The number of the world, which comes from a source: the one that it has, or else the next
    /// one.
    fn keep(&mut self, world: World, source: &Source<'_>) -> Result<usize, NoMemory>
        requires { ComesFrom (worlds_in self.old) source.now.from
            source.now.dels.now source.now.adds.now source.now.sets.now world }
        ensures number { IfOk result (λ n. slice_get (worlds_in self.new) n ≡ Some world) }
        ensures known { (n : ℕ) → slice_get (worlds_in self.old) n ≡ Some world → result ≡ Ok n }
        ensures kept { IsAdded (worlds_in self.old) world (worlds_in self.new) }
        ensures stay { Stay (worlds_in self.old) (worlds_in self.new) }
        ensures refused { OnErr result (worlds_in self.new ≡ worlds_in self.old) }
    {
        let mark = mark_of(&world);
        let (number, is_new) = self.table.insert_full(world)?;
        note(&mut self.by_mark, is_new, mark, number);
        self.numbers.add(&self.table, number, source);
        Ok(number)
    }

    /// The world of the number, with the numbers of its tables. It takes no memory.
    fn numbered(&self, number: usize) -> Numbered<'_>
        requires { number < length (worlds_in self.now) }
        ensures world { slice_get (worlds_in self.now) number ≡ Some result.world.now }
        ensures numbers { AreTableNumbers (worlds_in self.now) result.world.now result.numbers.now }
    {
        Numbered {
            world: self.get(number),
            numbers: self.numbers.of(number),
        }
    }

    /// The number of the world that comes from the source, where it is the one that was noted last
    /// with the mark. It takes no memory.
    fn find_by_mark(&self, mark: u64, source: &Source<'_>) -> Option<usize>
        requires { source.now.from < length (worlds_in self.now) }
        ensures { IfSome result (IsNumberAfter (worlds_in self.now) source.now.from
            source.now.dels.now source.now.adds.now source.now.sets.now) }
    {
        let before = self.numbered(source.from);
        let number = self.by_mark.get(mark)?;
        if number < self.table.len()
            && self
                .numbered(number)
                .is_after(&before, source.dels, source.adds, source.sets)
        {
            Some(number)
        } else {
            None
        }
    }

    /// The number of the world that comes from the source, where it is found without making it:
    /// where none of the changes is given twice and no later world has the same mark. It may have a
    /// number where none is found. It takes no memory.
    fn find_after(&self, source: &Source<'_>) -> Option<usize>
        requires { source.now.from < length (worlds_in self.now) }
        ensures { IfSome result (IsNumberAfter (worlds_in self.now) source.now.from
            source.now.dels.now source.now.adds.now source.now.sets.now) }
    {
        let before = self.get(source.from);
        let mark = mark_after(before, source.dels, source.adds, source.sets);
        if let Some(number) = self.find_by_mark(mark, source) {
            return Some(number);
        }
        let exact = corrected_mark(before, mark, source.dels, source.adds);
        if exact == mark {
            return None;
        }
        self.find_by_mark(exact, source)
    }

    /// The number of the world that the changes make of the world of the number `from`: that which
    /// it has, mostly found without making the world, or else the next one. Its tables that the
    /// changes leave alone keep their numbers. It fails for want of memory alone.
    pub fn number_after(
        &mut self,
        from: usize,
        dels: &[Fact],
        adds: &[Fact],
        sets: &[PlaceValue],
    ) -> Result<usize, NoMemory>
        requires { from < length (worlds_in self.old) }
        ensures number { IfOk result
            (IsNumberAfter (worlds_in self.new) from dels.now adds.now sets.now) }
        ensures known { IfOk result (λ r. (n : ℕ)
            → IsNumberAfter (worlds_in self.old) from dels.now adds.now sets.now n → r ≡ n) }
        ensures kept { (w : PlainWorld) → slice_get (worlds_in self.old) from ≡ Some w
            → IsAdded (worlds_in self.old) (changed_world w dels.now adds.now sets.now) (worlds_in self.new) }
        ensures stay { Stay (worlds_in self.old) (worlds_in self.new) }
        ensures refused { OnErr result (worlds_in self.new ≡ worlds_in self.old) }
    {
        let source = Source {
            from,
            dels,
            adds,
            sets,
        };
        if let Some(known) = self.find_after(&source) {
            return Ok(known);
        }
        let next = self.get(from).changed(self.alloc, dels, adds, sets)?;
        self.keep(next, &source)
    }

    /// Lets the world of the last number go, which then has none. It takes no memory.
    pub fn forget_last(&mut self)
        requires { 0 < length (worlds_in self.old) }
        ensures { worlds_in self.new ≡ take (length (worlds_in self.old) - 1) (worlds_in self.old) }
    {
        let last = self.table.len() - 1;
        self.table.truncate(last);
        self.numbers.keep_first(last);
    }
}
