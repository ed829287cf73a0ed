// The truths of definitions that are remembered in one world.
ghost use Rattle.std.specs.Prelude.{◌≡◌, ◌≤◌, ◌<◌, ◌+◌, ◌⊎◌, [], length, take, IfOk, IfSome, IsTrue};
ghost use Rattle.tl_eval.specs.Memory.{answered, said};
ghost use Rattle.tl_eval.specs.Remembered.{AreFrom};
ghost use Rattle.tl_syntax.specs.Lists.{Among};

use std::alloc::Global;
use std::marker::Model;
use tl_syntax::{NoMemory, Value};

/// At how many places, one after another, a truth may stand.
pub(crate) const TRIES: usize = 8;

/// How many places there are where none may be added, some 290 KiB.
pub(crate) const PLACES: usize = 2047 + TRIES;

/// How many there are at first where some may, some 36 KiB.
pub(crate) const FEW_PLACES: usize = 255 + TRIES;

/// What hashes are multiplied by: an odd number whose bits are mixed, from the golden ratio.
const MULTIPLIER: u64 = 0x9e37_79b9_7f4a_7c15;

/// What is asked of a memory: whether a definition holds of values.
#[derive(Clone, Copy)]
pub(crate) struct Asked<'a> {
    /// The number of the definition.
    pub(crate) number: u32,
    /// The level at which it is read.
    pub(crate) level: u32,
    /// The values of its parameters.
    pub(crate) values: &'a [Value],
}

/// A truth of a definition at one place of a memory.
#[derive(Clone, Copy)]
struct Entry {
    /// The generation in which it was put there: it counts in no other.
    generation: u32,
    /// The number of the definition.
    number: u32,
    /// The level at which it is read.
    level: u32,
    /// Whether it holds of the values.
    truth: bool,
    /// How many values count, at most 8.
    count: u8,
    /// The values of its parameters, before others that do not count.
    values: [Value; 8],
}

impl Entry {
    /// What stands at a place before anything is put there. It takes no memory.
    fn none() -> Entry
        ensures { result.generation ≡ 0 }
    {
        Entry {
            generation: 0,
            number: 0,
            level: 0,
            truth: false,
            count: 0,
            values: [Value::Int(0); 8],
        }
    }

    /// Makes it the truth of what is asked, put there in a generation. It takes no memory.
    fn set(&mut self, generation: u32, asked: &Asked, truth: bool)
        requires { length asked.now.values.now ≤ 8 }
        ensures said { said self.new ≡ answered asked.now truth }
        ensures generation { self.new.generation ≡ generation }
    {
        let values = asked.values;
        self.generation = generation;
        self.number = asked.number;
        self.level = asked.level;
        self.truth = truth;
        self.count = values.len() as u8;
        self.values[..values.len()].copy_from_slice(values);
    }

    /// Whether these are its values. It takes no memory.
    fn has_values(&self, values: &[Value]) -> bool
        requires { length values.now ≤ 8 }
        ensures { IsTrue result → take self.now.count self.now.values ≡ values.now }
    {
        if self.count as usize != values.len() {
            return false;
        }
        &self.values[..values.len()] == values
    }

    /// Whether it says the truth of what is asked. It takes no memory.
    fn is_of(&self, asked: &Asked) -> bool
        requires { length asked.now.values.now ≤ 8 }
        ensures { IsTrue result → said self.now ≡ answered asked.now self.now.truth }
    {
        let number = asked.number;
        let level = asked.level;
        if self.number != number || self.level != level {
            return false;
        }
        self.has_values(asked.values)
    }
}

/// A hash with one more word.
fn mixed(hash: u64, word: u64) -> u64 {
    (hash.rotate_left(5) ^ word).wrapping_mul(MULTIPLIER)
}

/// A value as a word.
fn word_of(value: Value) -> u64 {
    match value {
        Value::Int(integer) => integer.cast_unsigned(),
        Value::Sym(number) => !(number as u64),
    }
}

/// The hash of what is asked, for `find` and `put`. It takes no memory.
///
/// What is remembered does not depend on it: it only says where to look.
pub(crate) fn hash_of(asked: &Asked) -> u64 {
    let mut hash = mixed(asked.number as u64, asked.level as u64);
    for value in asked.values.iter() {
        hash = mixed(hash, word_of(*value));
    }
    hash
}

/// The first place for a hash in a table with so many places. It takes no memory.
fn home_of(hash: u64, places: usize) -> usize
    requires { 8 ≤ places }
    ensures { result + 8 ≤ places }
{
    (hash >> 32) as usize & (places - TRIES)
}

/// The first place from `home` on with an entry of another generation, or `home` where there is
/// none nearby. It takes no memory.
fn place_from(entries: &[Entry], generation: u32, home: usize) -> usize
    requires { home + 8 ≤ length entries.now }
    ensures { result < length entries.now }
{
    for at in home..home + TRIES {
        if entries[at].generation != generation {
            return at;
        }
    }
    home
}

/// The number of places in a table that has four times as many homes.
fn more_places(places: usize) -> usize
    ensures { 8 ≤ result }
{
    let homes = places.saturating_sub(TRIES - 1).max(1);
    homes.saturating_mul(4).saturating_add(TRIES - 1)
}

/// Truths of definitions, each with its definition, level and values, which contracts see as a
/// list. They stand in a table where a new one may take the place of an old one, and which grows
/// where it may take memory. `Env::lend_memory` gives one in which nothing is remembered.
#[derive(Drop)]
pub struct Memory {
    alloc: Global,
    generation: u32,
    entries: Vec<Entry>,
    /// How many truths were put there since nothing was remembered.
    count: usize,
    gathers: bool,
}

impl Model for Memory {
    ghost use Rattle.std.specs.Prelude.{List};
    ghost use Rattle.std.specs.Coded.{coded_list};
    ghost use Rattle.tl_eval.specs.Remembered.{Remembered, coded_remembered};

    ghost Value = { List Remembered };

    ghost coded = { coded_list coded_remembered };

    ghost use Rattle.tl_eval.specs.Memory.{said_in, AreUpTo};

    ghost view = { λ m. said_in m.generation m.entries.items };

    ghost invariant = { λ m. AreUpTo m.generation m.entries.items };
}

impl Memory {
    /// Nothing remembered, in a table with so many places. Hashes are spread best where these are 7
    /// more than a power of 2.
    pub(crate) fn new(alloc: Global, places: usize) -> Result<Memory, NoMemory>
        requires { 8 ≤ places }
        ensures { IfOk result (λ m. m ≡ []) }
    {
        let entries = vec![in alloc; Entry::none(); places]?;
        Ok(Memory {
            alloc,
            generation: 1,
            entries,
            count: 0,
            gathers: false,
        })
    }

    /// Nothing remembered, and no place for anything. It takes no memory.
    pub(crate) fn without_places(alloc: Global) -> Memory
        ensures { result ≡ [] }
    {
        Memory {
            alloc,
            generation: 1,
            entries: Vec::new(alloc),
            count: 0,
            gathers: false,
        }
    }

    /// The same, where `gathers` says whether evaluations may take memory, to gather tuples and to
    /// remember more. It takes none.
    pub(crate) fn with_gathering(self, gathers: bool) -> Memory
        ensures { result ≡ self }
    {
        Memory {
            alloc: self.alloc,
            generation: self.generation,
            entries: self.entries,
            count: self.count,
            gathers,
        }
    }

    /// Whether evaluations may take memory, to gather tuples and to remember more. It takes none.
    #[inline(always)]
    pub fn gathers(&self) -> bool {
        self.gathers
    }

    /// Nothing remembered, in a table with fewer places, or with none where this one has none.
    pub(crate) fn smaller(&self, alloc: Global) -> Result<Memory, NoMemory>
        ensures { IfOk result (λ m. m ≡ []) }
    {
        if self.entries.is_empty() {
            return Ok(Memory::without_places(alloc).with_gathering(self.gathers));
        }
        let memory = Memory::new(alloc, FEW_PLACES)?;
        Ok(memory.with_gathering(self.gathers))
    }

    /// Forgets all: no entry is of the next generation. It takes no memory, and a time that does
    /// not depend on the table's size, but for one call of 2^32.
    pub(crate) fn forget_all(&mut self)
        ensures { self.new ≡ [] }
    {
        if self.generation == u32::MAX {
            self.entries.as_mut_slice().fill(Entry::none());
            self.generation = 0;
        }
        self.generation += 1;
        self.count = 0;
    }

    /// The truth of what is asked, where that is remembered. It takes no memory.
    pub(crate) fn find(&self, hash: u64, asked: &Asked) -> Option<bool>
        requires { length asked.now.values.now ≤ 8 }
        ensures { IfSome result (λ b. Among (answered asked.now b) self.now) }
    {
        if self.entries.is_empty() {
            return None;
        }
        let home = home_of(hash, self.entries.len());
        for at in home..home + TRIES {
            let entry = &self.entries[at];
            if entry.generation != self.generation {
                return None;
            }
            if entry.is_of(asked) {
                return Some(entry.truth);
            }
        }
        None
    }

    /// Whether half of the places are taken, and there may be more.
    fn is_crowded(&self) -> bool {
        self.gathers && self.count >= self.entries.len() / 2 && self.count > 0
    }

    /// Takes a table of more places, in which nothing is remembered, where there is memory for it.
    #[inline(never)]
    fn grow(&mut self)
        ensures { (self.new ≡ []) ⊎ (self.new ≡ self.old) }
    {
        self.count = 0;
        if let Ok(larger) = Memory::new(self.alloc, more_places(self.entries.len())) {
            *self = larger.with_gathering(self.gathers);
        }
    }

    /// Remembers the truth of what is asked, where there is a place for it. All else may be
    /// forgotten for it. It needs no memory.
    pub(crate) fn put(&mut self, hash: u64, asked: &Asked, truth: bool)
        requires { length asked.now.values.now ≤ 8 }
        ensures { AreFrom (answered asked.now truth) self.old self.new }
    {
        if self.is_crowded() {
            self.grow();
        }
        self.count = self.count.saturating_add(1);
        self.put_near(hash, asked, truth);
    }

    /// The same at one of the places for the hash, in the table as it is. It takes no memory.
    fn put_near(&mut self, hash: u64, asked: &Asked, truth: bool)
        requires { length asked.now.values.now ≤ 8 }
        ensures { AreFrom (answered asked.now truth) self.old self.new }
    {
        if self.entries.is_empty() {
            return;
        }
        let generation = self.generation;
        let home = home_of(hash, self.entries.len());
        let at = place_from(self.entries.as_slice(), generation, home);
        let entry = &mut self.entries[at];
        entry.set(generation, asked, truth);
    }
}
