// Values of variables, slot by slot.
ghost use Rattle.std.specs.Prelude.{◌≡◌, [], ◌<◌, ◌≤◌, ℕ, length, IfOk, Some, None, slice_set};
ghost use Rattle.tl_eval.specs.Frames.{assignment_in, AreKept, Binds, ChangesOnly, GivesBack, GivesSlot, PutsBack};
ghost use Rattle.tl_syntax.specs.Lists.{Each};

use crate::kept::{give_back, keep};
use crate::memory::{FEW_PLACES, Memory, PLACES};
use crate::scope::{put_in_scope, restore, saved};
use crate::term_value::value_in;
use std::alloc::Global;
use std::marker::Model;
use std::mem;
use tl_syntax::{NoMemory, Value, Var};
use tl_world::Task;

/// How many slots the frame has.
pub(crate) const SLOTS: usize = 32;

/// A frame of variable values, which contracts see: for each of its 32 slots the value, where it
/// has one. It holds the variables of one scope, and while the body of a definition is read, its
/// own. Beside it stands what `state` remembers of definitions.
#[derive(Drop)]
pub struct Env {
    pub(crate) values: Vec<Option<Value>>,
    pub(crate) memory: Memory,
}

impl Model for Env {
    ghost use Rattle.std.specs.Prelude.{◌≡◌, List, Option, length, take};
    ghost use Rattle.std.specs.Coded.{coded_list, coded_option};
    ghost use Rattle.tl_syntax.specs.declared.value.Value.{Value as OneValue};
    ghost use Rattle.tl_world.specs.View.{coded_value};

    ghost Value = { List (Option OneValue) };

    ghost coded = { coded_list (coded_option coded_value) };

    ghost view = { λ env. take 32 env.values.items };

    ghost invariant = { λ env. length env.values.items ≡ 32 };
}

impl Env {
    /// No value in any slot. What there is to remember is reserved once, some 290 KiB, and no
    /// evaluation takes memory.
    pub fn new(alloc: Global) -> Result<Env, NoMemory>
        ensures slots { IfOk result (λ env. length env ≡ 32) }
        ensures empty { IfOk result (λ env. (q : ℕ) → assignment_in env q ≡ None) }
    {
        let memory = Memory::new(alloc, PLACES)?;
        Env::with_memory(alloc, memory)
    }

    /// `new` for the evaluations of one task. Where nothing is defined there is nothing to
    /// remember, and less than a KiB is reserved. An evaluation may take memory, to gather tuples
    /// and to remember more, and goes on without it where there is none.
    pub fn for_task(alloc: Global, task: &Task) -> Result<Env, NoMemory>
        ensures slots { IfOk result (λ env. length env ≡ 32) }
        ensures empty { IfOk result (λ env. (q : ℕ) → assignment_in env q ≡ None) }
    {
        if task.problem.domain.definitions.is_empty() {
            let memory = Memory::without_places(alloc);
            return Env::with_memory(alloc, memory.with_gathering(true));
        }
        let memory = Memory::new(alloc, FEW_PLACES)?;
        Env::with_memory(alloc, memory.with_gathering(true))
    }

    /// No value in any slot, and a memory for truths of definitions.
    fn with_memory(alloc: Global, memory: Memory) -> Result<Env, NoMemory>
        ensures slots { IfOk result (λ env. length env ≡ 32) }
        ensures empty { IfOk result (λ env. (q : ℕ) → assignment_in env q ≡ None) }
    {
        let values = vec![in alloc; None; SLOTS]?;
        Ok(Env { values, memory })
    }

    /// Gives a slot of the caller's frame a value. It takes no memory.
    pub fn put(&mut self, slot: u32, value: Value)
        requires { slot < 32 }
        ensures value { self.new ≡ slice_set self.old slot (Some value) }
        ensures others { GivesSlot slot value self.old self.new }
    {
        self.values[slot as usize] = Some(value);
    }

    /// The value of a slot of the caller's frame, where it has one. It takes no memory.
    #[inline(always)]
    pub fn value(&self, slot: u32) -> Option<Value>
        ensures { result ≡ assignment_in self.now slot }
    {
        value_in(self.frame(), slot)
    }

    /// What the slots of the caller's frame have, in their order. It takes no memory.
    #[inline(always)]
    pub fn slots(&self) -> &[Option<Value>]
        ensures values { result.now ≡ self.now }
        ensures slots { length result.now ≡ 32 }
    {
        let _ = &self.values;
        self.frame()
    }

    /// Gives the variables their values in the caller's frame; of two with the same slot the first
    /// counts. It takes no memory.
    pub fn put_values(&mut self, vars: &[Var], values: &[Value])
        requires slots { Each (λ s. s.slot < 32) vars.now }
        requires same { length vars.now ≡ length values.now }
        ensures values { Binds vars.now values.now self.old self.new }
        ensures elsewhere { ChangesOnly vars.now self.old self.new }
        ensures slots { length self.new ≡ length self.old }
    {
        put_in_scope(self.values.as_mut_slice(), vars, values);
    }

    /// What the slots of the variables have in the caller's frame, in the variables' order, before
    /// others that do not count. It takes no memory.
    ///
    /// `give_back` takes it, once the variables had other values.
    pub fn kept(&self, vars: &[Var]) -> [Option<Value>; 9]
        requires few { length vars.now ≤ 9 }
        ensures { AreKept vars.now self.now result }
    {
        let mut values = [None; 9];
        self.keep(vars, &mut values);
        values
    }

    /// `kept` in place: puts what the slots of the variables have in the caller's frame into the
    /// first places of `values`, in the variables' order. It takes no memory.
    #[inline(always)]
    pub fn keep(&self, vars: &[Var], values: &mut [Option<Value>; 9])
        requires few { length vars.now ≤ 9 }
        ensures { AreKept vars.now self.now values.new }
    {
        keep(self.values.as_slice(), vars, values);
    }

    /// Gives the slots of the variables these values in the caller's frame, in the variables'
    /// order; where they were kept of a frame in which only these variables got others since, the
    /// frame is as it was. It takes no memory.
    pub fn give_back(&mut self, vars: &[Var], values: &[Option<Value>; 9])
        requires slots { Each (λ s. s.slot < 32) vars.now }
        requires few { length vars.now ≤ 9 }
        ensures values { PutsBack vars.now values.now self.old self.new }
        ensures frame { GivesBack vars.now values.now self.old self.new }
    {
        give_back(self.values.as_mut_slice(), vars, values);
    }

    /// A new frame that has the same values, with less room to remember, at most some 37 KiB. It
    /// fails for want of memory alone.
    pub fn copy(&self, alloc: Global) -> Result<Env, NoMemory>
        ensures { IfOk result (λ copy. copy ≡ self.now) }
    {
        let mut values = vec![in alloc; None; SLOTS]?;
        let frame = saved(self.values.as_slice());
        restore(values.as_mut_slice(), &frame);
        let memory = self.memory.smaller(alloc)?;
        Ok(Env { values, memory })
    }

    /// Lends what there is to remember truths of definitions, with nothing remembered, so that it
    /// is right in any world: for all that is read in one world by `state_in`.
    /// Until it is taken back, a call of `state` remembers nothing. It takes no memory.
    pub fn lend_memory(&mut self, alloc: Global) -> Memory
        ensures nothing { result ≡ [] }
        ensures frame { self.new ≡ self.old }
    {
        let mut memory = mem::replace(&mut self.memory, Memory::without_places(alloc));
        memory.forget_all();
        memory
    }

    /// Takes back what was lent. It takes no memory.
    pub fn take_back(&mut self, memory: Memory)
        ensures frame { self.new ≡ self.old }
    {
        self.memory = memory;
    }

    /// The values of the caller's frame, to be put back later. It takes no memory.
    pub fn saved(&self) -> [Option<Value>; 32]
        ensures { result ≡ self.now }
    {
        saved(self.values.as_slice())
    }

    /// Makes the caller's frame the given one. It takes no memory.
    pub fn restore(&mut self, frame: &[Option<Value>; 32])
        ensures { self.new ≡ frame.now }
    {
        restore(self.values.as_mut_slice(), frame);
    }

    /// The caller's frame. It takes no memory.
    pub(crate) fn frame(&self) -> &[Option<Value>]
        ensures { result.now ≡ self.now }
    {
        &self.values[..SLOTS]
    }
}
