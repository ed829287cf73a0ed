// The search node of the empty path.
ghost use Rattle.std.specs.Prelude.{◌≡◌, [], IfOk, IfErr, OnErr};
ghost use Rattle.tl_search.specs.Calls.{RootArrives};
ghost use Rattle.tl_search.specs.Causes.{IsRootFault};
ghost use Rattle.tl_search.specs.Kept.{AreKept};
ghost use Rattle.tl_search.specs.PairGraph.{pair_graph};
ghost use Rattle.tl_space.specs.Inner.{AreNumbersIn, KeepsPairs, IsRootKey, IsProgressFault, LeadsTo, ArrivesBy};
ghost use Rattle.tl_space.specs.Spaces.{problem_of, kept_of, Grows};

use super::Space;
use crate::numbers::{Found, Met, Numbers};
use tl_eval::EvalFault;
use tl_search::{Arrival, SpaceFault};
use tl_syntax::NoMemory;

impl Space {
    /// The search node of the empty path arrives: the initial world, with the control formula
    /// progressed through it. It is pruned exactly where that residual is FALSE, and else kept as
    /// search node 0. A refused call leaves nothing kept, and can be made again.
    pub fn root(&mut self) -> Result<Arrival, SpaceFault>
        requires empty { kept_of self.old ≡ [] }
        ensures grows { Grows self.old self.new }
        ensures arrival { IfOk result (RootArrives (problem_of self.old) (kept_of self.old) (kept_of self.new)) }
        ensures kept { AreKept (pair_graph (problem_of self.new)) (kept_of self.new) }
        ensures refused { OnErr result (kept_of self.new ≡ kept_of self.old) }
        ensures cause { IfErr result (IsRootFault (problem_of self.old)) }
    {
        let key = match self.root_key() {
            Ok(key) => key,
            Err(_) => return Err(SpaceFault::NoMemory),
        };
        match self.arrive_first(key) {
            Ok(arrival) => Ok(arrival),
            Err(EvalFault::Range(note)) => Err(SpaceFault::RangeHere(note)),
            Err(EvalFault::NoMemory) => Err(SpaceFault::NoMemory),
        }
    }

    /// The search node of the empty path arrives, in this world with this formula.
    fn arrive_first(&mut self, key: Numbers) -> Result<Arrival, EvalFault>
        requires key { AreNumbersIn self.old key }
        requires empty { kept_of self.old ≡ [] }
        requires walk { LeadsTo self.old [] key }
        ensures grows { Grows self.old self.new }
        ensures arrival { IfOk result (ArrivesBy self.old self.new key []) }
        ensures refused { OnErr result (kept_of self.new ≡ kept_of self.old) }
        ensures cause { IfErr result (IsProgressFault self.old key) }
    {
        match self.find(key) {
            Ok(Found::Known(arrival)) => Ok(arrival),
            Ok(Found::New(numbers)) => match self.keep(key, numbers, Met::First) {
                Ok(k) => Ok(Arrival::Fresh(k)),
                Err(_) => Err(EvalFault::NoMemory),
            },
            Err(fault) => Err(fault),
        }
    }

    /// The numbers of the initial world and of the control formula.
    fn root_key(&mut self) -> Result<Numbers, NoMemory>
        ensures keeps { KeepsPairs self.old self.new }
        ensures numbers { IfOk result (AreNumbersIn self.new) }
        ensures key { IfOk result (IsRootKey self.new) }
    {
        let label = self.number_of_control()?;
        let world = self.number_of_first()?;
        Ok(Numbers { world, label })
    }
}
