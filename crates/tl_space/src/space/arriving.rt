// What is known of an arrival.
ghost use Rattle.std.specs.Prelude.{◌≡◌, IsTrue, IfOk, IfErr, IfSome, IfNone};
ghost use Rattle.tl_space.specs.Inner.{node_in, nodes_in, arriving_in, AreNumbersIn, IsKnownIn, KeepsPairs, KeepsMet, IsNew, IsArrivalFound, IsProgressFault};
ghost use Rattle.tl_space.specs.Remembered.{IsKnown};

use super::Space;
use crate::numbers::{Found, Numbers};
use tl_eval::EvalFault;
use tl_search::Arrival;

/// The number of the formula TRUE.
const TRUE: usize = 0;

/// The number of the formula FALSE.
const FALSE: usize = 1;

impl Space {
    /// What came of the arrival in this world with this formula before, where it is remembered.
    fn remembered(&self, key: Numbers) -> Option<Arrival>
        ensures { IfSome result (IsKnownIn self.now key) }
    {
        self.arrivals.get(key)
    }

    /// What is known of the search node of these numbers: it is pruned where its formula is FALSE,
    /// or is kept already.
    fn known(&self, numbers: Numbers) -> Option<Arrival>
        requires { AreNumbersIn self.now numbers }
        ensures known { IfSome result (IsKnown (nodes_in self.now) (node_in self.now numbers)) }
        ensures fresh { IfNone result (IsNew self.now numbers) }
    {
        if numbers.label == FALSE {
            return Some(Arrival::Pruned);
        }
        match self.pairs.get_index_of(&numbers) {
            Some(at) => Some(Arrival::Seen(at)),
            None => None,
        }
    }

    /// Remembers what came of the arrival, where there is memory for it.
    fn remember(&mut self, key: Numbers, arrival: Arrival)
        requires key { AreNumbersIn self.old key }
        requires known { IsKnownIn self.old key arrival }
        ensures { KeepsPairs self.old self.new }
    {
        self.arrivals.remember(key, arrival);
    }

    /// Whether TRUE comes in. It is what it leaves then. It takes no memory.
    fn leaves_itself(&self, key: Numbers) -> bool
        ensures { IsTrue result → node_in self.now key ≡ arriving_in self.now key }
    {
        let _ = self.nodes.len();
        key.label == TRUE
    }

    /// What is found of the arrival whose search node has its own numbers.
    fn find_itself(&self, key: Numbers) -> Found
        requires key { AreNumbersIn self.now key }
        requires itself { node_in self.now key ≡ arriving_in self.now key }
        ensures { IsArrivalFound self.now key result }
    {
        match self.known(key) {
            Some(arrival) => Found::Known(arrival),
            None => Found::New(key),
        }
    }

    /// What is found of the arrival in this world with this formula: by memory, or else anew.
    /// Nothing is kept yet.
    pub(crate) fn find(&mut self, key: Numbers) -> Result<Found, EvalFault>
        requires { AreNumbersIn self.old key }
        ensures keeps { KeepsPairs self.old self.new }
        ensures found { IfOk result (IsArrivalFound self.new key) }
        ensures cause { IfErr result (IsProgressFault self.old key) }
    {
        match self.remembered(key) {
            Some(arrival) => Ok(Found::Known(arrival)),
            None => self.find_first(key),
        }
    }

    /// What is found of the arrival that is not remembered: at once where TRUE comes in, or else by
    /// progression.
    fn find_first(&mut self, key: Numbers) -> Result<Found, EvalFault>
        requires { AreNumbersIn self.old key }
        ensures keeps { KeepsPairs self.old self.new }
        ensures found { IfOk result (IsArrivalFound self.new key) }
        ensures cause { IfErr result (IsProgressFault self.old key) }
    {
        if self.leaves_itself(key) {
            Ok(self.find_itself(key))
        } else {
            self.find_anew(key)
        }
    }

    /// What is found of the arrival by progression. It is remembered where no search node is to be
    /// kept.
    fn find_anew(&mut self, key: Numbers) -> Result<Found, EvalFault>
        requires { AreNumbersIn self.old key }
        ensures keeps { KeepsPairs self.old self.new }
        ensures found { IfOk result (IsArrivalFound self.new key) }
        ensures cause { IfErr result (IsProgressFault self.old key) }
    {
        match self.find_progressed(key) {
            Ok(Found::Known(arrival)) => {
                self.remember(key, arrival);
                Ok(Found::Known(arrival))
            }
            Ok(Found::New(numbers)) => Ok(Found::New(numbers)),
            Err(fault) => Err(fault),
        }
    }

    /// What is found of the arrival by progression. Nothing is remembered of it.
    fn find_progressed(&mut self, key: Numbers) -> Result<Found, EvalFault>
        requires { AreNumbersIn self.old key }
        ensures keeps { KeepsPairs self.old self.new }
        ensures met { KeepsMet self.old self.new }
        ensures found { IfOk result (IsArrivalFound self.new key) }
        ensures cause { IfErr result (IsProgressFault self.old key) }
    {
        let label = match self.number_of_residual(key) {
            Ok(label) => label,
            Err(fault) => return Err(fault),
        };
        let numbers = Numbers {
            world: key.world,
            label,
        };
        match self.known(numbers) {
            Some(arrival) => Ok(Found::Known(arrival)),
            None => Ok(Found::New(numbers)),
        }
    }

    /// What is found of the first arrival in a new world: at once where TRUE comes in, or else by
    /// progression. Nothing is remembered of it.
    pub(crate) fn find_in_new(&mut self, key: Numbers) -> Result<Found, EvalFault>
        requires { AreNumbersIn self.old key }
        ensures keeps { KeepsPairs self.old self.new }
        ensures met { KeepsMet self.old self.new }
        ensures found { IfOk result (IsArrivalFound self.new key) }
        ensures cause { IfErr result (IsProgressFault self.old key) }
    {
        if self.leaves_itself(key) {
            Ok(self.find_itself(key))
        } else {
            self.find_progressed(key)
        }
    }
}
