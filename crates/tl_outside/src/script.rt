// Calls that are numbered from 0, some of which fail.
ghost use Rattle.std.specs.Prelude.{◌≡◌, ◌≤◌};
ghost use Rattle.tl_outside.specs.Script.{fails_at, counted};

use tl_syntax::Items;

/// The numbers of the calls that fail. Their order does not matter, nor does a number that comes
/// twice.
pub type Numbers = Items<u32>;

// The calls that were made, and the faults among them.
#[derive(Drop)]
pub(crate) struct Script {
    pub(crate) fails: Numbers,
    pub(crate) calls: u64,
    pub(crate) faults: u64,
}

impl Script {
    // No call was made yet, and there was no fault.
    pub(crate) fn new(fails: Numbers) -> Script
        ensures fails { result.fails ≡ fails }
        ensures calls { result.calls ≡ 0 }
        ensures faults { result.faults ≡ 0 }
    {
        Script {
            fails,
            calls: 0,
            faults: 0,
        }
    }

    // Counts a call, and answers whether it is among those that fail.
    pub(crate) fn call(&mut self) -> bool
        ensures answer { result ≡ fails_at self.old.fails self.old.calls }
        ensures fails { self.new.fails ≡ self.old.fails }
        ensures calls { self.new.calls ≡ counted self.old.calls }
        ensures faults { self.new.faults ≡ self.old.faults }
    {
        let number = self.calls;
        self.calls = number.saturating_add(1);
        self.fails
            .as_slice()
            .iter()
            .any(|fail| u64::from(*fail) == number)
    }

    // Counts a fault.
    pub(crate) fn fault(&mut self)
        ensures fails { self.new.fails ≡ self.old.fails }
        ensures calls { self.new.calls ≡ self.old.calls }
        ensures faults { self.new.faults ≡ counted self.old.faults }
        ensures later { self.old.faults ≤ self.new.faults }
    {
        self.faults = self.faults.saturating_add(1);
    }
}
