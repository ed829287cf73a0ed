// The numbers that a join gathers.
ghost use Rattle.std.specs.Prelude.{◌≡◌, ◌∷◌, ◌++◌, [], OnOk};

use std::alloc::Global;
use std::marker::Model;
use tl_syntax::NoMemory;

/// How many numbers stand in place.
const FEW: usize = 8;

/// Numbers in their order. A few stand in place, and take no memory; where they are more, all of
/// them are in the list.
#[derive(Drop)]
pub(crate) struct Numbers {
    few: [usize; 8],
    count: usize,
    all: Vec<usize>,
}

impl Model for Numbers {
    ghost use Rattle.std.specs.Prelude.{◌≤◌, ℕ, List};
    ghost use Rattle.tl_progress.specs.FewNumbers.{numbers_of};

    ghost Value = { List ℕ };

    ghost view = { λ numbers. numbers_of numbers.few numbers.count numbers.all.items };

    ghost invariant = { λ numbers. numbers.count ≤ 8 };
}

impl Numbers {
    /// No number. It takes no memory.
    pub fn new(alloc: Global) -> Numbers
        ensures { result ≡ [] }
    {
        Numbers {
            few: [0; 8],
            count: 0,
            all: Vec::new(alloc),
        }
    }

    /// The numbers in their order.
    pub fn as_slice(&self) -> &[usize]
        ensures { result.now ≡ self.now }
    {
        if self.all.is_empty() {
            &self.few[..self.count]
        } else {
            self.all.as_slice()
        }
    }

    /// Adds a number at the end.
    #[inline(always)]
    pub fn push(&mut self, number: usize) -> Result<(), NoMemory>
        ensures { OnOk result (self.new ≡ self.old ++ number ∷ []) }
    {
        if !self.all.is_empty() {
            self.all.push(number)?;
            return Ok(());
        }
        if self.count < FEW {
            self.few[self.count] = number;
            self.count += 1;
            return Ok(());
        }
        self.all.extend_from_slice(&self.few)?;
        self.all.push(number)?;
        Ok(())
    }
}
