// One search node more.
ghost use Rattle.std.specs.Prelude.{◌≡◌, length, IfOk, OnErr};
ghost use Rattle.tl_space.specs.Inner.{node_in, AreNumbersIn, IsToKeep, way_in, IsWalk, IsKeptLast};
ghost use Rattle.tl_space.specs.Kept.{IsNamedMet, MayMeet};
ghost use Rattle.tl_space.specs.Spaces.{name_count, kept_of, Grows};

use super::Space;
use crate::numbers::{Met, Numbers};
use tl_search::Arrival;
use tl_syntax::NoMemory;

impl Space {
    /// Keeps the new search node of these numbers, met first in this way, and remembers its
    /// arrival. The search node is the last growth that can fail: where it does, the way is let go
    /// again.
    pub(crate) fn keep(
        &mut self,
        key: Numbers,
        numbers: Numbers,
        met: Met,
    ) -> Result<usize, NoMemory>
        requires key { AreNumbersIn self.old key }
        requires new { IsToKeep self.old key numbers }
        requires met { MayMeet self.old.from met }
        requires named { IsNamedMet (name_count self.old) met }
        requires walk { IsWalk self.old (way_in self.old met) (node_in self.old numbers) }
        ensures grows { Grows self.old self.new }
        ensures number { IfOk result (λ k. k ≡ length (kept_of self.old)) }
        ensures kept { IfOk result (λ k. IsKeptLast self.old self.new (node_in self.old numbers) (way_in self.old met)) }
        ensures refused { OnErr result (kept_of self.new ≡ kept_of self.old) }
    {
        let before = self.from.len();
        self.from.push(met)?;
        match self.pairs.insert_full(numbers) {
            Ok((at, _)) => {
                self.arrivals.remember(key, Arrival::Seen(at));
                Ok(at)
            }
            Err(_) => {
                self.from.truncate(before);
                Err(NoMemory)
            }
        }
    }
}
