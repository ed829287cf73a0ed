// The fingerprints of what changes of facts make false.
ghost use Rattle.std.specs.Prelude.{◌≤◌};

use tl_nodes::fact_mark;
use tl_syntax::Fact;

/// How many fingerprints there may be, before none is told from others.
const MOST: usize = 16;

/// Fingerprints of the facts that are deleted, and of the negations of those that are added. No
/// clause speaks of them: they only say where to look.
#[derive(Drop)]
pub(crate) struct Changed {
    /// One bit for each fingerprint: that of its first six bits.
    sieve: u64,
    marks: [u64; 16],
    count: usize,
    is_full: bool,
    ghost few: { count ≤ 16 },
}

impl Changed {
    /// Those of these changes.
    pub fn of(dels: &[Fact], adds: &[Fact]) -> Changed {
        let mut changed = Changed {
            sieve: 0,
            marks: [0; 16],
            count: 0,
            is_full: false,
        };
        for fact in dels.iter() {
            changed.put(fact_mark(fact, true));
        }
        for fact in adds.iter() {
            changed.put(fact_mark(fact, false));
        }
        changed
    }

    // Adds a fingerprint.
    fn put(&mut self, mark: u64) {
        self.sieve |= 1 << (mark >> 58);
        if self.count == MOST {
            self.is_full = true;
            return;
        }
        self.marks[self.count] = mark;
        self.count += 1;
    }

    /// The fingerprints, where there are not too many of them.
    pub fn marks(&self) -> Option<&[u64]> {
        if self.is_full {
            None
        } else {
            Some(&self.marks[..self.count])
        }
    }

    /// Whether a tree with this fingerprint may be made false.
    pub fn may_break(&self, mark: u64) -> bool {
        if self.sieve >> (mark >> 58) & 1 == 0 {
            return false;
        }
        self.is_full || self.marks[..self.count].contains(&mark)
    }
}
