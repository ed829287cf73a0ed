// The truth of a formula at each of some positions in a row.
ghost use Rattle.std.specs.Prelude.{◌≡◌, ◌<◌, ◌≤◌, ◌+◌, ℕ, [], ◌∷◌, ◌++◌, map, not, length};
ghost use Rattle.std.specs.Prelude.{replicate, take, drop, slice_index_or, false};
ghost use Rattle.std.specs.Prelude.{IfOk, IfSome, IfNone, OnOk, OnErr};
ghost use Rattle.tl_check.specs.Passes.{next_labels, until_labels, within_labels, joined_labels};
ghost use Rattle.tl_check.specs.Later.{later_labels};
ghost use Rattle.tl_check.specs.Rests.{rest_labels};
ghost use Rattle.tl_check.specs.Picked.{JoinsAt};
ghost use Rattle.tl_check.specs.Spans.{AreDecided, IsHull, IsOpen, AreJoinedWhere};

use crate::cuts::{cuts_of, join_cuts};
use crate::ends::{before_true, up_to_true};
use crate::later::Later;
use crate::picked::{picked, placed};
use crate::rest::{Rest, rest_of};
use crate::run::Run;
use crate::span::Span;
use crate::{passes, runs, waiting};
use std::alloc::Global;
use std::marker::Model;
use tl_syntax::{Junction, NoMemory};

/// The truth of a formula at each of some positions in a row.
///
/// They are kept as runs of equal labels: what goes over them takes the time of their changes, and
/// not that of the positions.
#[derive(Drop)]
pub(crate) struct Labels {
    runs: Vec<Run>,
}

impl Model for Labels {
    ghost use Rattle.std.specs.Prelude.{List, Bool};
    ghost use Rattle.tl_check.specs.Runs.{spread};

    ghost Value = { List Bool };

    ghost view = { λ labels. spread labels.runs.items };
}

impl Labels {
    /// No label. It takes no memory.
    pub(crate) fn new(alloc: Global) -> Labels
        ensures { result ≡ [] }
    {
        Labels {
            runs: Vec::new(alloc),
        }
    }

    /// Adds the label of one more position at the end. A refused call leaves the labels as they
    /// were.
    pub(crate) fn push(&mut self, truth: bool) -> Result<(), NoMemory>
        ensures added { OnOk result (self.new ≡ self.old ++ truth ∷ []) }
        ensures unchanged { OnErr result (self.new ≡ self.old) }
    {
        runs::add(&mut self.runs, truth, 1)
    }

    /// Adds the same label for so many more positions at the end. A refused call leaves the labels
    /// as they were.
    pub(crate) fn add(&mut self, truth: bool, count: usize) -> Result<(), NoMemory>
        ensures added { OnOk result (self.new ≡ self.old ++ replicate count truth) }
        ensures unchanged { OnErr result (self.new ≡ self.old) }
    {
        runs::add(&mut self.runs, truth, count)
    }

    /// The same label at so many positions. It fails for want of memory alone.
    pub(crate) fn all(alloc: Global, count: usize, truth: bool) -> Result<Labels, NoMemory>
        ensures same { IfOk result (λ labels. labels ≡ replicate count truth) }
    {
        let mut labels = Labels::new(alloc);
        labels.add(truth, count)?;
        Ok(labels)
    }

    /// The label at a position, counted from the first one here. It takes no memory, and the time
    /// of the changes before that position.
    pub(crate) fn at(&self, i: usize) -> bool
        requires { i < length self.now }
        ensures { result ≡ slice_index_or self.now i false }
    {
        runs::at(self.runs.as_slice(), i)
    }

    /// Adds the labels from a position on once more at the end. It fails for want of memory alone.
    pub(crate) fn repeat_from(&mut self, at: usize) -> Result<(), NoMemory>
        ensures repeated { OnOk result (self.new ≡ self.old ++ drop at self.old) }
    {
        let alloc = *self.runs.allocator();
        let later = runs::runs_from(alloc, self.runs.as_slice(), at)?;
        runs::add_all(&mut self.runs, later.as_slice())
    }

    /// The labels, to be read one after another. It takes no memory.
    pub(crate) fn rest(&self) -> Rest
        ensures { rest_labels result ≡ self.now }
    {
        rest_of(self.runs.as_slice())
    }

    /// The labels of the negation. It takes no memory.
    pub(crate) fn negate(&mut self)
        ensures { self.new ≡ map not self.old }
    {
        passes::negate(self.runs.as_mut_slice());
    }

    /// The labels in the next state. A refused call leaves the labels as they were.
    pub(crate) fn shift(&mut self) -> Result<(), NoMemory>
        ensures shifted { OnOk result (self.new ≡ next_labels self.old) }
        ensures unchanged { OnErr result (self.new ≡ self.old) }
    {
        let truth = runs::last(self.runs.as_slice());
        runs::add(&mut self.runs, truth, 1)?;
        runs::leave_first(&mut self.runs);
        Ok(())
    }

    /// The labels of now or later for the second formula, where this one's hold until then. A
    /// refused call leaves the labels as they were; it is refused too where the number of positions
    /// does not fit a `usize`.
    pub(crate) fn until(&mut self, second: &Labels) -> Result<(), NoMemory>
        requires { length self.old ≡ length second.now }
        ensures until { OnOk result (self.new ≡ until_labels self.old second.now) }
        ensures unchanged { OnErr result (self.new ≡ self.old) }
    {
        let alloc = *self.runs.allocator();
        let cuts = cuts_of(alloc, self.runs.as_slice(), second.runs.as_slice())?;
        self.runs = waiting::until(alloc, cuts.as_slice())?;
        Ok(())
    }

    /// The labels of now or within so many steps. It fails for want of memory alone.
    fn within(&mut self, steps: u32) -> Result<(), NoMemory>
        ensures within { OnOk result (self.new ≡ within_labels steps self.old) }
    {
        let alloc = *self.runs.allocator();
        self.runs = waiting::within(alloc, self.runs.as_slice(), steps)?;
        Ok(())
    }

    /// The labels of now and throughout so many steps. It fails for want of memory alone.
    fn during(&mut self, steps: u32) -> Result<(), NoMemory>
        ensures during { OnOk result (self.new ≡ map not (within_labels steps (map not self.old))) }
    {
        self.negate();
        self.within(steps)?;
        self.negate();
        Ok(())
    }

    /// The labels of the word before the formula. It fails for want of memory alone.
    pub(crate) fn later(&mut self, word: Later) -> Result<(), NoMemory>
        ensures later { OnOk result (self.new ≡ later_labels word self.old) }
    {
        match word {
            Later::Next => self.shift()?,
            Later::Always => passes::always(self.runs.as_mut_slice()),
            Later::Eventually => passes::eventually(self.runs.as_mut_slice()),
            Later::Within(steps) => self.within(steps)?,
            Later::During(steps) => self.during(steps)?,
        }
        Ok(())
    }

    /// The labels of the conjunction or the disjunction of both. A refused call leaves the labels
    /// as they were.
    pub(crate) fn join(&mut self, other: &Labels, junction: Junction) -> Result<(), NoMemory>
        requires { length self.old ≡ length other.now }
        ensures joined { OnOk result (self.new ≡ joined_labels junction self.old other.now) }
        ensures unchanged { OnErr result (self.new ≡ self.old) }
    {
        let alloc = *self.runs.allocator();
        let cuts = cuts_of(alloc, self.runs.as_slice(), other.runs.as_slice())?;
        self.runs = join_cuts(alloc, cuts.as_slice(), junction)?;
        Ok(())
    }

    /// Leaves the labels of so many positions from this one on. It fails for want of memory alone.
    pub(crate) fn narrow(&mut self, at: usize, count: usize) -> Result<(), NoMemory>
        ensures { OnOk result (self.new ≡ take count (drop at self.old)) }
    {
        if at > 0 {
            let alloc = *self.runs.allocator();
            self.runs = runs::runs_from(alloc, self.runs.as_slice(), at)?;
        }
        runs::truncate(&mut self.runs, count);
        Ok(())
    }

    /// The least span with all positions where the label is true, if there is one, where the labels
    /// are those of this span. It takes no memory.
    pub(crate) fn hull(&self, span: Span) -> Option<Span>
        requires { span.from + length self.now ≡ span.to }
        ensures none { IfNone result ((k : ℕ) → slice_index_or self.now k false ≡ false) }
        ensures hull { IfSome result (IsHull self.now span) }
    {
        match before_true(self.runs.as_slice()) {
            None => None,
            Some(first) => {
                let end = up_to_true(self.runs.as_slice());
                Some(Span {
                    from: span.from + first,
                    to: span.from + end,
                })
            }
        }
    }

    /// The least span with all positions whose labels do not decide the junction, if there is one,
    /// where the labels are those of this span. It takes no memory.
    pub(crate) fn undecided(&mut self, span: Span, junction: Junction) -> Option<Span>
        requires { span.from + length self.old ≡ span.to }
        ensures none { IfNone result (AreDecided junction self.old) }
        ensures inner { IfSome result (IsOpen junction self.old span) }
        ensures same { self.new ≡ self.old }
    {
        match junction {
            Junction::All => self.hull(span),
            Junction::Any => {
                self.negate();
                let found = self.hull(span);
                self.negate();
                found
            }
        }
    }

    /// The labels of the conjunction or the disjunction of both, where those of the other list are
    /// for the positions from `at` on. A refused call leaves the labels as they were; it is refused
    /// too where the number of positions does not fit a `usize`.
    pub(crate) fn join_at(
        &mut self,
        other: &Labels,
        at: usize,
        junction: Junction,
    ) -> Result<(), NoMemory>
        requires within { at + length other.now ≤ length self.old }
        ensures joined { OnOk result (JoinsAt junction other.now at self.old self.new) }
        ensures unchanged { OnErr result (self.new ≡ self.old) }
    {
        let alloc = *self.runs.allocator();
        let count = runs::positions(self.runs.as_slice())?;
        let elsewhere = !junction.deciding_truth();
        let labels = placed(alloc, other.runs.as_slice(), at, count, elsewhere)?;
        let cuts = cuts_of(alloc, self.runs.as_slice(), labels.as_slice())?;
        self.runs = join_cuts(alloc, cuts.as_slice(), junction)?;
        Ok(())
    }

    /// The labels together with those of the other list, which are for the positions from `at` on,
    /// at those of them where `there` is true. A refused call leaves the labels as they were; it is
    /// refused too where the number of positions does not fit a `usize`.
    pub(crate) fn join_where(
        &mut self,
        there: &Labels,
        other: &Labels,
        at: usize,
        junction: Junction,
    ) -> Result<(), NoMemory>
        requires size { length self.old ≡ length there.now }
        requires within { at + length other.now ≤ length there.now }
        ensures size { OnOk result (length self.new ≡ length self.old) }
        ensures joined { AreJoinedWhere junction there.now other.now at self.old self.new result }
        ensures unchanged { OnErr result (self.new ≡ self.old) }
    {
        let alloc = *self.runs.allocator();
        let elsewhere = !junction.deciding_truth();
        let labels = picked(
            alloc,
            there.runs.as_slice(),
            other.runs.as_slice(),
            at,
            elsewhere,
        )?;
        let cuts = cuts_of(alloc, self.runs.as_slice(), labels.as_slice())?;
        self.runs = join_cuts(alloc, cuts.as_slice(), junction)?;
        Ok(())
    }
}
