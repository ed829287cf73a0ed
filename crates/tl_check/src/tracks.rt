// The changes of facts, as they are found.
ghost use Rattle.std.specs.Prelude.{◌≡◌, ◌<◌, [], IfOk, OnOk};
ghost use Rattle.tl_check.specs.Gathered.{FactHoldsIn};
ghost use Rattle.tl_check.specs.Lines.{IsLastTruth};
ghost use Rattle.tl_check.specs.Told.{NotesRows, TellsFirst};
ghost use Rattle.tl_check.specs.Tracks.{line_in, fact_with, HaveSeenAll, TakesLine, TellsOf};
ghost use Rattle.tl_check.specs.Tracks.{OthersStay, SeesOne, StaySeen};
ghost use Rattle.tl_syntax.specs.Lists.{Among};
ghost use Rattle.tl_syntax.specs.declared.fact.Fact.{Fact as PlainFact};

use crate::line::{Change, add_span};
use crate::span::Span;
use std::alloc::Global;
use std::collections::HashMap;
use tl_rows::Rows;
use tl_syntax::{Fact, NoMemory, Value, Values};
use tl_world::World;

/// The changes of some facts, along the states so far.
#[derive(Drop)]
pub(crate) struct Tracks {
    /// The changes of each fact that held in a state so far.
    pub(crate) lines: HashMap<Fact, Vec<Change>>,
    /// These facts, each once.
    pub(crate) seen: Vec<Fact>,
}

/// The changes of a fact. It takes no memory.
pub(crate) fn line_of<'a>(lines: &'a HashMap<Fact, Vec<Change>>, fact: &Fact) -> &'a [Change]
    ensures { result.now ≡ line_in lines.now fact.now }
{
    match lines.get(fact) {
        Some(line) => line.as_slice(),
        None => &[],
    }
}

/// What the changes tell of the position of the last one and of those after it. It takes no memory.
fn last_truth(line: &[Change]) -> bool
    ensures { IsLastTruth line.now result }
{
    match line.last() {
        Some(change) => change.truth,
        None => false,
    }
}

/// The fact of a predicate with these arguments. It fails for want of memory alone.
pub(crate) fn fact_of(alloc: Global, pred: u32, row: &[Value]) -> Result<Fact, NoMemory>
    ensures { IfOk result (λ fact. fact ≡ fact_with pred row.now) }
{
    let mut args = Values::new(alloc);
    args.extend(row)?;
    Ok(Fact { pred, args })
}

impl Tracks {
    /// No fact has changed. It takes no memory.
    pub(crate) fn new(alloc: Global) -> Tracks
        ensures none { (g : PlainFact) → line_in result.lines g ≡ [] }
        ensures covered { HaveSeenAll result }
        ensures unseen { result.seen.items ≡ [] }
    {
        Tracks {
            lines: HashMap::new(alloc),
            seen: Vec::new(alloc),
        }
    }

    /// Takes the changes of a fact out, and counts it among those that were seen. It fails for want
    /// of memory alone.
    fn take_line(&mut self, alloc: Global, fact: &Fact) -> Result<Vec<Change>, NoMemory>
        requires { HaveSeenAll self.old }
        ensures line { IfOk result (λ line. line.items ≡ line_in self.old.lines fact.now) }
        ensures lines { OnOk result (TakesLine fact.now self.old.lines self.new.lines) }
        ensures seen { OnOk result (Among fact.now self.new.seen.items) }
        ensures stay { OnOk result (StaySeen self.old self.new) }
        ensures one { OnOk result (SeesOne fact.now self.old.seen.items self.new.seen.items) }
    {
        match self.lines.remove(fact) {
            Some(line) => Ok(line),
            None => {
                let copy = fact.copy(alloc)?;
                self.seen.push(copy)?;
                Ok(Vec::new(alloc))
            }
        }
    }

    /// Adds a change of the fact after its other ones. It fails for want of memory alone.
    pub(crate) fn note(&mut self, alloc: Global, fact: Fact, change: Change) -> Result<(), NoMemory>
        requires { HaveSeenAll self.old }
        ensures told { OnOk result (TellsOf fact change self.old.lines self.new.lines) }
        ensures covered { OnOk result (HaveSeenAll self.new) }
    {
        let mut line = self.take_line(alloc, &fact)?;
        line.push(change)?;
        self.lines.insert(fact, line)?;
        Ok(())
    }

    /// Adds a change of the fact after its other ones, where these do not tell the same. It fails
    /// for want of memory alone.
    pub(crate) fn note_new(
        &mut self,
        alloc: Global,
        fact: &Fact,
        change: Change,
    ) -> Result<(), NoMemory>
        requires { HaveSeenAll self.old }
        ensures told { OnOk result (TellsOf fact.now change self.old.lines self.new.lines) }
        ensures covered { OnOk result (HaveSeenAll self.new) }
    {
        if last_truth(line_of(&self.lines, fact)) == change.truth {
            return Ok(());
        }
        let copy = fact.copy(alloc)?;
        self.note(alloc, copy, change)
    }

    /// Adds that the facts of a predicate with these arguments hold from the first state on. It
    /// fails for want of memory alone.
    fn note_rows(&mut self, alloc: Global, pred: u32, rows: &Rows) -> Result<(), NoMemory>
        requires { HaveSeenAll self.old }
        ensures noted { OnOk result (NotesRows pred rows.now self.old.lines self.new.lines) }
        ensures covered { OnOk result (HaveSeenAll self.new) }
    {
        for k in 0..rows.len() {
            let fact = fact_of(alloc, pred, rows.row(k))?;
            self.note(alloc, fact, Change { at: 0, truth: true })?;
        }
        Ok(())
    }

    /// Adds the changes of the facts of a predicate that come with the first state. It fails for
    /// want of memory alone.
    pub(crate) fn note_first(
        &mut self,
        alloc: Global,
        pred: u32,
        first: &World,
    ) -> Result<(), NoMemory>
        requires { HaveSeenAll self.old }
        ensures told { OnOk result (TellsFirst pred first.now self.old.lines self.new.lines) }
        ensures covered { OnOk result (HaveSeenAll self.new) }
    {
        match first.rows(pred) {
            Some(rows) => {
                self.note_rows(alloc, pred, rows)?;
                Ok(())
            }
            None => Ok(()),
        }
    }

    /// Adds that the fact holds at the positions of a span, after its other changes. It fails for
    /// want of memory alone.
    pub(crate) fn note_span(
        &mut self,
        alloc: Global,
        fact: Fact,
        span: Span,
    ) -> Result<(), NoMemory>
        requires covered { HaveSeenAll self.old }
        requires some { span.from < span.to }
        ensures here { OnOk result (FactHoldsIn span fact self.old.lines self.new.lines) }
        ensures others { OnOk result (OthersStay fact self.old.lines self.new.lines) }
        ensures covered { OnOk result (HaveSeenAll self.new) }
        ensures one { OnOk result (SeesOne fact self.old.seen.items self.new.seen.items) }
    {
        let mut line = self.take_line(alloc, &fact)?;
        add_span(&mut line, span)?;
        self.lines.insert(fact, line)?;
        Ok(())
    }
}
