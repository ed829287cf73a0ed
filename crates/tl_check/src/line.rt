// When a fact holds along some states.
ghost use Rattle.std.specs.Prelude.{◌≡◌, ◌≤◌, ◌<◌, ℕ, IfOk, OnOk, false, IsTrue};
ghost use Rattle.tl_check.specs.Gathered.{GoesOn, BeginsAt, HoldsIn};
ghost use Rattle.tl_check.specs.Lines.{truth_from, test_in};

use crate::labels::Labels;
use crate::span::Span;
use std::alloc::Global;
use tl_syntax::NoMemory;

/// A change of the truth of a fact.
#[derive(Clone, Copy)]
pub(crate) struct Change {
    /// The position of the state that comes with it.
    pub(crate) at: usize,
    /// Whether the fact holds from there on.
    pub(crate) truth: bool,
}

/// The position of a change, brought between two others. It takes no memory.
fn brought_between(position: usize, from: usize, to: usize) -> usize
    requires { from ≤ to }
    ensures from { from ≤ result }
    ensures to { result ≤ to }
    ensures before { (k : ℕ) → from ≤ k → k < result → k < position }
    ensures after { (k : ℕ) → result ≤ k → k < to → position ≤ k }
{
    if position <= from {
        from
    } else if position <= to {
        position
    } else {
        to
    }
}

/// Whether the fact with these changes holds, at each position of the span. It fails for want of
/// memory alone, and takes the time of the changes.
pub(crate) fn line_labels(alloc: Global, line: &[Change], span: Span) -> Result<Labels, NoMemory>
    requires { span.from ≤ span.to }
    ensures { IfOk result (λ labels. labels ≡ test_in (truth_from false line.now) span) }
{
    let mut labels = Labels::new(alloc);
    let mut at = span.from;
    let mut truth = false;
    for change in line.iter() {
        let next = brought_between(change.at, at, span.to);
        labels.add(truth, next - at)?;
        at = next;
        truth = change.truth;
    }
    labels.add(truth, span.to - at)?;
    Ok(labels)
}

/// Whether the last change is at this position, and the fact holds before it. It takes no memory.
fn goes_on(line: &[Change], at: usize) -> bool
    ensures { IsTrue result → GoesOn at line.now }
{
    let count = line.len();
    if count < 2 {
        return false;
    }
    let last = line[count - 1];
    let before = line[count - 2];
    last.at == at && before.truth
}

/// Has the fact hold from a position on that no change comes after: by a change, or without the
/// last one, where that is at this position and ends what held. It fails for want of memory alone.
fn begin(line: &mut Vec<Change>, at: usize) -> Result<(), NoMemory>
    ensures { OnOk result (BeginsAt at line.old.items line.new.items) }
{
    if goes_on(line.as_slice(), at) {
        line.pop();
        return Ok(());
    }
    line.push(Change { at, truth: true })?;
    Ok(())
}

/// Has the fact hold at the positions of a span, which no change comes after. It fails for want of
/// memory alone.
///
/// Spans that follow one another take the memory of one.
pub(crate) fn add_span(line: &mut Vec<Change>, span: Span) -> Result<(), NoMemory>
    requires { span.from < span.to }
    ensures { OnOk result (HoldsIn span line.old.items line.new.items) }
{
    begin(line, span.from)?;
    line.push(Change {
        at: span.to,
        truth: false,
    })?;
    Ok(())
}
