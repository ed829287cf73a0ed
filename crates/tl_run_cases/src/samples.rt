// Samples: what the command prints of them, and their two texts as files.
ghost use Rattle.std.specs.Prelude.{◌≤◌};

use crate::checks::is_true;
use crate::run::{are_run, is_answered};
use crate::stop::Stop;
use std::alloc::Global;
use std::process::Abort;
use tl_gen::{Texts, sample};
use tl_outside::{FileList, MemoryStore, Numbers};
use tl_tables::is_row;

/// Rows of the number of balls; then the status, the output, and what fails. The store has no
/// files, and is not called.
const SAMPLES: &str = "
sample {0} | - | {1} | {2} | {3}
1 | 0 | ; sample 1 / ; plan of 3 actions / ; kept 4 pairs / ; valid | -
2 | 0 | ; sample 2 / ; plan of 5 actions / ; kept 6 pairs / ; valid | store 64 fails 0
3 | 0 | ; sample 3 / ; plan of 9 actions / ; kept 10 pairs / ; valid | -
6 | 0 | ; sample 6 / ; plan of 17 actions / ; kept 18 pairs / ; valid | -
100 | 0 | ; sample 100 / ; plan of 299 actions / ; kept 300 pairs / ; valid | -
0006 | 0 | ; sample 6 / ; plan of 17 actions / ; kept 18 pairs / ; valid | -
1 | 6 | ; sa.. | sink 4 fails 1
0 | 8 | - | -
101 | 8 | - | -
- | 8 | - | -
x | 8 | - | -
+1 | 8 | - | -
1 1 | 8 | - | -
";

#[test]
fn samples_are_searched_and_checked(rt: HostRuntime) -> Result<(), Stop> {
    are_run(&rt, rt.alloc(), SAMPLES)
}

/// A store of two texts, under the names d and p, and of an empty plan, under q.
fn store_of(alloc: Global, texts: &Texts) -> Result<MemoryStore, Stop> {
    let mut files = FileList::new(alloc);
    files.add("d", texts.domain.as_slice())?;
    files.add("p", texts.problem.as_slice())?;
    files.add("q", b"")?;
    Ok(MemoryStore::new(files, 4_194_304, Numbers::new(alloc)))
}

/// Rows of the words, the status, and the output, over the texts of the sample of six balls.
const SIX: &str = "
plan breadth 20 20000 d p | - | 0 | ; plan of 17 actions / (pick b0001 rooma left) / (pick b0002 rooma right) / (move rooma roomb) / (drop b0001 roomb left) / (drop b0002 roomb right) / (move roomb rooma) / (pick b0003 rooma left) / (pick b0004 rooma right) / (move rooma roomb) / (drop b0003 roomb left) / (drop b0004 roomb right) / (move roomb rooma) / (pick b0005 rooma left) / (pick b0006 rooma right) / (move rooma roomb) / (drop b0005 roomb left) / (drop b0006 roomb right)
plan depth 18 20000 d p | - | 0 | ; plan of 17 actions / (pick b0001 rooma left) / (pick b0002 rooma right) / (move rooma roomb) / (drop b0001 roomb left) / (drop b0002 roomb right) / (move roomb rooma) / (pick b0003 rooma left) / (pick b0004 rooma right) / (move rooma roomb) / (drop b0003 roomb left) / (drop b0004 roomb right) / (move roomb rooma) / (pick b0005 rooma left) / (pick b0006 rooma right) / (move rooma roomb) / (drop b0005 roomb left) / (drop b0006 roomb right)
";

#[test]
fn texts_of_a_sample_are_files(rt: HostRuntime) -> Result<(), Stop> {
    let texts = sample(rt.alloc(), 6)?;
    for row in SIX.lines() {
        if is_row(row) {
            let mut store = store_of(rt.alloc(), &texts)?;
            is_answered(&rt, rt.alloc(), row, &mut store, row)?;
        }
    }
    Ok(())
}

/// Whether a byte that comes after another one can begin the token `+`, `-` or `*`.
fn begins_operation(before: u8, byte: u8) -> bool {
    (byte == b'+' || byte == b'-' || byte == b'*')
        && (before == b' ' || before == b'(' || before == b'\n')
}

/// Fails where a text has the token of an operation.
fn has_no_operation<R: Abort>(rt: &R, text: &[u8]) {
    let mut before = b' ';
    for byte in text {
        is_true(rt, !begins_operation(before, *byte), "no arithmetic term");
        before = *byte;
    }
}

/// No file is refused, and the empty plan leaves every ball where it is.
const EMPTY_PLAN: &str = "check d p q | - | 1 | ; goal unmet";

/// Fails where a text of the sample breaks a rule or has an arithmetic term.
fn is_lawful<R: Abort>(rt: &R, alloc: Global, balls: u32) -> Result<(), Stop>
    requires some { 1 ≤ balls }
    requires few { balls ≤ 100 }
{
    let texts = sample(alloc, balls)?;
    has_no_operation(rt, texts.domain.as_slice());
    has_no_operation(rt, texts.problem.as_slice());
    let mut store = store_of(alloc, &texts)?;
    is_answered(rt, alloc, EMPTY_PLAN, &mut store, EMPTY_PLAN)
}

#[test]
fn texts_of_every_sample_are_lawful(rt: HostRuntime) -> Result<(), Stop> {
    for balls in 1..101u32 {
        is_lawful(&rt, rt.alloc(), balls)?;
    }
    Ok(())
}
