// Devices that fail.

use crate::run::{are_run, is_answered, store_of};
use crate::stop::Stop;
use std::alloc::Global;
use std::process::Abort;
use tl_outside::MemoryStore;
use tl_tables::column;

/// Rows of words, the calls of the store and of the sink that fail, the status, and what the sink
/// holds.
const FAILS: &str = "
{0} | d = {one domain} & p = {one problem} & q = (lit) | {3} | {4} | store 64 fails {1}, sink 4 fails {2}
check d p q | 0 | - | 5 | -
check d p q | 2 | - | 5 | -
check d p q | - | 1 | 6 | ; va..
check d p other | - | - | 5 | -
check d p | - | - | 8 | -
- | 0 | 0 | 8 | -
# each call of the sink fails once, and the parts before it are written
check d p q | - | 0 | 6 | -
check d p q | - | 1 | 6 | ; va..
check d p q | - | 2 | 0 | ; valid
";

#[test]
fn the_outside_fails(rt: HostRuntime) -> Result<(), Stop> {
    are_run(&rt, rt.alloc(), FAILS)
}

/// The words and the files of a run whose store fails once.
const READ: &str = "check d p q | d = {one domain} & p = {one problem} & q = (lit)";

/// The store of the files of a line, whose call `k` fails.
fn failing_store(alloc: Global, line: &str, k: u32) -> Result<MemoryStore, Stop> {
    let outside = format!(in alloc; "store 64 fails {k}")?;
    store_of(alloc, column(line, 1), outside.as_str())
}

/// Compares the answer over a store with a status and its lines.
fn is_told<R: Abort>(
    rt: &R,
    alloc: Global,
    line: &str,
    store: &mut MemoryStore,
    answer: &str,
) -> Result<(), Stop> {
    let line = format!(in alloc; "{line} | {answer}")?;
    is_answered(rt, alloc, line.as_str(), store, line.as_str())
}

/// Runs over a store whose call `k` fails, and, where this is one of the ten that a run makes,
/// again over the same store.
fn fails_once<R: Abort>(rt: &R, alloc: Global, line: &str, k: u32) -> Result<(), Stop> {
    let mut store = failing_store(alloc, line, k)?;
    if k < 10 {
        is_told(rt, alloc, line, &mut store, "5 | -")?;
    }
    is_told(rt, alloc, line, &mut store, "0 | ; valid")
}

/// Each call of the store fails once, and the answer comes from the same store when it is read
/// again.
#[test]
fn a_store_fails_at_each_call(rt: HostRuntime) -> Result<(), Stop> {
    for k in 0..11 {
        fails_once(&rt, rt.alloc(), READ, k)?;
    }
    Ok(())
}
