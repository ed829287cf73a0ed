// Runs over a store and over a sink of which each call fails once.
ghost use Rattle.std.specs.Prelude.{◌≤◌};

use crate::checks::{are_bytes, is_true};
use crate::run::{answer_to, output_of, store_of};
use crate::stop::Stop;
use std::alloc::Global;
use std::process::Abort;
use tl_outside::{MemorySink, MemoryStore, Numbers};
use tl_tables::{column, is_row};

/// Rows of words, the files, the status, and the output.
const ROWS: &str = "
check l p q | l = {lamps} ) & p = {ab} & q = (press a) (press b) | 0 | ; valid
plan breadth 5 100 l p | l = {lamps} ) & p = {ab} | 0 | ; plan of 2 actions / (press a) / (press b)
trace breadth 5 100 l p | l = {lamps} (control (always (forall (?x) (on ?x) (goal (on ?x)))))) & p = (problem p (init (lamp a) (lamp b)) (goal (on b))) | 0 | ; kept 0 / ; label (always (forall (?x) (on ?x) (goal (on ?x)))) / ; pruned 0 (press a) / ; kept 1 0 (press b) / ; label (always (forall (?x) (on ?x) (goal (on ?x)))) / ; plan of 1 actions / (press b)
explain l p q | l = {lamps} (control (always (implies (on a) (next (on b)))))) & p = {ab} & q = (press a) (press b) | 0 | ; state 0: (always (or (not (on a)) (next (on b)))) / (press a) / ; state 1: (and (on b) (always (or (not (on a)) (next (on b))))) / (press b) / ; state 2: (and (on b) (always (or (not (on a)) (next (on b))))) / ; end
prove-none 1 100 l p | l = {lamps} ) & p = {ab} | 0 | (none-within 1) / (pair 0 (press a)) / (pair 0 (press b))
check-none l p q | l = {lamps} ) & p = {ab} & q = (none-within 1) (pair 0 (press a)) (pair 0 (press b)) | 0 | ; proved none within 1
cheapest 100 w p k | w = {travel} ) & p = (problem p (init (at s)) (goal (at t))) & k = (fly 9) (walk 2) (ride 3) | 0 | ; cheapest plan of 2 actions costs 5 / (walk) / (ride)
check-loop l p q | l = {lamps} (control (always (eventually (on a))))) & p = {ab} & q = (press a) (press b) (repeat (off a) (press a)) | 0 | ; valid for ever
";

/// More bytes than any output of the rows has.
const ROOM: usize = 4_096;

/// More calls than any run of the rows makes.
const CALLS: u32 = 1_000;

/// A sink that takes over so many bytes at once, whose call `k` fails.
fn sink_of(alloc: Global, most: usize, k: u32) -> Result<MemorySink, Stop>
    requires { 1 ≤ most }
{
    let mut fails = Numbers::new(alloc);
    fails.push(k)?;
    Ok(MemorySink::new(alloc, ROOM, most, fails)?)
}

/// The status of a run of the row over the store, which has to write this text, or nothing where it
/// failed.
fn status_over<R: Abort>(
    rt: &R,
    alloc: Global,
    row: &str,
    text: &str,
    store: &mut MemoryStore,
) -> Result<u8, Stop> {
    let mut out = sink_of(alloc, ROOM, CALLS)?;
    let status = answer_to(alloc, column(row, 0), store, &mut out)?.number();
    let wanted = if status == 5 { "" } else { text };
    are_bytes(rt, out.held(), wanted.as_bytes(), row);
    Ok(status)
}

/// Runs the row over a store whose call `k` fails, and where it was made, again over the same
/// store. Whether it was made.
fn store_fails<R: Abort>(
    rt: &R,
    alloc: Global,
    row: &str,
    text: &str,
    k: u32,
) -> Result<bool, Stop> {
    let outside = format!(in alloc; "store 64 fails {k}")?;
    let mut store = store_of(alloc, column(row, 1), outside.as_str())?;
    let wanted = column(row, 2).parse::<u8>()?;
    let first = status_over(rt, alloc, row, text, &mut store)?;
    if first != 5 {
        is_true(rt, first == wanted, row);
        return Ok(false);
    }
    let second = status_over(rt, alloc, row, text, &mut store)?;
    is_true(rt, second == wanted, row);
    Ok(true)
}

/// The first so many bytes of a text, or all of them.
fn front(text: &str, bytes: usize) -> &[u8] {
    let all = text.as_bytes();
    if bytes < all.len() {
        &all[..bytes]
    } else {
        all
    }
}

/// Runs the row over a sink that takes over four bytes at once and whose call `k` fails. Whether
/// the call was made.
fn sink_fails<R: Abort>(
    rt: &R,
    alloc: Global,
    row: &str,
    text: &str,
    k: u16,
) -> Result<bool, Stop> {
    let mut store = store_of(alloc, column(row, 1), "")?;
    let mut out = sink_of(alloc, 4, u32::from(k))?;
    let status = answer_to(alloc, column(row, 0), &mut store, &mut out)?.number();
    are_bytes(rt, out.held(), front(text, 4 * usize::from(k)), row);
    Ok(status == 6)
}

/// Each call of the store fails once, until a run makes no such call.
fn store_fails_at_each_call<R: Abort>(rt: &R, alloc: Global, row: &str) -> Result<(), Stop> {
    let text = output_of(alloc, column(row, 3))?;
    for k in 0..CALLS {
        if !store_fails(rt, alloc, row, text.as_str(), k)? {
            return Ok(());
        }
    }
    Err(Stop::Row("every call of the store was made"))
}

/// Each call of the sink fails once, until a run makes no such call.
fn sink_fails_at_each_call<R: Abort>(rt: &R, alloc: Global, row: &str) -> Result<(), Stop> {
    let text = output_of(alloc, column(row, 3))?;
    for k in 0..1_000u16 {
        if !sink_fails(rt, alloc, row, text.as_str(), k)? {
            return Ok(());
        }
    }
    Err(Stop::Row("every call of the sink was made"))
}

#[test]
fn each_call_of_a_store_fails_once(rt: HostRuntime) -> Result<(), Stop> {
    for row in ROWS.lines() {
        if is_row(row) {
            store_fails_at_each_call(&rt, rt.alloc(), row)?;
        }
    }
    Ok(())
}

#[test]
fn each_call_of_a_sink_fails_once(rt: HostRuntime) -> Result<(), Stop> {
    for row in ROWS.lines() {
        if is_row(row) {
            sink_fails_at_each_call(&rt, rt.alloc(), row)?;
        }
    }
    Ok(())
}
