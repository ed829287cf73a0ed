// Files and answers in memory, with calls that fail by their number.
ghost use Rattle.std.specs.Prelude.{◌≡◌, ◌≤◌, ◌+◌, ◌^◌, length, true};
ghost use Rattle.tl_outside.specs.MemoryStore.{has_chosen, taken_of};

use crate::checks::{are_bytes, is_text, is_true};
use crate::stop::Stop;
use std::alloc::{AllocError, Global};
use std::process::Abort;
use tl_outside::{
    Failed, FileList, MemorySink, MemoryStore, Numbers, ReadFault, Sink, Store, read_whole,
    write_whole,
};
use tl_syntax::Bytes;
use tl_tables::{column, filled, is_row};

/// The list of one number.
fn one_number(alloc: Global, number: u32) -> Result<Numbers, AllocError> {
    let mut numbers = Numbers::new(alloc);
    numbers.push(number)?;
    Ok(numbers)
}

/// The files of all rows. Under a name that comes twice, a store has the first file.
///
/// `text` has 75 bytes. Where one `take` gives at most 64, two calls give all of them, and a third
/// none.
fn files(alloc: Global) -> Result<FileList, Stop> {
    let mut files = FileList::new(alloc);
    files.add("a", b"one")?;
    files.add("b", b"")?;
    files.add("text", TEXT.as_bytes())?;
    files.add("a", b"two")?;
    Ok(files)
}

const TEXT: &str = "The quick brown fox jumps over the lazy dog, and the dog sleeps on and on.\n";

/// What the bytes of a file are, as a text.
fn bytes_text(alloc: Global, bytes: &[u8]) -> Result<String, Stop> {
    if bytes == TEXT.as_bytes() {
        return Ok(String::from_str(alloc, "the text")?);
    }
    Ok(String::from_str(alloc, std::str::from_utf8(bytes)?)?)
}

/// What is read of a file, as a text.
fn read_text(alloc: Global, found: &Result<Bytes, ReadFault>) -> Result<String, Stop> {
    match found {
        Ok(bytes) => bytes_text(alloc, bytes.as_slice()),
        Err(ReadFault::Failed) => Ok(String::from_str(alloc, "failed")?),
        Err(ReadFault::TooLong) => Ok(String::from_str(alloc, "too long")?),
        Err(ReadFault::NoMemory) => Ok(String::from_str(alloc, "no memory")?),
    }
}

/// A store of the files, which gives at most 64 bytes at once, and of whose calls one fails.
fn store_of(alloc: Global, fail: u32) -> Result<MemoryStore, Stop> {
    let fails = one_number(alloc, fail)?;
    let files = files(alloc)?;
    Ok(MemoryStore::new(files, 64, fails))
}

/// What such a store gives of a file.
fn found_in(
    alloc: Global,
    name: &str,
    limit: u16,
    fail: u32,
) -> Result<Result<Bytes, ReadFault>, Stop> {
    let mut store = store_of(alloc, fail)?;
    Ok(read_whole(alloc, &mut store, name, usize::from(limit)))
}

/// Compares what is read of the file of a row.
fn is_read<R: Abort>(rt: &R, alloc: Global, row: &str) -> Result<(), Stop> {
    let limit = column(row, 1).parse::<u16>()?;
    let fail = column(row, 2).parse::<u32>()?;
    let found = found_in(alloc, column(row, 0), limit, fail)?;
    let text = read_text(alloc, &found)?;
    is_text(rt, text.as_str(), column(row, 3), row);
    Ok(())
}

/// Rows of the name of a file, a limit, the number of the call that fails, and what is read. Call 0
/// is `begin`, and the calls after it are `take`.
const READS: &str = "
a | 100 | 4 | one
b | 100 | 4 | -
b | 0 | 4 | -
- | 100 | 4 | failed
ab | 100 | 4 | failed
text | 76 | 4 | the text
text | 75 | 4 | the text
text | 74 | 4 | too long
text | 0 | 4 | too long
text | 75 | 0 | failed
text | 75 | 1 | failed
text | 75 | 2 | failed
text | 75 | 3 | failed
text | 74 | 3 | too long
other | 75 | 4 | failed
";

#[test]
fn whole_files_are_read(rt: HostRuntime) -> Result<(), Stop> {
    for row in READS.lines() {
        if is_row(row) {
            is_read(&rt, rt.alloc(), row)?;
        }
    }
    Ok(())
}

/// A store of a file of seven bytes, which gives at most four at once, and whose calls 0, 1 and 4
/// fail.
fn seven_bytes(alloc: Global) -> Result<MemoryStore, Stop> {
    let mut files = FileList::new(alloc);
    files.add("a", b"seven..")?;
    let mut fails = Numbers::new(alloc);
    for number in [0, 1, 4] {
        fails.push(number)?;
    }
    Ok(MemoryStore::new(files, 4, fails))
}

/// Compares the answer of one `take`: how many bytes come, or none where it fails.
fn takes<R: Abort>(rt: &R, store: &mut MemoryStore, room: &mut [u8], count: Option<usize>)
    requires chosen { has_chosen store.old ≡ true }
    requires few { taken_of store.old + length room.old ≤ 2 ^ 62 }
    ensures chosen { has_chosen store.new ≡ true }
    ensures taken { taken_of store.new ≤ taken_of store.old + length room.old }
{
    assert_eq!(rt; store.take(room).ok(), count);
}

/// Compares the answers of calls 3 to 7, and the room after the first bytes and after the last but
/// one.
fn takes_all<R: Abort>(rt: &R, store: &mut MemoryStore)
    requires chosen { has_chosen store.old ≡ true }
    requires none { taken_of store.old ≡ 0 }
{
    let mut room = [0; 6];
    takes(rt, store, &mut room, Some(4));
    are_bytes(rt, &room, b"seve\0\0", "call 3");
    takes(rt, store, &mut room, None);
    takes(rt, store, &mut room[..2], Some(2));
    are_bytes(rt, &room, b"n.ve\0\0", "call 5");
    takes(rt, store, &mut room, Some(1));
    takes(rt, store, &mut room, Some(0));
}

// The name of call 0 is not there, so its failure is no fault.
#[test]
fn a_store_numbers_its_calls(rt: HostRuntime) -> Result<(), Stop> {
    let mut store = seven_bytes(rt.alloc())?;
    is_true(&rt, store.begin("b").is_err(), "call 0");
    is_true(&rt, store.begin("a").is_err(), "call 1");
    match store.begin("a") {
        Ok(()) => takes_all(&rt, &mut store),
        Err(Failed) => return Err(Stop::Row("call 2 failed")),
    }
    Ok(())
}

/// Compares what is written of `ten bytes.` to a sink, and what it holds then.
fn holds<R: Abort>(rt: &R, sink: &mut MemorySink, answer: &str, held: &str, row: &str) {
    let all = write_whole(sink, b"ten bytes.").is_ok();
    is_true(rt, all == (answer == "ok"), row);
    are_bytes(rt, sink.held(), held.as_bytes(), row);
}

/// A sink of this room, which takes over four bytes at once, and of whose calls one fails.
fn sink_of(alloc: Global, room: u16, fail: u32) -> Result<MemorySink, Stop> {
    let fails = one_number(alloc, fail)?;
    Ok(MemorySink::new(alloc, usize::from(room), 4, fails)?)
}

/// Compares what is written for a row.
fn is_written<R: Abort>(rt: &R, alloc: Global, row: &str) -> Result<(), Stop> {
    let room = column(row, 0).parse::<u16>()?;
    let fail = column(row, 1).parse::<u32>()?;
    let held = filled(alloc, column(row, 3), "")?;
    let mut sink = sink_of(alloc, room, fail)?;
    holds(rt, &mut sink, column(row, 2), held.as_str(), row);
    Ok(())
}

/// Rows of the room of a sink that takes over four bytes at once, the number of the call that
/// fails, whether the answer is written, and what is held then.
const WRITES: &str = "
10 | 9 | ok | ten bytes.
20 | 9 | ok | ten bytes.
9 | 9 | failed | ten bytes
20 | 1 | failed | ten{1  }
20 | 0 | failed | -
";

#[test]
fn whole_answers_are_written(rt: HostRuntime) -> Result<(), Stop> {
    for row in WRITES.lines() {
        if is_row(row) {
            is_written(&rt, rt.alloc(), row)?;
        }
    }
    Ok(())
}

/// How many bytes a sink takes over, as a text.
fn taken_text(alloc: Global, taken: Result<usize, Failed>) -> Result<String, AllocError> {
    match taken {
        Ok(count) => format!(in alloc; "{count}"),
        Err(Failed) => format!(in alloc; "failed"),
    }
}

/// Compares how many bytes a sink takes over.
fn is_count<R: Abort>(
    rt: &R,
    alloc: Global,
    taken: Result<usize, Failed>,
    row: &str,
) -> Result<(), Stop> {
    let found = taken_text(alloc, taken)?;
    is_text(rt, found.as_str(), column(row, 1), row);
    Ok(())
}

/// Compares what a sink takes over of the piece of a row, and what it holds then.
fn is_taken<R: Abort>(rt: &R, alloc: Global, sink: &mut MemorySink, row: &str) -> Result<(), Stop> {
    let taken = sink.put(column(row, 0).as_bytes());
    is_count(rt, alloc, taken, row)?;
    are_bytes(rt, sink.held(), column(row, 2).as_bytes(), row);
    Ok(())
}

/// Rows of a piece, how many of its bytes a sink takes over, and what it holds then. The sink has
/// room for six bytes, takes over four at once, and its second call fails.
const PIECES: &str = "
front | 4 | fron
t | failed | fron
- | 0 | fron
t, back | 2 | front,
 back | failed | front,
- | 0 | front,
";

/// Goes over the rows with one sink.
fn are_taken<R: Abort>(rt: &R, alloc: Global, sink: &mut MemorySink) -> Result<(), Stop> {
    for row in PIECES.lines() {
        if is_row(row) {
            is_taken(rt, alloc, sink, row)?;
        }
    }
    Ok(())
}

#[test]
fn a_sink_fails_by_number_and_when_full(rt: HostRuntime) -> Result<(), Stop> {
    let mut sink = sink_of(rt.alloc(), 6, 1)?;
    are_taken(&rt, rt.alloc(), &mut sink)
}

/// A sink that takes over three bytes at once, notes whether it was given all that was left, and
/// fails from one call on.
#[derive(Drop)]
struct Recorder<'a> {
    left: &'a [u8],
    in_turn: bool,
    calls: u8,
    fails: u8,
    faults: u64,
}

impl<'a> Sink for Recorder<'a> {
    ghost use Rattle.std.specs.Prelude.{None};

    ghost bytes = { λ s. None };

    ghost faults = { λ s. s.faults };

    fn put(&mut self, piece: &[u8]) -> Result<usize, Failed> {
        let call = self.calls;
        self.calls = call.saturating_add(1);
        self.in_turn = self.in_turn && piece == self.left;
        if call >= self.fails {
            self.faults = self.faults.saturating_add(1);
            return Err(Failed);
        }
        let count = piece.len().min(3);
        self.left = self.left.get(count..).unwrap_or(&[]);
        Ok(count)
    }
}

/// Writes ten bytes to such a sink, and compares the answer and the number of calls.
fn is_given_all<R: Abort>(rt: &R, fails: u8, answer: Result<(), Failed>, calls: u8, row: &str) {
    let mut sink = Recorder {
        left: b"ten bytes.",
        in_turn: true,
        calls: 0,
        fails,
        faults: 0,
    };
    is_true(rt, write_whole(&mut sink, b"ten bytes.") == answer, row);
    is_true(rt, sink.in_turn, row);
    is_true(rt, sink.calls == calls, row);
}

#[test]
fn a_sink_is_given_all_that_is_left(rt: HostRuntime) {
    is_given_all(&rt, 9, Ok(()), 4, "no fault");
    is_given_all(&rt, 2, Err(Failed), 3, "a fault at call 2");
    is_given_all(&rt, 0, Err(Failed), 1, "a fault at call 0");
}
