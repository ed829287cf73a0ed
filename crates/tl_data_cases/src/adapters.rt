// The adapters over the machine: a file is handed on whole, a fault is a fault, and what is said to
// be taken over was.

use crate::checks::{are_bytes, is_number, is_text, is_true};
use crate::stop::Stop;
use std::alloc::{AllocError, Global};
use std::cell::Cell;
use std::fmt::Display;
use std::fs;
use std::io::{self, ErrorKind};
use std::process::Abort;
use std::rt::Files;
use tl_outside::{Failed, FileStore, OutSink, ReadFault, Sink, Store, read_whole, write_whole};
use tl_syntax::Bytes;
use tl_tables::{column, is_row};

// The bytes of the long file: more than two pieces of 4,096. They tell one place from another.
fn long_text(alloc: Global) -> Result<Vec<u8>, AllocError> {
    let mut bytes = Vec::new(alloc);
    for place in 0..9_000u32 {
        bytes.push((place % 251) as u8)?;
    }
    Ok(bytes)
}

// What is read of a file, as a text: how many bytes, or why none.
fn read_text(alloc: Global, found: &Result<Bytes, ReadFault>) -> Result<String, AllocError> {
    match found {
        Ok(bytes) => format!(in alloc; "{}", bytes.len()),
        Err(ReadFault::Failed) => format!(in alloc; "failed"),
        Err(ReadFault::TooLong) => format!(in alloc; "too long"),
        Err(ReadFault::NoMemory) => format!(in alloc; "no memory"),
    }
}

// Compares what is read of the file of a row. Where some bytes come, they are those of `long`.
fn is_read<R: Abort, S: Store>(
    rt: &R,
    alloc: Global,
    store: &mut S,
    long: &[u8],
    row: &str,
) -> Result<(), Stop> {
    let limit = column(row, 1).parse::<u16>()?;
    let found = read_whole(alloc, store, column(row, 0), usize::from(limit));
    if let Ok(bytes) = &found {
        is_true(rt, bytes.is_empty() || bytes.as_slice() == long, row);
    }
    is_text(rt, read_text(alloc, &found)?.as_str(), column(row, 2), row);
    Ok(())
}

// The files that are read: one of several pieces, an empty one, and a folder.
fn make_files<R: Files>(rt: &R, long: &[u8]) -> Result<(), Stop> {
    fs::write(rt, "long", long)?;
    fs::write(rt, "empty", b"")?;
    fs::create_dir(rt, "folder")?;
    Ok(())
}

// Rows of the name of a file, a limit, and how many bytes are read, or why none are: a file of
// several pieces comes whole, a folder and a name that is not there are faults. A good file is read
// after each fault, by the same store.
const READS: &str = "
long | 9000 | 9000
long | 8999 | too long
empty | 0 | 0
folder | 9000 | failed
empty | 9000 | 0
missing | 9000 | failed
long | 9000 | 9000
";

#[test]
fn files_of_the_machine_are_read_whole(rt: HostRuntime) -> Result<(), Stop> {
    let long = long_text(rt.alloc())?;
    make_files(&rt, long.as_slice())?;
    let mut store = FileStore::new(&rt);
    for row in READS.lines() {
        if is_row(row) {
            is_read(&rt, rt.alloc(), &mut store, long.as_slice(), row)?;
        }
    }
    Ok(())
}

// An output that takes at most so many bytes of each call, or fails in each, and keeps the first 16
// that came.
#[derive(Drop)]
struct Output {
    most: usize,
    fails: bool,
    held: Cell<[u8; 16]>,
    used: Cell<usize>,
}

impl Output {
    fn new(most: usize, fails: bool) -> Output {
        Output {
            most,
            fails,
            held: Cell::new([0; 16]),
            used: Cell::new(0),
        }
    }

    fn hold(&self, bytes: &[u8]) {
        let mut held = self.held.get();
        for byte in bytes {
            let used = self.used.get();
            if let Some(place) = held.get_mut(used) {
                *place = *byte;
            }
            self.used.set(used.saturating_add(1));
        }
        self.held.set(held);
    }
}

impl Print for Output {
    fn print<D: Display + Drop>(&self, _value: D) -> io::Result<()> {
        Err(io::Error::from(ErrorKind::Unsupported))
    }

    fn println<D: Display + Drop>(&self, _value: D) -> io::Result<()> {
        Err(io::Error::from(ErrorKind::Unsupported))
    }

    fn write_all(&self, _bytes: &[u8]) -> io::Result<()> {
        Err(io::Error::from(ErrorKind::Unsupported))
    }

    fn write_some(&self, bytes: &[u8]) -> io::Result<usize> {
        if self.fails {
            return Err(io::Error::from(ErrorKind::BrokenPipe));
        }
        let count = bytes.len().min(self.most);
        self.hold(&bytes[..count]);
        Ok(count)
    }
}

// Compares the answer of one call of `put` for a piece, and what came at the output.
fn is_put<R: Abort>(
    rt: &R,
    output: &Output,
    piece: &str,
    answer: Result<usize, Failed>,
    came: [u8; 16],
) {
    let mut sink = OutSink::new(output);
    is_true(rt, sink.put(piece.as_bytes()) == answer, piece);
    are_bytes(rt, &output.held.get(), &came, piece);
}

// A short write is answered as short, and a write that fails or takes nothing of some bytes is a
// fault.
#[test]
fn one_put_is_one_write(rt: HostRuntime) {
    for (piece, most, fails, answer, came) in [
        ("an answer\n", 16, false, Ok(10), b"an answer\n\0\0\0\0\0\0"),
        (
            "an answer\n",
            3,
            false,
            Ok(3),
            b"an \0\0\0\0\0\0\0\0\0\0\0\0\0",
        ),
        ("an answer\n", 0, false, Err(Failed), &[0; 16]),
        ("an answer\n", 16, true, Err(Failed), &[0; 16]),
        ("", 0, false, Ok(0), &[0; 16]),
    ] {
        is_put(&rt, &Output::new(most, fails), piece, answer, *came);
    }
}

// A whole answer comes at an output that takes three bytes at once, each byte once.
#[test]
fn a_whole_answer_is_written_in_parts(rt: HostRuntime) {
    let output = Output::new(3, false);
    let mut sink = OutSink::new(&output);
    is_true(
        &rt,
        write_whole(&mut sink, b"an answer\n").is_ok(),
        "the whole answer",
    );
    is_number(&rt, output.used.get(), 10, "how many bytes came");
    are_bytes(
        &rt,
        &output.held.get(),
        b"an answer\n\0\0\0\0\0\0",
        "the bytes that came",
    );
}

// Standard output itself takes bytes over.
#[test]
fn standard_output_takes_bytes_over(rt: HostRuntime) {
    let mut sink = OutSink::new(&rt);
    is_true(
        &rt,
        write_whole(&mut sink, b"an answer\n").is_ok(),
        "the whole answer",
    );
}
