// One run: its words, the files by name, the status, the lines of the output, and which calls of
// the outside fail, as the README says.

use crate::checks::{are_bytes, is_true};
use crate::stop::Stop;
use std::alloc::Global;
use std::process::Abort;
use tl_outside::{FileList, MemorySink, MemoryStore, Numbers};
use tl_run::{Status, run};
use tl_tables::{column, filled, is_row};

/// The greatest length of a file, in bytes.
const MOST: usize = 4_194_304;

/// More bytes than any answer has.
const ROOM: usize = 65_536;

/// The one call of `run`.
fn run_once(
    alloc: Global,
    words: &[String],
    store: &mut MemoryStore,
    out: &mut MemorySink,
) -> Status {
    run(alloc, words, store, out)
}

/// The words of a text.
fn words_of(alloc: Global, text: &str) -> Result<Vec<String>, Stop> {
    let mut words = Vec::new(alloc);
    if !text.is_empty() {
        for word in text.split(' ') {
            words.push(String::from_str(alloc, word)?)?;
        }
    }
    Ok(words)
}

/// The files of a text. What braces stand for is put into their contents; `-` is an empty file.
fn files_of(alloc: Global, text: &str) -> Result<FileList, Stop> {
    let mut files = FileList::new(alloc);
    for file in text.split(" & ") {
        if let Some((name, content)) = file.split_once(" = ") {
            let content = filled(alloc, column(content, 0), "")?;
            files.add(name, content.as_bytes())?;
        }
    }
    Ok(files)
}

/// How many bytes one call of the store or of the sink gives or takes over, and the numbers of the
/// calls that fail.
#[derive(Drop)]
struct Script {
    most: usize,
    fails: Numbers,
}

/// Puts the numbers of some words into a script: the first is `most`, and the others are numbers of
/// calls.
fn put_numbers(words: &str, script: &mut Script) -> Result<(), Stop> {
    for (k, word) in words.split(' ').enumerate() {
        if let Ok(number) = word.parse::<u32>() {
            if k == 0 {
                script.most = number as usize;
            } else {
                script.fails.push(number)?;
            }
        }
    }
    Ok(())
}

/// The script of the store or of the sink. Where none is given, no call fails.
fn script_of(alloc: Global, who: &str, text: &str) -> Result<Script, Stop> {
    let mut script = Script {
        most: MOST,
        fails: Numbers::new(alloc),
    };
    for part in text.split(", ") {
        match part.split_once(' ') {
            Some((name, words)) if name == who => put_numbers(words, &mut script)?,
            _ => {}
        }
    }
    Ok(script)
}

/// The store of the files of a text.
pub(crate) fn store_of(alloc: Global, files: &str, outside: &str) -> Result<MemoryStore, Stop> {
    let script = script_of(alloc, "store", outside)?;
    let files = files_of(alloc, files)?;
    Ok(MemoryStore::new(files, script.most.max(1), script.fails))
}

/// A sink with room for every answer.
fn sink_of(alloc: Global, outside: &str) -> Result<MemorySink, Stop> {
    let script = script_of(alloc, "sink", outside)?;
    Ok(MemorySink::new(alloc, ROOM, script.most.max(1), script.fails)?)
}

/// The bytes of an output, by its lines.
pub(crate) fn output_of(alloc: Global, lines: &str) -> Result<String, Stop> {
    let mut out = String::new(alloc);
    if !lines.is_empty() {
        for line in lines.split(" / ") {
            match line.strip_suffix("..") {
                Some(front) => out.push_str(front)?,
                None => write!(out, "{line}\n")?,
            }
        }
    }
    Ok(out)
}

/// Runs the words of a text over a store and a sink.
pub(crate) fn answer_to(
    alloc: Global,
    words: &str,
    store: &mut MemoryStore,
    out: &mut MemorySink,
) -> Result<Status, Stop> {
    let words = words_of(alloc, words)?;
    Ok(run_once(alloc, words.as_slice(), store, out))
}

/// Compares a status with the number of a text.
fn has_number<R: Abort>(rt: &R, status: Status, number: &str, row: &str) -> Result<(), Stop> {
    is_true(rt, status.number() == number.parse::<u8>()?, row);
    Ok(())
}

/// Compares what a sink holds with the lines of a text.
fn has_lines<R: Abort>(
    rt: &R,
    alloc: Global,
    out: &MemorySink,
    lines: &str,
    row: &str,
) -> Result<(), Stop> {
    let wanted = output_of(alloc, lines)?;
    are_bytes(rt, out.held(), wanted.as_bytes(), row);
    Ok(())
}

/// Runs the words over the store, and compares the answer.
pub(crate) fn is_answered<R: Abort>(
    rt: &R,
    alloc: Global,
    line: &str,
    store: &mut MemoryStore,
    row: &str,
) -> Result<(), Stop> {
    let mut out = sink_of(alloc, column(line, 4))?;
    let status = answer_to(alloc, column(line, 0), store, &mut out)?;
    has_lines(rt, alloc, &out, column(line, 3), row)?;
    has_number(rt, status, column(line, 2), row)
}

/// Compares the answer for a row of a table.
pub(crate) fn is_run<R: Abort>(rt: &R, alloc: Global, form: &str, row: &str) -> Result<(), Stop> {
    let line = filled(alloc, form, row)?;
    let line = line.as_str();
    let mut store = store_of(alloc, column(line, 1), column(line, 4))?;
    is_answered(rt, alloc, line, &mut store, row)
}

/// The first row of a table, which says what the others stand for.
fn first_row(table: &str) -> &str {
    for row in table.lines() {
        if is_row(row) {
            return row;
        }
    }
    ""
}

/// Goes over the rows of a table that come after its first.
pub(crate) fn are_run<R: Abort>(rt: &R, alloc: Global, table: &str) -> Result<(), Stop> {
    let form = first_row(table);
    for row in table.lines() {
        if is_row(row) && row != form {
            is_run(rt, alloc, form, row)?;
        }
    }
    Ok(())
}
