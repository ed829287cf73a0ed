//! The program `tlplan`: a run over the machine's files and standard output.
#![tactic(auto)]

ghost use Rattle.std.specs.Prelude.{◌≡◌, drop};

use std::io::ErrorKind;
use std::process::ExitCode;
use std::rt::{Env, Files};
use std::{env, io};
use tl_outside::{FileStore, OutSink};
use tl_run::{Status, run};

// The words of the command line, of which the first is the program's name.
fn all_words<R: Env + AllocGlobal>(rt: &R) -> io::Result<Vec<String>> {
    let mut words = Vec::new(rt.alloc());
    for word in env::args(rt)? {
        words.push(word)?;
    }
    Ok(words)
}

// The words after the program's name.
fn after_name(words: &[String]) -> &[String]
    ensures { result.now ≡ drop 1 words.now }
{
    match words.split_first() {
        Some((_, after)) => after,
        None => words,
    }
}

// Runs the command of the words.
fn status<R: Env + Files + Print + AllocGlobal>(rt: &R) -> Status {
    match all_words(rt) {
        Ok(words) => {
            let mut store = FileStore::new(rt);
            let mut out = OutSink::new(rt);
            run(rt.alloc(), after_name(&words), &mut store, &mut out)
        }
        Err(error) if error.kind() == ErrorKind::OutOfMemory => Status::NoMemory,
        Err(_) => Status::Usage,
    }
}

// The exit status is the number of the run's status. Where that is without a whole answer a line on
// standard error says so first; a fault of that write is ignored.
fn main(rt: HostRuntime) -> ExitCode {
    let status = status(&rt);
    if let Some(line) = status.complaint() {
        let _ = eprintln!(&rt; "{line}");
    }
    ExitCode::from(status.number())
}
