// The files of the machine.
ghost use Rattle.std.specs.Prelude.{◌≡◌, None, is_some, false};

use crate::machine::bytes_read;
use crate::{Failed, Store};
use std::fs::File;
use std::io::Read;
use std::rt::Files;

/// The files of the machine, by their paths. It tells no content, and a file that cannot be opened
/// is a fault.
/// At most one file is open at a time: `begin` lets the last one go first.
#[derive(Drop)]
pub struct FileStore<'a, R: Files> {
    rt: &'a R,
    file: Option<R::File>,
    // How many bytes were taken since the last `begin`, for contracts alone.
    taken: u64,
    faults: u64,
}

impl<'a, R: Files> FileStore<'a, R> {
    /// A store of which no file is chosen yet.
    pub fn new(rt: &'a R) -> FileStore<'a, R>
        ensures files { ⟦<FileStore<'a, R> as Store>⟧.files result ≡ None }
        ensures chosen { ⟦<FileStore<'a, R> as Store>⟧.chosen result ≡ false }
        ensures faults { ⟦<FileStore<'a, R> as Store>⟧.faults result ≡ 0 }
    {
        FileStore {
            rt,
            file: None,
            taken: 0,
            faults: 0,
        }
    }
}

impl<'a, R: Files> Store for FileStore<'a, R> {
    ghost files = { λ s. None };

    ghost chosen = { λ s. is_some s.file };

    ghost whole = { λ s. None };

    ghost taken = { λ s. s.taken };

    ghost faults = { λ s. s.faults };

    fn begin(&mut self, name: &str) -> Result<(), Failed> {
        self.file = None;
        self.taken = 0;
        match File::open(self.rt, name) {
            Ok(file) => {
                self.file = Some(file);
                Ok(())
            }
            Err(_) => {
                self.faults = self.faults.saturating_add(1);
                Err(Failed)
            }
        }
    }

    fn take(&mut self, room: &mut [u8]) -> Result<usize, Failed> {
        let Some(file) = &mut self.file else {
            unreachable!();
        };
        match bytes_read(file.read(room)) {
            Ok(count) => {
                self.taken += count as u64;
                Ok(count)
            }
            Err(failed) => {
                self.faults = self.faults.saturating_add(1);
                Err(failed)
            }
        }
    }
}
