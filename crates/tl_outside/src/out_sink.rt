// The standard output of the machine.
ghost use Rattle.std.specs.Prelude.{◌≡◌, None};

use crate::machine::bytes_written;
use crate::{Failed, Sink};

/// The standard output of the machine. It tells no bytes, and a call that takes over nothing of
/// some bytes is a fault.
#[derive(Drop)]
pub struct OutSink<'a, R: Print> {
    rt: &'a R,
    faults: u64,
}

impl<'a, R: Print> OutSink<'a, R> {
    /// A sink that has not failed yet.
    pub fn new(rt: &'a R) -> OutSink<'a, R>
        ensures bytes { ⟦<OutSink<'a, R> as Sink>⟧.bytes result ≡ None }
        ensures faults { ⟦<OutSink<'a, R> as Sink>⟧.faults result ≡ 0 }
    {
        OutSink { rt, faults: 0 }
    }
}

impl<'a, R: Print> Sink for OutSink<'a, R> {
    ghost bytes = { λ s. None };

    ghost faults = { λ s. s.faults };

    fn put(&mut self, piece: &[u8]) -> Result<usize, Failed> {
        let taken = bytes_written(self.rt.write_some(piece), piece.len());
        if taken.is_err() {
            self.faults = self.faults.saturating_add(1);
        }
        taken
    }
}
