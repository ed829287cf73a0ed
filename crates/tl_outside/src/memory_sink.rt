// A sink in memory, with calls that fail by their number.
ghost use Rattle.std.specs.Prelude.{◌≡◌, ◌<◌, ◌≤◌, ◌↔◌, ◌⊎◌, [], min, length, take, IsTrue, IsErr, IfOk, OnOk, OnErr, Some};
ghost use Rattle.std.specs.Io.{WritesAtMost};
ghost use Rattle.std.specs.Io.KnownBytes.{append_known};
ghost use Rattle.tl_outside.specs.Causes.{HasCause};
ghost use Rattle.tl_outside.specs.Script.{counted};

use crate::script::Script;
use crate::{Failed, Numbers, Sink};
use std::alloc::Global;
use tl_syntax::NoMemory;

/// Room in memory for bytes. Calls of `put` are numbered from 0.
/// A call fails, as a fault, where its number is among those given, or where bytes come and no room
/// is left.
#[derive(Drop)]
pub struct MemorySink {
    // All the room, of which the first `used` bytes are those taken over.
    held: Vec<u8>,
    used: usize,
    most: usize,
    script: Script,
    ghost some: { 1 ≤ most },
    ghost within: { used ≤ length held.items },
}

impl MemorySink {
    ghost use Rattle.tl_outside.specs.MemorySink.{told_bytes, faults_of, room_of, most_of, fails_of, calls_of};

    /// A sink with room for so many bytes, which it reserves.
    /// One `put` takes over at most `most` bytes, and the calls of the numbers in `fails` fail.
    pub fn new(
        alloc: Global,
        room: usize,
        most: usize,
        fails: Numbers,
    ) -> Result<MemorySink, NoMemory>
        requires { 1 ≤ most }
        ensures bytes { IfOk result (λ sink. told_bytes sink ≡ Some []) }
        ensures faults { IfOk result (λ sink. faults_of sink ≡ 0) }
        ensures room { IfOk result (λ sink. room_of sink ≡ room) }
        ensures most { IfOk result (λ sink. most_of sink ≡ most) }
        ensures fails { IfOk result (λ sink. fails_of sink ≡ fails) }
        ensures calls { IfOk result (λ sink. calls_of sink ≡ 0) }
    {
        let held = vec![in alloc; 0; room]?;
        Ok(MemorySink {
            held,
            used: 0,
            most,
            script: Script::new(fails),
        })
    }

    /// The bytes taken over so far.
    pub fn held(&self) -> &[u8]
        ensures bytes { told_bytes self.now ≡ Some result.now }
        ensures within { length result.now ≤ room_of self.now }
    {
        &self.held[..self.used]
    }
}

impl Sink for MemorySink {
    ghost use Rattle.tl_outside.specs.MemorySink.{told_bytes, faults_of, free_of, most_of, fails_now, CountsCall};

    ghost bytes = { told_bytes };

    ghost faults = { faults_of };

    fn put(&mut self, piece: &[u8]) -> Result<usize, Failed>
        ensures bound { WritesAtMost result piece.now }
        ensures some { IfOk result (λ n. 0 < length piece.now → 1 ≤ n) }
        ensures bytes { IfOk result (λ n. told_bytes self.new ≡ append_known (told_bytes self.old) (take n piece.now)) }
        ensures bytes_err { OnErr result (told_bytes self.new ≡ told_bytes self.old) }
        ensures cause { HasCause (faults_of self.old) (faults_of self.new) result }

        // Exactly how many bytes, when it fails, and what it counts.
        ensures count { IfOk result (λ n. n ≡ min (min (length piece.now) (most_of self.old)) (free_of self.old)) }
        ensures exact { IsErr result ↔ IsTrue (fails_now self.old) ⊎ ((free_of self.old ≡ 0) × (0 < length piece.now)) }
        ensures steady { OnOk result (faults_of self.new ≡ faults_of self.old) }
        ensures fault { OnErr result (faults_of self.new ≡ counted (faults_of self.old)) }
        ensures counts { CountsCall self.old self.new }
    {
        let free = self.held.len() - self.used;
        if self.script.call() || (free == 0 && piece.len() > 0) {
            self.script.fault();
            return Err(Failed);
        }
        let count = piece.len().min(self.most).min(free);
        let end = self.used + count;
        self.held[self.used..end].copy_from_slice(&piece[..count]);
        self.used = end;
        Ok(count)
    }
}
