// A store in memory, with calls that fail by their number.
ghost use Rattle.std.specs.Prelude.{◌≡◌, ◌+◌, ◌^◌, ◌≤◌, ◌↔◌, ◌⊎◌, min, length, is_ok, true, false, IsTrue, IsErr, IfOk, OnOk, OnErr, Some};
ghost use Rattle.std.specs.Io.{ReadsAtMost};
ghost use Rattle.tl_outside.specs.Causes.{HasCause, Rose};
ghost use Rattle.tl_outside.specs.Told.{told_file, Lacks, GivesFrom};
ghost use Rattle.tl_outside.specs.FileList.{listed_files};
ghost use Rattle.tl_outside.specs.Chosen.{IsTakenWithin};
ghost use Rattle.tl_outside.specs.Script.{counted};

use crate::script::Script;
use crate::{Failed, FileList, Numbers, Store};

/// Files in memory. Calls of `begin` and `take` are numbered together from 0.
/// A `begin` of a name that is not there fails, and is no fault.
/// Every other call fails, as a fault, where its number is among those given.
#[derive(Drop)]
pub struct MemoryStore {
    files: FileList,
    most: usize,
    script: Script,
    // The place of the chosen file.
    chosen: Option<usize>,
    taken: usize,
    ghost some: { 1 ≤ most },
    ghost within: { IsTakenWithin files chosen taken },
}

impl MemoryStore {
    ghost use Rattle.tl_outside.specs.MemoryStore.{told_files, has_chosen, faults_of, most_of, fails_of, calls_of};

    /// A store of these files. One `take` gives at most `most` bytes, and the calls of the numbers
    /// in `fails` fail.
    pub fn new(files: FileList, most: usize, fails: Numbers) -> MemoryStore
        requires { 1 ≤ most }
        ensures files { told_files result ≡ Some (listed_files files) }
        ensures chosen { has_chosen result ≡ false }
        ensures faults { faults_of result ≡ 0 }
        ensures most { most_of result ≡ most }
        ensures fails { fails_of result ≡ fails }
        ensures calls { calls_of result ≡ 0 }
    {
        MemoryStore {
            files,
            most,
            script: Script::new(fails),
            chosen: None,
            taken: 0,
        }
    }
}

impl Store for MemoryStore {
    ghost use Rattle.tl_outside.specs.MemoryStore.{told_files, has_chosen, whole_of, taken_of, bytes_left, faults_of, most_of, fails_now, CountsCall};

    ghost files = { told_files };

    ghost chosen = { has_chosen };

    ghost whole = { whole_of };

    ghost taken = { taken_of };

    ghost faults = { faults_of };

    fn begin(&mut self, name: &str) -> Result<(), Failed>
        ensures chosen { has_chosen self.new ≡ is_ok result }
        ensures taken { OnOk result (taken_of self.new ≡ 0) }
        ensures whole { OnOk result (whole_of self.new ≡ told_file (told_files self.old) name.now) }
        ensures lacks { Lacks (told_files self.old) name.now → IsErr result × (faults_of self.new ≡ faults_of self.old) }
        ensures files { told_files self.new ≡ told_files self.old }
        ensures later { faults_of self.old ≤ faults_of self.new }
        ensures failed { OnErr result (Lacks (told_files self.old) name.now ⊎ Rose (faults_of self.old) (faults_of self.new)) }

        // Exactly when it fails, and what it counts.
        ensures exact { IsErr result ↔ Lacks (told_files self.old) name.now ⊎ IsTrue (fails_now self.old) }
        ensures steady { OnOk result (faults_of self.new ≡ faults_of self.old) }
        ensures fault { OnErr result (Lacks (told_files self.old) name.now ⊎ (faults_of self.new ≡ counted (faults_of self.old))) }
        ensures counts { CountsCall self.old self.new }
    {
        let fails = self.script.call();
        self.chosen = None;
        self.taken = 0;
        let Some(index) = self.files.place(name) else {
            return Err(Failed);
        };
        if fails {
            self.script.fault();
            return Err(Failed);
        }
        self.chosen = Some(index);
        Ok(())
    }

    fn take(&mut self, room: &mut [u8]) -> Result<usize, Failed>
        requires chosen { has_chosen self.old ≡ true }
        requires few { taken_of self.old + length room.old ≤ 2 ^ 62 }
        ensures bound { ReadsAtMost result room.new }
        ensures taken { IfOk result (λ n. taken_of self.new ≡ taken_of self.old + n) }
        ensures taken_err { OnErr result (taken_of self.new ≡ taken_of self.old) }
        ensures bytes { IfOk result (λ n. GivesFrom (whole_of self.old) (taken_of self.old) n room.new) }
        ensures files { told_files self.new ≡ told_files self.old }
        ensures chosen { has_chosen self.new ≡ has_chosen self.old }
        ensures whole { whole_of self.new ≡ whole_of self.old }
        ensures cause { HasCause (faults_of self.old) (faults_of self.new) result }

        // Exactly how many bytes, when it fails, and what it counts.
        ensures count { IfOk result (λ n. n ≡ min (min (bytes_left self.old) (most_of self.old)) (length room.old)) }
        ensures exact { IsErr result ↔ IsTrue (fails_now self.old) }
        ensures steady { OnOk result (faults_of self.new ≡ faults_of self.old) }
        ensures fault { OnErr result (faults_of self.new ≡ counted (faults_of self.old)) }
        ensures counts { CountsCall self.old self.new }
    {
        if self.script.call() {
            self.script.fault();
            return Err(Failed);
        }
        let whole = self.files.bytes(self.chosen.unwrap());
        let left = &whole[self.taken..];
        let count = left.len().min(self.most).min(room.len());
        room[..count].copy_from_slice(&left[..count]);
        self.taken += count;
        Ok(count)
    }
}
