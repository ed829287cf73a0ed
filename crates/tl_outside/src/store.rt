// What files are read from.
ghost use Rattle.std.specs.Prelude.{◌≡◌, ℕ, ◌+◌, ◌^◌, ◌≤◌, List, [], ◌∷◌, Bool, true, Option, None, length, is_ok, IsErr, IfOk, OnOk, OnErr, ◌⊎◌};
ghost use Rattle.std.specs.Io.{ReadsAtMost};
ghost use Rattle.tl_outside.specs.Calls.{Call, begin_of, take_of, with_calls};
ghost use Rattle.tl_outside.specs.Causes.{Rose, HasCause};
ghost use Rattle.tl_outside.specs.Told.{Files, told_file, Lacks, GivesFrom};

use crate::Failed;

/// Files by name, one of which is chosen and read from its front on. No call takes memory.
pub trait Store {
    /// The files, where they are told.
    ghost files: { Self → Option Files };

    /// Whether a file is chosen.
    ghost chosen: { Self → Bool };

    /// The bytes of the chosen file, where the files are told.
    ghost whole: { Self → Option (List ℕ) };

    /// How many bytes were taken since the last `begin`.
    ghost taken: { Self → ℕ };

    /// The calls in their order, where they are told. A store that leaves this out does not tell
    /// them.
    ghost calls: { Self → Option (List Call) } = { λ _. None };

    /// How often the store has failed.
    ghost faults: { Self → ℕ };

    /// Chooses the file of this name, of which nothing is taken yet. After a failed call no file is
    /// chosen.
    /// A name that a told store lacks is no fault of the store.
    fn begin(&mut self, name: &str) -> Result<(), Failed>
        ensures chosen { chosen self.new ≡ is_ok result }
        ensures taken { OnOk result (taken self.new ≡ 0) }
        ensures whole { OnOk result (whole self.new ≡ told_file (files self.old) name.now) }
        ensures lacks { Lacks (files self.old) name.now → IsErr result × (faults self.new ≡ faults self.old) }
        ensures files { files self.new ≡ files self.old }
        ensures calls { calls self.new ≡ with_calls (calls self.old) (begin_of name.now result ∷ []) }
        ensures later { faults self.old ≤ faults self.new }
        ensures failed { OnErr result (Lacks (files self.old) name.now ⊎ Rose (faults self.old) (faults self.new)) };

    /// Puts the next bytes of the chosen file at the front of the room, and answers how many.
    /// For a room that is not empty, 0 is the end of the file.
    fn take(&mut self, room: &mut [u8]) -> Result<usize, Failed>
        requires chosen { chosen self.old ≡ true }
        requires few { taken self.old + length room.old ≤ 2 ^ 62 }
        ensures bound { ReadsAtMost result room.new }
        ensures taken { IfOk result (λ n. taken self.new ≡ taken self.old + n) }
        ensures taken_err { OnErr result (taken self.new ≡ taken self.old) }
        ensures bytes { IfOk result (λ n. GivesFrom (whole self.old) (taken self.old) n room.new) }
        ensures files { files self.new ≡ files self.old }
        ensures chosen { chosen self.new ≡ chosen self.old }
        ensures calls { calls self.new ≡ with_calls (calls self.old) (take_of result ∷ []) }
        ensures whole { whole self.new ≡ whole self.old }
        ensures cause { HasCause (faults self.old) (faults self.new) result };
}
