// What answers are written to.
ghost use Rattle.std.specs.Prelude.{◌≡◌, ℕ, ◌<◌, ◌≤◌, List, [], ◌∷◌, Option, None, length, take, IfOk, OnErr};
ghost use Rattle.std.specs.Io.{WritesAtMost};
ghost use Rattle.std.specs.Io.KnownBytes.{append_known};
ghost use Rattle.tl_outside.specs.Causes.{HasCause};
ghost use Rattle.tl_outside.specs.Puts.{Put, put_of, with_puts};

use crate::Failed;

/// Something that takes bytes over. No call takes memory.
pub trait Sink {
    /// The bytes taken over, where they are told.
    ghost bytes: { Self → Option (List ℕ) };

    /// The calls of `put` in their order, where they are told. A sink that leaves this out does not
    /// tell them.
    ghost puts: { Self → Option (List Put) } = { λ _. None };

    /// How often the sink has failed.
    ghost faults: { Self → ℕ };

    /// Takes over bytes from the front of the piece, and answers how many.
    fn put(&mut self, piece: &[u8]) -> Result<usize, Failed>
        ensures bound { WritesAtMost result piece.now }
        ensures some { IfOk result (λ n. 0 < length piece.now → 1 ≤ n) }
        ensures bytes { IfOk result (λ n. bytes self.new ≡ append_known (bytes self.old) (take n piece.now)) }
        ensures bytes_err { OnErr result (bytes self.new ≡ bytes self.old) }
        ensures puts { puts self.new ≡ with_puts (puts self.old) (put_of piece.now result ∷ []) }
        ensures cause { HasCause (faults self.old) (faults self.new) result };
}
