// An answer as a whole.
ghost use Rattle.std.specs.Prelude.{◌≡◌, OnOk, is_ok};
ghost use Rattle.std.specs.Io.KnownBytes.{append_known};
ghost use Rattle.tl_outside.specs.Causes.{HasCause};
ghost use Rattle.tl_outside.specs.Puts.{WritesBy};
ghost use Rattle.tl_outside.specs.Told.{GrowsByPart};

use crate::{Failed, Sink};

/// Hands all of the bytes to the sink. Each `put` is given all that is left, and a failed one is
/// the last.
#[tactic(auto, using(crate::proofs::Front::append_known_more))]
pub fn write_whole<K: Sink>(out: &mut K, bytes: &[u8]) -> Result<(), Failed>
    ensures all { OnOk result (K.bytes out.new ≡ append_known (K.bytes out.old) bytes.now) }
    ensures part { GrowsByPart (K.bytes out.old) (K.bytes out.new) bytes.now }
    ensures puts { WritesBy (K.puts out.old) (K.puts out.new) bytes.now (is_ok result) }
    ensures cause { HasCause (K.faults out.old) (K.faults out.new) result }
{
    let mut done = 0;
    'puts: while done < bytes.len() {
        done += out.put(&bytes[done..])?;
    }
    Ok(())
}
