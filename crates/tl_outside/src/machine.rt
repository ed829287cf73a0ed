// What calls of the machine come to.
ghost use Rattle.std.specs.Prelude.{◌≡◌, ◌⊎◌, ◌↔◌, ◌<◌, IsErr, MatchResult};

use crate::Failed;
use std::io;

/// How many bytes a read of a file gave, 0 at its end, or that it failed, also where earlier reads
/// gave bytes.
pub(crate) fn bytes_read(read: io::Result<usize>) -> Result<usize, Failed>
    ensures { MatchResult read (λ count. result ≡ Ok count) (λ error. IsErr result) }
{
    match read {
        Ok(count) => Ok(count),
        Err(_) => Err(Failed),
    }
}

/// How many of so many bytes a write took over, or that it failed. To take over none of some is to
/// fail.
pub(crate) fn bytes_written(written: io::Result<usize>, len: usize) -> Result<usize, Failed>
    ensures count { MatchResult written (λ count. (result ≡ Ok count) ⊎ IsErr result) (λ error. IsErr result) }
    ensures fails { MatchResult written (λ count. IsErr result ↔ (count ≡ 0) × (0 < len)) (λ error. IsErr result) }
{
    match written {
        Ok(count) if count > 0 || len == 0 => Ok(count),
        _ => Err(Failed),
    }
}
