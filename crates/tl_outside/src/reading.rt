// A file as a whole.
ghost use Rattle.std.specs.Prelude.{◌≡◌, ◌+◌, ◌^◌, ◌<◌, ◌≤◌, length, IfOk, IsErrOf, ◌⊎◌};
ghost use Rattle.tl_outside.specs.Calls.{ReadsBy, has_failed};
ghost use Rattle.tl_outside.specs.Causes.{Rose};
ghost use Rattle.tl_outside.specs.Told.{Lacks, IsContent, IsLonger};
ghost use Rattle.tl_outside.specs.declared.reading.ReadFault.TheVariants as fault;

use crate::{Failed, Store};
use std::alloc::{AllocError, Global};
use tl_syntax::Bytes;

/// Why a file was not read.
#[derive(Clone, Copy, PartialEq, Eq)]
pub enum ReadFault {
    /// A call of the store failed: the file is not there, or the store counted a fault.
    Failed,
    /// The file has more bytes than the limit.
    TooLong,
    /// Want of memory for the bytes.
    NoMemory,
}

impl From<Failed> for ReadFault {
    ghost from_gives = { λ _ e. e ≡ fault.Failed };

    fn from(_: Failed) -> Self {
        ReadFault::Failed
    }
}

impl From<AllocError> for ReadFault {
    ghost from_gives = { λ _ e. e ≡ fault.NoMemory };

    fn from(_: AllocError) -> Self {
        ReadFault::NoMemory
    }
}

// How many bytes one call of `take` has room for at most.
const PIECE: usize = 4096;

/// The bytes of the file of this name, of which there may be as many as the limit says.
pub fn read_whole<S: Store>(
    alloc: Global,
    store: &mut S,
    name: &str,
    limit: usize,
) -> Result<Bytes, ReadFault>
    requires { limit < 2 ^ 62 }
    ensures content { IfOk result (λ bytes. IsContent (S.files store.old) name.now bytes) }
    ensures count { IfOk result (λ bytes. (length bytes ≡ S.taken store.new) × (length bytes ≤ limit)) }
    ensures too_long { IsErrOf result ReadFault.TooLong → (S.taken store.new ≡ limit + 1)
        × IsLonger (S.files store.old) name.now limit }
    ensures failed { IsErrOf result ReadFault.Failed
        → Lacks (S.files store.old) name.now ⊎ Rose (S.faults store.old) (S.faults store.new) }
    ensures files { S.files store.new ≡ S.files store.old }
    ensures calls { ReadsBy (S.calls store.old) (S.calls store.new) name.now limit (has_failed result) }
    ensures later { S.faults store.old ≤ S.faults store.new }
{
    store.begin(name)?;
    let mut bytes = Bytes::new(alloc);
    let mut room = [0; PIECE];
    'takes: while bytes.len() <= limit {
        let want = room.len().min(limit + 1 - bytes.len());
        let piece = &mut room[..want];
        let count = store.take(piece)?;
        if count == 0 {
            return Ok(bytes);
        }
        bytes.extend(&piece[..count])?;
    }
    Err(ReadFault::TooLong)
}
