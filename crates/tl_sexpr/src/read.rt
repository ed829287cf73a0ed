// The forms that bytes spell.
ghost use Rattle.std.specs.Prelude.{◌≡◌, ◌+◌, ◌<◌, ◌≤◌, ◌⊎◌, length, IfOk, IfErr, IsErrAnd, MatchResult};
ghost use Rattle.tl_sexpr.specs.declared.fault.TextFault.{TextFault};
ghost use Rattle.tl_sexpr.specs.Faults.{IsFaultOf};
ghost use Rattle.tl_sexpr.specs.Reading.{IsRead};
ghost use Rattle.tl_sexpr.specs.Spelling.{Spells, symbols_in_all};
ghost use Rattle.tl_sexpr.specs.Tree.{FormTrees, trees_of};

use crate::reader::{MOST_LISTS, Reader};
use crate::scan::{comment_end, is_blank, is_token_byte, token_end};
use crate::token::form_of_token;
use crate::{Forms, TextFault};
use std::alloc::Global;

/// Reads on from this offset, and tells the next one.
fn read_next(
    alloc: Global,
    bytes: &[u8],
    at: usize,
    reader: &mut Reader,
) -> Result<usize, TextFault>
    requires within { at < length bytes.now }
    requires small { length bytes.now ≤ 4194304 }
    requires read { IsRead bytes.now reader.old at }
    ensures onward { IfOk result (λ next. at < next) }
    ensures bounded { IfOk result (λ next. next ≤ length bytes.now) }
    ensures read { IfOk result (λ next. IsRead bytes.now reader.new next) }
    ensures fault { IfErr result (λ fault. (fault ≡ TextFault.NoMemory) ⊎ IsFaultOf bytes.now fault) }
{
    let offset = at as u32;
    match bytes[at] {
        blank if is_blank(blank) => Ok(at + 1),
        b';' => Ok(comment_end(bytes, at)),
        b'(' => {
            if reader.depth() >= MOST_LISTS {
                return Err(TextFault::TooDeep(offset));
            }
            reader.open_list(alloc, offset)?;
            Ok(at + 1)
        }
        b')' => {
            reader.close_list(offset)?;
            Ok(at + 1)
        }
        byte if is_token_byte(byte) => {
            let end = token_end(bytes, at);
            reader.add(form_of_token(alloc, &bytes[at..end], offset)?)?;
            Ok(end)
        }
        _ => Err(TextFault::BadByte(offset)),
    }
}

/// The forms that the bytes spell, or the fault for which they spell none.
pub fn read_forms(alloc: Global, bytes: &[u8]) -> Result<Forms, TextFault>
    requires small { length bytes.now ≤ 4194304 }
    ensures spelled { IfOk result (λ forms. Spells bytes.now (trees_of forms)) }
    ensures few_symbols { IfOk result (λ forms. symbols_in_all (trees_of forms) ≤ length bytes.now) }
    ensures fault { IfErr result (λ fault. (fault ≡ TextFault.NoMemory) ⊎ IsFaultOf bytes.now fault) }

    // Where the bytes spell forms or have a fault, nothing else is answered unless memory runs out.
    ensures reads { (forms : FormTrees) → Spells bytes.now forms
        → MatchResult result (λ read. trees_of read ≡ forms) (λ fault. fault ≡ TextFault.NoMemory) }
    ensures refuses { (fault : TextFault) → IsFaultOf bytes.now fault
        → IsErrAnd result (λ told. (told ≡ fault) ⊎ (told ≡ TextFault.NoMemory)) }
{
    let mut reader = Reader::new(alloc);
    let mut at = 0;
    while at < bytes.len() {
        at = read_next(alloc, bytes, at, &mut reader)?;
    }
    reader.finish()
}
