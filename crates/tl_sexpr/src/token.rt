// The form of a token.
ghost use Rattle.std.specs.Prelude.{◌≡◌, ◌<◌, ◌⊎◌, ℕ, length, slice_index, IsTrue, IfOk, IfErr};
ghost use Rattle.tl_sexpr.specs.Bytes.{is_token_byte};
ghost use Rattle.tl_sexpr.specs.Faults.{IsTooBig};
ghost use Rattle.tl_sexpr.specs.Reading.{IsTokenForm};
ghost use Rattle.tl_sexpr.specs.Spelling.{spells_integer, is_numeral};
ghost use Rattle.tl_sexpr.specs.Tree.{tree_of};

use crate::{Form, Text, TextFault};
use std::alloc::Global;
use std::str;

/// Whether the text is one or more digits.
fn is_numeral(text: &[u8]) -> bool
    ensures { result ≡ is_numeral text.now }
{
    !text.is_empty() && text.iter().all(|byte| byte.is_ascii_digit())
}

/// Whether the text is an optional `-` and one or more digits.
fn is_integer(text: &[u8]) -> bool
    ensures { result ≡ spells_integer text.now }
{
    match text {
        [b'-', digits @ ..] => is_numeral(digits),
        _ => is_numeral(text),
    }
}

/// The form of the token with this text at this offset.
pub(crate) fn form_of_token(alloc: Global, text: &[u8], at: u32) -> Result<Form, TextFault>
    requires token { (k : ℕ) → k < length text.now → IsTrue (is_token_byte (slice_index text.now k)) }
    ensures form { IfOk result (λ form. IsTokenForm text.now at (tree_of form)) }
    ensures fault { IfErr result (λ fault. (fault ≡ TextFault.NoMemory)
        ⊎ ((fault ≡ TextFault.BigInteger at) × IsTooBig text.now)) }
{
    let Ok(letters) = str::from_utf8(text) else {
        unreachable!()
    };
    if is_integer(text) {
        match letters.parse() {
            Ok(value) => Ok(Form::Int(value, at)),
            Err(_) => Err(TextFault::BigInteger(at)),
        }
    } else {
        Ok(Form::Sym(Text::of(alloc, letters)?, at))
    }
}
