// Bytes, tokens and comments.
ghost use Rattle.std.specs.Prelude.{◌≡◌, ◌≢◌, ◌+◌, ◌-◌, ◌<◌, ◌≤◌, ℕ, length, slice_index, IsTrue, false};
ghost use Rattle.tl_sexpr.specs.Bytes.{is_blank, is_token_byte};

/// Whether the byte is a blank.
pub(crate) fn is_blank(byte: u8) -> bool
    ensures { result ≡ is_blank byte }
{
    matches!(byte, b' ' | b'\t' | b'\r' | b'\n')
}

/// Whether a token may hold the byte.
pub(crate) fn is_token_byte(byte: u8) -> bool
    ensures { result ≡ is_token_byte byte }
{
    byte.is_ascii_alphanumeric() || b"!#$%&*+-./:<=>?@^_~".contains(&byte)
}

/// The end of the token that begins here.
pub(crate) fn token_end(bytes: &[u8], from: usize) -> usize
    requires within { from < length bytes.now }
    requires token { IsTrue (is_token_byte (slice_index bytes.now from)) }
    ensures some { from < result }
    ensures bounded { result ≤ length bytes.now }
    ensures each { (k : ℕ) → from ≤ k → k < result → IsTrue (is_token_byte (slice_index bytes.now k)) }
    ensures longest { result < length bytes.now → is_token_byte (slice_index bytes.now result) ≡ false }
{
    let mut end = from + 1;
    while end < bytes.len() && is_token_byte(bytes[end]) {
        end += 1;
    }
    end
}

/// The position after the comment that begins here and after the line feed that ends it, if there
/// is one.
pub(crate) fn comment_end(bytes: &[u8], from: usize) -> usize
    requires within { from < length bytes.now }
    requires semicolon { slice_index bytes.now from ≡ 59 }
    ensures some { from < result }
    ensures bounded { result ≤ length bytes.now }
    ensures same_line { (k : ℕ) → from ≤ k → k + 1 < result → slice_index bytes.now k ≢ 10 }
    ensures ended { result < length bytes.now → slice_index bytes.now (result - 1) ≡ 10 }
{
    let mut at = from + 1;
    while at < bytes.len() {
        if bytes[at] == b'\n' {
            return at + 1;
        }
        at += 1;
    }
    at
}
