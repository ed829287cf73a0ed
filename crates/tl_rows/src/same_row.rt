// Rows that are the same.
ghost use Rattle.std.specs.Prelude.{◌≡◌};
ghost use Rattle.tl_rows.specs.Codes.{values_eq};

use tl_syntax::Value;

/// Whether the two lists of values are the same. It takes no memory.
#[inline]
pub fn is_same_row(a: &[Value], b: &[Value]) -> bool
    ensures { result ≡ values_eq a.now b.now }
{
    if a.len() != b.len() {
        return false;
    }
    let mut i = 0;
    while i < a.len() {
        if a[i] != b[i] {
            return false;
        }
        i += 1;
    }
    true
}
