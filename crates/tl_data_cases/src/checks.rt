// What a row compares: texts, bytes, numbers and truths. A failure prints the row.
ghost use Rattle.std.specs.Prelude.{◌≡◌, true};

use std::process::Abort;

/// Compares a text with the wanted one.
pub(crate) fn is_text<R: Abort>(rt: &R, found: &str, wanted: &str, row: &str) {
    assert_eq!(rt; found, wanted, "{row}");
}

/// Compares bytes with the wanted ones.
pub(crate) fn are_bytes<R: Abort>(rt: &R, found: &[u8], wanted: &[u8], row: &str) {
    assert_eq!(rt; found, wanted, "{row}");
}

/// Compares a number with the wanted one.
pub(crate) fn is_number<R: Abort>(rt: &R, found: usize, wanted: usize, row: &str) {
    assert_eq!(rt; found, wanted, "{row}");
}

/// Sees that something is true.
pub(crate) fn is_true<R: Abort>(rt: &R, truth: bool, row: &str)
    ensures { truth ≡ true }
{
    assert!(rt; truth, "{row}");
}
