// What a row compares: numbers and truths. A failure prints the row.
ghost use Rattle.std.specs.Prelude.{◌≡◌, true};

use std::process::Abort;

/// Compares a number with the wanted one.
pub(crate) fn is_number<R: Abort>(rt: &R, found: usize, wanted: usize, row: &str) {
    assert_eq!(rt; found, wanted, "{row}");
}

/// Sees that something is true.
pub(crate) fn is_true<R: Abort>(rt: &R, truth: bool, row: &str)
    ensures { truth ≡ true }
{
    assert!(rt; truth, "{row}");
}
