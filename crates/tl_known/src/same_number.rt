// Numbers of tables that are the same.
ghost use Rattle.std.specs.Prelude.{◌≡◌, ℕ, drop, slice_get, Some, IsTrue};

/// Whether there is a number at both places, and the same one. It takes no memory.
pub(crate) fn is_same_number(numbers: &[u32], i: usize, others: &[u32], j: usize) -> bool
    ensures { IsTrue result
        → (k : ℕ) × (slice_get numbers.now i ≡ Some k) × (slice_get others.now j ≡ Some k) }
{
    i < numbers.len() && j < others.len() && numbers[i] == others[j]
}

/// The numbers from a place on, as far as there are such. It takes no memory.
pub(crate) fn numbers_from(numbers: &[u32], from: usize) -> &[u32]
    ensures { result.now ≡ drop from numbers.now }
{
    if from <= numbers.len() {
        &numbers[from..]
    } else {
        &[]
    }
}
