// What forms are read by.

use std::alloc::Global;
use tl_syntax::Names;

/// What forms are read by: the numbers of the names, and what is declared.
#[derive(Clone, Copy)]
pub struct Vocabulary<'a, D> {
    /// Where memory comes from.
    pub alloc: Global,
    /// The numbers of the names.
    pub names: &'a Names,
    /// What is declared.
    pub declared: &'a D,
}
