// Changes of facts.
use tl_syntax::Fact;

/// Changes of facts: what is deleted, and what is added then.
#[derive(Clone, Copy)]
pub struct FactChanges<'a> {
    /// The facts that are deleted.
    pub dels: &'a [Fact],
    /// The facts that are added.
    pub adds: &'a [Fact],
}
