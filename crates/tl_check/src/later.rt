// Words that ask for a formula at later positions.

/// A temporal word over one formula, which asks for it at later positions, and at the same one but
/// for `Next`.
#[derive(Clone, Copy)]
pub(crate) enum Later {
    /// At the next one.
    Next,
    /// At all of them.
    Always,
    /// At one of them.
    Eventually,
    /// At one that is at most so many steps away.
    Within(u32),
    /// At all that are at most so many steps away.
    During(u32),
}
