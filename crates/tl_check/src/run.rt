// Positions in a row with one label.
ghost use Rattle.std.specs.Prelude.{◌<◌};

/// Positions in a row with one label. There is one at least.
#[derive(Clone, Copy)]
pub(crate) struct Run {
    /// The label.
    pub(crate) truth: bool,
    /// How many positions have it.
    pub(crate) count: usize,
    pub(crate) ghost some: { 0 < count },
}

/// Positions in a row with one label in each of two lists. There is one at least.
#[derive(Clone, Copy)]
pub(crate) struct Cut {
    /// The label in the first list.
    pub(crate) left: bool,
    /// The label in the second list.
    pub(crate) right: bool,
    /// How many positions have both.
    pub(crate) count: usize,
    pub(crate) ghost some: { 0 < count },
}
