// Where a goal test failed.

/// The place of a fact of a goal which a world lacked: that of its table among the goal's tables of
/// facts, and that of its row there, both counted from 0. It is only a help: any places are lawful.
#[derive(Clone, Copy, PartialEq, Eq)]
pub struct Unmet {
    /// The place of the table.
    pub table: usize,
    /// The place of the row.
    pub row: usize,
}
