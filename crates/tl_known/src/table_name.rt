// Names of tables.

/// The name of a table of a world: the predicate of its facts, or the function of its places.
#[derive(Clone, Copy)]
pub(crate) enum TableName {
    Pred(u32),
    Fun(u32),
}
