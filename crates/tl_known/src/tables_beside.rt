// Tables of two worlds that have the same facts but for those that changes name.
ghost use Rattle.std.specs.Prelude.{[], drop, IsTrue};
ghost use Rattle.tl_known.specs.Unchanged.{AreNumberedBeside, AreRowsBeside, AreTablesBeside, TellRowsOf};

use crate::named_facts::has_pred;
use crate::rows_beside::{are_named_from, are_rows_beside};
use crate::same_number::is_same_number;
use tl_rows::{Named, Rows};
use tl_syntax::Fact;

/// Tables of facts with their numbers, as far as these are known: where two tables of one predicate
/// have one number, their facts are the same.
#[derive(Clone, Copy)]
pub(crate) struct NumberedTables<'a> {
    pub(crate) tables: &'a [Named<Rows>],
    pub(crate) numbers: &'a [u32],
}

/// Whether the two tables of one predicate, which have different numbers or none, are found to have
/// the same facts, but for those that the changes name. It takes no memory.
fn is_table_beside(pred: u32, rows: &Rows, others: &Rows, dels: &[Fact], adds: &[Fact]) -> bool
    ensures { IsTrue result → AreRowsBeside dels.now adds.now pred rows.now others.now }
{
    if has_pred(dels, pred) || has_pred(adds, pred) {
        are_rows_beside(pred, rows, others, dels, adds)
    } else {
        *rows == *others
    }
}

/// Whether all facts of the tables from a place on are such as the changes name. It takes no
/// memory.
fn are_tables_named_from(tables: &[Named<Rows>], from: usize, dels: &[Fact], adds: &[Fact]) -> bool
    ensures { IsTrue result → AreTablesBeside dels.now adds.now (drop from tables.now) [] }
{
    let mut i = from;
    while i < tables.len() {
        let t = &tables[i];
        if !are_named_from(t.name, t.rows.as_ref(), 0, dels, adds) {
            return false;
        }
        i += 1;
    }
    true
}

/// Whether the two lists of tables, which are gone over once, side by side, are found to have the
/// same facts, but for those that the changes name. Tables with one number are passed without a
/// look at their rows. It takes no memory.
pub(crate) fn are_tables_beside(
    these: &NumberedTables<'_>,
    those: &NumberedTables<'_>,
    dels: &[Fact],
    adds: &[Fact],
) -> bool
    requires { TellRowsOf these.now those.now }
    ensures { IsTrue result → AreNumberedBeside dels.now adds.now these.now those.now }
{
    let tables = these.tables;
    let others = those.tables;
    let mut i = 0;
    let mut j = 0;
    while i < tables.len() && j < others.len() {
        let t = &tables[i];
        let u = &others[j];
        if t.name == u.name {
            if !is_same_number(these.numbers, i, those.numbers, j)
                && !is_table_beside(t.name, t.rows.as_ref(), u.rows.as_ref(), dels, adds)
            {
                return false;
            }
            i += 1;
            j += 1;
        } else if t.name < u.name {
            if !are_named_from(t.name, t.rows.as_ref(), 0, dels, adds) {
                return false;
            }
            i += 1;
        } else {
            if !are_named_from(u.name, u.rows.as_ref(), 0, dels, adds) {
                return false;
            }
            j += 1;
        }
    }
    are_tables_named_from(tables, i, dels, adds) && are_tables_named_from(others, j, dels, adds)
}
