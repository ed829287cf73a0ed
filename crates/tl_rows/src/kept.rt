// Which tables keep their second order.
ghost use Rattle.std.specs.Prelude.{◌≡◌, ◌<◌, length, IfOk, OnOk};
ghost use Rattle.tl_rows.specs.Tables.{fact_tables};

use crate::Rows;
use crate::named::Named;
use crate::rows::share_rows;
use std::alloc::Global;
use std::rc::Rc;
use tl_syntax::NoMemory;

/// The same rows, with their second order, where no other world shares them.
fn keep_second(alloc: Global, rows: Rc<Rows>) -> Result<Rc<Rows>, NoMemory>
    ensures { IfOk result (λ kept. kept.value ≡ rows.value) }
{
    match Rc::try_unwrap(rows) {
        Ok(own) => share_rows(alloc, own.with_second(alloc)?),
        Err(shared) => Ok(shared),
    }
}

/// Gives the table its second order.
fn keep_in_table(alloc: Global, tables: &mut Vec<Named<Rows>>, i: usize) -> Result<(), NoMemory>
    requires { i < length tables.old.items }
    ensures { OnOk result (fact_tables tables.new.items ≡ fact_tables tables.old.items) }
{
    let old = tables.remove(i);
    let name = old.name;
    let rows = keep_second(alloc, old.rows)?;
    tables.insert(i, Named { name, rows })?;
    Ok(())
}

/// Gives each large table that has none its second order.
pub fn keep_second_orders(alloc: Global, tables: &mut Vec<Named<Rows>>) -> Result<(), NoMemory>
    ensures { OnOk result (fact_tables tables.new.items ≡ fact_tables tables.old.items) }
{
    let mut i = tables.len();
    while i > 0 {
        i -= 1;
        if tables[i].rows.wants_second() {
            keep_in_table(alloc, tables, i)?;
        }
    }
    Ok(())
}
