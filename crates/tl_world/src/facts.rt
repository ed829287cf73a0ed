// Tables of facts, and what changes them.
ghost use Rattle.std.specs.List.{insert, remove};
ghost use Rattle.std.specs.List.Sorted.{IsPermutation};
ghost use Rattle.std.specs.Prelude.{◌≡◌, ◌<◌, ◌≤◌, length, IfOk, OnOk};
ghost use Rattle.tl_world.specs.Edits.{AreChangedBy, GainsFact, GainsFacts, LosesFact, LosesFacts};
ghost use Rattle.tl_rows.specs.Tables.{InOrder, fact_tables};

use std::alloc::Global;
use std::rc::Rc;
use tl_rows::{Named, Rows, find_row, find_table, keep_second_orders, share_rows};
use tl_syntax::{Fact, NoMemory, Value, Values};

/// How many facts or places are sorted at least before they are put in.
pub(crate) const MANY: usize = 8;

/// Takes the row at place `k` out of the table. The rows are copied where another world shares
/// them.
fn cut_row(alloc: Global, table: &mut Named<Rows>, k: usize) -> Result<(), NoMemory>
    requires { k < length table.old.rows.value }
    ensures name { table.new.name ≡ table.old.name }
    ensures rows { OnOk result (table.new.rows.value ≡ remove table.old.rows.value k) }
{
    match Rc::get_mut(&mut table.rows) {
        Some(rows) => rows.cut_row(alloc, k),
        None => {
            table.rows = table.rows.shared_without(alloc, k)?;
            Ok(())
        }
    }
}

/// Takes the fact out of the tables, where it is there.
fn without(alloc: Global, tables: &mut Vec<Named<Rows>>, fact: &Fact) -> Result<(), NoMemory>
    requires { InOrder (fact_tables tables.old.items) }
    ensures order { OnOk result (InOrder (fact_tables tables.new.items)) }
    ensures facts { OnOk result (LosesFact fact.now tables.old.items tables.new.items) }
{
    match find_table(tables.as_slice(), fact.pred) {
        Err(_) => Ok(()),
        Ok(i) => {
            let t = &tables[i];
            match find_row(t.rows.runs(), fact.args.as_slice()) {
                Err(_) => Ok(()),
                Ok(k) => {
                    if t.rows.len() == 1 {
                        tables.remove(i);
                        return Ok(());
                    }
                    cut_row(alloc, &mut tables[i], k)
                }
            }
        }
    }
}

/// Takes the facts out of the tables, from the last on.
fn without_each(alloc: Global, tables: &mut Vec<Named<Rows>>, dels: &[Fact]) -> Result<(), NoMemory>
    requires { InOrder (fact_tables tables.old.items) }
    ensures order { OnOk result (InOrder (fact_tables tables.new.items)) }
    ensures facts { OnOk result (LosesFacts dels.now tables.old.items tables.new.items) }
{
    let mut i = dels.len();
    while i > 0 {
        i -= 1;
        without(alloc, tables, &dels[i])?;
    }
    Ok(())
}

/// Puts one more row at place `k` into the table. The rows are copied where another world shares
/// them.
fn put_row(alloc: Global, table: &mut Named<Rows>, k: usize, row: &[Value]) -> Result<(), NoMemory>
    requires { k ≤ length table.old.rows.value }
    ensures name { table.new.name ≡ table.old.name }
    ensures rows { OnOk result (table.new.rows.value ≡ insert table.old.rows.value k row.now) }
{
    match Rc::get_mut(&mut table.rows) {
        Some(rows) => rows.put_row(alloc, k, row),
        None => {
            table.rows = table.rows.shared_with(alloc, k, row)?;
            Ok(())
        }
    }
}

/// Puts the fact into the tables, where it is not there.
#[inline(never)]
fn with_fact(
    alloc: Global,
    tables: &mut Vec<Named<Rows>>,
    pred: u32,
    args: &Values,
) -> Result<(), NoMemory>
    requires { InOrder (fact_tables tables.old.items) }
    ensures order { OnOk result (InOrder (fact_tables tables.new.items)) }
    ensures facts { OnOk result (GainsFact (pred, args.now) tables.old.items tables.new.items) }
{
    match find_table(tables.as_slice(), pred) {
        Err(i) => {
            let rows = Rows::of_one(alloc, args.as_slice())?;
            let shared = share_rows(alloc, rows)?;
            let fresh = Named {
                name: pred,
                rows: shared,
            };
            tables.insert(i, fresh)?;
            Ok(())
        }
        Ok(i) => {
            let t = &tables[i];
            match find_row(t.rows.runs(), args.as_slice()) {
                Ok(_) => Ok(()),
                Err(k) => put_row(alloc, &mut tables[i], k, args.as_slice()),
            }
        }
    }
}

/// Puts the facts into the tables, from the last on.
fn with_each(alloc: Global, tables: &mut Vec<Named<Rows>>, adds: &[Fact]) -> Result<(), NoMemory>
    requires { InOrder (fact_tables tables.old.items) }
    ensures order { OnOk result (InOrder (fact_tables tables.new.items)) }
    ensures facts { OnOk result (GainsFacts adds.now tables.old.items tables.new.items) }
{
    let mut j = adds.len();
    while j > 0 {
        j -= 1;
        let a = &adds[j];
        with_fact(alloc, tables, a.pred, &a.args)?;
    }
    Ok(())
}

/// The facts in falling order.
fn falling(alloc: Global, facts: &[Fact]) -> Result<Vec<Fact>, NoMemory>
    ensures { IfOk result (λ v. IsPermutation facts.now v.items) }
{
    let mut out = Vec::with_capacity(alloc, facts.len())?;
    for f in facts {
        out.push(f.copy(alloc)?)?;
    }
    out.sort_unstable_by(|a, b| b.order(a));
    Ok(out)
}

/// Puts the facts into the tables. Many are sorted first, so that each comes after the rows that
/// are there, where a table is new.
fn with_facts(alloc: Global, tables: &mut Vec<Named<Rows>>, adds: &[Fact]) -> Result<(), NoMemory>
    requires { InOrder (fact_tables tables.old.items) }
    ensures order { OnOk result (InOrder (fact_tables tables.new.items)) }
    ensures facts { OnOk result (GainsFacts adds.now tables.old.items tables.new.items) }
{
    if adds.len() < MANY {
        with_each(alloc, tables, adds)
    } else {
        let sorted = falling(alloc, adds)?;
        with_each(alloc, tables, sorted.as_slice())
    }
}

/// Takes the facts of `dels` out of the tables, and then puts those of `adds` in.
pub(crate) fn change_facts(
    alloc: Global,
    tables: &mut Vec<Named<Rows>>,
    dels: &[Fact],
    adds: &[Fact],
) -> Result<(), NoMemory>
    requires { InOrder (fact_tables tables.old.items) }
    ensures order { OnOk result (InOrder (fact_tables tables.new.items)) }
    ensures facts { OnOk result (AreChangedBy dels.now adds.now tables.old.items tables.new.items) }
{
    without_each(alloc, tables, dels)?;
    with_facts(alloc, tables, adds)?;
    keep_second_orders(alloc, tables)
}
