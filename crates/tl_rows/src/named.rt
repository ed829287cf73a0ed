// Tables by the number of their predicate or function.
ghost use Rattle.std.specs.List.Sorted.{IsBinarySearchResult, IsSearchInRange};
ghost use Rattle.std.specs.Ordering.{nat_cmp};
ghost use Rattle.std.specs.Prelude.{◌≡◌, length, map, IfOk};
ghost use Rattle.tl_rows.specs.Tables.{plain_of};

use std::alloc::Global;
use std::rc::Rc;
use tl_syntax::NoMemory;

/// A table with the number of its predicate or function.
#[derive(PartialEq, Eq, Hash, Drop)]
pub struct Named<R> {
    /// The number of the predicate or function.
    pub name: u32,
    /// The rows, which tables share.
    pub rows: Rc<R>,
}

/// The place of the table with this number, or the place at which it would stand. The place of this
/// number is tried first: the table is there where each smaller number has one.
pub fn find_table<R>(tables: &[Named<R>], name: u32) -> Result<usize, usize>
    ensures range { IsSearchInRange result (length tables.now) }
    ensures place { IsBinarySearchResult (λ t. nat_cmp t.name name) tables.now result }
{
    let guess = name as usize;
    if guess < tables.len() && tables[guess].name == name {
        return Ok(guess);
    }
    tables.binary_search_by_key(&name, |t| t.name)
}

/// The same tables, shared.
pub fn share<R: Drop>(alloc: Global, tables: &[Named<R>]) -> Result<Vec<Named<R>>, NoMemory>
    ensures same { IfOk result (λ v. map plain_of v.items ≡ map plain_of tables.now) }
{
    let mut out = Vec::with_capacity(alloc, tables.len())?;
    for t in tables {
        let rows = t.rows.clone()?;
        let one = Named { name: t.name, rows };
        out.push(one)?;
    }
    Ok(out)
}
