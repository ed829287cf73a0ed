// How values and rows stand to others.
ghost use Rattle.std.specs.Prelude.{◌≡◌};
ghost use Rattle.tl_syntax.specs.Keys.{value_cmp};
ghost use Rattle.tl_rows.specs.Tables.{row_cmp};

use std::cmp::Ordering;
use tl_syntax::Value;

/// How one value stands to another in value order. The derived order is the same; here it is
/// written out, so that it becomes a few steps of the search that asks for it.
#[inline(always)]
pub fn order_of_values(x: Value, y: Value) -> Ordering
    ensures { result ≡ value_cmp x y }
{
    match (x, y) {
        (Value::Sym(a), Value::Sym(b)) => a.cmp(&b),
        (Value::Int(a), Value::Int(b)) => a.cmp(&b),
        (Value::Int(_), Value::Sym(_)) => Ordering::Less,
        (Value::Sym(_), Value::Int(_)) => Ordering::Greater,
    }
}

/// How the row stands to the arguments, in lexicographic value order.
#[inline(always)]
pub fn order_of(row: &[Value], args: &[Value]) -> Ordering
    ensures { result ≡ row_cmp row.now args.now }
{
    let mut k = 0;
    while k < row.len() && k < args.len() {
        let order = order_of_values(row[k], args[k]);
        if order != Ordering::Equal {
            return order;
        }
        k += 1;
    }
    row.len().cmp(&args.len())
}
