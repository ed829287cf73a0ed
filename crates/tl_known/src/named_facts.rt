// Whether a fact is one of those that changes name.
ghost use Rattle.std.specs.Ordering.{eq_by_cmp};
ghost use Rattle.std.specs.Prelude.{◌≡◌, ◌++◌};
ghost use Rattle.tl_syntax.specs.Keys.{key_cmp, fact_key};
ghost use Rattle.tl_known.specs.TableNumbers.{lists_pred};
ghost use Rattle.tl_world.specs.Edits.{lists_fact};

use tl_rows::is_same_row;
use tl_syntax::{Fact, Value};

/// Whether the fact is that of the predicate with these arguments.
fn is_fact(fact: &Fact, pred: u32, args: &[Value]) -> bool
    ensures { result ≡ eq_by_cmp key_cmp (pred, args.now) (fact_key fact.now) }
{
    fact.pred == pred && is_same_row(fact.args.as_slice(), args)
}

/// Whether the fact of the predicate with these arguments is one of the facts. It takes no memory.
pub(crate) fn is_one_of(facts: &[Fact], pred: u32, args: &[Value]) -> bool
    ensures { result ≡ lists_fact facts.now (pred, args.now) }
{
    facts.iter().any(|f| is_fact(f, pred, args))
}

/// Whether the fact of the predicate with these arguments is deleted or added. It takes no memory.
pub(crate) fn is_named(dels: &[Fact], adds: &[Fact], pred: u32, args: &[Value]) -> bool
    ensures { result ≡ lists_fact (dels.now ++ adds.now) (pred, args.now) }
{
    is_one_of(dels, pred, args) || is_one_of(adds, pred, args)
}

/// Whether one of the facts is of the predicate. It takes no memory.
pub(crate) fn has_pred(facts: &[Fact], pred: u32) -> bool
    ensures { result ≡ lists_pred facts.now pred }
{
    facts.iter().any(|f| f.pred == pred)
}
