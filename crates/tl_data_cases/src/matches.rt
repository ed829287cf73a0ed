// The matches of patterns, from the first on or after a tuple, which need not be a match.
ghost use Rattle.std.specs.Prelude.{◌≡◌, IfOk, IfSome};
ghost use Rattle.tl_match.specs.Patterns.{IsLawful};

use crate::checks::is_true;
use crate::stop::Stop;
use crate::worlds::{all_names, forms_of, parts_of, values_of, world_in};
use std::alloc::Global;
use std::process::Abort;
use tl_match::{Match, Part, Pattern};
use tl_sexpr::Form;
use tl_syntax::{Names, Value};
use tl_tables::{column, filled, is_row};
use tl_world::World;

/// The symbols `a` and `b`, by the numbers that `worlds` gives them.
const A: Value = Value::Sym(0);

const B: Value = Value::Sym(1);

/// `(p ?x)`
fn one() -> Pattern
    ensures lawful { IsLawful result }
{
    Pattern {
        place: false,
        name: 3,
        parts: [Part::Free(0); 9],
        len: 1,
        free: 1,
    }
}

/// `(edge ?x ?x)`
fn twice() -> Pattern
    ensures lawful { IsLawful result }
{
    Pattern {
        place: false,
        name: 4,
        parts: [Part::Free(0); 9],
        len: 2,
        free: 1,
    }
}

/// `(edge ?y ?x)`, for the variables `?x` and `?y`
fn turned() -> Pattern
    ensures lawful { IsLawful result }
{
    let mut parts = [Part::Free(0); 9];
    parts[0] = Part::Free(1);
    Pattern {
        place: false,
        name: 4,
        parts,
        len: 2,
        free: 2,
    }
}

/// `(edge b ?x)`
fn fixed() -> Pattern
    ensures lawful { IsLawful result }
{
    let mut parts = [Part::Free(0); 9];
    parts[0] = Part::Fixed(B);
    Pattern {
        place: false,
        name: 4,
        parts,
        len: 2,
        free: 1,
    }
}

/// `(r)`
fn no_argument() -> Pattern
    ensures lawful { IsLawful result }
{
    Pattern {
        place: false,
        name: 5,
        parts: [Part::Fixed(A); 9],
        len: 0,
        free: 0,
    }
}

/// `(q ?x b a b a b a ?y)`
fn eight_arguments() -> Pattern
    ensures lawful { IsLawful result }
{
    let mut parts = [Part::Fixed(A); 9];
    parts[0] = Part::Free(0);
    parts[1] = Part::Fixed(B);
    parts[3] = Part::Fixed(B);
    parts[5] = Part::Fixed(B);
    parts[7] = Part::Free(1);
    Pattern {
        place: false,
        name: 6,
        parts,
        len: 8,
        free: 2,
    }
}

/// `(= (f ?x) ?y)`
fn place_of_one() -> Pattern
    ensures lawful { IsLawful result }
{
    let mut parts = [Part::Free(0); 9];
    parts[1] = Part::Free(1);
    Pattern {
        place: true,
        name: 7,
        parts,
        len: 2,
        free: 2,
    }
}

/// `(= (f ?x) ?x)`
fn place_of_itself() -> Pattern
    ensures lawful { IsLawful result }
{
    Pattern {
        place: true,
        name: 7,
        parts: [Part::Free(0); 9],
        len: 2,
        free: 1,
    }
}

/// `(= (f a ?x) ?x)`
fn place_of_two() -> Pattern
    ensures lawful { IsLawful result }
{
    let mut parts = [Part::Free(0); 9];
    parts[0] = Part::Fixed(A);
    Pattern {
        place: true,
        name: 7,
        parts,
        len: 3,
        free: 1,
    }
}

/// `(= (n) ?x)`
fn place_of_none() -> Pattern
    ensures lawful { IsLawful result }
{
    Pattern {
        place: true,
        name: 8,
        parts: [Part::Free(0); 9],
        len: 1,
        free: 1,
    }
}

/// The pattern of a text.
fn pattern_of(text: &str) -> Result<Pattern, Stop>
    ensures lawful { IfOk result IsLawful }
{
    match text {
        "(p ?x)" => Ok(one()),
        "(edge ?x ?x)" => Ok(twice()),
        "(edge ?y ?x)" => Ok(turned()),
        "(edge b ?x)" => Ok(fixed()),
        "(r)" => Ok(no_argument()),
        "(q ?x b a b a b a ?y)" => Ok(eight_arguments()),
        "(= (f ?x) ?y)" => Ok(place_of_one()),
        "(= (f ?x) ?x)" => Ok(place_of_itself()),
        "(= (f a ?x) ?x)" => Ok(place_of_two()),
        "(= (n) ?x)" => Ok(place_of_none()),
        _ => Err(Stop::Row("there is no such pattern")),
    }
}

/// The tuple of these values.
fn tuple_of(values: &[Value]) -> Result<Option<Match>, Stop> {
    match values {
        [] => Ok(None),
        [one] => Ok(Some(Match {
            values: [*one; 9],
            len: 1,
        })),
        [first, second] => {
            let mut values = [*second; 9];
            values[0] = *first;
            Ok(Some(Match { values, len: 2 }))
        }
        _ => Err(Stop::Row("a tuple has at most two values")),
    }
}

/// The tuple of a text of values.
fn tuple_in(alloc: Global, names: &Names, text: &str) -> Result<Option<Match>, Stop> {
    let forms = forms_of(alloc, text)?;
    let values = values_of(alloc, names, forms.as_slice())?;
    tuple_of(values.as_slice())
}

/// Compares a match with the values of a list.
fn is_match<R: Abort>(
    rt: &R,
    alloc: Global,
    names: &Names,
    found: &[Value],
    wanted: &Form,
    row: &str,
) -> Result<(), Stop> {
    let values = values_of(alloc, names, parts_of(wanted))?;
    is_true(rt, found == values.as_slice(), row);
    Ok(())
}

/// Compares the matches of a pattern after a tuple with the lists of values.
fn have_values<R: Abort>(
    rt: &R,
    alloc: Global,
    names: &Names,
    w: &World,
    pattern: &Pattern,
    after: Option<Match>,
    wanted: &[Form],
    row: &str,
) -> Result<(), Stop>
    requires lawful { IsLawful pattern.now }
    requires len { IfSome after (λ m. m.len ≡ pattern.now.free) }
{
    let mut last = after;
    for form in wanted {
        last = w.next_match(pattern, last);
        let Some(m) = last else {
            return Err(Stop::Row("there are too few matches"));
        };
        is_match(rt, alloc, names, m.counted_values(), form, row)?;
    }
    is_true(rt, w.next_match(pattern, last).is_none(), row);
    Ok(())
}

/// Compares the matches of a pattern after a tuple, where this has a value for each variable.
fn come_after<R: Abort>(
    rt: &R,
    alloc: Global,
    names: &Names,
    w: &World,
    pattern: &Pattern,
    after: Option<Match>,
    row: &str,
) -> Result<(), Stop>
    requires lawful { IsLawful pattern.now }
{
    let wanted = forms_of(alloc, column(row, 3))?;
    match after {
        Some(m) if m.len != pattern.free => Err(Stop::Row("the tuple is of other variables")),
        _ => have_values(rt, alloc, names, w, pattern, after, wanted.as_slice(), row),
    }
}

/// The world of a row.
fn world_of_row(alloc: Global, names: &Names, row: &str) -> Result<World, Stop> {
    let facts = filled(alloc, column(row, 0), "")?;
    world_in(alloc, names, facts.as_str())
}

/// Compares the matches of the pattern of a row after its tuple.
fn come_in<R: Abort>(
    rt: &R,
    alloc: Global,
    names: &Names,
    w: &World,
    row: &str,
) -> Result<(), Stop> {
    let pattern = pattern_of(column(row, 1))?;
    let after = tuple_in(alloc, names, column(row, 2))?;
    come_after(rt, alloc, names, w, &pattern, after, row)
}

/// Compares the matches of a row.
fn come<R: Abort>(rt: &R, alloc: Global, names: &Names, row: &str) -> Result<(), Stop> {
    let w = world_of_row(alloc, names, row)?;
    come_in(rt, alloc, names, &w, row)
}

/// Rows of a world, a pattern, the values of a tuple, and the matches after it; without a tuple,
/// all matches.
const MATCHES: &str = "
{facts} | (p ?x) | - | (-1)(10)(a)(b)
{facts} | (edge ?x ?x) | - | (10)(b)
{facts} | (edge ?y ?x) | - | (10 10)(10 b)(b a)(b b)
{facts} | (edge b ?x) | - | (10)(b)
{facts} | (r) | - | ()
{facts} | (q ?x b a b a b a ?y) | - | (-1 b)(a 10)(a c)
{facts} | (= (f ?x) ?y) | - | (10 a)(a b)(b b)
{facts} | (= (f ?x) ?x) | - | (b)
{facts} | (= (n) ?x) | - | (10)
# facts of one predicate, and places of one function, with other numbers of arguments
{mixed facts} | (p ?x) | - | (-1)(10)(a)(b)
{mixed facts} | (edge ?y ?x) | - | (10 b)(b 10)(b a)
{mixed facts} | (= (f a ?x) ?x) | - | (-1)(b)
# after a tuple that is no match
{facts} | (p ?x) | -2 | (-1)(10)(a)(b)
{facts} | (p ?x) | 0 | (10)(a)(b)
{facts} | (p ?x) | c | -
{facts} | (edge ?x ?x) | a | (b)
{facts} | (edge ?y ?x) | 10 a | (10 b)(b a)(b b)
{facts} | (edge ?y ?x) | a 0 | (b a)(b b)
{facts} | (q ?x b a b a b a ?y) | 0 c | (a 10)(a c)
{facts} | (q ?x b a b a b a ?y) | a a | (a c)
{facts} | (= (f ?x) ?y) | a a | (a b)(b b)
{facts} | (= (n) ?x) | a | -
";

/// Goes over the rows of matches.
fn all_come<R: Abort>(rt: &R, alloc: Global, names: &Names) -> Result<(), Stop> {
    for row in MATCHES.lines() {
        if is_row(row) {
            come(rt, alloc, names, row)?;
        }
    }
    Ok(())
}

#[test]
fn matches_come_in_value_order(rt: HostRuntime) -> Result<(), Stop> {
    let names = all_names(rt.alloc())?;
    all_come(&rt, rt.alloc(), &names)
}
