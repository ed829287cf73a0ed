// The longest and the deepest files, the deepest evaluation, and each prefix of a file.

use crate::checks::{are_bytes, is_true};
use crate::run::{answer_to, are_run, is_run};
use crate::stop::Stop;
use std::alloc::Global;
use std::process::Abort;
use tl_gen::sample;
use tl_outside::{FileList, MemorySink, MemoryStore, Numbers};

/// Rows of the three files, the status, and the output.
const LENGTHS: &str = "
check d p q | d = {0} & p = {1} & q = {2} | {3} | {4}
{4194304  } | {one problem} | (lit) | 3 | ; refused file 1 rule 10 at 0
{99 (}{1048526 abc }{2  }{99 )} | {one problem} | (lit) | 3 | ; refused file 1 rule 10 at 0
{4194305  } | {one problem} | (lit) | 3 | ; refused file 1 rule 6 at 4194304
{one domain} | {4194305  } | (lit) | 3 | ; refused file 2 rule 6 at 4194304
{one domain} | {one problem} | {4194305  } | 3 | ; refused file 3 rule 6 at 4194304
";

/// Rows of the three files, the status, and the output.
const LIMITS: &str = "
check d p q | d = {0} & p = {1} & q = {2} | {3} | {4}
# nested lists
{101 (} | {one problem} | (lit) | 3 | ; refused file 1 rule 4 at 100
{100 (}{100 )} | {one problem} | (lit) | 3 | ; refused file 1 rule 10 at 0
(domain d (control {98 (not }true{98 )})) | (problem q (init) (goal)) | - | 0 | ; valid
(domain d (control {99 (not }true{99 )})) | (problem q (init) (goal)) | - | 3 | ; refused file 1 rule 4 at 509
(domain d (define (q) {24 (not }true{24 )})) | (problem q (init) (goal)) | - | 0 | ; valid
(domain d (define (q) {25 (not }true{25 )})) | (problem q (init) (goal)) | - | 3 | ; refused file 1 rule 19 at 22
# facts of an initial world
(domain d (predicate p 1)) | (problem q (init {4096 (p a)}) (goal)) | - | 0 | ; valid
(domain d (predicate p 1)) | (problem q (init {4097 (p a)}) (goal)) | - | 3 | ; refused file 2 rule 19 at 11
";

/// Puts at the end so many quantifiers, one below the other.
fn put_quantifiers(times: u32, out: &mut String) -> Result<(), Stop> {
    for k in 0..times {
        write!(out, "(exists (?v{k}) (p ?v{k}) ")?;
    }
    Ok(())
}

/// Puts at the end so many closing parentheses.
fn put_closing(times: u32, out: &mut String) -> Result<(), Stop> {
    for _ in 0..times {
        out.push_str(")")?;
    }
    Ok(())
}

/// Puts at the end a definition of 23 formulas round the one before, or round `true`.
fn put_definition(k: u32, out: &mut String) -> Result<(), Stop> {
    write!(out, " (define (d{k}) ")?;
    put_quantifiers(23, out)?;
    match k.checked_sub(1) {
        Some(before) => write!(out, "(d{before})")?,
        None => out.push_str("true")?,
    }
    put_closing(24, out)
}

/// Puts at the end a definition of 64 levels, of 22 formulas round itself and the last of the
/// others, and the control formula.
fn put_levels(out: &mut String) -> Result<(), Stop> {
    out.push_str(" (defined 64 (e) ")?;
    put_quantifiers(22, out)?;
    out.push_str("(or (e) (d62))")?;
    put_closing(23, out)?;
    out.push_str(" (control (e)))")?;
    Ok(())
}

/// A domain whose control formula is evaluated as deep as any: 63 definitions, each round the one
/// before, and one of 64 levels.
fn deep_domain(alloc: Global) -> Result<String, Stop> {
    let mut text = String::from_str(alloc, "(domain deep (predicate p 1)")?;
    for k in 0..63 {
        put_definition(k, &mut text)?;
    }
    put_levels(&mut text)?;
    Ok(text)
}

/// The form of the row of the deep domain.
const DEEP: &str =
    "check d p q | d = {0} & p = (problem deep (init (p a)) (goal (p a))) & q = - | 0 | ; valid";

#[test]
fn the_deepest_evaluation_has_its_stack(rt: HostRuntime) -> Result<(), Stop> {
    let domain = deep_domain(rt.alloc())?;
    is_run(&rt, rt.alloc(), DEEP, domain.as_str())
}

/// A domain with an operator of so many bounds, each the same.
fn domain_of_bounds(alloc: Global, bounds: usize) -> Result<String, Stop> {
    let mut text = String::from_str(
        alloc,
        "(domain d (predicate p 0) (predicate q 0) (operator (go) (bounds",
    )?;
    for _ in 0..bounds {
        text.push_str(" (p)")?;
    }
    text.push_str(") (effects (add (q)))))")?;
    Ok(text)
}

/// The form of the row of the domain with many bounds.
const MANY_BOUNDS: &str =
    "plan depth 1 10 d p | d = {0} & p = (problem d (init (p)) (goal (q))) | 0 | ; plan of 1 actions / (go)";

#[test]
fn two_hundred_thousand_bounds_need_no_stack(rt: HostRuntime) -> Result<(), Stop> {
    let domain = domain_of_bounds(rt.alloc(), 200_000)?;
    is_run(&rt, rt.alloc(), MANY_BOUNDS, domain.as_str())
}

/// A store of a domain file of these bytes, a problem file, and an empty plan.
fn store_with(alloc: Global, domain: &[u8], problem: &[u8]) -> Result<MemoryStore, Stop> {
    let mut files = FileList::new(alloc);
    files.add("d", domain)?;
    files.add("p", problem)?;
    files.add("q", b"")?;
    Ok(MemoryStore::new(files, 65_536, Numbers::new(alloc)))
}

/// Compares the answer for a domain file of these bytes, a problem file, and an empty plan.
fn is_judged<R: Abort>(
    rt: &R,
    alloc: Global,
    domain: &[u8],
    problem: &[u8],
    (status, text): (u8, &str),
) -> Result<(), Stop> {
    let mut store = store_with(alloc, domain, problem)?;
    let mut out = MemorySink::new(alloc, 100, 100, Numbers::new(alloc))?;
    let found = answer_to(alloc, "check d p q", &mut store, &mut out)?;
    are_bytes(rt, out.held(), text.as_bytes(), text);
    is_true(rt, found.number() == status, text);
    Ok(())
}

/// The answer for the first `k` bytes of a domain file of so many.
fn answer_for(k: usize, whole: usize) -> (u8, &'static str) {
    if k == 0 {
        (3, "; refused file 1 rule 10 at 0\n")
    } else if whole.saturating_sub(k) <= 1 {
        (1, "; goal unmet\n")
    } else {
        (3, "; refused file 1 rule 3 at 0\n")
    }
}

#[test]
fn each_prefix_of_a_domain_is_judged(rt: HostRuntime) -> Result<(), Stop> {
    let alloc = rt.alloc();
    let texts = sample(alloc, 2)?;
    let whole = texts.domain.as_slice();
    for (k, _) in whole.iter().enumerate() {
        is_judged(
            &rt,
            alloc,
            &whole[..k],
            texts.problem.as_slice(),
            answer_for(k, whole.len()),
        )?;
    }
    Ok(())
}

#[test]
fn files_have_their_limits(rt: HostRuntime) -> Result<(), Stop> {
    are_run(&rt, rt.alloc(), LENGTHS)?;
    are_run(&rt, rt.alloc(), LIMITS)
}
