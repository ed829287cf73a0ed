// Known worlds that changes make of others, found without making them.

use crate::checks::is_text;
use crate::stop::Stop;
use crate::worlds::{Said, all_names, said_in, world_in};
use std::alloc::Global;
use std::process::Abort;
use tl_known::Worlds;
use tl_syntax::{Names, NoMemory};
use tl_tables::{column, is_row};
use tl_world::World;

/// Rows of a world, facts that are deleted, facts that are added, places that are set, another
/// world, and the number that the world after the changes has: 0, 1, or 2 for one that is neither
/// (1 where both are one).
const AFTER: &str = "
(p a) (edge a b) | (p a) | (p b) | (p b) (edge a b) | 1
(p a) (edge a b) | (p a) | (p b) | (p b) (edge a b) (edge b a) | 2
(p a) (edge a b) | (p a) | (p b) | (p b) | 2
(p a) (edge a b) | (p a) | (p b) | (p a) (p b) (edge a b) | 2
(p a) (edge a b) | (p a) | (p b) | (edge a b) | 2
(edge a a) (edge a c) (edge b b) | (edge a c) | (edge b a) | (edge a a) (edge b a) (edge b b) | 1
(edge a a) (edge a c) (edge b b) | (edge a c) | (edge b a) | (edge a a) (edge b a) (edge b c) | 2
(p a) | (p a) (p b) | (p b) | (p b) | 1
(p a) | (p a) | (q a) | (q a) | 1
(p a) (r c) | (p a) | (q b) | (q b) (r c) | 1
(p a) | - | (q b) | (p a) (q b) (r c) | 2
(p a) | (p a) | (p a) | (p a) | 0
(p a) | - | (p a) | (p a) | 0
(p a) | (p b) | - | (p a) | 0
(p a) (q b) | (p b) | (p a) (q c) | (p a) (q b) (q c) | 1
(p a) (q b) | (q b) (q c) | (p a) (p b) | (p a) (p b) | 1
(p a) | - | - | (p a) | 0
(p a) (= (n) 10) | - | (= (n) -1) | (p a) (= (n) -1) | 1
(p a) (= (n) 10) | - | (= (n) -1) | (p a) (= (n) 10) | 1
(p a) (= (n) 10) | - | (= (f a) b) | (p a) (= (n) 10) (= (f a) b) | 1
(p a) (= (n) 10) | - | (= (f a) b) | (p a) (= (f a) b) | 2
(= (f a) a) (= (f c) c) | - | (= (f b) b) | (= (f a) a) (= (f b) b) (= (f c) c) | 1
(= (f a) a) (= (f c) c) | - | (= (f b) b) | (= (f a) a) (= (f b) b) (= (f c) b) | 2
(= (f a) a) (= (f b) b) (= (n) 1) | - | (= (n) 2) | (= (f a) a) (= (f b) b) (= (n) 2) | 1
(= (f a) a) (= (f b) b) (= (n) 1) | - | (= (n) 2) | (= (f a) a) (= (f b) c) (= (n) 2) | 2
(p a) (= (f a) a) (= (n) 1) | (p a) | (q b) (= (f a) b) | (q b) (= (f a) b) (= (n) 1) | 1
(p a) (= (f a) a) (= (n) 1) | (p a) | (= (n) 2) | (= (f a) a) (= (n) 2) | 1
(p a) (= (f a) a) (= (n) 1) | (p a) | (= (n) 2) | (= (f a) b) (= (n) 2) | 2
";

/// The number as a text.
fn text_of(alloc: Global, number: Option<usize>) -> Result<String, Stop> {
    match number {
        Some(number) => Ok(format!(in alloc; "{number}")?),
        None => Ok(format!(in alloc; "none")?),
    }
}

/// The number that the world after the changes has then.
fn kept_in(
    worlds: &mut Worlds,
    first: usize,
    less: &Said,
    more: &Said,
) -> Result<Option<usize>, NoMemory> {
    if first >= worlds.len() {
        return Ok(None);
    }
    let number = worlds.number_after(
        first,
        less.facts.as_slice(),
        more.facts.as_slice(),
        more.places.as_slice(),
    )?;
    Ok(Some(number))
}

/// The number that the world after the changes has once the last world was let go.
fn kept_again(
    worlds: &mut Worlds,
    first: usize,
    less: &Said,
    more: &Said,
) -> Result<Option<usize>, NoMemory> {
    if worlds.len() == 0 {
        return Ok(None);
    }
    worlds.forget_last();
    kept_in(worlds, first, less, more)
}

/// The number that is wanted once the last world was let go: the same, or none where no world is
/// left.
fn wanted_again(kept: &str) -> &str {
    if kept == "0" { "none" } else { kept }
}

/// The two worlds of a row.
fn both_worlds(alloc: Global, old: World, other: World) -> Result<Worlds, NoMemory> {
    let mut worlds = Worlds::new(alloc);
    worlds.number(old)?;
    worlds.number(other)?;
    Ok(worlds)
}

/// Compares what is found of the worlds of a row.
fn is_found<R: Abort>(rt: &R, alloc: Global, names: &Names, row: &str) -> Result<(), Stop> {
    let less = said_in(alloc, names, column(row, 1))?;
    let more = said_in(alloc, names, column(row, 2))?;
    let old = world_in(alloc, names, column(row, 0))?;
    let other = world_in(alloc, names, column(row, 3))?;
    let mut worlds = both_worlds(alloc, old, other)?;
    let kept = text_of(alloc, kept_in(&mut worlds, 0, &less, &more)?)?;
    is_text(rt, kept.as_str(), column(row, 4), row);
    let again = text_of(alloc, kept_again(&mut worlds, 0, &less, &more)?)?;
    is_text(rt, again.as_str(), wanted_again(column(row, 4)), row);
    Ok(())
}

/// Goes over the rows.
fn are_found<R: Abort>(rt: &R, alloc: Global, names: &Names) -> Result<(), Stop> {
    for row in AFTER.lines() {
        if is_row(row) {
            is_found(rt, alloc, names, row)?;
        }
    }
    Ok(())
}

#[test]
fn known_worlds_are_found_by_the_changes(rt: HostRuntime) -> Result<(), Stop> {
    let names = all_names(rt.alloc())?;
    are_found(&rt, rt.alloc(), &names)
}
