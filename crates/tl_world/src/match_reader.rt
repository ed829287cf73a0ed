// The matches of a pattern in a world, one after another.
ghost use Rattle.std.specs.Prelude.{◌≡◌, ◌≤◌, [], length, true, false, None, Some, IsSome, IfSome, IsTrue};
ghost use Rattle.tl_syntax.specs.Lists.{Rises};
ghost use Rattle.tl_match.specs.Front.{front, are_in_turn, IsFirstKept};
ghost use Rattle.tl_world.specs.MatchReading.{HasLaterOf, PutsNextOf, ReadsAll, ReadsOn, pattern_if};
ghost use Rattle.tl_match.specs.Patterns.{IsLawful, parts_of};
ghost use Rattle.tl_rows.specs.Plain.{row_cmp};

use crate::World;
use crate::gathered::{gathered, put_tuple};
use std::marker::Model;
use tl_match::{
    MOST_PARTS, Match, Part, Pattern, are_in_turn, is_in_second_order, put_first, rows_before_near,
};
use tl_rows::{Runs, Second};
use tl_syntax::Value;

/// A reader of the matches of a pattern in a world, in lexicographic value order. Contracts see the
/// world, the pattern and the tuple that it has come to. It keeps the table and the place of the
/// next row where the pattern's variables stand in order, or all tuples where they stand against
/// the order of many rows, and else asks the world each time.
#[derive(Drop)]
pub struct MatchReader<'a> {
    world: &'a World,
    pattern: &'a Pattern,
    rows: Option<&'a Runs>,
    gathered: Second,
    gathers: bool,
    place: usize,
    tuple: Match,
    has_pattern: bool,
    begun: bool,
}

impl<'a> Model for MatchReader<'a> {
    ghost use Rattle.std.specs.Option.{option_map, IfSome};
    ghost use Rattle.tl_world.specs.Gathered.{HasRest};
    ghost use Rattle.tl_world.specs.MatchReading.{Reading, CanReadOn, pattern_if};
    ghost use Rattle.tl_match.specs.Patterns.{tuple_in_place};
    ghost use Rattle.std.specs.Coded.{codes};
    ghost use Rattle.tl_world.specs.View.{coded_world};

    ghost Value = { Reading };

    ghost coded = { Prim.hlevel (codes, coded_world) };

    ghost view = { λ r. record { world = r.world.now; pattern = pattern_if r.has_pattern r.pattern.now; tuple = tuple_in_place r.begun r.tuple } };

    ghost invariant = { λ r.
        CanReadOn r.world.now (pattern_if r.has_pattern r.pattern.now) r.begun r.tuple r.place (option_map (λ rows. rows.now) r.rows)
        × IfSome r.gathered (HasRest r.world.now (pattern_if r.has_pattern r.pattern.now) r.begun r.tuple r.place (option_map (λ rows. rows.now) r.rows)) };
}

/// Puts the least tuple after that in place that makes the pattern's parts one of the rows in
/// place, where these have such tuples from the given place on, which goes on. False where there is
/// none.
#[inline(always)]
fn put_next_from(
    rows: &Runs,
    pattern: &Pattern,
    begun: bool,
    tuple: &mut Match,
    place: &mut usize,
) -> bool
    requires pattern { IsLawful pattern.now }
    requires turn { IsTrue (are_in_turn 0 (parts_of pattern.now)) }
    requires order { Rises row_cmp rows.now }
    requires bound { place.old ≤ length rows.now }
    requires later { HasLaterOf pattern.now begun tuple.old rows.now place.old }
    ensures puts { PutsNextOf pattern.now rows.now begun tuple.old result tuple.new }
    ensures bound { IsTrue result → place.new ≤ length rows.now }
    ensures later { IsTrue result → HasLaterOf pattern.now true tuple.new rows.now place.new }
{
    let _ = tuple.room();
    let parts = &pattern.parts[..pattern.len as usize];
    match put_first(rows, parts, pattern.free, *place, &mut tuple.values) {
        Some(next) => {
            tuple.len = pattern.free;
            *place = next;
            true
        }
        None => false,
    }
}

/// Whether the first part is free, so that no leading values are fixed.
#[inline]
fn begins_free(parts: &[Part]) -> bool
    ensures { IsTrue result → front 0 parts.now [] ≡ [] }
{
    if parts.is_empty() {
        return false;
    }
    match parts[0] {
        Part::Free(_) => true,
        Part::Fixed(_) => false,
    }
}

/// How many rows come before the first whose leading values are at least the fixed ones of the
/// parts.
#[inline]
fn first_place(rows: &Runs, parts: &[Part]) -> usize
    requires { Rises row_cmp rows.now }
    ensures { IsFirstKept false (front 0 parts.now []) rows.now result }
{
    if begins_free(parts) {
        0
    } else {
        rows_before_near(rows, parts, 0)
    }
}

/// The rows of a table, and a place among them.
#[derive(Clone, Copy)]
struct InTable<'a> {
    rows: &'a Runs,
    place: usize,
}

/// The table of a pattern of facts in the world, and the place of the first row with the fixed
/// leading values, where the variables first stand in the order of their numbers. None where they
/// do not, or the rows are found by their second values, or there are none.
#[inline(always)]
fn table_of<'a>(world: &'a World, pattern: &Pattern, tuple: &Match) -> Option<InTable<'a>>
    requires { IsLawful pattern.now }
    ensures { IfSome result (λ t. ReadsAll world.now pattern.now tuple.now t.place t.rows.now) }
{
    let _ = tuple.room();
    if pattern.place {
        return None;
    }
    let Some(rows) = world.rows(pattern.name) else {
        return None;
    };
    let parts = &pattern.parts[..pattern.len as usize];
    if is_in_second_order(rows, parts) || !are_in_turn(parts) {
        return None;
    }
    let runs = rows.runs();
    let place = first_place(runs, parts);
    Some(InTable { rows: runs, place })
}

impl<'a> MatchReader<'a> {
    /// A reader before the first match of the pattern in the world, or of no match, where the
    /// pattern does not count. It takes no memory; `gathers`: whether its first step may take some.
    #[inline(always)]
    pub fn of(
        world: &'a World,
        pattern: &'a Pattern,
        counts: bool,
        gathers: bool,
    ) -> MatchReader<'a>
        requires { IsTrue counts → IsLawful pattern.now }
        ensures world { result.world ≡ world.now }
        ensures pattern { result.pattern ≡ pattern_if counts pattern.now }
        ensures before { result.tuple ≡ None }
    {
        MatchReader {
            world,
            pattern,
            rows: None,
            gathered: Second::none(),
            gathers,
            place: 0,
            tuple: Match {
                values: [Value::Int(0); MOST_PARTS],
                len: 0,
            },
            has_pattern: counts,
            begun: false,
        }
    }

    /// Looks for the table and for the place of the first row in it, or gathers the tuples, where
    /// no match has come yet. Without memory for them none are gathered.
    #[inline(never)]
    fn find_first_place(&mut self)
        ensures { self.new ≡ self.old }
    {
        if self.has_pattern && !self.begun {
            if let Some(table) = table_of(self.world, self.pattern, &self.tuple) {
                self.rows = Some(table.rows);
                self.gathered = Second::none();
                self.place = table.place;
            } else if let Ok(tuples) = gathered(self.world, self.pattern, self.gathers) {
                self.rows = None;
                self.gathered = tuples;
                self.place = 0;
            }
        }
    }

    /// The same, and nothing where a match has come.
    #[inline(always)]
    fn find_place(&mut self)
        ensures { self.new ≡ self.old }
    {
        if !self.begun {
            self.find_first_place();
        }
    }

    /// Goes on to the next match: the least tuple, in lexicographic value order, that makes the
    /// pattern true and comes after the one that the reader has come to. False exactly where there
    /// is none; the reader is before the first match then. Where it gathers, its first step may
    /// take memory, and where there is none it goes on without it.
    #[inline(never)]
    pub fn next(&mut self) -> bool
        ensures next { ReadsOn self.old self.new }
        ensures found { IsTrue result → IsSome self.new.tuple }
        ensures end { result ≡ false → self.new.tuple ≡ None }
    {
        self.find_place();
        match self.rows {
            Some(rows) => {
                if put_next_from(
                    rows,
                    self.pattern,
                    self.begun,
                    &mut self.tuple,
                    &mut self.place,
                ) {
                    self.begun = true;
                    true
                } else {
                    self.rows = None;
                    self.begun = false;
                    false
                }
            }
            None => match self.gathered.rows() {
                Some(tuples) => {
                    let free = self.pattern.free;
                    if put_tuple(tuples, free, &mut self.place, &mut self.tuple) {
                        self.begun = true;
                        true
                    } else {
                        self.gathered = Second::none();
                        self.begun = false;
                        false
                    }
                }
                None => {
                    let found = if self.has_pattern {
                        self.world
                            .put_next_match(
                                self.pattern,
                                self.begun,
                                &mut self.tuple,
                                &mut self.place,
                            )
                    } else {
                        false
                    };
                    self.begun = found;
                    found
                }
            },
        }
    }

    /// The values of the tuple that the reader has come to, by the variables' numbers. It takes no
    /// memory.
    #[inline(always)]
    pub fn values(&self) -> &[Value]
        requires { IsSome self.now.tuple }
        ensures { self.now.tuple ≡ Some result.now }
    {
        self.tuple.counted_values()
    }
}
