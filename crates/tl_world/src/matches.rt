// The tuples that make a pattern true in a world, one after another.
ghost use Rattle.std.specs.Option.{option_map};
ghost use Rattle.std.specs.Prelude.{◌≡◌, true, false, IfSome, IsTrue};
ghost use Rattle.tl_match.specs.Next.{IsNext, PutsNextMatch, PutsNextOf};
ghost use Rattle.tl_match.specs.Patterns.{IsLawful, makes_true, tuple_of};

use crate::World;
use tl_match::{MOST_PARTS, Match, Pattern, put_next_in_places, put_next_in_table};
use tl_syntax::Value;

impl World {
    /// The least tuple of values, in lexicographic value order, that makes the pattern true and
    /// comes after `after`, where that is given: None exactly where there is none. `put_next_match`
    /// finds it at once where the caller keeps its place. It takes no memory.
    pub fn next_match(&self, pattern: &Pattern, after: Option<Match>) -> Option<Match>
        requires pattern { IsLawful pattern.now }
        requires after { IfSome after (λ m. m.len ≡ pattern.now.free) }
        ensures next { IsNext pattern.now.free (makes_true self.now pattern.now) (option_map tuple_of after) (option_map tuple_of result) }
        ensures len { IfSome result (λ m. m.len ≡ pattern.now.free) }
    {
        let begun = after.is_some();
        let mut tuple = after.unwrap_or(Match {
            values: [Value::Sym(0); MOST_PARTS],
            len: 0,
        });
        let mut near = 0;
        if self.put_next_match(pattern, begun, &mut tuple, &mut near) {
            Some(tuple)
        } else {
            None
        }
    }

    /// Puts the least tuple of values that makes the pattern true, or, where one is in place
    /// (`begun`), the least after it, in place. False: there is none, and what is there means
    /// nothing. `near` is a guess for its place, left after the row. It takes no memory.
    #[inline(never)]
    pub fn put_next_match(
        &self,
        pattern: &Pattern,
        begun: bool,
        tuple: &mut Match,
        near: &mut usize,
    ) -> bool
        requires pattern { IsLawful pattern.now }
        requires before { IsTrue begun → tuple.old.len ≡ pattern.now.free }
        ensures next { PutsNextMatch self.now pattern.now begun tuple.old result tuple.new }
        ensures len { IsTrue result → tuple.new.len ≡ pattern.now.free }
    {
        if pattern.place {
            self.put_next_place(pattern, begun, tuple, near)
        } else {
            self.put_next_fact(pattern, begun, tuple, near)
        }
    }

    /// Puts the least tuple after that in place that makes the pattern a fact in place.
    fn put_next_fact(
        &self,
        pattern: &Pattern,
        begun: bool,
        tuple: &mut Match,
        near: &mut usize,
    ) -> bool
        requires pattern { IsLawful pattern.now }
        ensures { PutsNextOf self.now false pattern.now begun tuple.old result tuple.new }
    {
        match self.rows(pattern.name) {
            Some(rows) => {
                let parts = &pattern.parts[..pattern.len as usize];
                put_next_in_table(rows, parts, pattern.free, begun, tuple, near)
            }
            None => false,
        }
    }

    /// Puts the least tuple after that in place that makes the pattern a place with its value in
    /// place.
    fn put_next_place(
        &self,
        pattern: &Pattern,
        begun: bool,
        tuple: &mut Match,
        near: &mut usize,
    ) -> bool
        requires pattern { IsLawful pattern.now }
        requires place { IsTrue pattern.now.place }
        ensures { PutsNextOf self.now true pattern.now begun tuple.old result tuple.new }
    {
        match self.places(pattern.name) {
            Some(rows) => {
                let parts = &pattern.parts[..pattern.len as usize];
                put_next_in_places(rows, parts, pattern.free, begun, tuple, near)
            }
            None => false,
        }
    }
}
