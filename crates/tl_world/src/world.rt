// Worlds, their look-ups and their changes.
ghost use Rattle.std.specs.FinMap as dict;
ghost use Rattle.std.specs.FinSet as set;
ghost use Rattle.std.specs.Hash.{same_Alike};
ghost use Rattle.std.specs.List.{list_all};
ghost use Rattle.std.specs.Prelude.{◌≡◌, ◌↔◌, ◌<◌, List, [], map, length, not, false, Some, None, IfNone, IfSome, IfOk, IsTrue};
ghost use Rattle.tl_syntax.proofs.Telling.{tells-partial, tells-equivalence};
ghost use Rattle.tl_syntax.specs.Lists.{Among, Rises};
ghost use Rattle.tl_terms.proofs.SameWorlds.{world-tells};
ghost use Rattle.tl_terms.specs.ProblemMeaning.{world_of};
ghost use Rattle.tl_terms.specs.SameWorlds.{world_eq};
ghost use Rattle.tl_terms.specs.World.{has_fact, value_at};
ghost use Rattle.tl_world.specs.Calls.{gives_entry, gives_row, gives_table, has_row, has_table, lacks_table, world_of_tables, ArePlacesOf, IsNamedByParts, LacksFacts, StaysNamedWith};
ghost use Rattle.tl_rows.specs.Codes.{tables_code};
ghost use Rattle.tl_rows.specs.Tables.{InOrder, fact_tables, place_tables, set_of, map_of, row_cmp};
ghost use Rattle.tl_world.specs.WorldCode.{world_fed};
ghost use Rattle.tl_world.specs.Edits.{changed_facts, changed_places};

use crate::facts::change_facts;
use crate::places::{change_places, find_place};
use crate::unmet::Unmet;
use std::alloc::Global;
use std::hash::{FoldHasher, Hash, Hasher};
use std::marker::Model;
use tl_rows::{Named, Place, PlaceRows, Rows, find_row, find_table, share};
use tl_syntax::{Fact, NoMemory, PlaceValue, Value};

/// A set of facts and a finite map of places.
#[derive(Drop)]
pub struct World {
    facts: Vec<Named<Rows>>,
    places: Vec<Named<PlaceRows>>,
    code: u64,
}

/// The tables of a world, which it lends.
#[derive(Clone, Copy)]
pub struct Tables<'a> {
    /// The facts, by the numbers of their predicates.
    pub facts: &'a [Named<Rows>],
    /// The places with their values, by the numbers of their functions.
    pub places: &'a [Named<PlaceRows>],
}

impl Model for World {
    ghost use Rattle.tl_terms.specs.World.{World as PlainWorld};
    ghost use Rattle.tl_world.specs.View.{coded_world};

    ghost Value = { PlainWorld };

    ghost coded = { coded_world };

    ghost use Rattle.std.specs.Prelude.{◌≡◌};
    ghost use Rattle.tl_rows.specs.Codes.{tables_code};
    ghost use Rattle.tl_rows.specs.Tables.{InOrder, fact_tables, place_tables, set_of, map_of};

    ghost view = { λ w. record { facts = set_of (fact_tables w.facts.items); places = map_of (place_tables w.places.items) } };

    ghost invariant = { λ w. (InOrder (fact_tables w.facts.items) × InOrder (place_tables w.places.items)) × (w.code ≡ tables_code (fact_tables w.facts.items) (place_tables w.places.items)) };
}

impl PartialEq for World {
    ghost eq = { λ v w. world_eq v w };

    ghost laws = { tells-partial world_eq world-tells };

    fn eq(&self, other: &World) -> bool {
        if self.code != other.code {
            return false;
        }
        self.facts == other.facts && self.places == other.places
    }
}

impl Eq for World {
    ghost laws = { tells-equivalence world_eq world-tells };
}

impl Hash for World {
    ghost hash_input = { λ w. world_fed w };

    ghost respects_eq = { (same_Alike world_fed world-tells).fed };

    fn hash<H: Hasher>(&self, state: &mut H) {
        self.code.hash(state);
    }
}

/// The code of the tables.
#[tactic(auto, unfolding(tl_rows::specs::Codes::tables_code))]
fn code_of_tables(facts: &[Named<Rows>], places: &[Named<PlaceRows>]) -> u64
    ensures { result ≡ tables_code (fact_tables facts.now) (place_tables places.now) }
{
    let mut hasher = FoldHasher::default();
    facts.hash(&mut hasher);
    places.hash(&mut hasher);
    hasher.finish()
}

/// The world of the tables.
#[inline(always)]
fn whole(facts: Vec<Named<Rows>>, places: Vec<Named<PlaceRows>>) -> World
    requires facts { InOrder (fact_tables facts.items) }
    requires places { InOrder (place_tables places.items) }
    ensures facts { result.facts ≡ set_of (fact_tables facts.items) }
    ensures places { result.places ≡ map_of (place_tables places.items) }
{
    let code = code_of_tables(facts.as_slice(), places.as_slice());
    World {
        facts,
        places,
        code,
    }
}

impl World {
    /// The world with no fact and no place that has a value. It takes no memory.
    pub fn new(alloc: Global) -> World
        ensures { result ≡ world_of [] [] }
    {
        whole(Vec::new(alloc), Vec::new(alloc))
    }

    /// Where the memory of its tables comes from.
    pub(crate) fn allocator(&self) -> Global {
        *self.facts.allocator()
    }

    /// The world with these facts and these places; of two values for one place the earlier counts.
    /// More than a few facts are sorted first, so that each stands at the end of its table. It
    /// fails for want of memory alone.
    pub fn of(alloc: Global, facts: &[Fact], places: &[PlaceValue]) -> Result<World, NoMemory>
        ensures same { IfOk result (λ w. w ≡ world_of facts.now places.now) }
        ensures named { IfOk result (λ w. IsNamedByParts facts.now places.now w) }
    {
        World::new(alloc).changed(alloc, &[], facts, places)
    }

    /// Whether the fact of the predicate `pred` with these arguments is in the world. It takes no
    /// memory. The table and the row are found by halves.
    pub fn holds(&self, pred: u32, args: &[Value]) -> bool
        ensures { result ≡ has_fact self.now (pred, args.now) }
    {
        match find_table(self.facts.as_slice(), pred) {
            Ok(i) => {
                let t = &self.facts[i];
                let found = find_row(t.rows.runs(), args);
                found.is_ok()
            }
            Err(_) => false,
        }
    }

    /// The value of the place of the function `fun` with these arguments: None exactly where it has
    /// none. It takes no memory.
    pub fn value(&self, fun: u32, args: &[Value]) -> Option<Value>
        ensures { result ≡ value_at self.now (fun, args.now) }
    {
        match find_table(self.places.as_slice(), fun) {
            Ok(i) => {
                let t = &self.places[i];
                match find_place(t.rows.as_ref(), args) {
                    Ok(k) => Some(t.rows.value(k)),
                    Err(_) => None,
                }
            }
            Err(_) => None,
        }
    }

    /// The arguments of the facts of the predicate `pred`, each once, in lexicographic value order:
    /// None exactly where there is no such fact.
    /// It takes no memory.
    pub fn rows(&self, pred: u32) -> Option<&Rows>
        ensures none { IfNone result ((a : List _) → has_fact self.now (pred, a) ≡ false) }
        ensures facts { IfSome result (λ r. (a : List _) → Among a r.now ↔ IsTrue (has_fact self.now (pred, a))) }
        ensures order { IfSome result (λ r. Rises row_cmp r.now) }
        ensures filled { IfSome result (λ r. 0 < length r.now) }
    {
        match find_table(self.facts.as_slice(), pred) {
            Ok(i) => {
                let t = &self.facts[i];
                Some(t.rows.as_ref())
            }
            Err(_) => None,
        }
    }

    /// The places of the function `fun` with their values, by the lexicographic value order of
    /// their arguments: None exactly where no place of `fun` has a value.
    /// It takes no memory.
    pub fn places(&self, fun: u32) -> Option<&PlaceRows>
        ensures none { IfNone result ((a : List _) → value_at self.now (fun, a) ≡ None) }
        ensures places { IfSome result (λ r. ArePlacesOf self.now fun r.now) }
        ensures order { IfSome result (λ r. Rises row_cmp (map (λ p. p.args) r.now)) }
        ensures filled { IfSome result (λ r. 0 < length r.now) }
    {
        match find_table(self.places.as_slice(), fun) {
            Ok(i) => {
                let t = &self.places[i];
                Some(t.rows.as_ref())
            }
            Err(_) => None,
        }
    }

    /// This world without the facts of `dels`, with those of `adds`, and with the values of `sets`;
    /// of two values for one place the earlier counts. A table that changes is copied once, of a
    /// large one a few runs alone; the rest is shared. It fails for want of memory.
    pub fn changed(
        &self,
        alloc: Global,
        dels: &[Fact],
        adds: &[Fact],
        sets: &[PlaceValue],
    ) -> Result<World, NoMemory>
        ensures facts { IfOk result (λ w. w.facts ≡ changed_facts self.now.facts dels.now adds.now) }
        ensures places { IfOk result (λ w. w.places ≡ changed_places self.now.places sets.now) }
        ensures named { IfOk result (λ w. StaysNamedWith self.now adds.now sets.now w) }
    {
        let mut facts = share(alloc, self.facts.as_slice())?;
        let mut places = share(alloc, self.places.as_slice())?;
        change_facts(alloc, &mut facts, dels, adds)?;
        change_places(alloc, &mut places, sets)?;
        Ok(whole(facts, places))
    }

    /// The tables of the world. It takes no memory.
    pub fn tables(&self) -> Tables<'_>
        ensures facts_order { InOrder (fact_tables result.facts.now) }
        ensures places_order { InOrder (place_tables result.places.now) }
        ensures world { world_of_tables result.facts.now result.places.now ≡ self.now }
    {
        Tables {
            facts: self.facts.as_slice(),
            places: self.places.as_slice(),
        }
    }

    /// Whether all facts of the other world are in this one.
    pub(crate) fn has_all_facts(&self, other: &World) -> bool
        ensures { result ≡ list_all (has_fact self.now) (set.items other.now.facts) }
    {
        self.holds_each(other.facts.as_slice())
    }

    /// Whether no fact of the other world is in this one.
    pub(crate) fn has_no_fact(&self, other: &World) -> bool
        ensures { result ≡ list_all (λ k. not (has_fact self.now k)) (set.items other.now.facts) }
    {
        self.holds_none(other.facts.as_slice())
    }

    /// Whether all places of the other world have their values in this one.
    pub(crate) fn has_all_values(&self, other: &World) -> bool
        ensures { result ≡ list_all (gives_entry self.now) (dict.entries other.now.places) }
    {
        self.gives_each(other.places.as_slice())
    }

    /// A place in the table of the other world's facts from the place `at` on with a fact that is
    /// not in this world.
    pub(crate) fn lacking(&self, other: &World, at: Unmet) -> Option<Unmet>
        ensures { IfSome result (λ _. LacksFacts self.now other.now) }
    {
        let tables = other.facts.as_slice();
        if at.table >= tables.len() {
            return None;
        }
        let table = &tables[at.table];
        match self.lacking_row(table.name, table.rows.as_ref(), at.row) {
            Some(row) => Some(Unmet {
                table: at.table,
                row,
            }),
            None => None,
        }
    }

    /// The place of the first row from a place on that is not the arguments of a fact in this
    /// world.
    fn lacking_row(&self, pred: u32, rows: &Rows, from: usize) -> Option<usize>
        ensures { IfSome result (λ _. list_all (has_row self.now pred) rows.now ≡ false) }
    {
        let mut k = from;
        while k < rows.len() {
            if !self.holds(pred, rows.row(k)) {
                return Some(k);
            }
            k += 1;
        }
        None
    }

    fn holds_each(&self, tables: &[Named<Rows>]) -> bool
        ensures { result ≡ list_all (has_table self.now) tables.now }
    {
        tables
            .iter()
            .all(|t| self.holds_rows(t.name, t.rows.as_ref()))
    }

    fn holds_none(&self, tables: &[Named<Rows>]) -> bool
        ensures { result ≡ list_all (lacks_table self.now) tables.now }
    {
        tables
            .iter()
            .all(|t| self.holds_no_row(t.name, t.rows.as_ref()))
    }

    fn gives_each(&self, tables: &[Named<PlaceRows>]) -> bool
        ensures { result ≡ list_all (gives_table self.now) tables.now }
    {
        tables
            .iter()
            .all(|t| self.gives_rows(t.name, t.rows.as_ref()))
    }

    fn holds_rows(&self, pred: u32, rows: &Rows) -> bool
        ensures { result ≡ list_all (has_row self.now pred) rows.now }
    {
        let mut k = 0;
        while k < rows.len() {
            if !self.holds(pred, rows.row(k)) {
                return false;
            }
            k += 1;
        }
        true
    }

    fn holds_no_row(&self, pred: u32, rows: &Rows) -> bool
        ensures { result ≡ list_all (λ a. not (has_fact self.now (pred, a))) rows.now }
    {
        let mut k = 0;
        while k < rows.len() {
            if self.holds(pred, rows.row(k)) {
                return false;
            }
            k += 1;
        }
        true
    }

    fn gives_place(&self, fun: u32, row: &Place<'_>) -> bool
        ensures { result ≡ gives_row self.now fun row.now }
    {
        self.value(fun, row.place_args()) == Some(row.place_value())
    }

    fn gives_rows(&self, fun: u32, rows: &PlaceRows) -> bool
        ensures { result ≡ list_all (λ r. gives_row self.now fun r) rows.now }
    {
        let mut k = 0;
        while k < rows.len() {
            let row = rows.place(k);
            if !self.gives_place(fun, &row) {
                return false;
            }
            k += 1;
        }
        true
    }
}
