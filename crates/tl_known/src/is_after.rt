// Whether a world is the one that changes make of another.
ghost use Rattle.std.specs.List.{list_all};
ghost use Rattle.std.specs.Prelude.{◌≡◌, ◌++◌, IsTrue};
ghost use Rattle.tl_syntax.specs.Keys.{fact_key};
ghost use Rattle.tl_terms.specs.World.{has_fact};
ghost use Rattle.tl_world.specs.Edits.{changed_facts, changed_places};
ghost use Rattle.tl_known.specs.TableNumbers.{AreToldAlike};
ghost use Rattle.tl_known.specs.Unchanged.{is_gone, AreSameBeside};
ghost use Rattle.tl_known.specs.Unset.{has_value, AreSameUnset};

use crate::named_facts::is_one_of;
use crate::places_beside::{NumberedPlaces, are_place_tables_beside};
use crate::same_number::numbers_from;
use crate::tables_beside::{NumberedTables, are_tables_beside};
use tl_syntax::{Fact, PlaceValue};
use tl_world::World;

/// Whether all the facts are in the world. It takes no memory.
fn holds_added(world: &World, adds: &[Fact]) -> bool
    ensures { result ≡ list_all (λ f. has_fact world.now (fact_key f)) adds.now }
{
    adds.iter().all(|f| world.holds(f.pred, f.args.as_slice()))
}

/// Whether none of the facts of `dels` is in the world but for such as are of `adds`. It takes
/// no memory.
fn lacks_deleted(world: &World, dels: &[Fact], adds: &[Fact]) -> bool
    ensures { result ≡ list_all (is_gone world.now adds.now) dels.now }
{
    dels.iter().all(|f| {
        !world.holds(f.pred, f.args.as_slice()) || is_one_of(adds, f.pred, f.args.as_slice())
    })
}

/// Whether the places that are set have their values. It takes no memory.
fn has_set_values(world: &World, sets: &[PlaceValue]) -> bool
    ensures { result ≡ list_all (has_value world.now) sets.now }
{
    sets.iter()
        .all(|p| world.value(p.fun, p.args.as_slice()) == Some(p.value))
}

/// A world with the numbers of its tables, from the first one on, as far as these are known.
#[derive(Clone, Copy)]
pub(crate) struct Numbered<'a> {
    pub(crate) world: &'a World,
    pub(crate) numbers: &'a [u32],
}

impl<'a> Numbered<'a> {
    /// Whether the worlds are found to have the same facts, but for those that the changes name. It
    /// takes no memory.
    fn is_beside(&self, from: &Numbered<'a>, dels: &[Fact], adds: &[Fact]) -> bool
        requires { AreToldAlike self.now from.now }
        ensures { IsTrue result
            → AreSameBeside (dels.now ++ adds.now) self.now.world.now.facts from.now.world.now.facts }
    {
        let these = NumberedTables {
            tables: self.world.tables().facts,
            numbers: self.numbers,
        };
        let those = NumberedTables {
            tables: from.world.tables().facts,
            numbers: from.numbers,
        };
        are_tables_beside(&these, &those, dels, adds)
    }

    /// Whether the places of the worlds are found to have the same values, but for those that are
    /// set. It takes no memory.
    fn has_values_beside(&self, from: &Numbered<'a>, sets: &[PlaceValue]) -> bool
        requires { AreToldAlike self.now from.now }
        ensures { IsTrue result
            → AreSameUnset sets.now self.now.world.now.places from.now.world.now.places }
    {
        let tables = self.world.tables();
        let these = NumberedPlaces {
            tables: tables.places,
            numbers: numbers_from(self.numbers, tables.facts.len()),
        };
        let others = from.world.tables();
        let those = NumberedPlaces {
            tables: others.places,
            numbers: numbers_from(from.numbers, others.facts.len()),
        };
        are_place_tables_beside(&these, &those, sets)
    }

    /// Whether the facts of this world are found to be those that the changes make of the facts of
    /// the world `from`. It takes no memory.
    fn has_changed_facts(&self, from: &Numbered<'a>, dels: &[Fact], adds: &[Fact]) -> bool
        requires { AreToldAlike self.now from.now }
        ensures { IsTrue result
            → self.now.world.now.facts ≡ changed_facts from.now.world.now.facts dels.now adds.now }
    {
        if !holds_added(self.world, adds) {
            return false;
        }
        if !lacks_deleted(self.world, dels, adds) {
            return false;
        }
        self.is_beside(from, dels, adds)
    }

    /// Whether the places of this world are found to have the values that the settings leave of
    /// those of the world `from`. It takes no memory.
    fn has_changed_places(&self, from: &Numbered<'a>, sets: &[PlaceValue]) -> bool
        requires { AreToldAlike self.now from.now }
        ensures { IsTrue result
            → self.now.world.now.places ≡ changed_places from.now.world.now.places sets.now }
    {
        if !has_set_values(self.world, sets) {
            return false;
        }
        self.has_values_beside(from, sets)
    }

    /// Whether this world is found to be the one that the changes make of the world `from`, without
    /// making it: both are gone over once, side by side, but for tables with one number. It may be
    /// so where the answer is no, as where one place is set to two values. It takes no memory.
    pub(crate) fn is_after(
        &self,
        from: &Numbered<'a>,
        dels: &[Fact],
        adds: &[Fact],
        sets: &[PlaceValue],
    ) -> bool
        requires { AreToldAlike self.now from.now }
        ensures facts { IsTrue result
            → self.now.world.now.facts ≡ changed_facts from.now.world.now.facts dels.now adds.now }
        ensures places { IsTrue result
            → self.now.world.now.places ≡ changed_places from.now.world.now.places sets.now }
    {
        self.has_changed_facts(from, dels, adds) && self.has_changed_places(from, sets)
    }
}
