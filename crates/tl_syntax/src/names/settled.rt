// The table in the order of its texts.
ghost use Rattle.std.specs.Prelude.{◌≡◌, ◌<◌, ◌^◌, length, IfOk, IsPermutation, IsSorted};
ghost use Rattle.std.specs.Rc.{rc_str_bytes};
ghost use Rattle.tl_syntax.specs.Settled.{IsInOrder, Renumbers, Differ, AreTheirPlaces, AreBelow, GivesPlaces, numbered_text_cmp, texts_in, numbers_in};
ghost use Rattle.tl_syntax.specs.Texts.{AreDistinct};

use crate::{Names, NoMemory, Numbers32};
use std::alloc::{AllocError, Global};
use std::rc::RcStr;

impl Names {
    /// The same texts, numbered by the order of their bytes, and the list that gives each old
    /// number its new one.
    /// A refused call drops the table.
    pub fn settled(self, alloc: Global) -> Result<(Names, Numbers32), NoMemory>
        ensures permutation { IfOk result (λ settled. IsPermutation self settled.0) }
        ensures order { IfOk result (λ settled. IsInOrder settled.0) }
        ensures count { IfOk result (λ settled. length settled.1 ≡ length self) }
        ensures renumbered { IfOk result (λ settled. Renumbers settled.1 self settled.0) }
    {
        let numbered = self.entries(alloc)?;
        let entries = sorted(numbered);
        let places = places_of(entries.as_slice(), alloc)?;
        let mut numbers = Numbers32::new(alloc);
        numbers.extend(places.as_slice())?;
        let names = table_of(entries.as_slice(), alloc)?;
        Ok((names, numbers))
    }

    // The texts with their numbers, in the order of the numbers.
    fn entries(&self, alloc: Global) -> Result<Vec<(RcStr, u32)>, AllocError>
        ensures texts { IfOk result (λ entries. texts_in entries.items ≡ self.now) }
        ensures numbers { IfOk result (λ entries. AreTheirPlaces (numbers_in entries.items)) }
        ensures distinct { AreDistinct self.now }
        ensures few { length self.now < 2 ^ 32 }
    {
        let mut entries = Vec::new(alloc);
        for (number, text) in self.texts.iter().enumerate() {
            entries.push((text.clone()?, number as u32))?;
        }
        Ok(entries)
    }
}

// The entries in the order of their texts.
fn sorted(mut entries: Vec<(RcStr, u32)>) -> Vec<(RcStr, u32)>
    ensures permutation { IsPermutation entries.items result.items }
    ensures count { length result.items ≡ length entries.items }
    ensures sorted { IsSorted numbered_text_cmp result.items }
{
    entries.sort_unstable();
    entries
}

// The place at which each number stands among the entries.
fn places_of(entries: &[(RcStr, u32)], alloc: Global) -> Result<Vec<u32>, AllocError>
    requires below { AreBelow (length entries.now) (numbers_in entries.now) }
    requires differ { Differ (numbers_in entries.now) }
    requires few { length entries.now < 2 ^ 32 }
    ensures count { IfOk result (λ places. length places.items ≡ length entries.now) }
    ensures places { IfOk result (λ places. GivesPlaces places.items (numbers_in entries.now) (length entries.now)) }
{
    let mut places = vec![in alloc; 0; entries.len()]?;
    for (place, entry) in entries.iter().enumerate() {
        places[entry.1 as usize] = place as u32;
    }
    Ok(places)
}

// The table of the texts of the entries, in their order.
fn table_of(entries: &[(RcStr, u32)], alloc: Global) -> Result<Names, AllocError>
    requires distinct { AreDistinct (texts_in entries.now) }
    requires few { length entries.now < 2 ^ 32 }
    ensures texts { IfOk result (λ names. names ≡ texts_in entries.now) }
{
    let mut names = Names::new(alloc);
    for entry in entries.iter() {
        names.append_shared(entry.0.clone()?)?;
    }
    Ok(names)
}
