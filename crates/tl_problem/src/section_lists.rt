// What the two sections say, as lists.
ghost use Rattle.std.specs.Prelude.{◌≡◌, IfOk};
ghost use Rattle.tl_problem.specs.Readers.{literals_in, sections_in};
ghost use Rattle.tl_problem.specs.SectionLists.{literals_of, sections_of_lists};

use crate::literals::LiteralTables;
use crate::sections::SectionTables;
use std::alloc::Global;
use tl_syntax::{Facts, NoMemory, PlaceValues};

/// The lists of what a section says.
#[derive(Drop)]
pub(crate) struct Lists {
    pub(crate) facts: Facts,
    pub(crate) values: PlaceValues,
    pub(crate) nots: Facts,
}

/// The lists of both sections.
#[derive(Drop)]
pub(crate) struct SectionLists {
    pub(crate) init: Lists,
    pub(crate) goal: Lists,
}

/// The lists of what the tables of a section say.
fn literal_lists(alloc: Global, literals: LiteralTables) -> Result<Lists, NoMemory>
    ensures { IfOk result (λ lists. literals_of lists ≡ literals_in literals) }
{
    let LiteralTables {
        facts,
        values,
        nots,
    } = literals;
    let Ok(facts) = facts.into_facts(alloc) else {
        drop(values);
        drop(nots);
        return Err(NoMemory);
    };
    let Ok(values) = values.into_values(alloc) else {
        drop(facts);
        drop(nots);
        return Err(NoMemory);
    };
    let Ok(nots) = nots.into_facts(alloc) else {
        drop(facts);
        drop(values);
        return Err(NoMemory);
    };
    Ok(Lists {
        facts,
        values,
        nots,
    })
}

/// The lists of what the tables of both sections say.
pub(crate) fn section_lists(alloc: Global, said: SectionTables) -> Result<SectionLists, NoMemory>
    ensures { IfOk result (λ lists. sections_of_lists lists ≡ sections_in said) }
{
    let SectionTables { init, goal } = said;
    let Ok(init) = literal_lists(alloc, init) else {
        drop(goal);
        return Err(NoMemory);
    };
    let Ok(goal) = literal_lists(alloc, goal) else {
        drop(init);
        return Err(NoMemory);
    };
    Ok(SectionLists { init, goal })
}
