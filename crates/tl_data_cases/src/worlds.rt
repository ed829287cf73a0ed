// Worlds without a domain, as they are written.

use crate::stop::Stop;
use std::alloc::Global;
use tl_sexpr::{Form, Forms, read_forms};
use tl_syntax::{Fact, Facts, Names, PlaceValue, PlaceValues, Value, Values};
use tl_world::World;

/// The symbols of all rows, then their predicates, and then their functions, by their numbers.
const NAMES: &str = "a b c p edge r q f n";

/// The table of the names of all rows.
pub(crate) fn all_names(alloc: Global) -> Result<Names, Stop> {
    let mut names = Names::new(alloc);
    for text in NAMES.split(' ') {
        if names.len() < u32::MAX {
            names.add(text)?;
        }
    }
    Ok(names)
}

/// The forms of a text.
pub(crate) fn forms_of(alloc: Global, text: &str) -> Result<Forms, Stop> {
    if text.len() > 4_194_304 {
        return Err(Stop::Row("the text is too long"));
    }
    Ok(read_forms(alloc, text.as_bytes())?)
}

/// The number of a text among the names.
fn number_of(names: &Names, text: &str) -> Result<u32, Stop> {
    match names.find(text) {
        Some(number) => Ok(number),
        None => Err(Stop::Row("there is no name")),
    }
}

/// The value of a form.
fn value_of(names: &Names, form: &Form) -> Result<Value, Stop> {
    match form {
        Form::Sym(text, _) => Ok(Value::Sym(number_of(names, text.as_str())?)),
        Form::Int(number, _) => Ok(Value::Int(*number)),
        Form::List(_, _) => Err(Stop::Row("a list is no value")),
    }
}

/// The values of forms.
pub(crate) fn values_of(alloc: Global, names: &Names, forms: &[Form]) -> Result<Values, Stop> {
    let mut values = Values::new(alloc);
    for form in forms {
        values.push(value_of(names, form)?)?;
    }
    Ok(values)
}

/// The parts of a list.
pub(crate) fn parts_of(form: &Form) -> &[Form] {
    match form {
        Form::List(parts, _) => parts.as_slice(),
        _ => &[],
    }
}

/// The number of the name at the front of a list, and the values after it.
fn call_of(alloc: Global, names: &Names, form: &Form) -> Result<(u32, Values), Stop> {
    let [Form::Sym(text, _), args @ ..] = parts_of(form) else {
        return Err(Stop::Row("the form is no list that begins with a name"));
    };
    let number = number_of(names, text.as_str())?;
    Ok((number, values_of(alloc, names, args)?))
}

/// What a text says: facts, and places with their values.
#[derive(Drop)]
pub(crate) struct Said {
    pub facts: Facts,
    pub places: PlaceValues,
}

/// Adds what a form says: a place with its value, where its second part is a list, and else a fact.
fn add_said(alloc: Global, names: &Names, form: &Form, said: &mut Said) -> Result<(), Stop> {
    match parts_of(form) {
        [_, place, value] if parts_of(place).len() > 0 => {
            let (fun, args) = call_of(alloc, names, place)?;
            let value = value_of(names, value)?;
            said.places.push(PlaceValue { fun, args, value })?;
        }
        _ => {
            let (pred, args) = call_of(alloc, names, form)?;
            said.facts.push(Fact { pred, args })?;
        }
    }
    Ok(())
}

/// What a text says.
pub(crate) fn said_in(alloc: Global, names: &Names, text: &str) -> Result<Said, Stop> {
    let mut said = Said {
        facts: Facts::new(alloc),
        places: PlaceValues::new(alloc),
    };
    let forms = forms_of(alloc, text)?;
    for form in forms.as_slice() {
        add_said(alloc, names, form, &mut said)?;
    }
    Ok(said)
}

/// The world of a text of facts and places with their values.
pub(crate) fn world_in(alloc: Global, names: &Names, text: &str) -> Result<World, Stop> {
    let said = said_in(alloc, names, text)?;
    Ok(World::of(alloc, said.facts.as_slice(), said.places.as_slice())?)
}
