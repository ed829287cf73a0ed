// Defined predicates.
ghost use Rattle.tl_terms.specs.LawsDefinitions.{DefinedIsItsBody, PlainlyDefinedIsItsBody};

/// A definition is true of values where its body is, at the level of its number of levels; in a
/// body its own name means the body one level lower.
pub fn defined_atom_is_its_body()
    ensures { DefinedIsItsBody }
{}

/// A definition whose body names only earlier ones is true of values where its body is.
pub fn plainly_defined_atom_is_its_body()
    ensures { PlainlyDefinedIsItsBody }
{}
