// Laws about spelling.
ghost use Rattle.tl_sexpr.specs.Offsets.{OffsetsRise};
ghost use Rattle.tl_sexpr.specs.Spelling.{OneSpelling};
ghost use Rattle.tl_sexpr.specs.Symbols.{SymbolsAreTokens};

/// The law that bytes spell at most one list of forms. A call does nothing.
pub fn one_spelling()
    ensures { OneSpelling }
{}

/// The law that the offsets of the forms that bytes spell rise in reading order, and are below the
/// number of the bytes. A call does nothing.
pub fn offsets_rise()
    ensures { OffsetsRise }
{}

/// The law that each symbol of the forms that bytes spell has one or more bytes of tokens as its
/// text, and no integer. A call does nothing.
pub fn symbols_are_tokens()
    ensures { SymbolsAreTokens }
{}
