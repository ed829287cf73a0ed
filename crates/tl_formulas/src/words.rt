// The words of formulas and effects.
ghost use Rattle.std.specs.Prelude.{◌≡◌};
ghost use Rattle.std.specs.List.{list_any};
ghost use Rattle.std.specs.Str.{bytes_eq};
ghost use Rattle.tl_formulas.specs.Words.{reserved_words, operation_named, formula_word, effect_word};

use tl_syntax::{Cmp, Op};

/// What the first word of a formula's list says, as the rules of formulas tell words apart.
#[derive(Clone, Copy)]
pub enum FormulaWord {
    /// `not`
    Not,
    /// `and`
    And,
    /// `or`
    Or,
    /// `implies`
    Implies,
    /// `next`: in the next state.
    Next,
    /// `always`: now and in every later state.
    Always,
    /// `eventually`: now or in a later state.
    Eventually,
    /// `until`: the first until the second.
    Until,
    /// `within`: in one of the next steps.
    Within,
    /// `for`: in each of the next steps.
    During,
    /// `forall`: for each value in a bound.
    ForAll,
    /// `exists`: for a value in a bound.
    Exists,
    /// `goal`: of the goal, and not of the state.
    Goal,
    /// `=`, `<`, `<=`, `>` or `>=`.
    Compare(Cmp),
    /// Another symbol, which should be the name of a predicate.
    Name,
}

/// What the first word of an effect's list says, as the rules of effects tell words apart.
#[derive(Clone, Copy)]
pub enum EffectWord {
    /// `add`: a fact is added.
    Add,
    /// `del`: a fact is deleted.
    Del,
    /// `set`: a place has a new value.
    Set,
    /// `when`: effects where a formula holds.
    When,
    /// `each`: effects for each value in a bound.
    Each,
    /// Another symbol, which no effect begins with.
    Other,
}

/// Whether a text is a word of the language, which no predicate, function or definition can have.
pub fn is_reserved(text: &str) -> bool
    ensures { result ≡ list_any (bytes_eq text.now) reserved_words }
{
    matches!(
        text,
        "true"
            | "false"
            | "not"
            | "and"
            | "or"
            | "implies"
            | "next"
            | "always"
            | "eventually"
            | "until"
            | "within"
            | "for"
            | "forall"
            | "exists"
            | "goal"
            | "="
            | "<"
            | "<="
            | ">"
            | ">="
            | "+"
            | "-"
            | "*"
    )
}

/// The operation that a word names.
pub(crate) fn operation(text: &str) -> Option<Op>
    ensures { result ≡ operation_named text.now }
{
    match text {
        "+" => Some(Op::Plus),
        "-" => Some(Op::Minus),
        "*" => Some(Op::Times),
        _ => None,
    }
}

/// What the first word of a formula's list says.
pub(crate) fn formula_word(text: &str) -> FormulaWord
    ensures { result ≡ formula_word text.now }
{
    match text {
        "not" => FormulaWord::Not,
        "and" => FormulaWord::And,
        "or" => FormulaWord::Or,
        "implies" => FormulaWord::Implies,
        "next" => FormulaWord::Next,
        "always" => FormulaWord::Always,
        "eventually" => FormulaWord::Eventually,
        "until" => FormulaWord::Until,
        "within" => FormulaWord::Within,
        "for" => FormulaWord::During,
        "forall" => FormulaWord::ForAll,
        "exists" => FormulaWord::Exists,
        "goal" => FormulaWord::Goal,
        "=" => FormulaWord::Compare(Cmp::Eq),
        "<" => FormulaWord::Compare(Cmp::Less),
        "<=" => FormulaWord::Compare(Cmp::AtMost),
        ">" => FormulaWord::Compare(Cmp::More),
        ">=" => FormulaWord::Compare(Cmp::AtLeast),
        _ => FormulaWord::Name,
    }
}

/// What the first word of an effect says.
pub(crate) fn effect_word(text: &str) -> EffectWord
    ensures { result ≡ effect_word text.now }
{
    match text {
        "add" => EffectWord::Add,
        "del" => EffectWord::Del,
        "set" => EffectWord::Set,
        "when" => EffectWord::When,
        "each" => EffectWord::Each,
        _ => EffectWord::Other,
    }
}
