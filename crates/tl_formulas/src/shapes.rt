// The parts of formulas' and effects' lists.

use tl_rules::Call;
use tl_sexpr::Form;
use tl_syntax::{Cmp, Junction};

/// A form that is no list.
#[derive(Clone, Copy)]
pub(crate) enum Leaf<'a> {
    /// A symbol: its text and its offset.
    Symbol(&'a str, u32),
    /// An integer and its offset.
    Integer(i64, u32),
}

/// A word before one formula.
#[derive(Clone, Copy)]
pub(crate) enum Unary {
    Not,
    Next,
    Always,
    Eventually,
}

/// A word before two formulas.
#[derive(Clone, Copy)]
pub(crate) enum Binary {
    Implies,
    Until,
}

/// Two forms.
#[derive(Clone, Copy)]
pub(crate) struct Pair<'a> {
    /// The first.
    pub(crate) first: &'a Form,
    /// The second.
    pub(crate) second: &'a Form,
}

/// A list of variables.
#[derive(Clone, Copy)]
pub(crate) struct VariableList<'a> {
    /// The variables.
    pub(crate) variables: &'a [Form],
    /// The offset of the list.
    pub(crate) at: u32,
}

/// Variables and their bound.
#[derive(Clone, Copy)]
pub(crate) struct Binding<'a> {
    /// The list of the variables.
    pub(crate) list: VariableList<'a>,
    /// The bound that gives them their values.
    pub(crate) bound: &'a Form,
}

/// The parts of a quantifier.
#[derive(Clone, Copy)]
pub(crate) struct Quantified<'a> {
    /// `forall` for all instances, and `exists` for any.
    pub(crate) junction: Junction,
    /// The variables and their bound.
    pub(crate) binding: Binding<'a>,
    /// The formula.
    pub(crate) form: &'a Form,
}

/// The parts of a formula over a number of steps.
#[derive(Clone, Copy)]
pub(crate) struct Counted<'a> {
    /// `for` for all steps, and `within` for any.
    pub(crate) junction: Junction,
    /// The number of steps, as it is written.
    pub(crate) steps: i64,
    /// The offset of that number.
    pub(crate) steps_at: u32,
    /// The formula.
    pub(crate) form: &'a Form,
}

/// The first word of a formula's list and the elements after it, in the shape that the word asks
/// for.
#[derive(Clone, Copy)]
pub(crate) enum FormulaParts<'a> {
    /// A word before one formula.
    One(Unary, &'a Form),
    /// A word before two formulas.
    Two(Binary, Pair<'a>),
    /// `and` before all of its formulas, or `or` before any of them.
    Many(Junction, &'a [Form]),
    /// A quantifier.
    Quantified(Quantified<'a>),
    /// A formula over a number of steps.
    Counted(Counted<'a>),
    /// The argument of `goal`.
    Goal(&'a Form),
    /// A comparison of two terms.
    Compare(Cmp, Pair<'a>),
    /// The arguments of an atom.
    Atom(&'a [Form]),
}

/// The first word of an effect's list and the elements after it, in the shape that the word asks
/// for.
#[derive(Clone, Copy)]
pub(crate) enum EffectParts<'a> {
    /// The fact that is added.
    Add(Call<'a>),
    /// The fact that is deleted.
    Del(Call<'a>),
    /// The place that is set, and its new value.
    Set(Call<'a>, &'a Form),
    /// A condition, and the effects where it holds.
    When(&'a Form, &'a [Form]),
    /// Variables with their bound, and the effects for each of their values.
    Each(Binding<'a>, &'a [Form]),
}
