// The instances of quantifiers.

use crate::binder::Binder;
use crate::labels::Labels;

/// An instance of a quantifier, whose values are in the frame.
#[derive(Drop)]
pub(crate) struct Instance<'a> {
    /// The quantifier.
    pub(crate) binder: Binder<'a>,
    /// Where the values make the bound true.
    pub(crate) there: Labels,
}
