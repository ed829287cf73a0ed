// Places of formulas.

/// Where a formula stands.
#[derive(Clone, Copy)]
pub enum FormulaRole {
    /// In the control formula, where temporal words may stand.
    Control,
    /// In a precondition, a condition or below the body of a definition, where none may.
    State,
    /// As the body of a definition, which has at most 24 lists within one another.
    Body,
}
