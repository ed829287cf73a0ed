// Whether a formula has temporal words.
ghost use Rattle.std.specs.Prelude.{IsTrue};
ghost use Rattle.tl_syntax.specs.StateFormulas.{IsState, AreState};
ghost use Rattle.tl_syntax.specs.TreeOfFormula.{tree_of_formula, tree_of_formulas};

use tl_syntax::{Formula, Formulas};

/// Whether the formula has no temporal word. It takes no memory.
#[cycle(is_state)]
#[tactic(auto, using(tl_syntax::proofs::FormulaTrees::formula_trees))]
pub(crate) fn is_state(f: &Formula) -> bool
    ensures { IsTrue result → IsState (tree_of_formula f.now) }
{
    match f {
        Formula::True => true,
        Formula::False => true,
        Formula::Atom(_, _) => true,
        Formula::Defined(_, _) => true,
        Formula::Compare(_, _, _) => true,
        Formula::GoalFact(_, _) => true,
        Formula::GoalPlace(_, _, _) => true,
        Formula::GoalNot(_, _) => true,
        Formula::Not(part) => is_state(part),
        Formula::And(parts) => are_state(parts),
        Formula::Or(parts) => are_state(parts),
        Formula::ForAll(_, _, part) => is_state(part),
        Formula::Exists(_, _, part) => is_state(part),
        Formula::Next(_) => false,
        Formula::Always(_) => false,
        Formula::Eventually(_) => false,
        Formula::Until(_, _) => false,
        Formula::Within(_, _) => false,
        Formula::During(_, _) => false,
    }
}

/// Whether none of the formulas has a temporal word. It takes no memory.
#[cycle(is_state)]
fn are_state(parts: &Formulas) -> bool
    ensures { IsTrue result → AreState (tree_of_formulas parts.now) }
{
    for part in parts.as_slice().iter() {
        if !is_state(part) {
            return false;
        }
    }
    true
}
