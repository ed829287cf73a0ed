// Operators by their names.
ghost use Rattle.std.specs.Prelude.{◌≡◌, ◌==◌, ◌<◌, length, IfSome};
ghost use Rattle.std.specs.List.{position};
ghost use Rattle.tl_line.specs.Actions.{operator_at};

use tl_syntax::{Names, Operator};

/// The position of the operator with a name of this number. It goes over the operators.
fn operator_named(operators: &[Operator], number: u32) -> Option<usize>
    ensures place { result ≡ position (λ operator. operator.name == number) operators.now }
    ensures within { IfSome result (λ place. place < length operators.now) }
{
    operators.iter().position(|one| one.name == number)
}

/// The position of the operator whose name has this text, where there is one. It goes over the
/// operators.
pub fn operator_of(names: &Names, operators: &[Operator], text: &str) -> Option<usize>
    ensures place { result ≡ operator_at names.now operators.now text.now }
    ensures within { IfSome result (λ place. place < length operators.now) }
{
    match names.find(text) {
        Some(number) => operator_named(operators, number),
        None => None,
    }
}
