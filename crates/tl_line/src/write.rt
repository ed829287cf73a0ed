// The text of an action.
ghost use Rattle.std.specs.Prelude.{◌≡◌, ◌<◌, length, OnOk};
ghost use Rattle.tl_syntax.specs.Lists.{Each};
ghost use Rattle.tl_syntax.specs.Named.{ValueIsNamed};
ghost use Rattle.tl_line.specs.ActionTexts.{value_text, values_text, operator_text, action_text};
ghost use Rattle.tl_line.specs.Puts.{Puts};
ghost use Rattle.tl_line.specs.WritableActions.{ArgumentsFit, ValueFits};

use itoa::Buffer;
use tl_syntax::{Action, Bytes, Names, NoMemory, Problem, Value};

/// Puts the text of a value at the end.
fn put_value(names: &Names, value: Value, out: &mut Bytes) -> Result<(), NoMemory>
    requires { ValueIsNamed (length names.now) value }
    ensures text { Puts result out.old out.new (value_text names.now value) }
    ensures fits { OnOk result (ValueFits value) }
{
    match value {
        Value::Int(number) => {
            let mut buffer = Buffer::new();
            out.extend(buffer.format(number).as_bytes())?;
        }
        Value::Sym(name) => out.extend(names.text(name).as_bytes())?,
    }
    Ok(())
}

/// Puts a space and the text of a value at the end, for each value.
#[tactic(auto, using(crate::proofs::Growth::growth))]
fn put_values(names: &Names, values: &[Value], out: &mut Bytes) -> Result<(), NoMemory>
    requires { Each (ValueIsNamed (length names.now)) values.now }
    ensures text { Puts result out.old out.new (values_text names.now values.now) }
    ensures fits { OnOk result (Each ValueFits values.now) }
{
    for value in values {
        out.extend(b" ")?;
        put_value(names, *value, out)?;
    }
    Ok(())
}

/// The name of the operator at a position.
fn operator_name(problem: &Problem, op: u32) -> &str
    requires { op < length problem.now.domain.operators }
    ensures { result.now ≡ operator_text problem.now.names problem.now.domain.operators op }
{
    let operator = &problem.domain.operators.as_slice()[op as usize];
    problem.names.text(operator.name)
}

/// Puts an action at the end, as a plan file writes it: the operator's name and the arguments in
/// parentheses, with no end of a line.
/// Where memory runs out, the bytes may have grown by a part of the text.
#[tactic(auto, using(crate::proofs::Growth::growth))]
pub fn put_action(problem: &Problem, a: &Action, out: &mut Bytes) -> Result<(), NoMemory>
    requires operator { a.now.op < length problem.now.domain.operators }
    requires named { Each (ValueIsNamed (length problem.now.names)) a.now.args }
    ensures text { Puts result out.old out.new (action_text problem.now.names
        problem.now.domain.operators a.now) }
    ensures fits { OnOk result (ArgumentsFit a.now) }
{
    out.extend(b"(")?;
    out.extend(operator_name(problem, a.op).as_bytes())?;
    put_values(&problem.names, a.args.as_slice(), out)?;
    out.extend(b")")?;
    Ok(())
}
