// The texts of names, values and signs.
ghost use Rattle.std.specs.Prelude.{◌≡◌, OnOk};
ghost use Rattle.std.specs.Fmt.{decimal};
ghost use Rattle.tl_label.specs.Labels.{definition_text};
ghost use Rattle.tl_label.specs.Lines.{after};
ghost use Rattle.tl_label.specs.Terms.{declared_text, operation_text, comparison_text};
ghost use Rattle.tl_line.specs.ActionTexts.{name_text, value_text};

use crate::line::Line;
use itoa::Buffer;
use tl_syntax::{Cmp, Declared, Definition, Names, NoMemory, Op, Value};

/// The text of a name's number; past the table it is empty.
fn name_of(names: &Names, number: u32) -> &str
    ensures { result.now ≡ name_text names.now number }
{
    if number < names.len() {
        names.text(number)
    } else {
        ""
    }
}

/// Puts a name at the end.
pub(crate) fn put_name(names: &Names, name: u32, line: &mut Line) -> Result<(), NoMemory>
    ensures { OnOk result (line.new ≡ after line.old (name_text names.now name)) }
{
    line.put(name_of(names, name).as_bytes())
}

/// Puts a number in decimal at the end.
pub(crate) fn put_number(number: u32, line: &mut Line) -> Result<(), NoMemory>
    ensures { OnOk result (line.new ≡ after line.old (decimal number)) }
{
    let mut buffer = Buffer::new();
    line.put(buffer.format(number).as_bytes())
}

/// Puts a value at the end.
pub(crate) fn put_value(names: &Names, value: Value, line: &mut Line) -> Result<(), NoMemory>
    ensures { OnOk result (line.new ≡ after line.old (value_text names.now value)) }
{
    match value {
        Value::Int(number) => {
            let mut buffer = Buffer::new();
            line.put(buffer.format(number).as_bytes())
        }
        Value::Sym(name) => put_name(names, name, line),
    }
}

/// The name of the predicate or function at a position.
pub(crate) fn declared_name<'a>(names: &'a Names, declared: &[Declared], at: u32) -> &'a str
    ensures { result.now ≡ declared_text names.now declared.now at }
{
    match declared.get(at as usize) {
        Some(found) => name_of(names, found.name),
        None => "",
    }
}

/// The name of the definition at a position.
pub(crate) fn definition_name<'a>(names: &'a Names, definitions: &[Definition], at: u32) -> &'a str
    ensures { result.now ≡ definition_text names.now definitions.now at }
{
    match definitions.get(at as usize) {
        Some(found) => name_of(names, found.name),
        None => "",
    }
}

/// The sign of an operation.
pub(crate) fn operation_sign(op: Op) -> &'static str
    ensures { result.now ≡ operation_text op }
{
    match op {
        Op::Plus => "+",
        Op::Minus => "-",
        Op::Times => "*",
    }
}

/// The sign of a comparison.
pub(crate) fn comparison_sign(cmp: Cmp) -> &'static str
    ensures { result.now ≡ comparison_text cmp }
{
    match cmp {
        Cmp::Eq => "=",
        Cmp::Less => "<",
        Cmp::AtMost => "<=",
        Cmp::More => ">",
        Cmp::AtLeast => ">=",
    }
}
