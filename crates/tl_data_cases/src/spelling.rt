// The forms that bytes spell. What is spelled wrong is told by `run`.

use crate::checks::{is_text, is_true};
use crate::stop::Stop;
use std::alloc::Global;
use std::fmt::Write;
use std::process::Abort;
use tl_sexpr::{Form, Forms, Text, read_forms};
use tl_tables::{column, filled, is_row};

/// Writes the forms with their offsets.
#[cycle(show)]
fn show_forms(out: &mut String, forms: &[Form]) -> Result<(), Stop> {
    for form in forms {
        show_form(out, form)?;
    }
    Ok(())
}

#[cycle(show)]
fn show_form(out: &mut String, form: &Form) -> Result<(), Stop> {
    match form {
        Form::Sym(text, at) => write!(out, "{}@{at} ", text.as_str())?,
        Form::Int(value, at) => write!(out, "{value}#{at} ")?,
        Form::List(forms, at) => {
            write!(out, "( ")?;
            show_forms(out, forms.as_slice())?;
            write!(out, ")@{at} ")?;
        }
    }
    Ok(())
}

/// Compares the forms of bytes: symbols with an `@` and integers with a `#` before their offsets.
fn are_spelled<R: Abort>(rt: &R, alloc: Global, bytes: &[u8], wanted: &str) -> Result<(), Stop> {
    is_true(rt, bytes.len() <= 4_194_304, "the greatest length");
    let forms = read_forms(alloc, bytes)?;
    let mut out = String::new(alloc);
    show_forms(&mut out, forms.as_slice())?;
    is_text(rt, out.as_str().trim_end(), wanted, wanted);
    Ok(())
}

/// Rows of bytes and their forms.
const FORMS: &str = "
- | -
a | a@0
() | ( )@0
 (a 1){lf} | ( a@2 1#4 )@1
(a(b)c)d | ( a@1 ( b@3 )@2 c@5 )@0 d@7
a\tb\rc{lf}d | a@0 b@2 c@4 d@6
- +5 1a ? | -@0 +5@2 1a@5 ?@8
007 -0 -12 | 7#0 0#4 -12#7
-9223372036854775808 9223372036854775807 | -9223372036854775808#0 9223372036854775807#21
a ; end | a@0
!#$%&*+-./:<=>?@^_~ | !#$%&*+-./:<=>?@^_~@0
";

/// Compares the forms of a row.
fn is_spelled<R: Abort>(rt: &R, alloc: Global, row: &str) -> Result<(), Stop> {
    let text = filled(alloc, column(row, 0), "")?;
    are_spelled(rt, alloc, text.as_bytes(), column(row, 1))
}

#[test]
fn lawful_files_are_read(rt: HostRuntime) -> Result<(), Stop> {
    for row in FORMS.lines() {
        if is_row(row) {
            is_spelled(&rt, rt.alloc(), row)?;
        }
    }
    // A comment may have any bytes.
    are_spelled(&rt, rt.alloc(), b"a;\xFF)\"(\nb", "a@0 b@7")
}

#[test]
fn forms_are_made(rt: HostRuntime) -> Result<(), Stop> {
    let text = Text::of(rt.alloc(), "ab")?;
    is_text(&rt, text.as_str(), "ab", "the symbol");
    let mut forms = Forms::new(rt.alloc());
    forms.push(Form::Sym(text, 3))?;
    forms.push(Form::Int(5, 7))?;
    let mut out = String::new(rt.alloc());
    show_forms(&mut out, forms.as_slice())?;
    is_text(&rt, out.as_str(), "ab@3 5#7 ", "the forms");
    Ok(())
}
