// Lists, and the action that has one.

use crate::checks::{are_bytes, is_true};
use crate::stop::Stop;
use tl_syntax::{Action, Bytes, Numbers32, Value, Values};

#[test]
fn lists_keep_what_is_pushed(rt: HostRuntime) -> Result<(), Stop> {
    let mut numbers = Numbers32::new(rt.alloc());
    is_true(&rt, numbers.is_empty(), "no number");
    numbers.push(1)?;
    numbers.push(2)?;
    is_true(&rt, numbers.as_slice() == [1, 2].as_slice(), "two numbers");
    is_true(&rt, numbers.len() == 2, "their count");
    Ok(())
}

#[test]
fn lists_keep_what_they_are_extended_by(rt: HostRuntime) -> Result<(), Stop> {
    let mut bytes = Bytes::new(rt.alloc());
    bytes.extend(b"ab")?;
    bytes.extend(b"c")?;
    are_bytes(&rt, bytes.as_slice(), b"abc", "three bytes");
    Ok(())
}

#[test]
fn copies_of_actions_are_equal(rt: HostRuntime) -> Result<(), Stop> {
    let alloc = rt.alloc();
    let mut args = Values::new(alloc);
    args.push(Value::Int(-1))?;
    args.push(Value::Sym(7))?;
    let press = Action { op: 3, args };
    let copy = press.copy(alloc)?;
    is_true(&rt, copy == press, "the copy");
    Ok(())
}
