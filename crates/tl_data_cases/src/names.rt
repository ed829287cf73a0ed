// The table of names, and the table in the order of its texts.
ghost use Rattle.std.specs.Prelude.{◌<◌};

use crate::checks::{is_text, is_true};
use crate::stop::Stop;
use std::alloc::Global;
use std::process::Abort;
use tl_syntax::Names;

/// Adds a text, of which it is known what number it gets.
fn adds<R: Abort>(rt: &R, names: &mut Names, text: &str, number: u32) -> Result<(), Stop> {
    is_true(rt, names.len() < u32::MAX, text);
    is_true(rt, names.add(text)? == number, text);
    Ok(())
}

/// Compares the number of a text.
fn finds<R: Abort>(rt: &R, names: &Names, text: &str, number: Option<u32>) {
    assert_eq!(rt; names.find(text), number, "{text}");
}

/// Compares the text of a number, and the number of this text.
fn has_text<R: Abort>(rt: &R, names: &Names, number: u32, text: &str) {
    finds(rt, names, text, Some(number));
    is_true(rt, number < names.len(), text);
    is_text(rt, names.text(number), text, text);
}

/// The table of `b` and `a`.
fn two_texts<R: Abort>(rt: &R, alloc: Global) -> Result<Names, Stop> {
    let mut names = Names::new(alloc);
    for (text, number) in [("b", 0), ("a", 1), ("b", 0)] {
        adds(rt, &mut names, text, number)?;
    }
    Ok(names)
}

/// Compares the numbers of the texts, and the text of a number.
fn are_numbered<R: Abort>(rt: &R, names: &Names) {
    for (text, number) in [("b", Some(0)), ("a", Some(1)), ("c", None), ("", None)] {
        finds(rt, names, text, number);
    }
    is_true(rt, names.len() == 2, "two texts");
    has_text(rt, names, 1, "a");
}

#[test]
fn texts_are_numbered_in_the_order_of_addition(rt: HostRuntime) -> Result<(), Stop> {
    let names = two_texts(&rt, rt.alloc())?;
    are_numbered(&rt, &names);
    Ok(())
}

/// Adds the text of a part, of which it is known what number it gets.
fn adds_part<R: Abort>(
    rt: &R,
    alloc: Global,
    names: &mut Names,
    part: u32,
    number: u32,
) -> Result<(), Stop> {
    let text = format!(in alloc; "name{part}")?;
    adds(rt, names, text.as_str(), number)
}

/// Adds a thousand texts.
fn add_thousand<R: Abort>(rt: &R, alloc: Global, names: &mut Names) -> Result<(), Stop> {
    for number in 0..1000 {
        adds_part(rt, alloc, names, number, number)?;
    }
    Ok(())
}

/// Compares the texts of a thousand numbers.
fn has_thousand<R: Abort>(rt: &R, alloc: Global, names: &Names) -> Result<(), Stop> {
    for number in 0..1000 {
        let text = format!(in alloc; "name{number}")?;
        has_text(rt, names, number, text.as_str());
    }
    Ok(())
}

#[test]
fn a_thousand_texts_are_numbered(rt: HostRuntime) -> Result<(), Stop> {
    let mut names = Names::new(rt.alloc());
    add_thousand(&rt, rt.alloc(), &mut names)?;
    is_true(&rt, names.len() == 1000, "a thousand texts");
    has_thousand(&rt, rt.alloc(), &names)
}

/// Compares the table of two texts in their order, and the list of their new numbers.
fn are_settled<R: Abort>(rt: &R, settled: &Names, numbers: &[u32]) {
    is_true(rt, settled.len() == 2, "two texts");
    for (text, number) in [("a", Some(0)), ("b", Some(1)), ("c", None)] {
        finds(rt, settled, text, number);
    }
    is_true(rt, numbers == [1, 0].as_slice(), "two numbers");
}

#[test]
fn two_texts_are_settled_by_their_order(rt: HostRuntime) -> Result<(), Stop> {
    let names = two_texts(&rt, rt.alloc())?;
    let (settled, numbers) = names.settled(rt.alloc())?;
    are_settled(&rt, &settled, numbers.as_slice());
    Ok(())
}

/// Adds five hundred texts, in another order than that of their bytes.
fn add_scrambled<R: Abort>(rt: &R, alloc: Global, names: &mut Names) -> Result<(), Stop> {
    for number in 0..500u32 {
        adds_part(rt, alloc, names, 100 + number * 7 % 500, number)?;
    }
    Ok(())
}

/// Compares the new number of a text, and the one that the list gives to the old number.
fn is_settled<R: Abort>(
    rt: &R,
    alloc: Global,
    settled: &Names,
    numbers: &[u32],
    number: u32,
) -> Result<(), Stop>
    requires { number < 500 }
{
    let text = format!(in alloc; "name{}", 100 + number)?;
    finds(rt, settled, text.as_str(), Some(number));
    let new = numbers.get(number as usize).copied();
    is_true(rt, new == Some(number * 7 % 500), text.as_str());
    Ok(())
}

/// Compares the new numbers of all texts.
fn all_are_settled<R: Abort>(
    rt: &R,
    alloc: Global,
    settled: &Names,
    numbers: &[u32],
) -> Result<(), Stop> {
    is_true(rt, settled.len() == 500, "all texts");
    is_true(rt, numbers.len() == 500, "all numbers");
    for number in 0..500u32 {
        is_settled(rt, alloc, settled, numbers, number)?;
    }
    Ok(())
}

#[test]
fn scrambled_texts_are_settled_by_their_order(rt: HostRuntime) -> Result<(), Stop> {
    let mut names = Names::new(rt.alloc());
    add_scrambled(&rt, rt.alloc(), &mut names)?;
    let (settled, numbers) = names.settled(rt.alloc())?;
    all_are_settled(&rt, rt.alloc(), &settled, numbers.as_slice())
}
