// Frames as they are read by a call.
ghost use Rattle.std.specs.Prelude.{◌≡◌, ◌≤◌, ◌+◌, [], false, length, IfOk, OnOk, IsTrue};
ghost use Rattle.tl_eval.specs.Frames.{assignment_in};
ghost use Rattle.tl_progress.specs.FrameValues.{with_slot, BindsBefore, HaveNoValue};
ghost use Rattle.tl_syntax.specs.Assignment.{no_values};
ghost use Rattle.tl_syntax.specs.Bindings.{assignment_of};

use crate::few_bindings::FewBindings;
use std::alloc::Global;
use tl_syntax::{Binding, Bindings, NoMemory, Value};

/// A frame in which no slot has a value.
pub(crate) fn empty_frame() -> [Option<Value>; 32]
    ensures { assignment_in result ≡ no_values }
{
    [None; 32]
}

// Adds the binding of a slot, where it has a value.
fn bind_slot(out: &mut Bindings, slot: u32, value: Option<Value>) -> Result<(), NoMemory>
    ensures { OnOk result (out.new ≡ with_slot out.old slot value) }
{
    match value {
        Some(given) => {
            out.push(Binding {
                slot,
                value: Some(given),
            })?;
            Ok(())
        }
        None => Ok(()),
    }
}

/// The values of a frame, as bindings of their slots.
pub(crate) fn bindings_in(alloc: Global, frame: &[Option<Value>]) -> Result<Bindings, NoMemory>
    requires { length frame.now ≡ 32 }
    ensures { IfOk result (λ bindings. assignment_of bindings ≡ assignment_in frame.now) }
{
    let mut out = Bindings::new(alloc);
    for slot in 0..32_u32 {
        bind_slot(&mut out, slot, frame[slot as usize])?;
    }
    Ok(out)
}

// Adds the binding of a slot, where it has a value. False: there is no room for it.
fn bind_few(out: &mut FewBindings, slot: u32, value: Option<Value>) -> bool
    ensures { IsTrue result → out.new ≡ with_slot out.old slot value }
{
    match value {
        Some(given) => out.push(Binding {
            slot,
            value: Some(given),
        }),
        None => true,
    }
}

// Adds the bindings of the slots from one on up to another. False: there is no room for them.
fn put_slots(out: &mut FewBindings, frame: &[Option<Value>], from: u32, to: u32) -> bool
    requires before { BindsBefore from frame.now out.old }
    requires within { to ≤ length frame.now }
    requires up { from ≤ to }
    ensures { IsTrue result → BindsBefore to frame.now out.new }
{
    for slot in from..to {
        if !bind_few(out, slot, frame[slot as usize]) {
            return false;
        }
    }
    true
}

// Whether one of the four slots from this one on has a value.
fn has_value(frame: &[Option<Value>], slot: usize) -> bool
    requires { slot + 4 ≤ length frame.now }
    ensures { result ≡ false → HaveNoValue slot frame.now }
{
    let first = frame[slot].is_some() | frame[slot + 1].is_some();
    let second = frame[slot + 2].is_some() | frame[slot + 3].is_some();
    first | second
}

/// Puts the values of a frame to no bindings, as bindings of their slots. False: they are more than
/// a few. It takes no memory.
///
/// Most slots have no value, and four are asked at once.
pub(crate) fn put_few(out: &mut FewBindings, frame: &[Option<Value>]) -> bool
    requires none { out.old ≡ [] }
    requires slots { length frame.now ≡ 32 }
    ensures { IsTrue result → assignment_of out.new ≡ assignment_in frame.now }
{
    for four in 0..8_u32 {
        let slot = 4 * four;
        if !has_value(frame, slot as usize) {
            continue;
        }
        if !put_slots(out, frame, slot, slot + 4) {
            return false;
        }
    }
    true
}

/// Whether no slot of the frame has a value.
pub(crate) fn is_empty_frame(frame: &[Option<Value>]) -> bool
    ensures { IsTrue result → assignment_in frame.now ≡ no_values }
{
    frame.iter().all(|value| value.is_none())
}
