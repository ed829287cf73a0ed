// The frame of the scope that is read: the first 32 slots of a slice.
ghost use Rattle.std.specs.Prelude.{◌≡◌, ◌≤◌, ◌<◌, length, take};
ghost use Rattle.tl_eval.specs.Frames.{Binds, BindsInScope};
ghost use Rattle.tl_syntax.specs.Lists.{Each};

use crate::env::SLOTS;
use tl_syntax::{Value, Var};

/// Gives the variables their values in a frame. It takes no memory.
pub(crate) fn put_values(frame: &mut [Option<Value>], vars: &[Var], values: &[Value])
    requires slots { Each (λ s. s.slot < length frame.old) vars.now }
    requires same { length vars.now ≡ length values.now }
    ensures { Binds vars.now values.now frame.old frame.new }
{
    let mut i = vars.len();
    while i > 0 {
        i -= 1;
        frame[vars[i].slot as usize] = Some(values[i]);
    }
}

/// Gives the variables their values in the frame. It takes no memory.
pub(crate) fn put_in_scope(frames: &mut [Option<Value>], vars: &[Var], values: &[Value])
    requires room { 32 ≤ length frames.old }
    requires slots { Each (λ s. s.slot < 32) vars.now }
    requires same { length vars.now ≡ length values.now }
    ensures { BindsInScope vars.now values.now frames.old frames.new }
{
    put_values(&mut frames[..SLOTS], vars, values);
}

/// The frame. It takes no memory.
pub(crate) fn current(frames: &[Option<Value>]) -> &[Option<Value>]
    requires { 32 ≤ length frames.now }
    ensures { result.now ≡ take 32 frames.now }
{
    &frames[..SLOTS]
}

/// The frame again. It takes no memory.
pub(crate) fn saved(frames: &[Option<Value>]) -> [Option<Value>; 32]
    requires { 32 ≤ length frames.now }
    ensures { result ≡ take 32 frames.now }
{
    let mut frame = [None; 32];
    frame.copy_from_slice(&frames[..SLOTS]);
    frame
}

/// Makes the frame the given one. It takes no memory.
pub(crate) fn restore(frames: &mut [Option<Value>], frame: &[Option<Value>; 32])
    requires { 32 ≤ length frames.old }
    ensures { take 32 frames.new ≡ frame.now }
{
    frames[..SLOTS].copy_from_slice(frame);
}
