// The values of a quantifier's own slots, kept while its tuples stand there.
ghost use Rattle.std.specs.Prelude.{◌≤◌, ◌<◌, length, take};
ghost use Rattle.tl_eval.specs.Frames.{AreSlotValues, PutsBack, PutsBackInScope};
ghost use Rattle.tl_syntax.specs.Lists.{Each};

use crate::env::SLOTS;
use crate::scope::current;
use crate::term_value::value_in;
use tl_syntax::{Value, Var};

/// Puts what the slots of the variables have in the frame into the first places of `values`, in the
/// variables' order. It takes no memory.
pub(crate) fn keep(frames: &[Option<Value>], vars: &[Var], values: &mut [Option<Value>; 9])
    requires room { 32 ≤ length frames.now }
    requires few { length vars.now ≤ 9 }
    ensures { AreSlotValues vars.now (take 32 frames.now) values.new }
{
    let frame = current(frames);
    for (i, var) in vars.iter().enumerate() {
        values[i] = value_in(frame, var.slot);
    }
}

/// Gives the slots of the variables these values in a frame, in the variables' order. It takes no
/// memory.
fn give_values(frame: &mut [Option<Value>], vars: &[Var], values: &[Option<Value>; 9])
    requires slots { Each (λ s. s.slot < length frame.old) vars.now }
    requires few { length vars.now ≤ 9 }
    ensures { PutsBack vars.now values.now frame.old frame.new }
{
    let mut i = vars.len();
    while i > 0 {
        i -= 1;
        frame[vars[i].slot as usize] = values[i];
    }
}

/// Gives the slots of the variables these values in the frame, in the variables' order. It takes no
/// memory.
pub(crate) fn give_back(frames: &mut [Option<Value>], vars: &[Var], values: &[Option<Value>; 9])
    requires room { 32 ≤ length frames.old }
    requires slots { Each (λ s. s.slot < 32) vars.now }
    requires few { length vars.now ≤ 9 }
    ensures { PutsBackInScope vars.now values.now frames.old frames.new }
{
    give_values(&mut frames[..SLOTS], vars, values);
}
