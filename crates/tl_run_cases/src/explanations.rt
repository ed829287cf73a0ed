// Explanations of plans: the residual in each state.

use crate::checks::{are_bytes, is_true};
use crate::run::{answer_to, are_run, store_of};
use crate::stop::Stop;
use std::alloc::{AllocError, Global};
use tl_outside::{MemorySink, Numbers};
use tl_tables::filled;

/// Rows of the control formula, the initial world, the goal list, the plan, the status, and the
/// output.
const LAMPS: &str = "
explain l p q | l = {lamps} (control {0})) & p = (problem p (init {1}) (goal {2})) & q = {3} | {4} | {5}
(always (implies (on a) (next (on b)))) | {two} | (on a) (on b) | (press a) (press b) | 0 | ; state 0: (always (or (not (on a)) (next (on b)))) / (press a) / ; state 1: (and (on b) (always (or (not (on a)) (next (on b))))) / (press b) / ; state 2: (and (on b) (always (or (not (on a)) (next (on b))))) / ; end
# the second action has no step, and neither has the first
true | {two} | (on a) (on b) | (press a) (press a) | 0 | ; state 0: true / (press a) / ; state 1: true / ; not executable 2
(next (on a)) | {two} | - | (off a) (press a) | 0 | ; state 0: (on a) / ; not executable 1
# no action
(eventually (on b)) | {two} | (on b) | - | 0 | ; state 0: (eventually (on b)) / ; end
# a plan is followed on where its residual is false
(always (not (on a))) | {two} | - | (press a) (off a) | 0 | ; state 0: (always (not (on a))) / (press a) / ; state 1: false / (off a) / ; state 2: false / ; end
# the instances of a quantifier, in value order
{stays} | (lamp a) (lamp b) (on b) | - | (press a) | 0 | ; state 0: (and (on b) (always (forall (?x) (on ?x) (next (on ?x))))) / (press a) / ; state 1: (and (on a) (on b) (always (forall (?x) (on ?x) (next (on ?x))))) / ; end
# an integer
(eventually (on -1)) | (lamp -1) | - | (press -1) | 0 | ; state 0: (eventually (on -1)) / (press -1) / ; state 1: true / ; end
# a plan file that breaks a rule
true | {two} | - | (jump) | 3 | ; refused file 3 rule 30 at 0
";

/// Rows of the three files, the status, and the output.
const RANGES: &str = "
explain d p q | d = {0} & p = {1} & q = {2} | {3} | {4}
# by an action
(domain c (function n 0) (operator (tick) (effects (set (n) (+ (n) 1))))) | (problem p (init (= (n) 9223372036854775806)) (goal)) | (tick) (tick) | 4 | ; range at 60: 9223372036854775807 + 1 / ; after 1 actions
# by progressing, in the first state and in the one after an action
(domain c (function n 0) (control (always (< (+ (n) 1) 5)))) | (problem p (init {max}) (goal)) | - | 4 | ; range at 45: 9223372036854775807 + 1 / ; after 0 actions
(domain c (function n 0) (operator (tick) (effects (set (n) 9223372036854775807))) (control (always (< (+ (n) 1) 5)))) | (problem p (init (= (n) 0)) (goal)) | (tick) | 4 | ; range at 103: 9223372036854775807 + 1 / ; after 1 actions
# progression looks at nothing below a next, and what comes after the first action without a step is not looked at
(domain c (function n 0) (control (next (< (+ (n) 1) 5)))) | (problem p (init {max}) (goal)) | - | 0 | ; state 0: (< (+ (n) 1) 5) / ; end
(domain c (function n 0) (operator (tick) (effects (set (n) (+ (n) 1)))) (operator (stop) (pre false))) | (problem p (init (= (n) 9223372036854775806)) (goal)) | (tick) (stop) (tick) | 0 | ; state 0: true / (tick) / ; state 1: true / ; not executable 2
";

/// Files of a plan of 300 actions, along which the residual grows by a level in each state.
const GROWING: &str =
    "l = {lamps} (control (until (eventually (on b)) (eventually (on c))))) & p = (problem p (init (lamp a)) (goal (on a))) & q = {150 (press a) (off a) }";

/// More bytes than the lines along that plan have.
const ROOM: usize = 2_097_152;

/// The label of the state after so many actions: a level for each state so far, of 51 bytes, around
/// 47 bytes.
fn label_of(alloc: Global, before: u32) -> Result<String, AllocError> {
    if before > 194 {
        return String::from_str(alloc, "long");
    }
    let levels = before + 1;
    let form = format!(in alloc;
        "{{{levels} (or (eventually (on c)) (and (eventually (on b)) }}(until (eventually (on b)) (eventually (on c))){{{levels} ))}}"
    )?;
    filled(alloc, form.as_str(), "")
}

/// The action that leads to the state after so many actions.
fn line_before(before: u32) -> &'static str {
    if before == 0 {
        ""
    } else if before % 2 == 1 {
        "(press a)\n"
    } else {
        "(off a)\n"
    }
}

/// The lines along the plan.
fn growing_lines(alloc: Global) -> Result<String, Stop> {
    let mut out = String::new(alloc);
    for before in 0..301 {
        out.push_str(line_before(before))?;
        let label = label_of(alloc, before)?;
        write!(out, "; state {before}: {label}\n")?;
    }
    out.push_str("; end\n")?;
    Ok(out)
}

/// Labels are written whole up to 10,000 bytes.
#[test]
fn labels_grow_until_they_are_long(rt: HostRuntime) -> Result<(), Stop> {
    let alloc = rt.alloc();
    let wanted = growing_lines(alloc)?;
    let mut store = store_of(alloc, GROWING, "")?;
    let mut out = MemorySink::new(alloc, ROOM, ROOM, Numbers::new(alloc))?;
    let status = answer_to(alloc, "explain l p q", &mut store, &mut out)?;
    is_true(&rt, status.number() == 0, "the status");
    are_bytes(&rt, out.held(), wanted.as_bytes(), "the lines");
    Ok(())
}

#[test]
fn plans_are_explained(rt: HostRuntime) -> Result<(), Stop> {
    are_run(&rt, rt.alloc(), LAMPS)?;
    are_run(&rt, rt.alloc(), RANGES)
}
