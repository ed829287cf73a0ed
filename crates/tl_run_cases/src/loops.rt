// Plans with a repeated part: the verdicts on them, operations past range, and their files.

use crate::run::are_run;
use crate::stop::Stop;

/// Rows of the items of the domain after those of the lamps, the initial world, the goal list and
/// the plan file; then the status, and the output.
const VERDICTS: &str = "
check-loop l p q | l = {lamps} {0}) & p = (problem p (init {1}) (goal {2})) & q = {3} | {4} | {5}
# again and again; from some time on for ever; not closed; the goal is false where the repeated part begins
(control (always (eventually (on a)))) | (lamp a) | - | (repeat (press a) (off a)) | 0 | ; valid for ever
(control (eventually (always (on a)))) | (lamp a) | (on a) | (press a) (repeat (off a) (press a)) | 1 | ; disobeys
- | (lamp a) | - | (repeat (press a)) | 1 | ; not closed
- | (lamp a) | (on a) | (repeat (press a) (off a)) | 1 | ; goal unmet
# the repeated part ends where it began, and not where the plan did
- | {two} | (on a) | (press a) (repeat (press b) (off b)) | 0 | ; valid for ever
- | {two} | - | (press a) (repeat (off a)) | 1 | ; not closed
# the goal is tested where the repeated part begins alone
- | (lamp a) | (on a) | (press a) (repeat (off a) (press a)) | 0 | ; valid for ever
- | (lamp a) | (not (on a)) | (repeat (press a) (off a)) | 0 | ; valid for ever
- | (lamp a) | (not (on a)) | (press a) (repeat (off a) (press a)) | 1 | ; goal unmet
# actions are counted through both parts
- | (lamp a) | - | (off a) (repeat (press a) (off a)) | 1 | ; not executable 1
- | {two} | - | (press a) (repeat (press b) (press a)) | 1 | ; not executable 3
- | (lamp a) | - | {5 (press a) (off a) }(press a) (repeat (press a)) | 1 | ; not executable 12
# the first verdict in the order is told
(control false) | (lamp a) | (on b) | (repeat (press a) (press a)) | 1 | ; not executable 2
(control false) | (lamp a) | (on b) | (repeat (press a)) | 1 | ; not closed
(control false) | (lamp a) | (on b) | (repeat (press a) (off a)) | 1 | ; goal unmet
(control false) | (lamp a) | - | (repeat (press a) (off a)) | 1 | ; disobeys
# an action that changes nothing is repeated
(operator (wait) (effects)) (control (always (not (on a)))) | (lamp a) | - | (repeat (wait)) | 0 | ; valid for ever
(operator (wait) (effects)) (control {settles}) | {two} | (on a) (on b) | (press a) (press b) (repeat (wait)) | 0 | ; valid for ever
(operator (wait) (effects)) (control (eventually (on b))) | {two} | (on a) | (press a) (repeat (wait)) | 1 | ; disobeys
# what is asked for comes in the next round, or never
(control (always (implies (on a) (next (eventually (on a)))))) | (lamp a) | - | (repeat (press a) (off a)) | 0 | ; valid for ever
(control (always (implies (on a) (next (eventually (on a)))))) | {two} | - | (press a) (off a) (repeat (press b) (off b)) | 1 | ; disobeys
(control (until (not (on b)) (on a))) | {two} | - | (repeat (press a) (off a)) | 0 | ; valid for ever
(control (until (not (on b)) (on b))) | {two} | - | (repeat (press a) (off a)) | 1 | ; disobeys
(control (always (not (and (on a) (on b))))) | {two} | - | (repeat (press a) (off a) (press b) (off b)) | 0 | ; valid for ever
(control (always (not (and (on a) (on b))))) | {two} | - | (press a) (repeat (press b) (off b)) | 1 | ; disobeys
# steps are counted round the loop
(control (always (within 3 (on a)))) | {two} | - | (repeat (press a) (off a) (press b) (off b)) | 0 | ; valid for ever
(control (always (within 2 (on a)))) | {two} | - | (repeat (press a) (off a) (press b) (off b)) | 1 | ; disobeys
(control (eventually (for 9 (on b)))) | {two} | - | (press b) (repeat (press a) (off a)) | 0 | ; valid for ever
(control (eventually (for 1 (on a)))) | {two} | - | (repeat (press a) (off a)) | 1 | ; disobeys
# for all lamps that are on in a state, and for some lamp
(control {goes}) | {two} | - | (repeat (press a) (off a)) | 0 | ; valid for ever
(control {goes}) | {two} | - | (press a) (repeat (press b) (off b)) | 1 | ; disobeys
(control {stays}) | {two} | - | (press a) (repeat (press b) (off b)) | 1 | ; disobeys
(control {light}) | {two} | - | (press a) (repeat (press b) (off a) (press a) (off b)) | 0 | ; valid for ever
(control {light}) | {two} | - | (repeat (press a) (press b) (off a) (off b)) | 1 | ; disobeys
(control {wanted}) | {two} | (on a) | (press a) (repeat (press b) (off b)) | 0 | ; valid for ever
(control {wanted}) | {two} | (on b) | (press b) (repeat (press a) (off b) (press b) (off a)) | 1 | ; disobeys
# comments between the parts
- | (lamp a) | - | ; first{lf}(press a); on{lf}(off a){lf}(repeat ; for ever{lf}(press a){lf}(off a)){lf} | 0 | ; valid for ever
";

/// Rows of the items of a domain with a counter, its value, the goal list and the plan file; then
/// the status, and the output.
const RANGES: &str = "
check-loop c p q | c = (domain c (function n 0) {0}) & p = (problem p (init (= (n) {1})) (goal {2})) & q = {3} | {4} | {5}
# in an action of the first part, and of the repeated one
(operator (tick) (effects (set (n) (+ (n) 1)))) | 9223372036854775807 | - | (tick) (repeat (tick)) | 4 | ; range at 60: 9223372036854775807 + 1 / ; after 0 actions
(operator (tick) (effects (set (n) (+ (n) 1)))) | 9223372036854775806 | - | (tick) (repeat (tick)) | 4 | ; range at 60: 9223372036854775807 + 1 / ; after 1 actions
# an action before it is not executable, or it is not one of the plan
(operator (tick) (effects (set (n) (+ (n) 1)))) (operator (stop) (pre false)) | 9223372036854775806 | - | (tick) (repeat (stop) (tick)) | 1 | ; not executable 2
(operator (tick) (effects (set (n) (+ (n) 1)))) (operator (wait) (effects)) | 9223372036854775807 | - | (repeat (wait)) | 0 | ; valid for ever
# in the control formula, in the first state and in a later one
(operator (wait) (effects)) (control (always (< (+ (n) 1) 5))) | 9223372036854775807 | - | (repeat (wait)) | 4 | ; range at 73: 9223372036854775807 + 1 / ; after 0 actions
(operator (tick) (effects (set (n) (+ (n) 1)))) (operator (back) (effects (set (n) (- (n) 1)))) (control (always (not (= (+ (n) 1) 0)))) | 9223372036854775806 | - | (repeat (tick) (back)) | 4 | ; range at 146: 9223372036854775807 + 1 / ; after 1 actions
(operator (tick) (effects (set (n) (+ (n) 1)))) (operator (back) (effects (set (n) (- (n) 1)))) (control (always (not (= (+ (n) 1) 0)))) | 9223372036854775805 | - | (tick) (repeat (tick) (back)) | 4 | ; range at 146: 9223372036854775807 + 1 / ; after 2 actions
# one that is just within range
(operator (tick) (effects (set (n) (+ (n) 1)))) (operator (back) (effects (set (n) (- (n) 1)))) (control (always (not (= (+ (n) 1) 0)))) | 9223372036854775805 | - | (repeat (tick) (back)) | 0 | ; valid for ever
# a plan that is not closed, or misses the goal, has a verdict before the control formula is looked at
(operator (tick) (effects (set (n) (+ (n) 1)))) (control (always (< (+ (n) 1) 5))) | 9223372036854775806 | - | (repeat (tick)) | 1 | ; not closed
(operator (wait) (effects)) (control (always (< (+ (n) 1) 5))) | 9223372036854775807 | (= (n) 0) | (repeat (wait)) | 1 | ; goal unmet
";

/// Rows of words, over two lamps, their problem and a plan with a repeated part; then the status,
/// and the output.
const WORDS: &str = "
{0} | l = {lamps}) & p = {ab} & q = (press a) (press b) (repeat (off a) (press a)) | {1} | {2}
check-loop l p q | 0 | ; valid for ever
check-loop l p | 8 | -
check-loop l p q q | 8 | -
check-loop 5 l p q | 8 | -
check-loop | 8 | -
check_loop l p q | 8 | -
check-loops l p q | 8 | -
# for other commands the file is no plan, and no proof
check l p q | 3 | ; refused file 3 rule 30 at 20
explain l p q | 3 | ; refused file 3 rule 30 at 20
check-none l p q | 3 | ; refused file 3 rule 10 at 0
# files in turn
check-loop l p other | 5 | -
check-loop l other q | 5 | -
check-loop other p q | 5 | -
check-loop l q other | 3 | ; refused file 2 rule 10 at 0
check-loop p p other | 3 | ; refused file 1 rule 10 at 0
";

/// Rows of a plan file, over a domain whose one action is called `repeat` and changes nothing; then
/// the status, and the output.
const NAMED_REPEAT: &str = "
check-loop r p q | r = (domain r (operator (repeat) (effects))) & p = (problem p (init) (goal)) & q = {0} | {1} | {2}
(repeat) (repeat (repeat)) | 0 | ; valid for ever
(repeat (repeat) (repeat)) | 0 | ; valid for ever
# it cannot be the last form
(repeat) | 3 | ; refused file 3 rule 10 at 0
(repeat) (repeat) | 3 | ; refused file 3 rule 10 at 9
";

/// Rows of a plan file for two lamps, and the output.
const REFUSALS: &str = "
check-loop l ab q | l = {lamps}) & ab = {ab} & q = {0} | 3 | {1}
# no repeated part, or none with an action
- | ; refused file 3 rule 10 at 0
; a comment alone | ; refused file 3 rule 10 at 0
(repeat) | ; refused file 3 rule 10 at 0
repeat | ; refused file 3 rule 10 at 0
(press a) | ; refused file 3 rule 10 at 0
(press a) (off a) | ; refused file 3 rule 10 at 10
(press a) (repeat) | ; refused file 3 rule 10 at 10
(press a) repeat | ; refused file 3 rule 10 at 10
(press a) 7 | ; refused file 3 rule 10 at 10
(repeated (press a)) | ; refused file 3 rule 10 at 0
((repeat) (press a)) | ; refused file 3 rule 10 at 0
# the repeated part is the last form
(repeat (press a)) (off a) | ; refused file 3 rule 30 at 0
(repeat (press a)) (repeat (off a)) | ; refused file 3 rule 30 at 0
# actions of both parts
(repeat press) | ; refused file 3 rule 10 at 8
(repeat (press a) ()) | ; refused file 3 rule 10 at 18
(repeat (1 a)) | ; refused file 3 rule 10 at 8
press (repeat (off a)) | ; refused file 3 rule 10 at 0
(repeat (jump)) | ; refused file 3 rule 30 at 8
(jump) (repeat) | ; refused file 3 rule 30 at 0
(repeat (press)) | ; refused file 3 rule 31 at 8
(repeat (press a b)) | ; refused file 3 rule 31 at 8
(press a b) (repeat (off a)) | ; refused file 3 rule 31 at 0
(repeat (press a) (press zz)) | ; refused file 3 rule 32 at 25
(press zz) (repeat) | ; refused file 3 rule 32 at 7
# the text
(repeat (press a) | ; refused file 3 rule 3 at 0
(repeat (press a))) | ; refused file 3 rule 2 at 18
(repeat 9223372036854775808) | ; refused file 3 rule 5 at 8
(repeat){4194297  } | ; refused file 3 rule 6 at 4194304
# too many actions in both parts together
{99999 (press a) }(repeat (press a) (off a)) | ; refused file 3 rule 19 at 1000008
{100001 (press a) }(repeat) | ; refused file 3 rule 19 at 1000000
";

#[test]
fn plans_with_a_repeated_part_have_their_answers(rt: HostRuntime) -> Result<(), Stop> {
    are_run(&rt, rt.alloc(), VERDICTS)?;
    are_run(&rt, rt.alloc(), RANGES)?;
    are_run(&rt, rt.alloc(), WORDS)?;
    are_run(&rt, rt.alloc(), NAMED_REPEAT)?;
    are_run(&rt, rt.alloc(), REFUSALS)
}
