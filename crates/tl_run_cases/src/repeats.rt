// Plans with a repeated part, of lamps, of what goes from place to place and of a count: the
// verdicts on them, and their files.

use crate::run::are_run;
use crate::stop::Stop;

/// Rows of a control formula, the initial world, the goal list and the plan file; then the status,
/// and the output.
const PLANS: &str = "
check-loop w p q | w = {places} (control {0})) & p = (problem q (init {1}) (goal {2})) & q = {3} | {4} | {5}
# a lamp that is on again and again, and one that is not on from some position on
(always (eventually (on a))) | (lamp a) | - | (repeat (press a) (off a)) | 0 | ; valid for ever
(eventually (always (on a))) | (lamp a) | (on a) | (press a) (repeat (off a) (press a)) | 1 | ; disobeys
(eventually (always (on a))) | (lamp a) | (on a) | (press a) (repeat (wait)) | 0 | ; valid for ever
true | (lamp a) | - | (repeat (press a)) | 1 | ; not closed
true | (lamp a) | (on a) | (repeat (press a) (off a)) | 1 | ; goal unmet
# which verdict comes first
(always (on a)) | (lamp a) (on b) | (on a) | (repeat (press a) (press b)) | 1 | ; not executable 2
(always (on a)) | (lamp a) | (on b) | (press a) (off b) (repeat (press a)) | 1 | ; not executable 2
(always (on a)) | (lamp a) | (on a) | (repeat (press a)) | 1 | ; not closed
(always (on a)) | (lamp a) | (on a) | (repeat (wait)) | 1 | ; goal unmet
# the goal is asked for where the repeated part begins: neither before nor within it
true | (lamp a) | (on a) | (press a) (repeat (off a) (press a)) | 0 | ; valid for ever
true | (lamp a) | (on a) | (press a) (off a) (repeat (press a) (off a)) | 1 | ; goal unmet
true | (lamp a) | (not (on a)) | (press a) (off a) (repeat (press a) (off a)) | 0 | ; valid for ever
# the repeated part ends with other facts, though with as many of them
true | (lamp a) (lamp b) (on a) | - | (repeat (press b) (off a)) | 1 | ; not closed
true | (lamp a) (lamp b) (on a) | - | (repeat (press b) (off a) (press a) (off b)) | 0 | ; valid for ever
# the repeated part ends with the same facts, and another value of a place
true | (= (n) 0) | - | (repeat (tick)) | 1 | ; not closed
true | (= (n) 0) | - | (repeat (tick) (back)) | 0 | ; valid for ever
true | - | - | (repeat (back)) | 1 | ; not closed
true | - | - | (back) (repeat (back)) | 0 | ; valid for ever
true | (lamp a) (= (n) 0) | - | (repeat (press a) (tick) (off a)) | 1 | ; not closed
true | (lamp a) (= (n) 1) | - | (press a) (off a) (repeat (back) (tick)) | 0 | ; valid for ever
# next, from the last position back to the first one of the loop
(next (next (on a))) | (lamp a) | - | (repeat (press a) (off a)) | 1 | ; disobeys
(next (next (next (on a)))) | (lamp a) | - | (repeat (press a) (off a)) | 0 | ; valid for ever
(next (next (on a))) | (lamp a) | - | (press a) (repeat (wait)) | 0 | ; valid for ever
(next (next (not (on a)))) | (lamp a) | - | (press a) (repeat (off a) (press a)) | 0 | ; valid for ever
(next (next (next (on a)))) | (lamp a) | - | (press a) (repeat (off a) (press a)) | 0 | ; valid for ever
# until: reached before the loop, round the loop, and never
(until (not (on a)) (on b)) | (lamp a) (lamp b) | - | (press b) (repeat (wait)) | 0 | ; valid for ever
(always (or (on a) (until (not (on a)) (on b)))) | (lamp a) (lamp b) | - | (press b) (repeat (press a) (off a)) | 0 | ; valid for ever
(next (until (not (on b)) (on a))) | (lamp a) (lamp b) (on a) | - | (repeat (off a) (press a)) | 0 | ; valid for ever
(next (next (until (on b) (on a)))) | (lamp a) (lamp b) (on a) | - | (repeat (off a) (press b) (off b) (press a)) | 1 | ; disobeys
(next (next (until (on b) (not (on b))))) | (lamp a) (lamp b) (on a) | - | (repeat (off a) (press b) (off b) (press a)) | 0 | ; valid for ever
(until (on a) (on b)) | (lamp a) (lamp b) (on a) | - | (repeat (wait)) | 1 | ; disobeys
(until (on a) (on b)) | (lamp a) (lamp b) (on a) | - | (repeat (wait) (wait) (wait)) | 1 | ; disobeys
(until true (on b)) | (lamp a) (lamp b) | - | (repeat (press a) (off a)) | 1 | ; disobeys
# pending at the end of the loop, and settled by its first states only after a second round
(next (next (until (on a) (on b)))) | (lamp a) (lamp b) (on a) (on b) | - | (repeat (off b) (wait) (press b)) | 0 | ; valid for ever
(next (next (next (until (on a) (on b))))) | (lamp a) (lamp b) (on a) | - | (repeat (press b) (off b) (wait) (wait)) | 0 | ; valid for ever
(always (until (on a) (on b))) | (lamp a) (lamp b) (on a) | - | (repeat (press b) (off b) (wait) (wait)) | 0 | ; valid for ever
(always (until (on a) (on b))) | (lamp a) (lamp b) (on a) | - | (repeat (press b) (off b) (off a) (press a)) | 1 | ; disobeys
# words below one another
(always (eventually (always (or (on a) (eventually (on a)))))) | (lamp a) | - | (repeat (press a) (off a)) | 0 | ; valid for ever
(eventually (always (or (on a) (next (on a))))) | (lamp a) | - | (wait) (wait) (repeat (press a) (off a)) | 0 | ; valid for ever
(always (or (on a) (next (on a)))) | (lamp a) | - | (wait) (wait) (repeat (press a) (off a)) | 1 | ; disobeys
(not (always (eventually (and (on a) (on b))))) | (lamp a) (lamp b) | - | (repeat (press a) (off a) (press b) (off b)) | 0 | ; valid for ever
(and (always (eventually (on a))) (always (eventually (on b)))) | (lamp a) (lamp b) | - | (repeat (press a) (off a) (press b) (off b)) | 0 | ; valid for ever
# loops of one to five states, and how many steps away a lamp is: below the length of the loop, at it, and far above it
(always (within 0 (on a))) | (lamp a) (on a) | - | (repeat (wait)) | 0 | ; valid for ever
(always (within 0 (on a))) | (lamp a) | - | (repeat (press a) (off a)) | 1 | ; disobeys
(always (within 1 (on a))) | (lamp a) | - | (repeat (press a) (off a)) | 0 | ; valid for ever
(always (within 1 (on a))) | (lamp a) | - | (repeat (press a) (off a) (wait)) | 1 | ; disobeys
(always (within 2 (on a))) | (lamp a) | - | (repeat (press a) (off a) (wait)) | 0 | ; valid for ever
(always (within 3 (on a))) | (lamp a) | - | (repeat (press a) (off a) (wait) (wait) (wait)) | 1 | ; disobeys
(always (within 4 (on a))) | (lamp a) | - | (repeat (press a) (off a) (wait) (wait) (wait)) | 0 | ; valid for ever
(always (within 5 (on a))) | (lamp a) | - | (repeat (press a) (off a) (wait) (wait) (wait)) | 0 | ; valid for ever
(always (within 100000 (on a))) | (lamp a) | - | (repeat (press a) (off a) (wait) (wait) (wait)) | 0 | ; valid for ever
(within 100000 (on b)) | (lamp a) (lamp b) | - | (repeat (press a) (off a) (wait) (wait)) | 1 | ; disobeys
(within 3 (on a)) | (lamp a) | - | (wait) (wait) (wait) (repeat (press a) (off a)) | 1 | ; disobeys
(within 4 (on a)) | (lamp a) | - | (wait) (wait) (wait) (repeat (press a) (off a)) | 0 | ; valid for ever
# throughout some steps
(for 0 (not (on a))) | (lamp a) | - | (repeat (press a) (off a)) | 0 | ; valid for ever
(for 1 (not (on a))) | (lamp a) | - | (repeat (press a) (off a)) | 1 | ; disobeys
(next (next (for 2 (not (on a))))) | (lamp a) | - | (repeat (press a) (off a) (wait) (wait)) | 0 | ; valid for ever
(next (next (for 3 (not (on a))))) | (lamp a) | - | (repeat (press a) (off a) (wait) (wait)) | 1 | ; disobeys
(for 100000 (not (on b))) | (lamp a) (lamp b) | - | (repeat (press a) (off a)) | 0 | ; valid for ever
(next (for 100000 (on a))) | (lamp a) | - | (press a) (repeat (wait) (wait)) | 0 | ; valid for ever
(next (for 100000 (on a))) | (lamp a) | - | (press a) (repeat (wait) (off a) (press a)) | 1 | ; disobeys
# quantifiers whose bounds change round the loop
(always (forall (?x) (on ?x) (eventually (not (on ?x))))) | (lamp a) (lamp b) | - | (repeat (press a) (press b) (off a) (off b)) | 0 | ; valid for ever
(always (forall (?x) (on ?x) (eventually (not (on ?x))))) | (lamp a) (lamp b) | - | (press a) (repeat (press b) (off b)) | 1 | ; disobeys
(always (forall (?x) (at ?x) (next (not (at ?x))))) | (at a) (step a b) (step b c) (step c a) | - | (repeat (go a b) (go b c) (go c a)) | 0 | ; valid for ever
(always (forall (?x) (at ?x) (next (next (next (at ?x)))))) | (at a) (step a b) (step b c) (step c a) | - | (repeat (go a b) (go b c) (go c a)) | 0 | ; valid for ever
(always (forall (?x) (at ?x) (within 2 (next (at ?x))))) | (at a) (step a b) (step b c) (step c a) | - | (repeat (go a b) (go b c) (go c a)) | 0 | ; valid for ever
(always (forall (?x) (at ?x) (within 1 (next (at ?x))))) | (at a) (step a b) (step b c) (step c a) | - | (repeat (go a b) (go b c) (go c a)) | 1 | ; disobeys
(always (exists (?x) (at ?x) (next (exists (?y) (step ?x ?y) (at ?y))))) | (at a) (step a b) (step b c) (step c a) | - | (repeat (go a b) (go b c) (go c a)) | 0 | ; valid for ever
(always (exists (?x) (on ?x) true)) | (lamp a) (lamp b) (on a) | - | (repeat (press b) (off a) (press a) (off b)) | 0 | ; valid for ever
(exists (?x) (lamp ?x) (always (on ?x))) | (lamp a) (lamp b) (on a) | - | (repeat (press b) (off a) (press a) (off b)) | 1 | ; disobeys
(eventually (exists (?x) (on ?x) (always (eventually (on ?x))))) | (lamp a) (lamp b) | - | (press b) (off b) (repeat (press a) (off a)) | 0 | ; valid for ever
(eventually (exists (?x) (on ?x) (always (not (on ?x))))) | (lamp a) (lamp b) | - | (press b) (off b) (repeat (press a) (off a)) | 1 | ; disobeys
(eventually (exists (?x) (on ?x) (next (always (not (on ?x)))))) | (lamp a) (lamp b) | - | (press b) (off b) (repeat (press a) (off a)) | 0 | ; valid for ever
(always (forall (?x) (lamp ?x) (exists (?y) (lamp ?y) (eventually (and (on ?x) (on ?y)))))) | (lamp a) (lamp b) | - | (repeat (press a) (off a) (press b) (off b)) | 0 | ; valid for ever
(always (forall (?x) (lamp ?x) (forall (?y) (lamp ?y) (eventually (and (on ?x) (on ?y)))))) | (lamp a) (lamp b) | - | (repeat (press a) (off a) (press b) (off b)) | 1 | ; disobeys
(always (forall (?x) (goal (on ?x)) (eventually (on ?x)))) | (lamp a) | (on a) | (press a) (repeat (off a) (press a)) | 0 | ; valid for ever
(always (forall (?x) (= (n) ?x) (eventually (< ?x (n))))) | (= (n) 0) | - | (repeat (tick) (tick) (back)) | 1 | ; disobeys
(always (forall (?x) (= (n) ?x) (within 2 (= (n) 0)))) | (= (n) 0) | - | (repeat (tick) (tick) (back)) | 0 | ; valid for ever
# operations past range: in an action, in the control formula in a later state, and where the plan is not asked for it
true | (= (n) 9223372036854775807) | - | (back) (repeat (tick) (back)) | 0 | ; valid for ever
true | (= (n) 9223372036854775807) | - | (repeat (tick) (back)) | 4 | ; range at 384: 9223372036854775807 + 1 / ; after 0 actions
(always (< (n) (+ (n) 9223372036854775807))) | (= (n) 0) | - | (repeat (tick) (back)) | 4 | ; range at 461: 1 + 9223372036854775807 / ; after 1 actions
(always (< (n) (+ (n) 9223372036854775807))) | (= (n) 0) | - | (repeat (tick)) | 1 | ; not closed
(always (< (n) (+ (n) 9223372036854775807))) | (= (n) 0) | (on a) | (repeat (tick) (back)) | 1 | ; goal unmet
";

/// Such rows of plan files.
const FILES: &str = "
check-loop w p q | w = {places} (control {0})) & p = (problem q (init {1}) (goal {2})) & q = {3} | {4} | {5}
true | (lamp a) (lamp b) | - | (press a) (off a) (repeat (wait)) | 0 | ; valid for ever
true | (lamp a) (lamp b) | - | (repeat (wait)) (wait) | 3 | ; refused file 3 rule 30 at 0
true | (lamp a) (lamp b) | - | (repeat (wait)) (repeat (wait)) | 3 | ; refused file 3 rule 30 at 0
true | (lamp a) (lamp b) | - | (repeat wait) | 3 | ; refused file 3 rule 10 at 8
true | (lamp a) (lamp b) | - | (repeat (wait) ()) | 3 | ; refused file 3 rule 10 at 15
true | (lamp a) (lamp b) | - | ((repeat) (wait)) | 3 | ; refused file 3 rule 10 at 0
true | (lamp a) (lamp b) | - | (repeated (wait)) | 3 | ; refused file 3 rule 10 at 0
true | (lamp a) (lamp b) | - | (press a) (repeat (repeat (wait))) | 3 | ; refused file 3 rule 30 at 18
true | (lamp a) (lamp b) | - | (repeat (wait) (press c)) | 3 | ; refused file 3 rule 32 at 22
true | (lamp a) (lamp b) | - | {99999 (wait) }(repeat (wait)) | 0 | ; valid for ever
true | (lamp a) (lamp b) | - | {99999 (wait) }(repeat (wait) (wait)) | 3 | ; refused file 3 rule 19 at 700008
";

/// Rows of plan files, where an operator is named `repeat`: the last form is the repeated part all
/// the same.
const NAMED_REPEAT: &str = "
check-loop r p q | r = {places} (operator (repeat) (effects (set (n) (+ (n) 1)))) (control (next (always (= (n) 1))))) & p = (problem q (init (= (n) 0)) (goal)) & q = {0} | {1} | {2}
(repeat) (repeat (wait)) | 0 | ; valid for ever
(repeat (repeat)) | 1 | ; not closed
(repeat) (repeat (repeat) (repeat)) | 1 | ; not closed
(repeat) | 3 | ; refused file 3 rule 10 at 0
(repeat) (repeat) | 3 | ; refused file 3 rule 10 at 9
(repeat (wait)) (repeat (wait)) | 3 | ; refused file 3 rule 31 at 0
(repeat (repeat (wait))) | 3 | ; refused file 3 rule 31 at 8
";

#[test]
fn repeated_parts_have_their_verdicts(rt: HostRuntime) -> Result<(), Stop> {
    are_run(&rt, rt.alloc(), PLANS)?;
    are_run(&rt, rt.alloc(), FILES)?;
    are_run(&rt, rt.alloc(), NAMED_REPEAT)
}
