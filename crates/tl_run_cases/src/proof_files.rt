// Proofs that there is no plan: what a search leaves, and the verdicts on proof files.

use crate::run::are_run;
use crate::stop::Stop;

/// Rows of the most actions, the most search nodes, the control item, the initial world and the
/// goal list; then the status, and the output.
const PROVED: &str = "
prove-none {0} {1} l p | l = {lamps} {2}) & p = (problem p (init {3}) (goal {4})) | {5} | {6}
5 | 100 | (control (always (not (on b)))) | {two} | (on a) (on b) | 0 | (none) / (pair 0 (press a))
1 | 100 | - | {two} | (on a) (on b) | 0 | (none-within 1) / (pair 0 (press a)) / (pair 0 (press b))
0 | 100 | - | {two} | (on a) (on b) | 0 | (none-within 0)
# some search node is as far away as the bound, or none is
1 | 100 | (control (always (not (on b)))) | {two} | (on b) | 0 | (none-within 1) / (pair 0 (press a))
2 | 100 | (control (always (not (on b)))) | {two} | (on b) | 0 | (none) / (pair 0 (press a))
# a goal that no action reaches, with as many search nodes as there are
2 | 4 | - | {two} | (on c) | 0 | (none-within 2) / (pair 0 (press a)) / (pair 0 (press b)) / (pair 1 (press b))
3 | 4 | - | {two} | (on c) | 0 | (none) / (pair 0 (press a)) / (pair 0 (press b)) / (pair 1 (press b))
# the root is pruned
0 | 1 | (control (always false)) | {two} | (on a) (on b) | 0 | (none)
# the goal is met at a node that is not accepted
5 | 100 | (control (eventually (on b))) | (lamp a) | (on a) | 0 | (none) / (pair 0 (press a))
# there is a plan
5 | 100 | - | {two} | (on a) (on b) | 1 | ; plan of 2 actions / (press a) / (press b)
2 | 4 | - | {two} | (on a) (on b) | 1 | ; plan of 2 actions / (press a) / (press b)
0 | 1 | - | {two} | - | 1 | ; plan of 0 actions
# too many search nodes
5 | 3 | - | {two} | (on c) | 2 | ; spent 3
5 | 1 | (control (always (not (on b)))) | {two} | (on b) | 2 | ; spent 1
5 | 3 | - | {two} | (on a) (on b) | 2 | ; spent 3
";

/// Rows of the most actions, the items of a domain with a counter, its value and the goal list;
/// then the status, and the output.
const RANGES: &str = "
prove-none {0} 10 c p | c = (domain c (function n 0) {1}) & p = (problem p (init (= (n) {2})) (goal {3})) | {4} | {5}
5 | (operator (tick) (effects (set (n) (+ (n) 1)))) | 9223372036854775807 | (= (n) 0) | 4 | ; range at 60: 9223372036854775807 + 1 / ; after 0 actions
5 | (operator (tick) (effects (set (n) (+ (n) 1)))) | 9223372036854775806 | (= (n) 0) | 4 | ; range at 60: 9223372036854775807 + 1 / ; after 1 actions / (tick)
# the operation is not looked at within the bound
1 | (operator (tick) (effects (set (n) (+ (n) 1)))) | 9223372036854775806 | (= (n) 0) | 0 | (none-within 1) / (pair 0 (tick))
";

/// Rows of words, over two lamps, their problem and a proof that is open; then the status, and the
/// output.
const WORDS: &str = "
{0} | l = {lamps}) & p = {ab} & q = (none) | {1} | {2}
prove-none 5 100000 l p | 1 | ; plan of 2 actions / (press a) / (press b)
prove-none 100000 0100 l p | 1 | ; plan of 2 actions / (press a) / (press b)
prove-none 5 100001 l p | 8 | -
prove-none 100001 100 l p | 8 | -
prove-none 5 0 l p | 8 | -
prove-none -1 100 l p | 8 | -
prove-none x 100 l p | 8 | -
prove-none 5 x l p | 8 | -
prove-none 5 l p | 8 | -
prove-none l p | 8 | -
prove-none breadth 5 100 l p | 8 | -
prove-none 5 100 l p q | 8 | -
prove-none | 8 | -
prove_none 5 100 l p | 8 | -
plan 5 100 l p | 8 | -
check-none l p q | 1 | ; open 0 (press a)
check-none l p | 8 | -
check-none l p q q | 8 | -
check-none 5 100 l p | 8 | -
check_none l p q | 8 | -
# files in turn
prove-none 5 100 l other | 5 | -
prove-none 5 100 l q | 3 | ; refused file 2 rule 10 at 0
prove-none 5 100 p l | 3 | ; refused file 1 rule 10 at 0
check-none l p other | 5 | -
check-none l q other | 3 | ; refused file 2 rule 10 at 0
check-none p p other | 3 | ; refused file 1 rule 10 at 0
";

/// Rows of the control item, the initial world, the goal list and the proof file; then the status,
/// and the output.
const VERDICTS: &str = "
check-none l p q | l = {lamps} {0}) & p = (problem p (init {1}) (goal {2})) & q = {3} | {4} | {5}
# what the searches left
(control (always (not (on b)))) | {two} | (on a) (on b) | (none){lf}(pair 0 (press a)){lf} | 0 | ; proved none
(control (always (not (on b)))) | {two} | (on a) (on b) | (none-within 100000) (pair 0 (press a)) | 0 | ; proved none within 100000
- | {two} | (on a) (on b) | (none-within 1){lf}(pair 0 (press a)){lf}(pair 0 (press b)){lf} | 0 | ; proved none within 1
- | {two} | (on a) (on b) | (none-within 0){lf} | 0 | ; proved none within 0
- | {two} | (on c) | (none-within 2) (pair 0 (press a)) (pair 0 (press b)) (pair 1 (press b)) | 0 | ; proved none within 2
- | {two} | (on c) | (none) (pair 0 (press a)) (pair 0 (press b)) (pair 1 (press b)) | 0 | ; proved none
(control (eventually (on b))) | (lamp a) | (on a) | (none) (pair 0 (press a)) | 0 | ; proved none
# a successor that is not listed, below the bound and without one; at the bound it need not be
(control (always (not (on b)))) | {two} | (on a) (on b) | (none) | 1 | ; open 0 (press a)
- | {two} | (on a) (on b) | (none-within 2){lf}(pair 0 (press a)){lf}(pair 0 (press b)){lf} | 1 | ; open 1 (press b)
- | {two} | (on a) (on b) | (none) (pair 0 (press a)) (pair 0 (press b)) | 1 | ; open 1 (press b)
- | {two} | (on a) (on b) | (none-within 1) (pair 0 (press b)) | 1 | ; open 0 (press a)
# a link past the bound, one by an action without a step, one to a pruned state, and ones to pairs that are listed
- | {two} | (on a) (on b) | (none-within 1) (pair 0 (press a)) (pair 1 (press b)) | 1 | ; bad link 2
- | {two} | (on a) (on b) | (none) (pair 0 (off a)) | 1 | ; bad link 1
(control (always (not (on b)))) | {two} | (on a) (on b) | (none) (pair 0 (press a)) (pair 1 (press b)) | 1 | ; bad link 2
- | {two} | (on a) (on b) | (none) (pair 0 (press a)) (pair 0 (press a)) | 1 | ; bad link 2
- | {two} | (on a) (on b) | (none) (pair 0 (press a)) (pair 1 (off a)) | 1 | ; bad link 2
(control (always (not (on b)))) | {two} | (on a) (on b) | (none) (pair 0 (press b)) | 1 | ; bad link 1
- | {three} | (on d) | (none) (pair 0 (press a)) (pair 0 (press b)) (pair 0 (press c)) (pair 1 (press b)) (pair 1 (press c)) (pair 2 (press c)) (pair 3 (press a)) | 1 | ; bad link 7
# accepted: a pair at the bound, the root, and a pair before one that is open
- | {two} | (on a) | (none-within 1) (pair 0 (press b)) (pair 0 (press a)) | 1 | ; accepts 2
- | {two} | - | (none-within 0) | 1 | ; accepts 0
- | {two} | (on b) | (none) (pair 0 (press a)) (pair 0 (press b)) | 1 | ; open 1 (press b)
- | {two} | (on a) | (none) (pair 0 (press a)) (pair 0 (press b)) | 1 | ; accepts 1
- | {two} | (on a) (on b) | (none-within 2) (pair 0 (press a)) (pair 1 (press b)) (pair 0 (press b)) | 1 | ; accepts 2
- | {two} | (on a) | (none-within 1) (pair 0 (press a)) (pair 0 (press b)) | 1 | ; accepts 1
- | {two} | - | (none) | 1 | ; accepts 0
# the root is pruned
(control (always false)) | {two} | (on a) | (none) | 0 | ; proved none
(control (always false)) | {two} | - | (none-within 100000) | 0 | ; proved none within 100000
(control (always false)) | {two} | - | (none-within 3) | 0 | ; proved none within 3
(control (always false)) | {two} | (on a) | (none) (pair 0 (press a)) | 1 | ; bad link 1
# links out of the order of a search: with a bound a successor has to be listed by a path that is short enough
(control (always (not (on b)))) | {three} | (on b) | (none) (pair 0 (press a)) (pair 1 (press c)) (pair 2 (off a)) | 0 | ; proved none
(control (always (not (on b)))) | {three} | (on b) | (none-within 5) (pair 0 (press a)) (pair 1 (press c)) (pair 2 (off a)) | 1 | ; open 0 (press c)
(control (always (not (on b)))) | {three} | (on b) | (none-within 3) (pair 0 (press a)) (pair 1 (press c)) (pair 0 (press c)) | 0 | ; proved none within 3
# comments, and a bound with zeros before it
(control (always (not (on b)))) | {two} | (on b) | ; by hand{lf}(none-within 007){lf}; the other lamp{lf}(pair 0 (press a)) | 0 | ; proved none within 7
# as many bytes as there may be
(control (always false)) | {two} | - | (none){4194298  } | 0 | ; proved none
";

/// Rows of the items of a domain with a counter, its value, the goal list and the proof file; then
/// the status, and the output.
const FAULTS: &str = "
check-none c p q | c = (domain c (function n 0) {0}) & p = (problem p (init (= (n) {1})) (goal {2})) & q = {3} | {4} | {5}
# in an action of the root, for a link and for the verdict
(operator (tick) (effects (set (n) (+ (n) 1)))) | 9223372036854775807 | (= (n) 0) | (none) (pair 0 (tick)) | 4 | ; range at 60: 9223372036854775807 + 1 / ; after 0 actions
(operator (tick) (effects (set (n) (+ (n) 1)))) | 9223372036854775807 | (= (n) 0) | (none) | 4 | ; range at 60: 9223372036854775807 + 1 / ; after 0 actions
# in an action of a listed pair that has to be closed, and of one that has not
(operator (tick) (effects (set (n) (+ (n) 1)))) | 9223372036854775806 | (= (n) 0) | (none-within 2) (pair 0 (tick)) | 4 | ; range at 60: 9223372036854775807 + 1 / ; after 1 actions / (tick)
(operator (tick) (effects (set (n) (+ (n) 1)))) | 9223372036854775806 | (= (n) 0) | (none-within 1) (pair 0 (tick)) | 0 | ; proved none within 1
# when the root is listed, after an action, and in the idling check
(control (always (< (+ (n) 1) 5))) | 9223372036854775807 | - | (none) | 4 | ; range at 45: 9223372036854775807 + 1 / ; after 0 actions
(control (< (+ (n) 1) 9)) | 9223372036854775807 | - | (none) | 4 | ; range at 37: 9223372036854775807 + 1 / ; after 0 actions
(operator (tick) (effects (set (n) (+ (n) 1)))) (control (always (not (= (+ (n) 1) 0)))) | 9223372036854775806 | (= (n) 0) | (none) | 4 | ; range at 98: 9223372036854775807 + 1 / ; after 1 actions / (tick)
(control (next (not (= (+ (n) 1) 0)))) | 9223372036854775807 | - | (none) | 4 | ; range at 48: 9223372036854775807 + 1 / ; after 0 actions
# an accepted pair is told before a later one at which an operation is past range
(operator (tick) (effects (set (n) (+ (n) 1)))) | 9223372036854775806 | - | (none) (pair 0 (tick)) | 1 | ; accepts 0
# numbers of two digits
(operator (tick ?x) (bounds (= (n) ?x)) (effects (set (n) (+ ?x 1)))) | 0 | (= (n) -1) | (none) (pair 0 (tick 0)) (pair 1 (tick 1)) (pair 2 (tick 2)) (pair 3 (tick 3)) (pair 4 (tick 4)) (pair 5 (tick 5)) (pair 6 (tick 6)) (pair 7 (tick 7)) (pair 8 (tick 8)) (pair 9 (tick 9)) (pair 10 (tick 10)) (pair 11 (tick 11)) | 1 | ; open 12 (tick 12)
";

/// Rows of a proof file for two lamps, and the output.
const REFUSALS: &str = "
check-none l ab q | l = {lamps}) & ab = {ab} & q = {0} | 3 | {1}
- | ; refused file 3 rule 10 at 0
; a comment alone | ; refused file 3 rule 10 at 0
(none | ; refused file 3 rule 3 at 0
(none)) | ; refused file 3 rule 2 at 6
(none-within 9223372036854775808) | ; refused file 3 rule 5 at 13
none | ; refused file 3 rule 10 at 0
(none 1) | ; refused file 3 rule 10 at 0
(none-within) | ; refused file 3 rule 10 at 0
(none-within x) | ; refused file 3 rule 10 at 0
(pair 0 (press a)) | ; refused file 3 rule 10 at 0
(none-within -1) | ; refused file 3 rule 19 at 13
(none-within 100001) | ; refused file 3 rule 19 at 13
(none) (press a) | ; refused file 3 rule 10 at 7
(none) (pair 0) | ; refused file 3 rule 10 at 7
(none) (pair a (press a)) | ; refused file 3 rule 10 at 7
(none) (pair 0 ()) | ; refused file 3 rule 10 at 7
(none) (pair 0 (1 a)) | ; refused file 3 rule 10 at 7
(none) (pair 0 press) | ; refused file 3 rule 10 at 7
(none) (pair 0 (press a) (press b)) | ; refused file 3 rule 10 at 7
(none) (pair 0 (press ?x)) | ; refused file 3 rule 32 at 22
(none) (none) | ; refused file 3 rule 10 at 7
(none) (pair 1 (press a)) | ; refused file 3 rule 33 at 13
(none) (pair -1 (press a)) | ; refused file 3 rule 33 at 13
(none) (pair 0 (press a)) (pair 2 (press b)) | ; refused file 3 rule 33 at 32
(none) (pair 0 (jump)) | ; refused file 3 rule 30 at 15
(none) (pair 0 (press)) | ; refused file 3 rule 31 at 15
(none) (pair 0 (press zz)) | ; refused file 3 rule 32 at 22
# the least offset is told
(none) (pair 1 (jump)) | ; refused file 3 rule 33 at 13
(none) (pair 5 (jump)) | ; refused file 3 rule 33 at 13
(none-within x) (pair 5 (jump)) | ; refused file 3 rule 10 at 0
(none) (pair 0 (jump)) (pair 5 (jump)) | ; refused file 3 rule 30 at 15
# too many links, and too many bytes
(none){100001 (pair 0 (press a))} | ; refused file 3 rule 19 at 1800006
(none){4194299  } | ; refused file 3 rule 6 at 4194304
";

#[test]
fn proofs_that_there_is_no_plan_have_their_answers(rt: HostRuntime) -> Result<(), Stop> {
    are_run(&rt, rt.alloc(), PROVED)?;
    are_run(&rt, rt.alloc(), RANGES)?;
    are_run(&rt, rt.alloc(), WORDS)?;
    are_run(&rt, rt.alloc(), VERDICTS)?;
    are_run(&rt, rt.alloc(), FAULTS)?;
    are_run(&rt, rt.alloc(), REFUSALS)
}
