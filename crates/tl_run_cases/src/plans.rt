// Breadth-first searches for plans of lamps, of counters and of a robot: the most actions, the most
// search nodes, and what the table says; then the status, and the output.

use crate::run::are_run;
use crate::stop::Stop;

/// Rows of the most actions, the most search nodes, the control item, the initial world and the
/// goal list; then the status, and the output.
const LAMPS: &str = "
plan breadth {0} {1} l p | l = {lamps} {2}) & p = (problem p (init {3}) (goal {4})) | {5} | {6}
5 | 100 | - | {two} | (on a) (on b) | 0 | ; plan of 2 actions / (press a) / (press b)
5 | 100 | (control (always (not (on b)))) | {two} | (on a) (on b) | 1 | ; none
1 | 100 | - | {two} | (on a) (on b) | 1 | ; none within 1
5 | 100 | - | (lamp a) | - | 0 | ; plan of 0 actions
5 | 100 | - | {two} | (on b) | 0 | ; plan of 1 actions / (press b)
# an eventuality is pending where the goal is met
5 | 100 | (control (eventually (on c))) | (lamp a) (lamp c) (on a) | (on a) | 0 | ; plan of 1 actions / (press c)
5 | 100 | (control (next (on a))) | (lamp a) | - | 0 | ; plan of 1 actions / (press a)
5 | 100 | (control (until (not (on a)) (on b))) | {two} | (on a) (on b) | 0 | ; plan of 2 actions / (press b) / (press a)
5 | 100 | (control (always (eventually (on b)))) | {two} | (on a) | 0 | ; plan of 2 actions / (press a) / (press b)
# a root that is pruned, and one that is not
0 | 100 | (control (always false)) | {two} | (on a) (on b) | 1 | ; none
0 | 100 | - | {two} | (on a) (on b) | 1 | ; none within 0
# residuals that grow without end
3 | 100 | (control (until (eventually (on b)) (eventually (on c)))) | (lamp a) | (on a) | 1 | ; none within 3
3 | 3 | (control (until (eventually (on b)) (eventually (on c)))) | (lamp a) | (on a) | 2 | ; spent 3
3 | 4 | (control (until (eventually (on b)) (eventually (on c)))) | (lamp a) | (on a) | 1 | ; none within 3
# values in their order: integers, and then symbols
9 | 1000 | - | (lamp 2) (lamp a) (lamp 10) (lamp -1) | (on 2) (on a) (on 10) (on -1) | 0 | ; plan of 4 actions / (press -1) / (press 2) / (press 10) / (press a)
# formulas with a number, and a negated goal
5 | 100 | (control (for 2 (not (on a)))) | {two} | (on a) | 0 | ; plan of 3 actions / (press b) / (off b) / (press a)
5 | 100 | (control (within 1 (on b))) | {two} | (on a) | 0 | ; plan of 2 actions / (press b) / (press a)
5 | 100 | - | {two} (on b) | (on a) (not (on b)) | 0 | ; plan of 2 actions / (press a) / (off b)
";

/// Rows of the most actions, the most search nodes, the control item and the goal list, for two
/// lamps; then the status, and the output.
const BOUNDS: &str = "
plan breadth {0} {1} l p | l = {lamps} {2}) & p = (problem p (init {two}) (goal {3})) | {4} | {5}
# the fourth search node is that of the plan
5 | 1 | - | (on a) (on b) | 2 | ; spent 1
5 | 3 | - | (on a) (on b) | 2 | ; spent 3
5 | 4 | - | (on a) (on b) | 0 | ; plan of 2 actions / (press a) / (press b)
5 | 5 | - | (on a) (on b) | 0 | ; plan of 2 actions / (press a) / (press b)
# the length of the plan, one less and one more
1 | 100 | - | (on a) (on b) | 1 | ; none within 1
2 | 100 | - | (on a) (on b) | 0 | ; plan of 2 actions / (press a) / (press b)
3 | 100 | - | (on a) (on b) | 0 | ; plan of 2 actions / (press a) / (press b)
# two search nodes, at 0 and 1 actions
5 | 1 | (control (always (not (on b)))) | (on b) | 2 | ; spent 1
5 | 2 | (control (always (not (on b)))) | (on b) | 1 | ; none
5 | 3 | (control (always (not (on b)))) | (on b) | 1 | ; none
0 | 100 | (control (always (not (on b)))) | (on b) | 1 | ; none within 0
1 | 100 | (control (always (not (on b)))) | (on b) | 1 | ; none within 1
2 | 100 | (control (always (not (on b)))) | (on b) | 1 | ; none
# four search nodes, at 0, 1, 1 and 2 actions, for a goal that no action reaches
5 | 3 | - | (on c) | 2 | ; spent 3
5 | 4 | - | (on c) | 1 | ; none
5 | 5 | - | (on c) | 1 | ; none
1 | 3 | - | (on c) | 1 | ; none within 1
1 | 2 | - | (on c) | 2 | ; spent 2
2 | 4 | - | (on c) | 1 | ; none within 2
3 | 4 | - | (on c) | 1 | ; none
";

/// Rows of the most actions, the items of a domain with a counter, its value and the goal list;
/// then the status, and the output.
const RANGES: &str = "
plan breadth {0} 10 c p | c = (domain c (function n 0) {1}) & p = (problem p (init (= (n) {2})) (goal {3})) | {4} | {5}
5 | (operator (tick) (effects (set (n) (+ (n) 1)))) | 9223372036854775807 | (= (n) 0) | 4 | ; range at 60: 9223372036854775807 + 1 / ; after 0 actions
5 | (operator (tick) (effects (set (n) (+ (n) 1)))) | 9223372036854775806 | (= (n) 0) | 4 | ; range at 60: 9223372036854775807 + 1 / ; after 1 actions / (tick)
# the operation is not looked at within the bound, or the plan comes before it
1 | (operator (tick) (effects (set (n) (+ (n) 1)))) | 9223372036854775806 | (= (n) 0) | 1 | ; none within 1
5 | (operator (tick) (effects (set (n) (+ (n) 1)))) | 9223372036854775806 | {max} | 0 | ; plan of 1 actions / (tick)
# in the control formula: at the root, after an action, and where the last state is repeated
5 | (control (always (< (+ (n) 1) 5))) | 9223372036854775807 | - | 4 | ; range at 45: 9223372036854775807 + 1 / ; after 0 actions
5 | (operator (tick) (effects (set (n) (+ (n) 1)))) (control (always (not (= (+ (n) 1) 0)))) | 9223372036854775806 | (= (n) 0) | 4 | ; range at 98: 9223372036854775807 + 1 / ; after 1 actions / (tick)
5 | (control (next (not (= (+ (n) 1) 0)))) | 9223372036854775807 | - | 4 | ; range at 48: 9223372036854775807 + 1 / ; after 0 actions
";

/// Rows of the mode and the two numbers; then the status, and the output.
const WORDS: &str = "
plan {0} l p | l = {lamps}) & p = {ab} | {1} | {2}
breadth 5 100000 | 0 | ; plan of 2 actions / (press a) / (press b)
breadth 5 100001 | 8 | -
breadth 100000 100 | 0 | ; plan of 2 actions / (press a) / (press b)
breadth 100001 100 | 8 | -
breadth 0005 000100 | 0 | ; plan of 2 actions / (press a) / (press b)
breadth 00000000000000000001 100 | 1 | ; none within 1
breadth 5 0 | 8 | -
breadth 5 1 | 2 | ; spent 1
breadth x 10 | 8 | -
breadth +5 10 | 8 | -
breadth -5 10 | 8 | -
breadth 5 x | 8 | -
breadth 5 18446744073709551617 | 8 | -
breadth 5 | 8 | -
breadth 5 10 20 | 8 | -
wide 5 10 | 8 | -
Breadth 5 10 | 8 | -
";

/// Rows of the words and the files, of which some are refused or missing, or fail; then the status,
/// and the output, and what fails.
const OUTSIDE: &str = "
plan breadth 5 100 {0} | l = {lamps}) & p = {ab} & e = - | {1} | {2} | {3}
l p | 5 | - | store 64 fails 2
l p | 6 | ; pl.. | sink 4 fails 1
l q | 5 | - | -
q p | 5 | - | -
e p | 3 | ; refused file 1 rule 10 at 0 | -
l e | 3 | ; refused file 2 rule 10 at 0 | -
e q | 3 | ; refused file 1 rule 10 at 0 | -
";

/// Rows of the most actions and the problem, for a robot that carries balls; then the status, and
/// the output.
const BALLS: &str = "
plan breadth {0} 20000 g p | g = {gripper} (control {useful})) & p = {1} | {2} | {3}
4 | {two balls} | 1 | ; none within 4
5 | {two balls} | 0 | ; plan of 5 actions / (pick b0001 rooma left) / (pick b0002 rooma right) / (move rooma roomb) / (drop b0001 roomb left) / (drop b0002 roomb right)
6 | {two balls} | 0 | ; plan of 5 actions / (pick b0001 rooma left) / (pick b0002 rooma right) / (move rooma roomb) / (drop b0001 roomb left) / (drop b0002 roomb right)
20 | (problem sample (init {six balls}) (goal {six there})) | 0 | ; plan of 17 actions / (pick b0001 rooma left) / (pick b0002 rooma right) / (move rooma roomb) / (drop b0001 roomb left) / (drop b0002 roomb right) / (move roomb rooma) / (pick b0003 rooma left) / (pick b0004 rooma right) / (move rooma roomb) / (drop b0003 roomb left) / (drop b0004 roomb right) / (move roomb rooma) / (pick b0005 rooma left) / (pick b0006 rooma right) / (move rooma roomb) / (drop b0005 roomb left) / (drop b0006 roomb right)
";

#[test]
fn breadth_first_searches_have_their_answers(rt: HostRuntime) -> Result<(), Stop> {
    are_run(&rt, rt.alloc(), LAMPS)?;
    are_run(&rt, rt.alloc(), BOUNDS)?;
    are_run(&rt, rt.alloc(), RANGES)?;
    are_run(&rt, rt.alloc(), WORDS)?;
    are_run(&rt, rt.alloc(), OUTSIDE)?;
    are_run(&rt, rt.alloc(), BALLS)
}
