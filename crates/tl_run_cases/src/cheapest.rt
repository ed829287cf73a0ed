// Searches for cheapest plans: the most search nodes, the files, and what the table says; then the
// status, and the output.

use crate::run::are_run;
use crate::stop::Stop;

/// Rows of the most search nodes, further items of the domain, the initial world, the goal list,
/// and the costs file; then the status, and the output.
const TRAVELS: &str = "
cheapest {0} w p k | w = {travel} {1}) & p = (problem p (init {2}) (goal {3})) & k = {4} | {5} | {6}
# the least cost, which a longer plan may have; and costs that are not named
100 | - | (at s) | (at t) | (fly 9) (walk 2) (ride 3) | 0 | ; cheapest plan of 2 actions costs 5 / (walk) / (ride)
100 | - | (at s) | (at t) | - | 0 | ; cheapest plan of 1 actions costs 1 / (fly)
100 | - | (at s) | (at t) | (fly 3) | 0 | ; cheapest plan of 2 actions costs 2 / (walk) / (ride)
100 | - | (at s) | (at t) | ; a comment{lf}(ride 3) (fly 9) (walk 2) | 0 | ; cheapest plan of 2 actions costs 5 / (walk) / (ride)
# of plans of the least cost, one with the fewest actions
100 | - | (at s) | (at t) | (fly 5) (walk 2) (ride 3) | 0 | ; cheapest plan of 1 actions costs 5 / (fly)
# costs of 0, and the greatest ones
100 | - | (at s) | (at t) | (fly 1) (walk 0) (ride 0) | 0 | ; cheapest plan of 2 actions costs 0 / (walk) / (ride)
100 | - | (at s) | (at t) | (fly 0) (walk 0) (ride 0) | 0 | ; cheapest plan of 1 actions costs 0 / (fly)
100 | - | (at s) | (at t) | (fly 1000000) (walk 499999) (ride 500000) | 0 | ; cheapest plan of 2 actions costs 999999 / (walk) / (ride)
100 | - | (at s) | (at t) | (fly 1000000) (walk 500000) (ride 500000) | 0 | ; cheapest plan of 1 actions costs 1000000 / (fly)
# the way to t becomes cheaper twice, and then it becomes shorter at the same cost
100 | {rowing} | (at s) | (at t) | (fly 9) (walk 1) (ride 5) (row 2) (swim 1) | 0 | ; cheapest plan of 2 actions costs 3 / (row) / (swim)
100 | {rowing} {turning} | (at s) | (at t) | (fly 9) (walk 0) (ride 9) (turn 0) (go 2) (row 1) (swim 1) | 0 | ; cheapest plan of 2 actions costs 2 / (row) / (swim)
100 | {turning} | (at s) | (at t) | (fly 9) (walk 1) (turn 0) (go 1) (ride 1) | 0 | ; cheapest plan of 2 actions costs 2 / (walk) / (ride)
# the goal is met at once; it is never met
1 | - | (at t) | (at t) | (fly 9) | 0 | ; cheapest plan of 0 actions costs 0
1 | - | (at t) | (at t) | - | 0 | ; cheapest plan of 0 actions costs 0
100 | - | (at s) | (at u) | (fly 0) | 1 | ; none
100 | - | (at s) | (at u) | - | 1 | ; none
# what a control formula forbids, and a negated goal
100 | (control (always (not (at m)))) | (at s) | (at t) | (fly 9) (walk 2) (ride 3) | 0 | ; cheapest plan of 1 actions costs 9 / (fly)
100 | (control (within 1 (at t))) | (at s) | (at t) | (fly 9) (walk 2) (ride 3) | 0 | ; cheapest plan of 1 actions costs 9 / (fly)
100 | (control (eventually (at m))) | (at s) | (at t) | (fly 1) (walk 2) (ride 3) | 0 | ; cheapest plan of 2 actions costs 5 / (walk) / (ride)
1 | (control (always false)) | (at s) | (at t) | - | 1 | ; none
100 | - | (at s) | (not (at s)) | (fly 9) (walk 2) | 0 | ; cheapest plan of 1 actions costs 2 / (walk)
# there are three search nodes
1 | - | (at s) | (at t) | (fly 9) | 2 | ; spent 1
2 | - | (at s) | (at t) | (fly 9) | 2 | ; spent 2
3 | - | (at s) | (at t) | (fly 9) | 0 | ; cheapest plan of 2 actions costs 2 / (walk) / (ride)
2 | - | (at s) | (at u) | - | 2 | ; spent 2
3 | - | (at s) | (at u) | - | 1 | ; none
";

/// Rows of the most search nodes, the control item, and the costs file, for two lamps; then the
/// status, and the output.
const LAMPS: &str = "
cheapest {0} l ab k | l = {lamps} {1}) & ab = {ab} & k = {2} | {3} | {4}
100 | - | (press 5) | 0 | ; cheapest plan of 2 actions costs 10 / (press a) / (press b)
100 | - | (press 0) (off 0) | 0 | ; cheapest plan of 2 actions costs 0 / (press a) / (press b)
100 | (control (until (not (on a)) (on b))) | (press 5) | 0 | ; cheapest plan of 2 actions costs 10 / (press b) / (press a)
# four search nodes
1 | - | (press 5) | 2 | ; spent 1
3 | - | (press 5) | 2 | ; spent 3
4 | - | (press 5) | 0 | ; cheapest plan of 2 actions costs 10 / (press a) / (press b)
5 | - | (press 5) | 0 | ; cheapest plan of 2 actions costs 10 / (press a) / (press b)
# two search nodes
100 | (control (always (not (on b)))) | - | 1 | ; none
2 | (control (always (not (on b)))) | (press 7) | 1 | ; none
1 | (control (always (not (on b)))) | (press 7) | 2 | ; spent 1
100 | (control (always (not (on b)))) | (jump 3) | 3 | ; refused file 3 rule 30 at 0
";

/// Rows of the most search nodes, the costs file, and the cost of the plan of 4,296 actions, the
/// sum of which may be past 32 bits.
const SUMS: &str = "
cheapest {0} c p k | c = (domain c (function n 0) (operator (tick) (effects (set (n) (+ (n) 1))))) & p = (problem p (init (= (n) 0)) (goal (= (n) 4296))) & k = {1} | 0 | ; cheapest plan of 4296 actions costs {2}{4296  / (tick)}
5000 | (tick 1000000) | 4296000000
4297 | (tick 999759) | 4294964664
4297 | (tick 999760) | 4294968960
4297 | - | 4296
4297 | (tick 0) | 0
";

/// Rows of the value of a counter, the goal list, and the costs file; then the status, and the
/// output.
const RANGES: &str = "
cheapest 10 c p k | c = (domain c (function n 0) (predicate done 0) (operator (tick) (effects (set (n) (+ (n) 1)))) (operator (end) (effects (add (done))))) & p = (problem p (init (= (n) {0})) (goal {1})) & k = {2} | {3} | {4}
9223372036854775807 | (done) | (end 0) | 4 | ; range at 79: 9223372036854775807 + 1 / ; after 0 actions
# the way to the operation costs more than the plan, as much, and less
9223372036854775806 | (done) | (tick 5) (end 1) | 0 | ; cheapest plan of 1 actions costs 1 / (end)
9223372036854775806 | (done) | (tick 1) (end 1) | 4 | ; range at 79: 9223372036854775807 + 1 / ; after 1 actions / (tick)
9223372036854775806 | (done) | (tick 0) (end 1) | 4 | ; range at 79: 9223372036854775807 + 1 / ; after 1 actions / (tick)
# the plan is found before the operation is looked at
9223372036854775806 | {max} | (tick 7) | 0 | ; cheapest plan of 1 actions costs 7 / (tick)
";

/// Rows of a costs file, and the output.
const REFUSALS: &str = "
cheapest 100 w p k | w = {travel}) & p = (problem p (init (at s)) (goal (at t))) & k = {0} | 3 | ; refused file 3 rule {1}
fly | 10 at 0
(fly 9) 7 | 10 at 8
() | 10 at 0
(fly) | 10 at 0
(fly 9 1) | 10 at 0
(fly x) | 10 at 0
(7 fly) | 10 at 0
((fly) 7) | 10 at 0
((fly 9)) | 10 at 0
(fly (9)) | 10 at 0
(fly 9) (fly 9) | 12 at 8
(fly 9) (walk 2) (fly 3) | 12 at 17
(fly 9) (walk 2) (fly 9) | 12 at 17
(fly -1) | 19 at 0
(fly 1000001) | 19 at 0
(fly 1000000) (walk 1000001) | 19 at 14
(jump 3) | 30 at 0
(w 3) | 30 at 0
(at 3) | 30 at 0
(s 3) | 30 at 0
(fly 9) (jump 3) (jump 3) | 30 at 8
# the least offset, and there the least rule
(jump 3) fly | 30 at 0
(fly 9) (fly -1) | 12 at 8
(jump -1) | 19 at 0
(jump 1000001) | 19 at 0
# no forms
(fly 9 | 3 at 0
(fly 9)) | 2 at 7
(fly 9) ] | 1 at 8
(fly 9223372036854775808) | 5 at 5
{101 (} | 4 at 100
{4194305  } | 6 at 4194304
";

/// Rows of the words after the first, and of what fails; the files are a domain, a problem, two
/// costs files and an empty file. Then the status, and the output.
const WORDS: &str = "
cheapest {0} | w = {travel}) & p = (problem p (init (at s)) (goal (at t))) & k = (fly 9) & n = fly & e = - | {1} | {2} | {3}
100 w p k | 0 | ; cheapest plan of 2 actions costs 2 / (walk) / (ride)
100 w p e | 0 | ; cheapest plan of 1 actions costs 1 / (fly)
# the most search nodes
0 w p k | 8 | -
1 w p k | 2 | ; spent 1
100000 w p e | 0 | ; cheapest plan of 1 actions costs 1 / (fly)
100001 w p e | 8 | -
0003 w p k | 0 | ; cheapest plan of 2 actions costs 2 / (walk) / (ride)
18446744073709551617 w p k | 8 | -
-1 w p k | 8 | -
+1 w p k | 8 | -
x w p k | 8 | -
# how many words there are
- | 8 | -
100 | 8 | -
100 w p | 8 | -
100 w p k k | 8 | -
breadth 5 100 w p | 8 | -
# files that are missing, refused, or not read
100 w p m | 5 | -
100 w m k | 5 | -
100 m p k | 5 | -
100 w p n | 3 | ; refused file 3 rule 10 at 0
100 w e n | 3 | ; refused file 2 rule 10 at 0
100 e m n | 3 | ; refused file 1 rule 10 at 0
100 w p w | 3 | ; refused file 3 rule 10 at 0
100 w p k | 5 | - | store 64 fails 2
# the answer is not written
100 w p k | 6 | ; ch.. | sink 4 fails 1
";

/// Such rows, where a further action counts.
const COSTS: &str = "
cheapest {0} w p k | w = {travel} (function n 0) (operator (tick) (pre (>= (n) 0)) (effects (set (n) (+ (n) 1)))) {1}) & p = (problem p (init {2}) (goal {3})) & k = {4} | {5} | {6}
# the cost of each action alone
100 | (control (always (not (at m)))) | (at s) | (at t) | - | 0 | ; cheapest plan of 1 actions costs 1 / (fly)
100 | - | (at s) | (at m) | - | 0 | ; cheapest plan of 1 actions costs 1 / (walk)
100 | - | (at m) | (at t) | - | 0 | ; cheapest plan of 1 actions costs 1 / (ride)
100 | - | (= (n) 0) | (= (n) 1) | - | 0 | ; cheapest plan of 1 actions costs 1 / (tick)
100 | (control (always (not (at m)))) | (at s) | (at t) | (fly 9) (walk 2) (ride 3) | 0 | ; cheapest plan of 1 actions costs 9 / (fly)
100 | - | (at s) | (at m) | (fly 9) (walk 2) (ride 3) | 0 | ; cheapest plan of 1 actions costs 2 / (walk)
100 | - | (at m) | (at t) | (fly 9) (walk 2) (ride 3) | 0 | ; cheapest plan of 1 actions costs 3 / (ride)
100 | - | (= (n) 0) | (= (n) 1) | (fly 9) (walk 2) (ride 3) | 0 | ; cheapest plan of 1 actions costs 1 / (tick)
100 | (control (always (not (at m)))) | (at s) | (at t) | (ride 0) (fly 1000000) | 0 | ; cheapest plan of 1 actions costs 1000000 / (fly)
100 | - | (at s) | (at m) | (ride 0) (fly 1000000) | 0 | ; cheapest plan of 1 actions costs 1 / (walk)
100 | - | (at m) | (at t) | (ride 0) (fly 1000000) | 0 | ; cheapest plan of 1 actions costs 0 / (ride)
100 | - | (= (n) 0) | (= (n) 1) | (ride 0) (fly 1000000) | 0 | ; cheapest plan of 1 actions costs 1 / (tick)
# a search that is spent
12 | - | (= (n) 0) | (= (n) 100) | - | 2 | ; spent 12
# an operation past range, in the first action and after one
100 | - | {max} | (at t) | - | 4 | ; range at 298: 9223372036854775807 + 1 / ; after 0 actions
100 | (operator (up) (pre (at s)) (effects (set (n) 9223372036854775807))) | (at s) | (at t) | (fly 9) (walk 9) | 4 | ; range at 298: 9223372036854775807 + 1 / ; after 1 actions / (up)
";

#[test]
fn searches_by_costs_have_their_answers(rt: HostRuntime) -> Result<(), Stop> {
    are_run(&rt, rt.alloc(), TRAVELS)?;
    are_run(&rt, rt.alloc(), LAMPS)?;
    are_run(&rt, rt.alloc(), SUMS)?;
    are_run(&rt, rt.alloc(), RANGES)?;
    are_run(&rt, rt.alloc(), REFUSALS)?;
    are_run(&rt, rt.alloc(), COSTS)?;
    are_run(&rt, rt.alloc(), WORDS)
}
