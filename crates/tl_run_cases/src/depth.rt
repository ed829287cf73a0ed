// Depth-first searches for plans of lamps, of ways through a graph and of a robot: the most
// actions, the most search nodes, and what the table says; then the status, and the output.

use crate::run::are_run;
use crate::stop::Stop;

/// Rows of the most actions, the most search nodes, the control item, the initial world and the
/// goal list; then the status, and the output.
const LAMPS: &str = "
plan depth {0} {1} l p | l = {lamps} {2}) & p = (problem p (init {3}) (goal {4})) | {5} | {6}
# the first plan in the order of actions, which need not be a shortest one
5 | 100 | - | {two} | (on b) | 0 | ; plan of 2 actions / (press a) / (press b)
1 | 100 | - | {two} | (on b) | 0 | ; plan of 1 actions / (press b)
5 | 100 | (control (until (not (on a)) (on b))) | {two} | (on a) (on b) | 0 | ; plan of 2 actions / (press b) / (press a)
# no action at all
0 | 100 | - | {two} | - | 0 | ; plan of 0 actions
0 | 100 | - | {two} | (on b) | 1 | ; none within 0
# a root that is pruned
0 | 100 | (control (always false)) | {two} | (on b) | 1 | ; none
5 | 100 | (control (always false)) | {two} | (on b) | 1 | ; none
# two search nodes, at 0 and 1 actions
5 | 100 | (control (always (not (on b)))) | {two} | (on b) | 1 | ; none
1 | 100 | (control (always (not (on b)))) | {two} | (on b) | 1 | ; none within 1
# four search nodes, at 0, 1, 1 and 2 actions, for a goal that no action reaches: one too many on the way down
3 | 2 | - | {two} | (on c) | 2 | ; spent 2
3 | 3 | - | {two} | (on c) | 2 | ; spent 3
3 | 4 | - | {two} | (on c) | 1 | ; none
# and on the way back
2 | 3 | - | {two} | (on c) | 2 | ; spent 3
2 | 4 | - | {two} | (on c) | 1 | ; none within 2
1 | 2 | - | {two} | (on c) | 2 | ; spent 2
1 | 3 | - | {two} | (on c) | 1 | ; none within 1
# an eventuality is pending where the goal is met
5 | 100 | (control (eventually (on c))) | (lamp a) (lamp c) (on a) | (on a) | 0 | ; plan of 1 actions / (press c)
";

/// Rows of the most actions and of the edges of a graph in which a node is met again with more
/// actions left; then the status, and the output.
const WAYS: &str = "
plan depth {0} 100 g p | g = (domain g (predicate here 1) (predicate edge 2) (operator (go ?x ?y) (bounds (here ?x) (edge ?x ?y)) (effects (del (here ?x)) (add (here ?y))))) & p = (problem p (init (here s) {1}) (goal (here t))) | {2} | {3}
2 | {two ways} | 1 | ; none within 2
3 | {two ways} | 0 | ; plan of 3 actions / (go s m) / (go m k) / (go k t)
4 | {two ways} | 0 | ; plan of 3 actions / (go s m) / (go m k) / (go k t)
5 | {two ways} | 0 | ; plan of 5 actions / (go s a) / (go a b) / (go b m) / (go m k) / (go k t)
# k is passed while nothing is cut, and entered again after the way by m was
5 | {late cut} | 1 | ; none within 5
6 | {late cut} | 0 | ; plan of 6 actions / (go s k) / (go k f) / (go f m) / (go m n) / (go n o) / (go o t)
7 | {late cut} | 0 | ; plan of 7 actions / (go s d) / (go d e) / (go e f) / (go f m) / (go m n) / (go n o) / (go o t)
";

/// Rows of the most actions, for the same graph with an operation past range at k; then the status,
/// and the output.
const RANGES: &str = "
plan depth {0} 100 g p | g = (domain g (predicate here 1) (predicate edge 2) (function n 0) (operator (go ?x ?y) (bounds (here ?x) (edge ?x ?y)) (effects (del (here ?x)) (add (here ?y)))) (operator (tick) (pre (here k)) (effects (set (n) (+ (n) 1))))) & p = (problem p (init (here s) (edge s a) (edge a b) (edge b m) (edge s m) (edge m k) (edge k t) {max}) (goal (here t))) | {1} | {2}
# k is met with no action left, and then below m, which is entered again
2 | 1 | ; none within 2
3 | 4 | ; range at 209: 9223372036854775807 + 1 / ; after 2 actions / (go s m) / (go m k)
5 | 4 | ; range at 209: 9223372036854775807 + 1 / ; after 4 actions / (go s a) / (go a b) / (go b m) / (go m k)
";

/// Rows of the numbers; then the status, and the output.
const WORDS: &str = "
plan depth {0} l p | l = {lamps}) & p = {ab} | {1} | {2}
5 100000 | 0 | ; plan of 2 actions / (press a) / (press b)
5 100001 | 8 | -
100000 100 | 0 | ; plan of 2 actions / (press a) / (press b)
100001 100 | 8 | -
5 0 | 8 | -
5 | 8 | -
";

/// Rows of the most actions and the most search nodes, for six balls; then the status, and the
/// output.
const BALLS: &str = "
plan depth {0} {1} g p | g = {gripper} (control {useful})) & p = (problem sample (init {six balls}) (goal {six there})) | {2} | {3}
# the first action that is not pruned is the right one each time, so one search node is kept for each action, and the root
18 | 18 | 0 | ; plan of 17 actions / (pick b0001 rooma left) / (pick b0002 rooma right) / (move rooma roomb) / (drop b0001 roomb left) / (drop b0002 roomb right) / (move roomb rooma) / (pick b0003 rooma left) / (pick b0004 rooma right) / (move rooma roomb) / (drop b0003 roomb left) / (drop b0004 roomb right) / (move roomb rooma) / (pick b0005 rooma left) / (pick b0006 rooma right) / (move rooma roomb) / (drop b0005 roomb left) / (drop b0006 roomb right)
18 | 17 | 2 | ; spent 17
";

#[test]
fn depth_first_searches_have_their_answers(rt: HostRuntime) -> Result<(), Stop> {
    are_run(&rt, rt.alloc(), LAMPS)?;
    are_run(&rt, rt.alloc(), WAYS)?;
    are_run(&rt, rt.alloc(), RANGES)?;
    are_run(&rt, rt.alloc(), WORDS)?;
    are_run(&rt, rt.alloc(), BALLS)
}
