// Searches with their events: which search nodes are kept, seen again or pruned, with what is left
// of the control formula, and after them the lines of the outcome; then the status, and the output.

use crate::run::are_run;
use crate::stop::Stop;

/// Rows of the most actions, the most search nodes, the control item, the initial world and the
/// goal list; then the status, and the output.
const BREADTH: &str = "
trace breadth {0} {1} l p | l = {lamps} {2}) & p = (problem p (init {3}) (goal {4})) | {5} | {6}
# control prunes what the goal does not ask for, and what it denies
5 | 100 | (control (always (forall (?x) (on ?x) (goal (on ?x))))) | {two} | (on b) | 0 | ; kept 0 / ; label (always (forall (?x) (on ?x) (goal (on ?x)))) / ; pruned 0 (press a) / ; kept 1 0 (press b) / ; label (always (forall (?x) (on ?x) (goal (on ?x)))) / ; plan of 1 actions / (press b)
5 | 100 | (control (always (forall (?x) (goal (not (on ?x))) (not (on ?x))))) | {two} | (on b) (not (on a)) | 0 | ; kept 0 / ; label (always (forall (?x) (goal (not (on ?x))) (not (on ?x)))) / ; pruned 0 (press a) / ; kept 1 0 (press b) / ; label (always (forall (?x) (goal (not (on ?x))) (not (on ?x)))) / ; plan of 1 actions / (press b)
# a number of steps runs out
5 | 100 | (control (within 1 (on b))) | {two} | (on a) (on b) | 0 | ; kept 0 / ; label (within 0 (on b)) / ; pruned 0 (press a) / ; kept 1 0 (press b) / ; label true / ; kept 2 1 (press a) / ; label true / ; plan of 2 actions / (press b) / (press a)
# the root is pruned
0 | 100 | (control (always false)) | {two} | (on a) (on b) | 1 | ; pruned / ; none
5 | 100 | (control (always false)) | (lamp a) | - | 1 | ; pruned / ; none
5 | 1 | (control (next false)) | {two} | (on a) | 1 | ; pruned / ; none
5 | 100 | (control (next (next false))) | (lamp a) | (on a) | 1 | ; kept 0 / ; label (next false) / ; pruned 0 (press a) / ; none
# the root is the plan, or waits for what is still to come
5 | 100 | - | (lamp a) | - | 0 | ; kept 0 / ; label true / ; plan of 0 actions
5 | 100 | (control (eventually (on c))) | (lamp a) (lamp c) (on a) | (on a) | 0 | ; kept 0 / ; label (eventually (on c)) / ; kept 1 0 (press c) / ; label true / ; plan of 1 actions / (press c)
5 | 100 | (control (next (on a))) | (lamp a) | - | 0 | ; kept 0 / ; label (on a) / ; kept 1 0 (press a) / ; label true / ; plan of 1 actions / (press a)
0 | 100 | (control (until (eventually (on b)) (eventually (on c)))) | (lamp a) | (on a) | 1 | ; kept 0 / ; label (or (eventually (on c)) (and (eventually (on b)) (until (eventually (on b)) (eventually (on c))))) / ; none within 0
# search nodes that are seen again, in the order of search nodes and of actions, as far as the bound allows
5 | 100 | - | {two} | (on c) | 1 | ; kept 0 / ; label true / ; kept 1 0 (press a) / ; label true / ; kept 2 0 (press b) / ; label true / ; kept 3 1 (press b) / ; label true / ; seen 0 1 (off a) / ; seen 3 2 (press a) / ; seen 0 2 (off b) / ; seen 2 3 (off a) / ; seen 1 3 (off b) / ; none
2 | 100 | - | {two} | (on c) | 1 | ; kept 0 / ; label true / ; kept 1 0 (press a) / ; label true / ; kept 2 0 (press b) / ; label true / ; kept 3 1 (press b) / ; label true / ; seen 0 1 (off a) / ; seen 3 2 (press a) / ; seen 0 2 (off b) / ; none within 2
1 | 100 | - | {two} | (on c) | 1 | ; kept 0 / ; label true / ; kept 1 0 (press a) / ; label true / ; kept 2 0 (press b) / ; label true / ; none within 1
# the last event keeps the search node that is too many
5 | 1 | - | {two} | (on a) (on b) | 2 | ; kept 0 / ; label true / ; kept 1 0 (press a) / ; label true / ; spent 1
5 | 3 | - | {two} | (on c) | 2 | ; kept 0 / ; label true / ; kept 1 0 (press a) / ; label true / ; kept 2 0 (press b) / ; label true / ; kept 3 1 (press b) / ; label true / ; spent 3
5 | 1 | (control (always (not (on a)))) | {two} | (on c) | 2 | ; kept 0 / ; label (always (not (on a))) / ; pruned 0 (press a) / ; kept 1 0 (press b) / ; label (always (not (on a))) / ; spent 1
# what arrives from a search node on, where no goal ends the search
5 | 100 | (control (always (forall (?x) (on ?x) (goal (on ?x))))) | {two} | (on b) (on c) | 1 | ; kept 0 / ; label (always (forall (?x) (on ?x) (goal (on ?x)))) / ; pruned 0 (press a) / ; kept 1 0 (press b) / ; label (always (forall (?x) (on ?x) (goal (on ?x)))) / ; pruned 1 (press a) / ; seen 0 1 (off b) / ; none
# one world with two residuals, and which of them are accepted
5 | 100 | (control (eventually (on a))) | (lamp a) | (on c) | 1 | ; kept 0 / ; label (eventually (on a)) / ; kept 1 0 (press a) / ; label true / ; kept 2 1 (off a) / ; label true / ; seen 1 2 (press a) / ; none
5 | 100 | (control (eventually (on a))) | (lamp a) | - | 0 | ; kept 0 / ; label (eventually (on a)) / ; kept 1 0 (press a) / ; label true / ; plan of 1 actions / (press a)
5 | 100 | (control (eventually (on a))) | (lamp a) | (not (on a)) | 0 | ; kept 0 / ; label (eventually (on a)) / ; kept 1 0 (press a) / ; label true / ; kept 2 1 (off a) / ; label true / ; plan of 2 actions / (press a) / (off a)
# one residual with two worlds
5 | 100 | (control true) | (lamp a) | (on c) | 1 | ; kept 0 / ; label true / ; kept 1 0 (press a) / ; label true / ; seen 0 1 (off a) / ; none
5 | 100 | (control true) | (lamp a) | (on a) | 0 | ; kept 0 / ; label true / ; kept 1 0 (press a) / ; label true / ; plan of 1 actions / (press a)
# the path by which a search node was met first
5 | 100 | - | {two} | (on a) (on b) | 0 | ; kept 0 / ; label true / ; kept 1 0 (press a) / ; label true / ; kept 2 0 (press b) / ; label true / ; kept 3 1 (press b) / ; label true / ; plan of 2 actions / (press a) / (press b)
# not pruned, though the formula is false if the plan stopped there
5 | 100 | (control (always (forall (?x) (on ?x) (eventually (not (on ?x)))))) | (lamp a) | (on a) | 1 | ; kept 0 / ; label (always (forall (?x) (on ?x) (eventually (not (on ?x))))) / ; kept 1 0 (press a) / ; label (and (eventually (not (on a))) (always (forall (?x) (on ?x) (eventually (not (on ?x)))))) / ; seen 0 1 (off a) / ; none
5 | 100 | (control (always (forall (?x) (on ?x) (eventually (not (on ?x)))))) | (lamp a) | - | 0 | ; kept 0 / ; label (always (forall (?x) (on ?x) (eventually (not (on ?x))))) / ; plan of 0 actions
# the goal is met, and the residual does not hold for ever
5 | 100 | (control (eventually (on b))) | (lamp a) | (on a) | 1 | ; kept 0 / ; label (eventually (on b)) / ; kept 1 0 (press a) / ; label (eventually (on b)) / ; seen 0 1 (off a) / ; none
";

/// Rows of the most actions, the most search nodes, the control item, the initial world and the
/// goal list; then the status, and the output.
const DEPTH: &str = "
trace depth {0} {1} l p | l = {lamps} {2}) & p = (problem p (init {3}) (goal {4})) | {5} | {6}
2 | 100 | - | (lamp a) | (on c) | 1 | ; kept 0 / ; label true / ; kept 1 0 (press a) / ; label true / ; seen 0 1 (off a) / ; none
1 | 100 | - | (lamp a) | (on c) | 1 | ; kept 0 / ; label true / ; kept 1 0 (press a) / ; label true / ; none within 1
5 | 100 | (control (always false)) | {two} | (on b) | 1 | ; pruned / ; none
5 | 100 | - | (lamp a) | - | 0 | ; kept 0 / ; label true / ; plan of 0 actions
# the plan goes on from the search node that was kept last
5 | 100 | - | {two} | (on b) | 0 | ; kept 0 / ; label true / ; kept 1 0 (press a) / ; label true / ; kept 2 1 (press b) / ; label true / ; plan of 2 actions / (press a) / (press b)
5 | 100 | (control (always (not (on a)))) | {two} | (on b) | 0 | ; kept 0 / ; label (always (not (on a))) / ; pruned 0 (press a) / ; kept 1 0 (press b) / ; label (always (not (on a))) / ; plan of 1 actions / (press b)
# the last event keeps the search node that is too many
5 | 1 | - | {two} | (on c) | 2 | ; kept 0 / ; label true / ; kept 1 0 (press a) / ; label true / ; spent 1
3 | 2 | - | {two} | (on c) | 2 | ; kept 0 / ; label true / ; kept 1 0 (press a) / ; label true / ; kept 2 1 (press b) / ; label true / ; spent 2
";

/// Rows of the most actions and of the edges of a graph in which a search node is met again with
/// more actions left; then the status, and the output.
const WAYS: &str = "
trace depth {0} 100 g p | g = (domain g (predicate here 1) (predicate edge 2) (operator (go ?x ?y) (bounds (here ?x) (edge ?x ?y)) (effects (del (here ?x)) (add (here ?y))))) & p = (problem p (init (here s) {1}) (goal (here t))) | {2} | {3}
# m is kept with no action left, and entered when it is seen with more
3 | {two ways} | 0 | ; kept 0 / ; label true / ; kept 1 0 (go s a) / ; label true / ; kept 2 1 (go a b) / ; label true / ; kept 3 2 (go b m) / ; label true / ; seen 3 0 (go s m) / ; kept 4 3 (go m k) / ; label true / ; kept 5 4 (go k t) / ; label true / ; plan of 3 actions / (go s m) / (go m k) / (go k t)
# it is entered twice, and its arrival is shown twice
4 | {two ways} | 0 | ; kept 0 / ; label true / ; kept 1 0 (go s a) / ; label true / ; kept 2 1 (go a b) / ; label true / ; kept 3 2 (go b m) / ; label true / ; kept 4 3 (go m k) / ; label true / ; seen 3 0 (go s m) / ; seen 4 3 (go m k) / ; kept 5 4 (go k t) / ; label true / ; plan of 3 actions / (go s m) / (go m k) / (go k t)
# the bound cuts nothing: m and k are entered again all the same, and each arrival on the way is shown again
10 | (edge s a) (edge a b) (edge b m) (edge s m) (edge m k) (edge k f) | 1 | ; kept 0 / ; label true / ; kept 1 0 (go s a) / ; label true / ; kept 2 1 (go a b) / ; label true / ; kept 3 2 (go b m) / ; label true / ; kept 4 3 (go m k) / ; label true / ; kept 5 4 (go k f) / ; label true / ; seen 3 0 (go s m) / ; seen 4 3 (go m k) / ; seen 5 4 (go k f) / ; none
";

/// Rows of the mode and the value of a counter; then the status, and the output. Where an operation
/// is past range no event is shown.
const RANGES: &str = "
trace {0} 5 10 c p | c = (domain c (function n 0) (operator (tick) (effects (set (n) (+ (n) 1))))) & p = (problem p (init (= (n) {1})) (goal (= (n) 0))) | {2} | {3}
breadth | 9223372036854775807 | 4 | ; range at 60: 9223372036854775807 + 1 / ; after 0 actions
breadth | 9223372036854775806 | 4 | ; range at 60: 9223372036854775807 + 1 / ; after 1 actions / (tick)
depth | 9223372036854775806 | 4 | ; range at 60: 9223372036854775807 + 1 / ; after 1 actions / (tick)
depth | -2 | 0 | ; kept 0 / ; label true / ; kept 1 0 (tick) / ; label true / ; kept 2 1 (tick) / ; label true / ; plan of 2 actions / (tick) / (tick)
";

/// Rows of the words and the files, of which some are refused or missing, or fail; then the status,
/// and the output, and what fails.
const OUTSIDE: &str = "
trace {0} | l = {lamps}) & p = (problem p (init (lamp a)) (goal)) & e = - | {1} | {2} | {3}
breadth 5 100 l p | 0 | ; kept 0 / ; label true / ; plan of 0 actions | -
depth 0005 0100 l p | 0 | ; kept 0 / ; label true / ; plan of 0 actions | -
breadth 5 100001 l p | 8 | - | -
depth 5 0 l p | 8 | - | -
depth x 10 l p | 8 | - | -
wide 5 100 l p | 8 | - | -
breadth 5 100 l | 8 | - | -
breadth 5 100 l p p | 8 | - | -
breadth 5 100 l p | 5 | - | store 64 fails 2
breadth 5 100 l p | 6 | ; ke.. | sink 4 fails 1
breadth 5 100 l p | 6 | ; kept 0 / ; l.. | sink 6 fails 2
breadth 5 100 l q | 5 | - | -
breadth 5 100 e p | 3 | ; refused file 1 rule 10 at 0 | -
depth 5 100 l e | 3 | ; refused file 2 rule 10 at 0 | -
";

/// Rows of the items of a domain with a counter, its value and the goal list; then where an
/// operation is past range: in the control formula, in an action, in the control formula after an
/// action, and where the last state is repeated.
const COUNTERS: &str = "
trace breadth 5 10 c p | c = (domain c (function n 0) {0}) & p = (problem p (init (= (n) {1})) (goal {2})) | 4 | ; range at {3}
(control (< (+ (n) 1) 9)) | 9223372036854775807 | - | 37: 9223372036854775807 + 1 / ; after 0 actions
(operator (tick) (effects (set (n) (+ (n) 1)))) | 9223372036854775807 | (= (n) 0) | 60: 9223372036854775807 + 1 / ; after 0 actions
(operator (tick) (effects (set (n) (+ (n) 1)))) (control (always (not (= (+ (n) 1) 0)))) | 9223372036854775806 | (= (n) 0) | 98: 9223372036854775807 + 1 / ; after 1 actions / (tick)
(control (next (not (= (+ (n) 1) 0)))) | 9223372036854775807 | - | 48: 9223372036854775807 + 1 / ; after 0 actions
";

#[test]
fn searches_show_their_events(rt: HostRuntime) -> Result<(), Stop> {
    are_run(&rt, rt.alloc(), BREADTH)?;
    are_run(&rt, rt.alloc(), DEPTH)?;
    are_run(&rt, rt.alloc(), WAYS)?;
    are_run(&rt, rt.alloc(), RANGES)?;
    are_run(&rt, rt.alloc(), COUNTERS)?;
    are_run(&rt, rt.alloc(), OUTSIDE)
}
