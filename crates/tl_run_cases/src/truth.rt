// The truth of state formulas and the values of terms: a formula is the precondition of an action,
// which makes the goal true.

use crate::run::are_run;
use crate::stop::Stop;

/// Rows of an initial world, a formula, the status, and the verdict: `valid` where the formula is
/// true, and `not executable 1` where it is not.
const BASIC: &str = "
check d p q | d = (domain d (predicate p 1) (predicate edge 2) (function n 0) (function f 1) (operator (look) (pre {1}) (effects (add (p g)) (set (f g) 7) (del (p h))))) & p = (problem q (init {0}) (goal (p g) (= (f g) 7) (not (p h)))) & q = (look) | {2} | {3}
(p a) | (p a) | 0 | ; valid
(p a) | (p b) | 1 | ; not executable 1
(edge a b) | (edge b a) | 1 | ; not executable 1
# values and comparisons
- | (= a a) | 0 | ; valid
- | (= a 1) | 1 | ; not executable 1
- | (< a b) | 1 | ; not executable 1
- | (< -1 0) | 0 | ; valid
- | (<= 3 3) | 0 | ; valid
- | (> 3 3) | 1 | ; not executable 1
- | (>= 3 4) | 1 | ; not executable 1
# undefined terms
- | (not (< (n) 3)) | 0 | ; valid
- | (= (n) (n)) | 1 | ; not executable 1
- | (= (+ a 1) (+ a 1)) | 1 | ; not executable 1
(p a) | (p (f a)) | 1 | ; not executable 1
# the goal list, which is not the world
- | (goal (p g)) | 0 | ; valid
(p a) | (goal (p a)) | 1 | ; not executable 1
(= (f g) 8) | (goal (= (f g) 7)) | 0 | ; valid
(= (f g) 8) | (goal (= (f g) 8)) | 1 | ; not executable 1
(p h) | (goal (not (p h))) | 0 | ; valid
- | (goal (not (p g))) | 1 | ; not executable 1
- | (goal (p h)) | 1 | ; not executable 1
# facts that are there and ones that are not, and places with a value and one without
(p a) (= (n) -1) (= (f b) a) | (p a) | 0 | ; valid
(p a) (= (n) -1) (= (f b) a) | (p b) | 1 | ; not executable 1
(p a) (= (n) -1) (= (f b) a) | (= (n) -1) | 0 | ; valid
(p a) (= (n) -1) (= (f b) a) | (= (f b) a) | 0 | ; valid
(p a) (= (n) -1) (= (f b) a) | (= (f a) (f a)) | 1 | ; not executable 1
(p a) (= (n) 10) | (= (n) 10) | 0 | ; valid
";

/// Such rows of operations past range, and of ones that are not looked at.
const RANGES: &str = "
check d p q | d = (domain d (predicate p 1) (predicate edge 2) (function n 0) (function f 1) (operator (look) (pre {1}) (effects (add (p g)) (set (f g) 7) (del (p h))))) & p = (problem q (init {0}) (goal (p g) (= (f g) 7) (not (p h)))) & q = (look) | {2} | {3}
{max} | (< (+ (n) 1) 0) | 4 | ; range at 100: 9223372036854775807 + 1 / ; after 0 actions
{min} | (< (- (n) 1) 0) | 4 | ; range at 100: -9223372036854775808 - 1 / ; after 0 actions
{min} | (< (* (n) -1) 0) | 4 | ; range at 100: -9223372036854775808 * -1 / ; after 0 actions
{min} | (< (* -2 (n)) 0) | 4 | ; range at 100: -2 * -9223372036854775808 / ; after 0 actions
{max} | (= (- (n) (n)) 0) | 0 | ; valid
{min} | (= (+ (n) 9223372036854775807) -1) | 0 | ; valid
- | (< (* 3037000500 3037000500) 0) | 4 | ; range at 100: 3037000500 * 3037000500 / ; after 0 actions
- | (= (* 3037000499 3037000499) 9223372030926249001) | 0 | ; valid
# a part that decides
{max} | (and false (< (+ (n) 1) 0)) | 1 | ; not executable 1
{max} | (and (< (+ (n) 1) 0) false) | 4 | ; range at 105: 9223372036854775807 + 1 / ; after 0 actions
{max} | (or true (< (+ (n) 1) 0)) | 0 | ; valid
{max} | (or (< (+ (n) 1) 0) true) | 4 | ; range at 104: 9223372036854775807 + 1 / ; after 0 actions
{max} | (implies false (< (+ (n) 1) 0)) | 0 | ; valid
{max} | (implies true (< (+ (n) 1) 0)) | 4 | ; range at 114: 9223372036854775807 + 1 / ; after 0 actions
# a side or an operand that decides
{max} | (< a (+ (n) 1)) | 1 | ; not executable 1
{max} | (= a (+ (n) 1)) | 4 | ; range at 102: 9223372036854775807 + 1 / ; after 0 actions
{max} | (= (f a) (+ (n) 1)) | 1 | ; not executable 1
{max} | (= (+ a (+ (n) 1)) 0) | 1 | ; not executable 1
{max} | (= (+ 0 (+ (n) 1)) 0) | 4 | ; range at 105: 9223372036854775807 + 1 / ; after 0 actions
{max} | (edge (f a) (+ (n) 1)) | 1 | ; not executable 1
{max} | (edge (+ (n) 1) (f a)) | 4 | ; range at 103: 9223372036854775807 + 1 / ; after 0 actions
# an instance that decides, in the order of values
{max} (p 1) (p -1) | (exists (?x) (p ?x) (or (< ?x 0) (< (+ (n) ?x) 0))) | 0 | ; valid
{max} (p 1) (p -1) | (forall (?x) (p ?x) (> (+ (n) ?x) 0)) | 4 | ; range at 120: 9223372036854775807 + 1 / ; after 0 actions
";

/// Such rows of formulas with parts.
const PARTS: &str = "
check d p q | d = (domain d (predicate p 1) (predicate edge 2) (function n 0) (function f 1) (operator (look) (pre {1}) (effects (add (p g)) (set (f g) 7) (del (p h))))) & p = (problem q (init {0}) (goal (p g) (= (f g) 7) (not (p h)))) & q = (look) | {2} | {3}
- | (and) | 0 | ; valid
- | (or) | 1 | ; not executable 1
(p a) | (implies (p a) (p b)) | 1 | ; not executable 1
(p b) | (implies (p a) (p b)) | 0 | ; valid
# no tuple
- | (forall (?x) (p ?x) false) | 0 | ; valid
- | (exists (?x) (p ?x) true) | 1 | ; not executable 1
# two variables, and quantifiers below quantifiers
(edge a b) | (exists (?x ?y) (edge ?y ?x) (= ?x a)) | 1 | ; not executable 1
(edge b a) | (exists (?x ?y) (edge ?y ?x) (= ?x a)) | 0 | ; valid
(p a) (p b) (edge a b) (edge b c) | (forall (?x) (p ?x) (exists (?y) (edge ?x ?y) true)) | 0 | ; valid
(p a) (p b) (p c) (edge a b) (edge b c) | (forall (?x) (p ?x) (exists (?y) (edge ?x ?y) true)) | 1 | ; not executable 1
(p 1) (p 3) (edge 1 2) (edge 2 1) | (forall (?x) (p ?x) (forall (?y) (edge ?x ?y) (< ?x ?y))) | 0 | ; valid
# bounds of the goal list
(p g) | (forall (?x) (goal (p ?x)) (p ?x)) | 0 | ; valid
(p a) | (forall (?x) (goal (p ?x)) (p ?x)) | 1 | ; not executable 1
(p g) | (exists (?x) (goal (= (f ?x) 7)) (p ?x)) | 0 | ; valid
(= (f g) 8) | (exists (?x) (goal (= (f g) ?x)) (< ?x 8)) | 0 | ; valid
(p g) | (forall (?x) (goal (not (p ?x))) (= ?x h)) | 0 | ; valid
# bounds of places
(= (f a) 3) | (exists (?x) (= (f a) ?x) (= ?x 3)) | 0 | ; valid
(= (f a) 3) (= (f b) 4) | (forall (?x ?y) (= (f ?x) ?y) (< ?y 5)) | 0 | ; valid
(= (f a) 3) (= (f b) 5) | (forall (?x ?y) (= (f ?x) ?y) (< ?y 5)) | 1 | ; not executable 1
";

/// Such rows of definitions, which stand in a last column.
const LEVELS: &str = "
check d p q | d = (domain d (predicate p 1) (predicate edge 2) (function n 0) (function f 1) {4} (operator (look) (pre {1}) (effects (add (p g)) (set (f g) 7) (del (p h))))) & p = (problem q (init {0}) (goal (p g) (= (f g) 7) (not (p h)))) & q = (look) | {2} | {3}
(edge a b) | (back b a) | 0 | ; valid | (define (back ?x ?y) (edge ?y ?x))
(edge a b) | (back a b) | 1 | ; not executable 1 | (define (back ?x ?y) (edge ?y ?x))
- | (yes (f a)) | 1 | ; not executable 1 | (define (yes ?x) true)
- | (q) | 0 | ; valid | (defined 1 (q) (not (q)))
- | (q) | 1 | ; not executable 1 | (defined 2 (q) (not (q)))
# a definition whose atoms speak of walks with fewer edges than it has levels
(edge a b) (edge b c) (edge c d) | (reach a d) | 1 | ; not executable 1 | (defined 3 {reach})
(edge a b) (edge b c) (edge c d) | (reach a d) | 0 | ; valid | (defined 4 {reach})
# 64 definitions
- | (q63) | 0 | ; valid | {chain}
";

/// Rows of an initial world, a term, the value that it is compared with, the status, and the
/// verdict. A term without a value is not equal to itself.
const TERMS: &str = "
check d p q | d = (domain d (function n 0) (function f 1) (operator (look) (pre (= {1} {2})))) & p = (problem q (init {0}) (goal)) & q = (look) | {3} | {4}
- | a | a | 0 | ; valid
- | -7 | -7 | 0 | ; valid
(= (n) b) | (n) | b | 0 | ; valid
(= (f a) b) | (n) | (n) | 1 | ; not executable 1
(= (f a) b) (= (f b) -4) | (f (f a)) | -4 | 0 | ; valid
(= (f a) b) | (f (f a)) | (f (f a)) | 1 | ; not executable 1
(= (f 3) c) | (f (- 5 2)) | c | 0 | ; valid
(= (n) 5) | (- (n) (* 2 (n))) | -5 | 0 | ; valid
(= (n) b) | (+ (n) 1) | (+ (n) 1) | 1 | ; not executable 1
- | (+ 1 (n)) | (+ 1 (n)) | 1 | ; not executable 1
{max} | (+ (n) 1) | 0 | 4 | ; range at 65: 9223372036854775807 + 1 / ; after 0 actions
{max} | (f (+ 1 (n))) | 0 | 4 | ; range at 68: 1 + 9223372036854775807 / ; after 0 actions
";

#[test]
fn formulas_have_their_truth_and_terms_their_values(rt: HostRuntime) -> Result<(), Stop> {
    are_run(&rt, rt.alloc(), BASIC)?;
    are_run(&rt, rt.alloc(), RANGES)?;
    are_run(&rt, rt.alloc(), PARTS)?;
    are_run(&rt, rt.alloc(), LEVELS)?;
    are_run(&rt, rt.alloc(), TERMS)
}
