// The labels of formulas: what is left of a formula that is wanted in the next state.

use crate::run::are_run;
use crate::stop::Stop;

/// Rows of a formula as it is written, and its label.
const LABELS: &str = "
explain d p q | d = (domain d (predicate p 0) (predicate on 1) (predicate at 2) (function n 0) (function f 1) (define (far ?x) (not (on ?x))) (operator (look)) (control (next {0}))) & p = (problem x (init) (goal)) & q = - | 0 | ; state 0: {1} / ; end
true | true
false | false
(p) | (p)
(on a) | (on a)
(  at a   -7 ) | (at a -7)
(at 0 -007) | (at 0 -7)
(far b) | (far b)
(= (n) c) | (= (n) c)
(< (f a) (+ (n) 1)) | (< (f a) (+ (n) 1))
(<= (- (n) 1) (* 2 (f (f b)))) | (<= (- (n) 1) (* 2 (f (f b))))
(> 1 0) | (> 1 0)
(>= -9223372036854775808 9223372036854775807) | (>= -9223372036854775808 9223372036854775807)
(on (f (n))) | (on (f (n)))
(goal (p)) | (goal (p))
(goal (at a 3)) | (goal (at a 3))
(goal (= (n) b)) | (goal (= (n) b))
(goal (= (f a) -1)) | (goal (= (f a) -1))
(goal (not (on a))) | (goal (not (on a)))
(not (p)) | (not (p))
(not (not (on a))) | (not (not (on a)))
(and) | (and)
(or) | (or)
(and (p)) | (and (p))
(and (p) (or) (on a) (and true)) | (and (p) (or) (on a) (and true))
(or (p) (not (p)) false) | (or (p) (not (p)) false)
(implies (p) (on a)) | (or (not (p)) (on a))
(next (p)) | (next (p))
(always (eventually (p))) | (always (eventually (p)))
(until (not (p)) (on a)) | (until (not (p)) (on a))
(within 0 (p)) | (within 0 (p))
(for 100000 (p)) | (for 100000 (p))
(until (within 3 (p)) (for 12 (on b))) | (until (within 3 (p)) (for 12 (on b)))
# a variable has its own name, and not its place
(forall (?y) (on ?y) (p)) | (forall (?y) (on ?y) (p))
(exists (?y ?x) (at ?x ?y) (on ?y)) | (exists (?y ?x) (at ?x ?y) (on ?y))
(forall (?k) (on ?k) (exists (?v) (= (f ?k) ?v) (at ?v ?k))) | (forall (?k) (on ?k) (exists (?v) (= (f ?k) ?v) (at ?v ?k)))
(always (forall (?x) (goal (on ?x)) (goal (on ?x)))) | (always (forall (?x) (goal (on ?x)) (goal (on ?x))))
(forall (?x) (goal (not (on ?x))) (not (on ?x))) | (forall (?x) (goal (not (on ?x))) (not (on ?x)))
(exists (?v) (goal (= (f a) ?v)) (= (f a) ?v)) | (exists (?v) (goal (= (f a) ?v)) (= (f a) ?v))
(forall (?x) (= (n) ?x) (< (+ ?x 1) 3)) | (forall (?x) (= (n) ?x) (< (+ ?x 1) 3))
";

/// Rows of what comes before and after 1,998 parts in a formula of 10,000 bytes.
const WHOLE: &str = "
explain d p q | d = (domain d (predicate p 0) (predicate on 1) (predicate at 2) (function n 0) (function f 1) (define (far ?x) (not (on ?x))) (operator (look)) (control (next {0}{1998  true}{1}))) & p = (problem x (init) (goal)) & q = - | 0 | ; state 0: {0}{1998  true}{1} / ; end
(and |  true)
(not (or | ))
";

/// A row of what comes before and after a name of 9,995 bytes.
const NAME: &str = "
explain d p q | d = (domain d (predicate p 0) (predicate on 1) (predicate at 2) (function n 0) (function f 1) (define (far ?x) (not (on ?x))) (operator (look)) (control (next {0} {9995 a}{1}))) & p = (problem x (init) (goal)) & q = - | 0 | ; state 0: {0} {9995 a}{1} / ; end
(on | )
";

/// Rows of formulas of more than 10,000 bytes.
const LONG: &str = "
explain d p q | d = (domain d (predicate p 0) (predicate on 1) (predicate at 2) (function n 0) (function f 1) (define (far ?x) (not (on ?x))) (operator (look)) (control (next {0}))) & p = (problem x (init) (goal)) & q = - | 0 | ; state 0: long / ; end
(on {9996 a})
(and{1999  true} true)
(not (and{1998  true}))
(next (or{1998  true}))
(and{20000  true})
(or (on {10000 a}) (p))
(or (p) (on {10000 a}))
";

#[test]
fn labels_have_at_most_10000_bytes(rt: HostRuntime) -> Result<(), Stop> {
    are_run(&rt, rt.alloc(), LABELS)?;
    are_run(&rt, rt.alloc(), WHOLE)?;
    are_run(&rt, rt.alloc(), NAME)?;
    are_run(&rt, rt.alloc(), LONG)
}
