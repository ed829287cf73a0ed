// Verdicts, and operations past range: the domain, the problem, the plan, the status, and the
// output.

use crate::run::are_run;
use crate::stop::Stop;

const VERDICTS: &str = "
check d p q | d = {0} & p = {1} & q = {2} | {3} | {4}
{one domain} | {one problem} | (lit) | 0 | ; valid
{one domain} | {one problem} | - | 1 | ; goal unmet
(domain one (predicate on 1) (operator (lit) (pre (on b)) (effects (add (on a))))) | {one problem} | (lit) | 1 | ; not executable 1
(domain one (predicate on 1) (operator (lit) (effects (add (on a)) (del (on a))))) | {one problem} | (lit) | 0 | ; valid
(domain two (predicate on 2) ; a fact of two values{lf} (operator (up) (effects (add (on a 007)))){lf} (operator (down) (pre (on a 7)) (effects (del (on a 7)) (add (on b -1))))) | (problem two (init (on c c) (on c c)) (goal (on b -1) (on c c))) | (up) (down) | 0 | ; valid
(domain two (predicate on 2){lf} (operator (up) (effects (add (on a 7)))){lf} (operator (down) (pre (on a 7)) (effects (del (on a 7))))) | (problem two (init) (goal)) | (up) (down) (down) | 1 | ; not executable 3
(domain t (predicate on 1) (operator (swap ?x) (bounds (on ?x)) (effects (add (on ?x)) (del (on ?x))))) | (problem p (init (on a)) (goal (on a))) | (swap a) | 0 | ; valid
(domain k (predicate lamp 1) (function n 0) (operator (clash) (effects (set (n) 1) (each (?x) (lamp ?x) (set (n) 2))))) | (problem p (init (lamp a)) (goal)) | (clash) | 1 | ; not executable 1
(domain k (predicate lamp 1) (function n 0) (operator (same) (effects (set (n) 2) (each (?x) (lamp ?x) (set (n) (+ 1 1)))))) | (problem p (init (lamp a) (lamp b)) (goal (= (n) 2))) | (same) | 0 | ; valid
(domain u (function n 0) (predicate done 0) (operator (go) (pre (not (< (n) 3))) (effects (add (done))))) | (problem p (init) (goal (done))) | (go) | 0 | ; valid
(domain u (function n 0) (function m 0) (operator (go) (effects (set (n) (m))))) | (problem p (init) (goal)) | (go) | 1 | ; not executable 1
(domain l (predicate lamp 1) (operator (lamp) (effects (add (lamp a))))) | (problem p (init) (goal (lamp a))) | (lamp) | 0 | ; valid
(domain w (function n 0) (operator (go) (effects (set (n) 3)))) | (problem p (init (= (n) 2) (= (n) 2)) (goal (= (n) 2) (= (n) 2))) | - | 0 | ; valid
";

const RANGES: &str = "
check d p q | d = {0} & p = {1} & q = {2} | {3} | {4}
(domain c (function n 0) (operator (tick) (effects (set (n) (+ (n) 1))))) | (problem p (init (= (n) 9223372036854775807)) (goal (= (n) 0))) | (tick) | 4 | ; range at 60: 9223372036854775807 + 1 / ; after 0 actions
(domain c (function n 0) (control (always (< (+ (n) 1) 5)))) | (problem p (init {max}) (goal)) | - | 4 | ; range at 45: 9223372036854775807 + 1 / ; after 0 actions
(domain c (function n 0) (operator (tick) (effects (set (n) (+ (n) 1))))) | (problem p (init (= (n) 9223372036854775806)) (goal)) | (tick) (tick) | 4 | ; range at 60: 9223372036854775807 + 1 / ; after 1 actions
(domain c (function n 0) (operator (tick) (effects (set (n) (+ (n) 1)))) (operator (stop) (pre false))) | (problem p (init (= (n) 9223372036854775806)) (goal (= (n) 0))) | (tick) (stop) (tick) | 1 | ; not executable 2
(domain c (function n 0) (operator (look) (pre (or true (< (* (n) 2) 0))))) | (problem p (init {max}) (goal)) | (look) (look) | 0 | ; valid
(domain c (function n 0) (operator (low) (pre (< (- -2 (n)) 0)))) | (problem p (init {max}) (goal)) | (low) | 4 | ; range at 49: -2 - 9223372036854775807 / ; after 0 actions
(domain c (function n 0) (control (always (< (+ (n) 1) 5)))) | (problem p (init (= (n) 9223372036854775807)) (goal (= (n) 0))) | - | 1 | ; goal unmet
(domain c (predicate q 1) (control (always (forall (?x) (q ?x) (< (+ ?x 1) 5)))) (operator (up) (effects (add (q 9223372036854775807))))) | (problem p (init (q 3)) (goal)) | - | 0 | ; valid
(domain c (predicate q 1) (control (always (forall (?x) (q ?x) (< (+ ?x 1) 5)))) (operator (up) (effects (add (q 9223372036854775807))))) | (problem p (init (q 3) (q 4)) (goal)) | - | 1 | ; disobeys
(domain c (predicate q 1) (control (always (forall (?x) (q ?x) (< (+ ?x 1) 5)))) (operator (up) (effects (add (q 9223372036854775807))))) | (problem p (init (q 9223372036854775807)) (goal)) | - | 4 | ; range at 66: 9223372036854775807 + 1 / ; after 0 actions
(domain c (predicate q 1) (control (always (forall (?x) (q ?x) (< (+ ?x 1) 5)))) (operator (up) (effects (add (q 9223372036854775807))))) | (problem p (init (q 3)) (goal)) | (up) | 4 | ; range at 66: 9223372036854775807 + 1 / ; after 1 actions
(domain c (predicate q 1) (control (always (exists (?x) (q ?x) (< (+ ?x 1) 5)))) (operator (up) (effects (add (q 9223372036854775807))))) | (problem p (init (q 3)) (goal)) | (up) | 0 | ; valid
";

#[test]
fn plans_have_their_verdicts(rt: HostRuntime) -> Result<(), Stop> {
    are_run(&rt, rt.alloc(), VERDICTS)?;
    are_run(&rt, rt.alloc(), RANGES)
}
