// Problem files that break a rule, each with the rule and the offset of the form that breaks it,
// and ones that break none.

use crate::run::are_run;
use crate::stop::Stop;

/// Rows of a problem file, the rule that it breaks, and the offset.
const BROKEN: &str = "
check d p q | d = (domain d (predicate p 1) (predicate e 2) (function n 0) (function at 1) (define (q) true) (operator (p ?x) (bounds (p ?x)))) & p = {0} & q = - | 3 | ; refused file 2 rule {1}
- | 10 at 0
x | 10 at 0
5 | 10 at 0
() | 10 at 0
(problem q (init) (goal)) x | 10 at 26
(problem q (init) (goal)) (problem q (init) (goal)) | 10 at 26
(problem) | 10 at 0
(problem q (init)) | 10 at 0
(problem q (goal) (init)) | 10 at 0
(problem ?q (init) (goal)) | 10 at 0
(problem 3 (init) (goal)) | 10 at 0
(problem q (init) (goal) (goal)) | 10 at 0
(problem q init goal) | 10 at 0
(problem q () (goal)) | 10 at 0
(domain d) | 10 at 0
(problem q (Init) (goal)) | 10 at 0
(problem q ((init)) (goal)) | 10 at 0
(problem q (init p) (goal)) | 10 at 17
(problem q (init 7) (goal)) | 10 at 17
(problem q (init ()) (goal)) | 10 at 17
(problem q (init (3 a)) (goal)) | 10 at 17
(problem q (init ((p) a)) (goal)) | 10 at 17
(problem q (init) (goal p)) | 10 at 24
(problem q (init (= (n))) (goal)) | 10 at 17
(problem q (init (= n 1)) (goal)) | 10 at 17
(problem q (init (= () 1)) (goal)) | 10 at 17
(problem q (init (= (n) 1 2)) (goal)) | 10 at 17
(problem q (init) (goal (= (3) 1))) | 10 at 24
(problem q (init) (goal (not))) | 10 at 24
(problem q (init) (goal (not p))) | 10 at 24
(problem q (init) (goal (not (p a) (p b)))) | 10 at 24
(problem q (init) (goal (not ()))) | 10 at 24
(problem q (init) (goal (not (7)))) | 10 at 24
(problem q (init (r a)) (goal)) | 11 at 17
(problem q (init (q)) (goal)) | 11 at 17
(problem q (init (n)) (goal)) | 11 at 17
(problem q (init (not (p a))) (goal)) | 11 at 17
(problem q (init (and)) (goal)) | 11 at 17
(problem q (init) (goal (goal (p a)))) | 11 at 24
(problem q (init (= (p a) 1)) (goal)) | 11 at 20
(problem q (init (= (m) 1)) (goal)) | 11 at 20
(problem q (init) (goal (not (r a)))) | 11 at 29
(problem q (init) (goal (not (= (n) 1)))) | 11 at 29
(problem q (init) (goal (= (n) 1) (not (= (n) 1)))) | 11 at 39
(problem q (init (p)) (goal)) | 13 at 17
(problem q (init (e a)) (goal)) | 13 at 17
(problem q (init (p a b)) (goal)) | 13 at 17
(problem q (init (= (n a) 1)) (goal)) | 13 at 20
(problem q (init (= (at) a)) (goal)) | 13 at 20
(problem q (init) (goal (not (p)))) | 13 at 29
(problem q (init) (goal (e ?x))) | 13 at 24
(problem q (init (p ?x)) (goal)) | 20 at 20
(problem q (init (p (a))) (goal)) | 20 at 20
(problem q (init (e a ())) (goal)) | 20 at 22
(problem q (init (= (n) ?x)) (goal)) | 20 at 24
(problem q (init (= (n) (n))) (goal)) | 20 at 24
(problem q (init (= (at ?x) ?y)) (goal)) | 20 at 24
(problem q (init) (goal (not (p ?x)))) | 20 at 32
(problem q (init) (goal (not (e a (b))))) | 20 at 34
(problem q (init (= (n) 1) (= (n) 2)) (goal)) | 21 at 27
(problem q (init) (goal (= (at a) b) (= (at a) c))) | 21 at 37
(problem q (init (= (n) 1) (= (n) 1) (= (n) a)) (goal)) | 21 at 37
(problem q (init (= (at 1) 1) (= (at 2) 1) (= (at 1) 2)) (goal)) | 21 at 43
(problem q (init) (goal (p a) (not (p a)))) | 21 at 30
(problem q (init) (goal (not (p a)) (p a))) | 21 at 36
(problem q (init) (goal (not (e a b)) (e b a) (e a b))) | 21 at 46
(problem q (init (= (n) 1) (= (n) ?x)) (goal)) | 20 at 34
(problem q (init (= (at a) 1) (= (at a a) 2)) (goal)) | 13 at 33
(problem q (init) (goal (p a) (not (p a b)))) | 13 at 35
(problem q (init (p ?x)) (goal (r))) | 20 at 20
(problem q (init (= (n) 1) (= (n) 2) (r)) (goal)) | 21 at 27
";

/// Rows of a problem file that breaks no rule, the status, and the verdict on the empty plan.
const LAWFUL: &str = "
check d p q | d = (domain d (predicate p 1) (predicate e 2) (function n 0) (function at 1) (define (q) true) (operator (p ?x) (bounds (p ?x)))) & p = {0} & q = - | {1} | {2}
(problem q (init) (goal)) | 0 | ; valid
(problem problem (init (p init)) (goal (p goal))) | 1 | ; goal unmet
(problem q (init (p a) (p a)) (goal (p a) (p a))) | 0 | ; valid
(problem q (init (= (n) 1) (= (n) 1)) (goal)) | 0 | ; valid
(problem q (init (= (n) 1)) (goal (= (n) 2))) | 1 | ; goal unmet
(problem q (init (= (n) -9223372036854775808) (= (at -9223372036854775808) a)) (goal)) | 0 | ; valid
(problem q (init (p a)) (goal (not (p a)) (not (p a)) (p b))) | 1 | ; goal unmet
(problem q (init (= (at a) 1) (= (at b) 2)) (goal)) | 0 | ; valid
";

#[test]
fn problem_files_are_refused_by_their_rules(rt: HostRuntime) -> Result<(), Stop> {
    are_run(&rt, rt.alloc(), BROKEN)?;
    are_run(&rt, rt.alloc(), LAWFUL)
}
