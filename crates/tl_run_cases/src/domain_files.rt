// Domain files that break a rule, each with the rule and the offset of the form that breaks it, and
// ones that break none.

use crate::run::are_run;
use crate::stop::Stop;

/// Rows of a domain file, the rule that it breaks, and the offset.
const BROKEN: &str = "
check d p q | d = {0} & p = (problem q (init) (goal)) & q = - | 3 | ; refused file 1 rule {1}
- | 10 at 0
(domain d) x | 10 at 11
(domain d) (domain e) | 10 at 11
domain | 10 at 0
7 | 10 at 0
() | 10 at 0
(domain) | 10 at 0
(domain ?d) | 10 at 0
(domain 5) | 10 at 0
(problem d) | 10 at 0
((domain) d) | 10 at 0
(domain d predicate) | 10 at 10
(domain d 5) | 10 at 10
(domain d ()) | 10 at 10
(domain d ((predicate p 1))) | 10 at 10
(domain d (repeat 3)) | 10 at 10
(domain d (Predicate p 1)) | 10 at 10
(domain d (predicate p)) | 10 at 10
(domain d (predicate ?p 1)) | 10 at 10
(domain d (predicate p one)) | 10 at 10
(domain d (predicate p 1 2)) | 10 at 10
(domain d (function f)) | 10 at 10
(domain d (function (f) 1)) | 10 at 10
(domain d (define (q))) | 10 at 10
(domain d (define q true)) | 10 at 10
(domain d (define (q) true true)) | 10 at 10
(domain d (defined (q) true)) | 10 at 10
(domain d (defined two (q) true)) | 10 at 10
(domain d (defined 2 q true)) | 10 at 10
(domain d (operator)) | 10 at 10
(domain d (operator o)) | 10 at 10
(domain d (operator (o) (post))) | 10 at 10
(domain d (operator (o) (pre true) (bounds))) | 10 at 10
(domain d (operator (o) (effects) (effects))) | 10 at 10
(domain d (operator (o) bounds)) | 10 at 10
(domain d (control)) | 10 at 10
(domain d (control true true)) | 10 at 10
(domain d (control true) (control true)) | 12 at 25
(domain d (control true) (predicate p 0) (control (p 1))) | 12 at 41
(domain d (predicate goal 1)) | 12 at 21
(domain d (predicate within 0)) | 12 at 21
(domain d (define (q) true) (predicate q 1)) | 12 at 39
(domain d (function f 0) (function f 1)) | 12 at 35
(domain d (function and 2)) | 12 at 20
(domain d (predicate = 9)) | 12 at 21
(domain d (predicate p 1) (predicate p 9)) | 12 at 37
(domain d (predicate p 9)) | 19 at 23
(domain d (function f -1)) | 19 at 22
(domain d (defined 0 (q) true)) | 19 at 19
(domain d (defined 65 (q) true)) | 19 at 19
(domain d (defined 40 (q) true) (defined 25 (r) true)) | 19 at 41
(domain d (defined -3 (q) true)) | 19 at 19
(domain d (define () true)) | 10 at 18
(domain d (define (?q) true)) | 10 at 18
(domain d (define (q a) true)) | 10 at 18
(domain d (operator (o 1))) | 10 at 20
(domain d (operator ((o)))) | 10 at 20
(domain d (define (q ?a ?b ?c ?d ?e ?f ?g ?h ?i) true)) | 19 at 18
(domain d (operator (o ?a ?b ?c ?d ?e ?f ?g ?h ?i ?j ?k ?l ?m ?n ?o ?p ?q))) | 19 at 20
(domain d (define (q ?a ?a ?a ?a ?a ?a ?a ?a ?a) true)) | 19 at 18
(domain d (define (not ?x) true)) | 12 at 19
(domain d (predicate p 1) (define (p) true)) | 12 at 35
(domain d (defined 2 (q) true) (define (q) true)) | 12 at 40
(domain d (operator (o)) (operator (o))) | 12 at 36
(domain d (operator (and)) (operator (and))) | 12 at 38
(domain d (define (q ?x ?x) true)) | 12 at 24
(domain d (predicate p 1) (operator (o ?x ?x) (bounds (p ?x)))) | 12 at 42
(domain d (operator (o ?x))) | 16 at 23
(domain d (predicate p 1) (operator (o ?x ?y) (bounds (p ?x)))) | 16 at 42
(domain d (predicate p 1) (operator (o ?x) (pre (p ?x)))) | 16 at 39
(domain d (operator (o) (pre))) | 10 at 24
(domain d (operator (o) (bounds) (pre true true))) | 10 at 33
(domain d (define (q) (not (not (not (not (not (not (not (not (not (not (not (not (not (not (not (not (not (not (not (not (not (not (not (not (not true))))))))))))))))))))))))))) | 19 at 22
(domain d (defined 1 (q) (not (not (not (not (not (not (not (not (not (not (not (not (not (not (not (not (not (not (not (not (not (not (not (not (and))))))))))))))))))))))))))) | 19 at 25
(domain d (define (q) (q))) | 11 at 22
(domain d (define (q) (r)) (define (r) true)) | 11 at 22
(domain d (define (q) (always true))) | 17 at 22
(domain d (operator (o) (pre (next true)))) | 17 at 29
(domain d (predicate p 1) (control (p ?x))) | 14 at 38
(domain d (predicate p 1) (define (q ?x) (p ?y))) | 14 at 44
(domain d (control maybe)) | 10 at 19
(domain d (control 7)) | 10 at 19
(domain d (control ?x)) | 10 at 19
(domain d (control ())) | 10 at 19
(domain d (control ((p)))) | 10 at 19
(domain d (control (3))) | 10 at 19
(domain d (control (not))) | 10 at 19
(domain d (control (next true true))) | 10 at 19
(domain d (control (and (always)))) | 10 at 24
(domain d (control (eventually true true))) | 10 at 19
(domain d (control (implies true))) | 10 at 19
(domain d (control (until true true true))) | 10 at 19
(domain d (control (within true))) | 10 at 19
(domain d (control (for true 3))) | 10 at 19
(domain d (control (within 3 true true))) | 10 at 19
(domain d (control (within -1 true))) | 19 at 27
(domain d (control (for 100001 true))) | 19 at 24
(domain d (control (= a))) | 10 at 19
(domain d (control (< 1 2 3))) | 10 at 19
(domain d (control (>=))) | 10 at 19
(domain d (control (goal))) | 10 at 19
(domain d (predicate p 1) (control (goal (p a) (p b)))) | 10 at 35
(domain d (predicate p 1) (control (forall (?x) (p ?x)))) | 10 at 35
(domain d (predicate p 1) (control (exists () (p a) true))) | 10 at 35
(domain d (predicate p 1) (control (forall (x) (p x) true))) | 10 at 35
(domain d (predicate p 1) (control (forall ?x (p ?x) true))) | 10 at 35
(domain d (predicate p 1) (control (forall (?v0 ?v1 ?v2 ?v3 ?v4 ?v5 ?v6 ?v7 ?v8 ?v9 ?v10 ?v11 ?v12 ?v13 ?v14 ?v15 ?v16 ?v17 ?v18 ?v19 ?v20 ?v21 ?v22 ?v23 ?v24 ?v25 ?v26 ?v27 ?v28 ?v29 ?v30 ?v31 ?v32) (p ?v0) true))) | 19 at 35
(domain d (predicate p 1) (control (exists (?v ?v ?v ?v ?v ?v ?v ?v ?v ?v ?v ?v ?v ?v ?v ?v ?v ?v ?v ?v ?v ?v ?v ?v ?v ?v ?v ?v ?v ?v ?v ?v ?v) (p ?v0) true))) | 19 at 35
(domain d (control (q a))) | 11 at 19
(domain d (function f 0) (control (f))) | 11 at 34
(domain d (control (set a))) | 11 at 19
(domain d (predicate p 1) (control (p))) | 13 at 35
(domain d (define (q ?x ?y) true) (control (q a))) | 13 at 43
(domain d (predicate p 1) (control (p ?x ?y))) | 13 at 35
(domain d (operator (o) (pre (until true true)))) | 17 at 29
(domain d (define (q) (not (within 3 true)))) | 17 at 27
(domain d (operator (o) (effects (when (for 3 true))))) | 17 at 39
(domain d (define (q) (next))) | 10 at 22
(domain d (operator (o) (pre (within true)))) | 10 at 29
(domain d (predicate p 1) (control (forall (?x ?x) (p ?x) true))) | 12 at 47
(domain d (predicate p 2) (operator (o) (effects (each (?x ?x) (p ?x ?x))))) | 12 at 59
(domain d (predicate p 1) (control (forall (?x) (p ?x) (forall (?x) (p ?x) true)))) | 15 at 64
(domain d (predicate p 1) (define (q ?x) (exists (?x) (p ?x) true))) | 15 at 50
(domain d (predicate p 1) (control (forall (?x) (p a) true))) | 16 at 44
(domain d (predicate p 1) (control (exists (?y) (p ?x) true))) | 16 at 44
(domain d (control (forall (?x) (goal) true))) | 16 at 28
(domain d (control (= ?x a))) | 14 at 22
(domain d (predicate p 1) (control (and (forall (?x) (p ?x) true) (p ?x)))) | 14 at 69
(domain d (control (= () a))) | 10 at 22
(domain d (control (= a (1)))) | 10 at 24
(domain d (predicate p 1) (control (p ((f))))) | 10 at 38
(domain d (control (= (+ 1) a))) | 10 at 22
(domain d (control (< 1 (* 1 2 3)))) | 10 at 24
(domain d (control (< 1 (-)))) | 10 at 24
(domain d (control (= (f) a))) | 11 at 22
(domain d (predicate p 1) (control (= (p a) a))) | 11 at 38
(domain d (function f 1) (control (= (f) a))) | 13 at 37
(domain d (function f 0) (control (< (f ?x) 1))) | 13 at 37
(domain d (control (forall (?x) ?x true))) | 10 at 32
(domain d (control (forall (?x) (3 ?x) true))) | 10 at 32
(domain d (operator (o) (bounds 7))) | 10 at 32
(domain d (function f 1) (operator (o) (bounds (= (f a))))) | 10 at 47
(domain d (function f 1) (operator (o) (bounds (= f a)))) | 10 at 47
(domain d (function f 1) (operator (o) (bounds (= (f a) (f a))))) | 10 at 47
(domain d (operator (o) (bounds (= () a)))) | 10 at 32
(domain d (operator (o) (bounds (goal)))) | 10 at 32
(domain d (predicate p 0) (operator (o) (bounds (goal (p) (p))))) | 10 at 48
(domain d (predicate p 1) (operator (o) (bounds (p (p a))))) | 10 at 48
(domain d (operator (o) (bounds (q ())))) | 10 at 32
(domain d (operator (o) (bounds (q a)))) | 11 at 32
(domain d (define (q) true) (operator (o) (bounds (q)))) | 11 at 50
(domain d (predicate p 1) (operator (o) (bounds (not a)))) | 11 at 48
(domain d (predicate p 1) (operator (o) (bounds (p)))) | 13 at 48
(domain d (predicate p 1) (operator (o) (bounds (p a b)))) | 13 at 48
(domain d (function f 1) (operator (o) (bounds (= (f (f a)) a)))) | 10 at 50
(domain d (predicate p 1) (operator (o) (bounds (= (p a) a)))) | 11 at 51
(domain d (operator (o) (bounds (= (g) a)))) | 11 at 35
(domain d (function f 1) (operator (o) (bounds (= (f) a)))) | 13 at 50
(domain d (function f 1) (operator (o) (bounds (= (f a ?x) a)))) | 13 at 50
(domain d (predicate p 1) (operator (o) (bounds (p ?x)))) | 14 at 51
(domain d (function f 0) (operator (o) (bounds (= (f) ?x)))) | 14 at 54
(domain d (predicate p 1) (operator (o) (bounds (goal (not (p ?x)))))) | 14 at 62
(domain d (control (goal ?x))) | 18 at 25
(domain d (predicate p 1) (control (goal (not (not (p a)))))) | 18 at 41
(domain d (function f 0) (control (goal (not (= (f) 1))))) | 18 at 40
(domain d (function f 0) (operator (o) (bounds (goal (= (f) (f)))))) | 18 at 53
(domain d (predicate p 2) (control (goal (p (q) a)))) | 18 at 41
(domain d (predicate p 1) (control (goal (p (q) a)))) | 13 at 41
(domain d (predicate p 1) (control (goal (not (p a b))))) | 13 at 46
(domain d (function f 1) (operator (o) (bounds (goal (= (f) 1))))) | 13 at 56
(domain d (operator (o) (effects add))) | 10 at 33
(domain d (operator (o) (effects ()))) | 10 at 33
(domain d (operator (o) (effects (and)))) | 10 at 33
(domain d (operator (o) (effects (3)))) | 10 at 33
(domain d (operator (o) (effects (add)))) | 10 at 33
(domain d (operator (o) (effects (del p)))) | 10 at 33
(domain d (operator (o) (effects (add (3))))) | 10 at 33
(domain d (predicate p 0) (operator (o) (effects (del (p) (p))))) | 10 at 49
(domain d (operator (o) (effects (set (f))))) | 10 at 33
(domain d (operator (o) (effects (set f 1)))) | 10 at 33
(domain d (operator (o) (effects (set () 1)))) | 10 at 33
(domain d (operator (o) (effects (when)))) | 10 at 33
(domain d (operator (o) (effects (when 5)))) | 10 at 39
(domain d (operator (o) (effects (each (?x))))) | 10 at 33
(domain d (predicate p 1) (operator (o) (effects (each () (p a))))) | 10 at 49
(domain d (predicate p 1) (operator (o) (effects (each (x) (p x))))) | 10 at 49
(domain d (predicate p 1) (operator (o) (effects (each (?v0 ?v1 ?v2 ?v3 ?v4 ?v5 ?v6 ?v7 ?v8 ?v9 ?v10 ?v11 ?v12 ?v13 ?v14 ?v15 ?v16 ?v17 ?v18 ?v19 ?v20 ?v21 ?v22 ?v23 ?v24 ?v25 ?v26 ?v27 ?v28 ?v29 ?v30 ?v31 ?v32) (p ?v0))))) | 19 at 49
(domain d (operator (o) (effects (add (q))))) | 11 at 38
(domain d (define (q) true) (operator (o) (effects (del (q))))) | 11 at 56
(domain d (predicate p 0) (operator (o) (effects (set (p) 1)))) | 11 at 54
(domain d (predicate p 1) (operator (o) (effects (add (p))))) | 13 at 54
(domain d (function f 1) (operator (o) (effects (set (f) 1)))) | 13 at 53
(domain d (predicate p 1) (operator (o) (effects (del (p ?x ?y))))) | 13 at 54
(domain d (predicate p 1) (operator (o) (effects (add (p ?x))))) | 14 at 57
(domain d (function f 0) (operator (o) (effects (set (f) ?y)))) | 14 at 57
(domain d (predicate p 1) (operator (o) (effects (each (?x) (p ?x)) (add (p ?x))))) | 14 at 76
(domain d (function f 0) (operator (o) (effects (set (f) (g))))) | 11 at 57
(domain d (control (and (q) (r)))) | 11 at 24
(domain d (control (q)) (control true)) | 11 at 19
(domain d (control)) (domain e) | 10 at 10
(domain d (control true)) 5 | 10 at 26
(domain d (predicat p 9)) (domain e) | 10 at 10
(domain d (control (forall (?x) (q) true))) | 16 at 28
";

/// Rows of a domain file that breaks no rule, the status, and the verdict on the empty plan.
const LAWFUL: &str = "
check d p q | d = {0} & p = (problem q (init) (goal)) & q = - | {1} | {2}
(domain d) | 0 | ; valid
(domain domain (predicate p 0) (operator (p)) (operator (and))) | 0 | ; valid
(domain d (predicate p 8) (function f 8) (control (= 007 -0))) | 1 | ; disobeys
(domain d (defined 64 (q ?x) (q ?x))) | 0 | ; valid
(domain d (define (q) true) (define (r) (q)) (control (always (r)))) | 0 | ; valid
(domain d (define (q) (not (not (not (not (not (not (not (not (not (not (not (not (not (not (not (not (not (not (not (not (not (not (not (not true)))))))))))))))))))))))))) | 0 | ; valid
(domain d (predicate p 1) (operator (o ?x) (bounds (p ?x)) (pre (p ?x)) (effects (when (p ?x)) (each (?y) (p ?y)) (del (p ?x)) (add (p ?x))))) | 0 | ; valid
(domain d (operator (o) (bounds) (effects))) | 0 | ; valid
(domain d (control (and))) | 0 | ; valid
(domain d (control (within 100000 (for 0 (or))))) | 1 | ; disobeys
(domain d (predicate p 1) (function f 1) (control (forall (?x ?y) (= (f ?x) ?y) (implies (goal (not (p ?x))) (next (= (+ ?y 1) (f ?x))))))) | 0 | ; valid
(domain d (predicate p 1) (control (and (forall (?x) (p ?x) true) (exists (?x) (p ?x) true)))) | 1 | ; disobeys
";

#[test]
fn domain_files_are_refused_by_their_rules(rt: HostRuntime) -> Result<(), Stop> {
    are_run(&rt, rt.alloc(), BROKEN)?;
    are_run(&rt, rt.alloc(), LAWFUL)
}
