// A file for each rule.

use crate::run::are_run;
use crate::stop::Stop;

/// Rows of a domain file, and the output.
const DOMAINS: &str = "
check d p q | d = {0} & p = {one problem} & q = (lit) | 3 | {1}
(a \"b\") | ; refused file 1 rule 1 at 3
(a)) | ; refused file 1 rule 2 at 3
) | ; refused file 1 rule 2 at 0
( | ; refused file 1 rule 3 at 0
9223372036854775808 | ; refused file 1 rule 5 at 0
a \0 | ; refused file 1 rule 1 at 2
é | ; refused file 1 rule 1 at 0
[ | ; refused file 1 rule 1 at 0
( \" 9223372036854775808 | ; refused file 1 rule 1 at 2
(a)) \" | ; refused file 1 rule 2 at 3
(a) (b (c) | ; refused file 1 rule 3 at 4
(a ; ) | ; refused file 1 rule 3 at 0
(a -9223372036854775809 | ; refused file 1 rule 5 at 3
00000000000000000000099999999999999999999 \" | ; refused file 1 rule 5 at 0
-9223372036854775808 | ; refused file 1 rule 10 at 0
- | ; refused file 1 rule 10 at 0
(domain d (control)) | ; refused file 1 rule 10 at 10
(domain d (control (q a))) | ; refused file 1 rule 11 at 19
(domain d (predicate p 1) (function p 0)) | ; refused file 1 rule 12 at 36
(domain d (predicate p 1) (control (p a b))) | ; refused file 1 rule 13 at 35
(domain d (predicate p 1) (control (p ?x))) | ; refused file 1 rule 14 at 38
(domain d (predicate p 1) (control (forall (?x) (p ?x) (exists (?x) (p ?x) true)))) | ; refused file 1 rule 15 at 64
(domain d (predicate p 1) (control (forall (?x ?y) (p ?x) true))) | ; refused file 1 rule 16 at 47
(domain d (predicate p 1) (define (q) (next (p a)))) | ; refused file 1 rule 17 at 38
(domain d (predicate p 1) (control (goal (or (p a))))) | ; refused file 1 rule 18 at 41
(domain d (predicate p 9)) | ; refused file 1 rule 19 at 23
(domain d (control (within 100001 true))) | ; refused file 1 rule 19 at 27
(domain r (defined 65 (q) true)) | ; refused file 1 rule 19 at 19
(domain r (defined 40 (q) true) (defined 25 (s) true)) | ; refused file 1 rule 19 at 41
";

/// Rows of the three files, and the output.
const LATER: &str = "
check d p q | d = {0} & p = {1} & q = {2} | 3 | {3}
(domain one (function n 0)) | {one problem} | (lit) | ; refused file 2 rule 11 at 26
{one domain} | (problem one (init (on a) | (lit) | ; refused file 2 rule 3 at 0
{one domain} | (problem one (init (on a b)) (goal)) | (lit) | ; refused file 2 rule 13 at 19
{one domain} | (problem one (init)) | (lit) | ; refused file 2 rule 10 at 0
(domain d (predicate p 1)) | (problem q (init (p ?x)) (goal)) | (lit) | ; refused file 2 rule 20 at 20
(domain d (function n 0)) | (problem q (init (= (n) 1) (= (n) 2)) (goal)) | (lit) | ; refused file 2 rule 21 at 27
(domain d (predicate p 1)) | (problem q (init) (goal (p a) (not (p a)))) | (lit) | ; refused file 2 rule 21 at 30
{one domain} | {one domain} | (lit) | ; refused file 2 rule 10 at 0
{one domain} | {one problem} | (lit) ] | ; refused file 3 rule 1 at 6
{one domain} | {one problem} | (lit a) | ; refused file 3 rule 31 at 0
";

/// Rows of a plan file for lamps, and the output.
const PLANS: &str = "
check l ab q | l = {lamps}) & ab = {ab} & q = {0} | 3 | {1}
(jump) | ; refused file 3 rule 30 at 0
(press) | ; refused file 3 rule 31 at 0
(press ?x) | ; refused file 3 rule 32 at 7
(press zz) | ; refused file 3 rule 32 at 7
(press a b) | ; refused file 3 rule 31 at 0
(press (a)) | ; refused file 3 rule 32 at 7
press | ; refused file 3 rule 10 at 0
7 | ; refused file 3 rule 10 at 0
() | ; refused file 3 rule 10 at 0
((press) a) | ; refused file 3 rule 10 at 0
(press a zz) | ; refused file 3 rule 31 at 0
(press a) press | ; refused file 3 rule 10 at 10
(press a) () | ; refused file 3 rule 10 at 10
(press a) (7) | ; refused file 3 rule 10 at 10
(off zz) (jump) | ; refused file 3 rule 32 at 5
(press 7) (lamp a) | ; refused file 3 rule 30 at 10
";

#[test]
fn files_are_refused_by_their_rules(rt: HostRuntime) -> Result<(), Stop> {
    are_run(&rt, rt.alloc(), DOMAINS)?;
    are_run(&rt, rt.alloc(), LATER)?;
    are_run(&rt, rt.alloc(), PLANS)
}
