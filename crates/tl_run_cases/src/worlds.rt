// The worlds of a problem, the goal test, the actions of a world, and where they lead.

use crate::run::are_run;
use crate::stop::Stop;

/// Rows of a control formula that speaks of all facts and places of a world, of the goal list or of
/// its negated facts, and of what is left of it.
const WORLDS: &str = "
explain d p q | d = (domain d (predicate p 1) (predicate edge 2) (function n 0) (function f 1) (control {0})) & p = (problem q (init (edge b a) (p b) (= (f b) 2) (p 7) (p b) (= (n) -1) (= (f a) b)) (goal (not (p a)) (p b) (= (f a) a) (not (edge a b)) (not (p 3)))) & q = - | 0 | ; state 0: {1} / ; end
(and (forall (?x) (p ?x) (next (p ?x))) (forall (?x ?y) (edge ?x ?y) (next (edge ?x ?y))) (forall (?x) (= (n) ?x) (next (= (n) ?x))) (forall (?x ?y) (= (f ?x) ?y) (next (= (f ?x) ?y)))) | (and (p 7) (p b) (edge b a) (= (n) -1) (= (f a) b) (= (f b) 2))
(and (forall (?x) (goal (p ?x)) (next (p ?x))) (forall (?x ?y) (goal (edge ?x ?y)) (next (edge ?x ?y))) (forall (?x) (goal (= (n) ?x)) (next (= (n) ?x))) (forall (?x ?y) (goal (= (f ?x) ?y)) (next (= (f ?x) ?y)))) | (and (p b) (= (f a) a))
(and (forall (?x) (goal (not (p ?x))) (next (p ?x))) (forall (?x ?y) (goal (not (edge ?x ?y))) (next (edge ?x ?y)))) | (and (p 3) (p a) (edge a b))
";

/// Rows of facts, and of the same in the order of their values.
const ORDER: &str = "
explain d p q | d = (domain d (predicate p 1) (predicate edge 2) (function n 0) (function f 1) (control (forall (?x) (p ?x) (next (p ?x))))) & p = (problem q (init {0}) (goal)) & q = - | 0 | ; state 0: {1} / ; end
(p b) (p 10) (p a) | (and (p 10) (p a) (p b))
";

/// Rows of an initial world, a goal list, the status, and the verdict on the empty plan.
const GOALS: &str = "
check d p q | d = (domain d (predicate p 1) (predicate edge 2) (function n 0) (function f 1)) & p = (problem q (init {0}) (goal {1})) & q = - | {2} | {3}
- | - | 0 | ; valid
- | (p a) | 1 | ; goal unmet
(p b) | (p a) | 1 | ; goal unmet
(p a) (p b) | (p a) | 0 | ; valid
(p a) | (p a) (edge a a) | 1 | ; goal unmet
(p a) | (not (p a)) | 1 | ; goal unmet
(p b) | (not (p a)) | 0 | ; valid
(p a) (p b) | (p a) (not (p b)) | 1 | ; goal unmet
- | (= (n) 3) | 1 | ; goal unmet
(= (n) 4) | (= (n) 3) | 1 | ; goal unmet
(= (n) 3) | (= (n) 3) | 0 | ; valid
(= (f a) 3) | (= (f b) 3) | 1 | ; goal unmet
";

/// The same rows with the effects of an action that makes the goal true.
const REACHED: &str = "
check d p q | d = (domain d (predicate p 1) (predicate edge 2) (function n 0) (function f 1) (operator (do) (effects {2}))) & p = (problem q (init {0}) (goal {1})) & q = (do) | 0 | ; valid
- | - | -
- | (p a) | (add (p a))
(p b) | (p a) | (add (p a))
(p a) (p b) | (p a) | (add (p a))
(p a) | (p a) (edge a a) | (add (p a)) (add (edge a a))
(p a) | (not (p a)) | (del (p a))
(p b) | (not (p a)) | (del (p a))
(p a) (p b) | (p a) (not (p b)) | (add (p a)) (del (p b))
- | (= (n) 3) | (set (n) 3)
(= (n) 4) | (= (n) 3) | (set (n) 3)
(= (n) 3) | (= (n) 3) | (set (n) 3)
(= (f a) 3) | (= (f b) 3) | (set (f b) 3)
";

/// Rows of operators, an initial world, the status, and the events of a search of one action: the
/// actions of that world in their order.
const ACTIONS: &str = "
trace breadth 1 100 d p | d = (domain d (predicate lamp 1) (predicate on 1) (predicate edge 2) (function n 0) (function f 1) {0}) & p = (problem q (init {1}) (goal (lamp g) (= (f g) 7) (not (lamp h)))) | {2} | {3}
- | {some lamps} | 1 | ; kept 0 / ; label true / ; none
(operator (press ?x) (bounds (lamp ?x)) (pre (not (on ?x)))) (operator (off ?x) (bounds (on ?x))) | {some lamps} | 1 | ; kept 0 / ; label true / ; seen 0 0 (press -1) / ; seen 0 0 (press 2) / ; seen 0 0 (press 10) / ; seen 0 0 (off a) / ; none
# no parameter, and sixteen
(operator (wait)) | - | 1 | ; kept 0 / ; label true / ; seen 0 0 (wait) / ; none
(operator (wait) (bounds (on b))) | {some lamps} | 1 | ; kept 0 / ; label true / ; none
(operator (wait) (pre (on b))) | {some lamps} | 1 | ; kept 0 / ; label true / ; none
(operator (all ?a ?b ?c ?d ?e ?f ?g ?h ?i ?j ?k ?l ?m ?n ?o ?p) (bounds (edge ?a ?b) (edge ?c ?d) (edge ?e ?f) (edge ?g ?h) (edge ?i ?j) (edge ?k ?l) (edge ?m ?n) (edge ?o ?p))) | (edge a 1) | 1 | ; kept 0 / ; label true / ; seen 0 0 (all a 1 a 1 a 1 a 1 a 1 a 1 a 1 a 1) / ; none
# one parameter in two bounds, and bounds that do not name the parameters in their order
(operator (go ?x ?y) (bounds (edge ?x ?y) (lamp ?y))) | (lamp 10) (lamp a) (lamp 2) (edge a 2) (edge a b) (edge b 10) | 1 | ; kept 0 / ; label true / ; seen 0 0 (go a 2) / ; seen 0 0 (go b 10) / ; none
(operator (go ?x ?y ?z) (bounds (edge ?z ?y) (edge ?y ?x))) | (edge a b) (edge b c) (edge b a) | 1 | ; kept 0 / ; label true / ; seen 0 0 (go a b a) / ; seen 0 0 (go b a b) / ; seen 0 0 (go c b a) / ; none
# bounds of places and of the goal list
(operator (read ?x ?y) (bounds (= (f ?x) ?y))) | (= (f b) 3) (= (f 1) b) | 1 | ; kept 0 / ; label true / ; seen 0 0 (read 1 b) / ; seen 0 0 (read b 3) / ; none
(operator (want ?x) (bounds (goal (lamp ?x)))) | {some lamps} | 1 | ; kept 0 / ; label true / ; seen 0 0 (want g) / ; none
(operator (want ?x ?y) (bounds (goal (= (f ?x) ?y)))) | - | 1 | ; kept 0 / ; label true / ; seen 0 0 (want g 7) / ; none
(operator (shun ?x) (bounds (goal (not (lamp ?x))))) | {some lamps} | 1 | ; kept 0 / ; label true / ; seen 0 0 (shun h) / ; none
# effects that have no value, a value, and a sum past range
(operator (count) (effects (set (n) (+ (n) 1)))) | - | 1 | ; kept 0 / ; label true / ; none
(operator (count) (effects (set (n) (+ (n) 1)))) | (= (n) 1) | 1 | ; kept 0 / ; label true / ; kept 1 0 (count) / ; label true / ; none within 1
(operator (count) (effects (set (n) (+ (n) 1)))) | {max} | 4 | ; range at 131: 9223372036854775807 + 1 / ; after 0 actions
";

/// Rows of the clauses of an operator, an initial world, and the facts and places of the world
/// after its action, as what is left of a control formula that speaks of all of them.
const LEADS: &str = "
explain d p q | d = (domain d (predicate p 1) (predicate edge 2) (function n 0) (function m 0) (operator (act) {0}) (control (next {all of it}))) & p = (problem q (init {1}) (goal (p g))) & q = (act) | 0 | ; state 0: {all of it} / (act) / ; state 1: {2} / ; end
- | (p a) | (p a)
(bounds (p a)) (effects (add (p b))) | (p a) | (and (p a) (p b))
(pre (not (p a))) (effects (add (p b))) | - | (p b)
# adds win over deletes
(effects (add (p a)) (del (p a))) | (p a) | (p a)
(effects (del (p a)) (add (p a))) | - | (p a)
# all is read in the old world
(effects (del (p a)) (add (p b)) (when (p b) (add (p c))) (when (p a) (add (p d)))) | (p a) | (and (p b) (p d))
(effects (set (n) (m)) (set (m) (n))) | (= (n) 1) (= (m) 2) | (and (= (n) 2) (= (m) 1))
(effects (set (n) 1) (set (n) (+ 0 1))) | - | (= (n) 1)
(effects (each (?x) (p ?x) (set (n) ?x))) | (p a) | (and (p a) (= (n) a))
(effects (when (p a) (set (n) (m)))) | - | true
# effects in effects
(effects (each (?x) (p ?x) (when (= ?x a) (add (edge ?x ?x))))) | (p a) (p b) | (and (p a) (p b) (edge a a))
(effects (each (?x) (p ?x) (each (?y) (edge ?x ?y) (add (edge ?y ?x))))) | (p a) (edge a b) (edge b c) | (and (p a) (edge a b) (edge b a) (edge b c))
(effects (when (goal (p g)) (add (p b)))) | - | (p b)
# a sum past range that is not looked at
(effects (when (p a) (set (n) (+ (n) 1)))) | {max} | (= (n) 9223372036854775807)
# all facts are deleted, and one is added again
(effects (del (p b)) (del (p 10)) (del (p a))) | (p b) (p 10) (p a) | true
(effects (del (p a)) (add (p a)) (set (n) -1) (set (m) a)) | (p a) (= (n) 10) | (and (p a) (= (n) -1) (= (m) a))
";

/// Rows of the clauses of an operator and an initial world, from which its action has no step.
const STAYS: &str = "
explain d p q | d = (domain d (predicate p 1) (predicate edge 2) (function n 0) (function m 0) (operator (act) {0}) (control (next {all of it}))) & p = (problem q (init {1}) (goal (p g))) & q = (act) | 0 | ; state 0: {all of it} / ; not executable 1
# what must be true before
(bounds (p a)) (effects (add (p b))) | (p c)
(pre (p a)) (effects (add (p b))) | -
# two values of one place
(effects (set (n) 1) (set (n) 2)) | -
(effects (each (?x) (p ?x) (set (n) ?x))) | (p a) (p b)
# undefined arguments and values
(effects (set (n) (m))) | -
(effects (add (p (m)))) | -
(effects (del (p (m)))) | -
# a sum past range that is not looked at
(bounds (p a)) (effects (set (n) (+ (n) 1))) | {max}
(pre (p a)) (effects (set (n) (+ (n) 1))) | {max}
";

/// Rows of the clauses of an operator, an initial world, and the operation past range.
const PAST: &str = "
explain d p q | d = (domain d (predicate p 1) (predicate edge 2) (function n 0) (function m 0) (operator (act) {0}) (control (next {all of it}))) & p = (problem q (init {1}) (goal (p g))) & q = (act) | 4 | ; {2} / ; after 0 actions
(pre (< (+ (n) 1) 0)) | {max} | range at 99: 9223372036854775807 + 1
(effects (set (n) (+ (n) 1))) | {max} | range at 109: 9223372036854775807 + 1
";

#[test]
fn worlds_have_their_facts_goals_and_actions(rt: HostRuntime) -> Result<(), Stop> {
    are_run(&rt, rt.alloc(), WORLDS)?;
    are_run(&rt, rt.alloc(), ORDER)?;
    are_run(&rt, rt.alloc(), GOALS)?;
    are_run(&rt, rt.alloc(), REACHED)?;
    are_run(&rt, rt.alloc(), ACTIONS)
}

#[test]
fn actions_lead_to_their_worlds(rt: HostRuntime) -> Result<(), Stop> {
    are_run(&rt, rt.alloc(), LEADS)?;
    are_run(&rt, rt.alloc(), STAYS)?;
    are_run(&rt, rt.alloc(), PAST)
}
