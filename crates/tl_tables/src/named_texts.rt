// The texts that rows name in braces.

/// The text of this name. Where there is none it says so in braces, which no file may have.
pub(crate) fn named(name: &str) -> &str {
    if name == "lf" {
        return "\n";
    }
    for block in texts().split("\n\n") {
        if let Some((head, text)) = block.split_once('\n') {
            if let Some((known, _)) = head.split_once(": ") {
                if known == name {
                    return text;
                }
            }
        }
    }
    "{ there is no such text }"
}

/// Texts by name, each below a line of its name, a colon, and what it says; an empty line comes
/// between two of them.
fn texts() -> &'static str {
    "max: the place (n) has the greatest integer
(= (n) 9223372036854775807)

min: the place (n) has the least integer
(= (n) -9223372036854775808)

facts: facts of several numbers of arguments, and places
(p b) (p 10) (p -1) (p a) (edge a b) (edge b b) (edge b 10) (edge 10 10) (r) (q a b a b a b a c) (q a b a b a b a 10) (q -1 b a b a b a b) (= (f a) b) (= (f b) b) (= (f 10) a) (= (n) 10)

mixed facts: facts of one predicate, and places of one function, with other numbers of arguments
(p b) (p 10) (p -1) (p a) (edge a b) (edge b 10) (edge 10 b) (edge b) (= (f a b) b) (= (f a 10) a) (= (f b b) b) (= (f a -1) -1) (= (f a) a)

some lamps: lamps, of which one is on
(lamp 10) (lamp a) (lamp -1) (lamp 2) (on a)

all of it: each fact and each place of a world, as it is asked for in the next one
(and (forall (?x) (p ?x) (next (p ?x))) (forall (?x ?y) (edge ?x ?y) (next (edge ?x ?y))) (forall (?x) (= (n) ?x) (next (= (n) ?x))) (forall (?x) (= (m) ?x) (next (= (m) ?x))))

chain: 64 definitions, of which the first is true and each other one is the one before it
(define (q0) true) (define (q1) (q0)) (define (q2) (q1)) (define (q3) (q2)) (define (q4) (q3)) (define (q5) (q4)) (define (q6) (q5)) (define (q7) (q6)) (define (q8) (q7)) (define (q9) (q8)) (define (q10) (q9)) (define (q11) (q10)) (define (q12) (q11)) (define (q13) (q12)) (define (q14) (q13)) (define (q15) (q14)) (define (q16) (q15)) (define (q17) (q16)) (define (q18) (q17)) (define (q19) (q18)) (define (q20) (q19)) (define (q21) (q20)) (define (q22) (q21)) (define (q23) (q22)) (define (q24) (q23)) (define (q25) (q24)) (define (q26) (q25)) (define (q27) (q26)) (define (q28) (q27)) (define (q29) (q28)) (define (q30) (q29)) (define (q31) (q30)) (define (q32) (q31)) (define (q33) (q32)) (define (q34) (q33)) (define (q35) (q34)) (define (q36) (q35)) (define (q37) (q36)) (define (q38) (q37)) (define (q39) (q38)) (define (q40) (q39)) (define (q41) (q40)) (define (q42) (q41)) (define (q43) (q42)) (define (q44) (q43)) (define (q45) (q44)) (define (q46) (q45)) (define (q47) (q46)) (define (q48) (q47)) (define (q49) (q48)) (define (q50) (q49)) (define (q51) (q50)) (define (q52) (q51)) (define (q53) (q52)) (define (q54) (q53)) (define (q55) (q54)) (define (q56) (q55)) (define (q57) (q56)) (define (q58) (q57)) (define (q59) (q58)) (define (q60) (q59)) (define (q61) (q60)) (define (q62) (q61)) (define (q63) (q62))

one domain: a domain with one action that has no parameter
(domain one (predicate on 1) (operator (lit) (effects (add (on a)))))

one problem: a problem that the action solves
(problem one (init) (goal (on a)))

reach: a way from ?x to ?y with fewer edges than there are levels; a definition without its `(defined LEVELS` and its last parenthesis
(reach ?x ?y) (or (= ?x ?y) (exists (?z) (edge ?x ?z) (reach ?z ?y)))

walks: what ends nowhere, an action that needs a way from a to d, and one that cuts an edge
 (define (ends ?x) (not (exists (?y) (edge ?x ?y) true)))
 (operator (win) (pre (reach a d)) (effects (add (won))))
 (operator (cut ?x ?y) (bounds (edge ?x ?y)) (effects (del (edge ?x ?y))))

places: lamps that are pressed and put off, what goes from place to place, and a count; without the last parenthesis
(domain w (predicate lamp 1) (predicate on 1) (predicate at 1) (predicate step 2) (function n 0) (operator (press ?x) (bounds (lamp ?x)) (effects (add (on ?x)))) (operator (off ?x) (bounds (lamp ?x)) (effects (del (on ?x)))) (operator (go ?x ?y) (bounds (step ?x ?y)) (pre (at ?x)) (effects (del (at ?x)) (add (at ?y)))) (operator (wait) (effects)) (operator (tick) (effects (set (n) (+ (n) 1)))) (operator (back) (effects (set (n) 0)))

steps: the steps from place to place
(step s t) (step t a) (step a a) (step a b) (step b a) (step b c) (step c a) (step c d) (step d a) (step d e) (step e a)

way: a way from a to d
(edge a b) (edge b c) (edge c d)

loop: an edge from a to itself, and one to d
(edge a a) (edge a d)

two ways: edges from s to m, one of them the longer way, and on to t
(edge s a) (edge a b) (edge b m) (edge s m) (edge m k) (edge k t)

late cut: edges by which k is met with few actions left, then with more, and then from s, after the way by m
(edge s d) (edge d e) (edge e f) (edge f g) (edge g k) (edge f k) (edge f m) (edge m n) (edge n o) (edge o t) (edge k f) (edge s k)

leads: every edge leads on to where the goal edges end
(always (forall (?x ?y) (edge ?x ?y) (forall (?u ?v) (goal (edge ?u ?v)) (reach ?y ?v))))

stops: from some state on, nothing leads on from b
(eventually (always (ends b)))

lamps: lamps that are pressed and put off; without the last parenthesis, so that items can be added
(domain lamps
 (predicate lamp 1)
 (predicate on 1)
 (operator (press ?x) (bounds (lamp ?x)) (pre (not (on ?x))) (effects (add (on ?x))))
 (operator (off ?x) (bounds (on ?x)) (effects (del (on ?x))))

ab: two lamps that are to be on
(problem ab (init (lamp a) (lamp b)) (goal (on a) (on b)))

two: two lamps
(lamp a) (lamp b)

three: three lamps
(lamp a) (lamp b) (lamp c)

stays: a lamp that is on stays on
(always (forall (?x) (on ?x) (next (on ?x))))

goes: a lamp that is on goes off
(always (forall (?x) (on ?x) (eventually (not (on ?x)))))

settles: each lamp stays on from some time on
(forall (?x) (lamp ?x) (eventually (always (on ?x))))

once: a lamp of the goal is off until it is on, and from then on it stays on
(forall (?x) (goal (on ?x)) (until (not (on ?x)) (always (on ?x))))

follows: some lamp is off until another one is on
(exists (?x) (lamp ?x) (until (not (on ?x)) (exists (?y) (on ?y) (not (= ?x ?y)))))

wanted: a lamp that no goal wants goes off at once
(always (forall (?x) (on ?x) (or (goal (on ?x)) (next (not (on ?x))))))

alone: no two lamps are on
(always (forall (?x) (on ?x) (forall (?y) (on ?y) (= ?x ?y))))

all: whenever a lamp is on, all of them are on later
(always (implies (exists (?x) (on ?x) true) (eventually (forall (?x) (lamp ?x) (on ?x)))))

light: some lamp is on in each state but the first
(always (exists (?x) (lamp ?x) (next (on ?x))))

first: only lamp a is on, until b is on in the next state
(until (forall (?x) (on ?x) (= ?x a)) (next (on b)))

next bound: the lamps of the goal, as they are on in the next state
(next (forall (?x) (on ?x) (goal (on ?x))))

bound now: the lamps that are on now, as the next state has them
(forall (?x) (on ?x) (next (on ?x)))

last: the last state is read again and again
(next (next (next (forall (?x) (lamp ?x) (on ?x)))))

blinks: a lamp is on, and off in the next state
(eventually (exists (?x) (on ?x) (next (not (on ?x)))))

avoids: what the goal wants off is never on
(forall (?x) (goal (not (on ?x))) (always (not (on ?x))))

never: a part that comes again only where the second part never comes
(until (forall (?x) (lamp ?x) (not (on ?x))) false)

soon off: no lamp is on in more than two states one after the other
(always (forall (?x) (on ?x) (within 2 (not (on ?x)))))

dark: no lamp is on in the first three states
(forall (?x) (lamp ?x) (for 2 (not (on ?x))))

nearly: in the first four states a lamp is on, or one is in the next
(for 3 (within 1 (exists (?x) (on ?x) true)))

twice: lamp a is on in two states one after the other, the first of them one of the first three
(within 2 (for 1 (on a)))

soon: some lamp is on soon, until all are on
(until (within 1 (exists (?x) (on ?x) true)) (forall (?x) (lamp ?x) (on ?x)))

rests: each lamp that is on was wanted, or is off for two states after the next
(always (forall (?x) (on ?x) (or (goal (on ?x)) (next (for 1 (not (on ?x)))))))

gripper: a robot with two grippers carries balls from room to room; without the last parenthesis
(domain gripper
 (predicate room 1)
 (predicate at-robby 1)
 (predicate at 2)
 (predicate free 1)
 (predicate carry 2)
 (operator (pick ?b ?r ?g)
  (bounds (at ?b ?r) (at-robby ?r) (free ?g))
  (effects (del (at ?b ?r)) (del (free ?g)) (add (carry ?b ?g))))
 (operator (drop ?b ?r ?g)
  (bounds (carry ?b ?g) (at-robby ?r))
  (effects (del (carry ?b ?g)) (add (free ?g)) (add (at ?b ?r))))
 (operator (move ?from ?to)
  (bounds (at-robby ?from) (room ?to))
  (pre (not (= ?from ?to)))
  (effects (del (at-robby ?from)) (add (at-robby ?to))))

balls: two rooms, with the robot and the balls 1 and 2 in room a
(room a) (room b) (at-robby a) (free left) (free right) (at 1 a) (at 2 a)

useful: a ball in its goal room stays there, it is dropped only there, and the robot does not leave with a gripper free while a ball has to leave
(always (and
  (forall (?b ?r) (goal (at ?b ?r))
   (implies (at ?b ?r) (next (at ?b ?r))))
  (forall (?b ?g) (carry ?b ?g)
   (exists (?r) (at-robby ?r)
    (or (goal (at ?b ?r)) (next (carry ?b ?g)))))
  (forall (?r) (at-robby ?r)
   (implies
    (and (exists (?g) (free ?g) true)
     (exists (?b) (at ?b ?r) (not (goal (at ?b ?r)))))
    (next (at-robby ?r))))))

arrives: what is carried arrives in its goal room
(always (forall (?b ?g) (carry ?b ?g)
  (exists (?r) (goal (at ?b ?r)) (eventually (at ?b ?r)))))

moved once: a ball is outside its goal room until it is there for good
(forall (?b ?r) (goal (at ?b ?r)) (until (not (at ?b ?r)) (always (at ?b ?r))))

leaves within three: the robot leaves a room within three steps while a ball there has to leave
(always (forall (?r) (at-robby ?r)
  (implies (exists (?b) (at ?b ?r) (not (goal (at ?b ?r)))) (within 3 (not (at-robby ?r))))))

leaves within two: the same within two steps
(always (forall (?r) (at-robby ?r)
  (implies (exists (?b) (at ?b ?r) (not (goal (at ?b ?r)))) (within 2 (not (at-robby ?r))))))

waits: the robot stays for one step in the room where it is
(forall (?r) (at-robby ?r) (for 1 (at-robby ?r)))

used: a gripper that is free is used before the robot moves from its room
(forall (?g) (free ?g) (forall (?r) (at-robby ?r)
  (until (at-robby ?r) (and (at-robby ?r) (exists (?b) (carry ?b ?g) (next (carry ?b ?g)))))))

both: both balls are to be in room b
(at 1 b) (at 2 b)

together: both balls are carried at once
(pick 1 a left) (pick 2 a right) (move a b) (drop 1 b left) (drop 2 b right)

one by one: one ball is carried after the other
(pick 1 a left) (move a b) (drop 1 b left) (move b a) (pick 2 a left) (move a b) (drop 2 b left)

picked again: a ball is picked again in its goal room
(pick 1 a left) (pick 2 a right) (move a b) (drop 1 b left) (pick 1 b left) (drop 1 b left) (drop 2 b right)

travel: a flight from s to t, a walk from s to m, and a ride from m to t; without the last parenthesis
(domain w
 (predicate at 1)
 (operator (fly) (pre (at s)) (effects (del (at s)) (add (at t))))
 (operator (walk) (pre (at s)) (effects (del (at s)) (add (at m))))
 (operator (ride) (pre (at m)) (effects (del (at m)) (add (at t))))

rowing: two more actions, from s to n and from n to t
(operator (row) (pre (at s)) (effects (del (at s)) (add (at n))))
(operator (swim) (pre (at n)) (effects (del (at n)) (add (at t))))

turning: two more actions, from m to o and from o to t
(operator (turn) (pre (at m)) (effects (del (at m)) (add (at o))))
(operator (go) (pre (at o)) (effects (del (at o)) (add (at t))))

six balls: two rooms, with the robot and six balls in the first
(room rooma) (room roomb) (at-robby rooma) (free left) (free right) (at b0001 rooma) (at b0002 rooma) (at b0003 rooma) (at b0004 rooma) (at b0005 rooma) (at b0006 rooma)

six there: the six balls are to be in the second room
(at b0001 roomb) (at b0002 roomb) (at b0003 roomb) (at b0004 roomb) (at b0005 roomb) (at b0006 roomb)

two balls: a problem of two balls
(problem sample
 (init (room rooma) (room roomb) (at-robby rooma) (free left) (free right)
  (at b0001 rooma)
  (at b0002 rooma)
  )
 (goal
  (at b0001 roomb)
  (at b0002 roomb)
  ))
"
}
