// Words below quantifiers, on plans whose repeated part goes round one place, two, and so on to
// five: a place comes again after as many steps as there are places.

use crate::run::are_run;
use crate::stop::Stop;

/// Rows of a control formula, in which a bound is true of another place at each position, the
/// status, and the verdict on a round of one place.
const ROUND_OF_ONE: &str = "
check-loop w p q | w = {places} (control {0})) & p = (problem q (init (at a) {steps}) (goal)) & q = (repeat (go a a)) | {1} | {2}
# a place comes again after as many steps as there are places
(always (forall (?x) (at ?x) (next (at ?x)))) | 0 | ; valid for ever
(always (forall (?x) (at ?x) (next (next (at ?x))))) | 0 | ; valid for ever
(always (forall (?x) (at ?x) (next (next (next (at ?x)))))) | 0 | ; valid for ever
(always (forall (?x) (at ?x) (next (next (next (next (at ?x))))))) | 0 | ; valid for ever
(always (forall (?x) (at ?x) (next (next (next (next (next (at ?x)))))))) | 0 | ; valid for ever
# so within fewer steps it does not: numbers of steps below the length of the round, at it, and far above it
(always (forall (?x) (at ?x) (next (within 0 (at ?x))))) | 0 | ; valid for ever
(always (forall (?x) (at ?x) (next (within 1 (at ?x))))) | 0 | ; valid for ever
(always (forall (?x) (at ?x) (next (within 2 (at ?x))))) | 0 | ; valid for ever
(always (forall (?x) (at ?x) (next (within 3 (at ?x))))) | 0 | ; valid for ever
(always (forall (?x) (at ?x) (next (within 4 (at ?x))))) | 0 | ; valid for ever
(always (forall (?x) (at ?x) (next (within 5 (at ?x))))) | 0 | ; valid for ever
(always (forall (?x) (at ?x) (next (within 100000 (at ?x))))) | 0 | ; valid for ever
(always (forall (?x) (at ?x) (within 100000 (exists (?y) (at ?y) (and (not (at ?x)) (step ?x ?y)))))) | 1 | ; disobeys
# and it is left for two steps fewer than it takes to come again
(always (forall (?x) (at ?x) (next (for 0 (not (at ?x)))))) | 1 | ; disobeys
(always (forall (?x) (at ?x) (next (for 1 (not (at ?x)))))) | 1 | ; disobeys
(always (forall (?x) (at ?x) (next (for 2 (not (at ?x)))))) | 1 | ; disobeys
(always (forall (?x) (at ?x) (next (for 3 (not (at ?x)))))) | 1 | ; disobeys
(always (forall (?x) (at ?x) (next (for 4 (not (at ?x)))))) | 1 | ; disobeys
(always (forall (?x) (at ?x) (next (for 5 (not (at ?x)))))) | 1 | ; disobeys
(always (forall (?x) (at ?x) (next (for 100000 (not (at ?x)))))) | 1 | ; disobeys
(always (forall (?x) (at ?x) (for 100000 (exists (?y) (at ?y) (next (exists (?z) (at ?z) (step ?y ?z))))))) | 0 | ; valid for ever
# for ever, and at some time
(eventually (exists (?x) (at ?x) (always (at ?x)))) | 0 | ; valid for ever
(always (exists (?x) (at ?x) (next (always (not (at ?x)))))) | 1 | ; disobeys
(always (forall (?x) (at ?x) (next (eventually (at ?x))))) | 0 | ; valid for ever
(always (forall (?x) (at ?x) (eventually (not (at ?x))))) | 1 | ; disobeys
(always (forall (?x) (at ?x) (eventually (exists (?y) (at ?y) (always (eventually (and (at ?y) (not (at ?x))))))))) | 1 | ; disobeys
# until: pending at the end of the round, and settled by its first places or never
(always (forall (?x) (at ?x) (next (until (not (at ?x)) (at ?x))))) | 0 | ; valid for ever
(always (forall (?x) (at ?x) (until (at ?x) (not (at ?x))))) | 1 | ; disobeys
(always (forall (?x) (at ?x) (until (exists (?y) (at ?y) (next (not (at ?y)))) (exists (?y) (at ?y) (next (at a)))))) | 0 | ; valid for ever
(always (until (exists (?x) (at ?x) (next (not (at ?x)))) (exists (?x) (at ?x) (within 2 (next (at ?x)))))) | 0 | ; valid for ever
# words below several quantifiers
(always (forall (?x) (at ?x) (next (exists (?y) (at ?y) (within 1 (forall (?z) (at ?z) (next (at ?x)))))))) | 0 | ; valid for ever
(eventually (forall (?x) (at ?x) (next (for 3 (forall (?y) (at ?y) (not (at ?x))))))) | 1 | ; disobeys
(always (forall (?x) (at ?x) (for 2 (exists (?y) (at ?y) (eventually (at ?x)))))) | 0 | ; valid for ever
";

/// The same for a round of two places.
const ROUND_OF_TWO: &str = "
check-loop w p q | w = {places} (control {0})) & p = (problem q (init (at a) {steps}) (goal)) & q = (repeat (go a b) (go b a)) | {1} | {2}
(always (forall (?x) (at ?x) (next (at ?x)))) | 1 | ; disobeys
(always (forall (?x) (at ?x) (next (next (at ?x))))) | 0 | ; valid for ever
(always (forall (?x) (at ?x) (next (next (next (at ?x)))))) | 1 | ; disobeys
(always (forall (?x) (at ?x) (next (next (next (next (at ?x))))))) | 0 | ; valid for ever
(always (forall (?x) (at ?x) (next (next (next (next (next (at ?x)))))))) | 1 | ; disobeys
(always (forall (?x) (at ?x) (next (within 0 (at ?x))))) | 1 | ; disobeys
(always (forall (?x) (at ?x) (next (within 1 (at ?x))))) | 0 | ; valid for ever
(always (forall (?x) (at ?x) (next (within 2 (at ?x))))) | 0 | ; valid for ever
(always (forall (?x) (at ?x) (next (within 3 (at ?x))))) | 0 | ; valid for ever
(always (forall (?x) (at ?x) (next (within 4 (at ?x))))) | 0 | ; valid for ever
(always (forall (?x) (at ?x) (next (within 5 (at ?x))))) | 0 | ; valid for ever
(always (forall (?x) (at ?x) (next (within 100000 (at ?x))))) | 0 | ; valid for ever
(always (forall (?x) (at ?x) (within 100000 (exists (?y) (at ?y) (and (not (at ?x)) (step ?x ?y)))))) | 0 | ; valid for ever
(always (forall (?x) (at ?x) (next (for 0 (not (at ?x)))))) | 0 | ; valid for ever
(always (forall (?x) (at ?x) (next (for 1 (not (at ?x)))))) | 1 | ; disobeys
(always (forall (?x) (at ?x) (next (for 2 (not (at ?x)))))) | 1 | ; disobeys
(always (forall (?x) (at ?x) (next (for 3 (not (at ?x)))))) | 1 | ; disobeys
(always (forall (?x) (at ?x) (next (for 4 (not (at ?x)))))) | 1 | ; disobeys
(always (forall (?x) (at ?x) (next (for 5 (not (at ?x)))))) | 1 | ; disobeys
(always (forall (?x) (at ?x) (next (for 100000 (not (at ?x)))))) | 1 | ; disobeys
(always (forall (?x) (at ?x) (for 100000 (exists (?y) (at ?y) (next (exists (?z) (at ?z) (step ?y ?z))))))) | 0 | ; valid for ever
(eventually (exists (?x) (at ?x) (always (at ?x)))) | 1 | ; disobeys
(always (exists (?x) (at ?x) (next (always (not (at ?x)))))) | 1 | ; disobeys
(always (forall (?x) (at ?x) (next (eventually (at ?x))))) | 0 | ; valid for ever
(always (forall (?x) (at ?x) (eventually (not (at ?x))))) | 0 | ; valid for ever
(always (forall (?x) (at ?x) (eventually (exists (?y) (at ?y) (always (eventually (and (at ?y) (not (at ?x))))))))) | 0 | ; valid for ever
(always (forall (?x) (at ?x) (next (until (not (at ?x)) (at ?x))))) | 0 | ; valid for ever
(always (forall (?x) (at ?x) (until (at ?x) (not (at ?x))))) | 0 | ; valid for ever
(always (forall (?x) (at ?x) (until (exists (?y) (at ?y) (next (not (at ?y)))) (exists (?y) (at ?y) (next (at a)))))) | 0 | ; valid for ever
(always (until (exists (?x) (at ?x) (next (not (at ?x)))) (exists (?x) (at ?x) (within 2 (next (at ?x)))))) | 0 | ; valid for ever
(always (forall (?x) (at ?x) (next (exists (?y) (at ?y) (within 1 (forall (?z) (at ?z) (next (at ?x)))))))) | 0 | ; valid for ever
(eventually (forall (?x) (at ?x) (next (for 3 (forall (?y) (at ?y) (not (at ?x))))))) | 1 | ; disobeys
(always (forall (?x) (at ?x) (for 2 (exists (?y) (at ?y) (eventually (at ?x)))))) | 0 | ; valid for ever
";

/// The same for a round of three places.
const ROUND_OF_THREE: &str = "
check-loop w p q | w = {places} (control {0})) & p = (problem q (init (at a) {steps}) (goal)) & q = (repeat (go a b) (go b c) (go c a)) | {1} | {2}
(always (forall (?x) (at ?x) (next (at ?x)))) | 1 | ; disobeys
(always (forall (?x) (at ?x) (next (next (at ?x))))) | 1 | ; disobeys
(always (forall (?x) (at ?x) (next (next (next (at ?x)))))) | 0 | ; valid for ever
(always (forall (?x) (at ?x) (next (next (next (next (at ?x))))))) | 1 | ; disobeys
(always (forall (?x) (at ?x) (next (next (next (next (next (at ?x)))))))) | 1 | ; disobeys
(always (forall (?x) (at ?x) (next (within 0 (at ?x))))) | 1 | ; disobeys
(always (forall (?x) (at ?x) (next (within 1 (at ?x))))) | 1 | ; disobeys
(always (forall (?x) (at ?x) (next (within 2 (at ?x))))) | 0 | ; valid for ever
(always (forall (?x) (at ?x) (next (within 3 (at ?x))))) | 0 | ; valid for ever
(always (forall (?x) (at ?x) (next (within 4 (at ?x))))) | 0 | ; valid for ever
(always (forall (?x) (at ?x) (next (within 5 (at ?x))))) | 0 | ; valid for ever
(always (forall (?x) (at ?x) (next (within 100000 (at ?x))))) | 0 | ; valid for ever
(always (forall (?x) (at ?x) (within 100000 (exists (?y) (at ?y) (and (not (at ?x)) (step ?x ?y)))))) | 0 | ; valid for ever
(always (forall (?x) (at ?x) (next (for 0 (not (at ?x)))))) | 0 | ; valid for ever
(always (forall (?x) (at ?x) (next (for 1 (not (at ?x)))))) | 0 | ; valid for ever
(always (forall (?x) (at ?x) (next (for 2 (not (at ?x)))))) | 1 | ; disobeys
(always (forall (?x) (at ?x) (next (for 3 (not (at ?x)))))) | 1 | ; disobeys
(always (forall (?x) (at ?x) (next (for 4 (not (at ?x)))))) | 1 | ; disobeys
(always (forall (?x) (at ?x) (next (for 5 (not (at ?x)))))) | 1 | ; disobeys
(always (forall (?x) (at ?x) (next (for 100000 (not (at ?x)))))) | 1 | ; disobeys
(always (forall (?x) (at ?x) (for 100000 (exists (?y) (at ?y) (next (exists (?z) (at ?z) (step ?y ?z))))))) | 0 | ; valid for ever
(eventually (exists (?x) (at ?x) (always (at ?x)))) | 1 | ; disobeys
(always (exists (?x) (at ?x) (next (always (not (at ?x)))))) | 1 | ; disobeys
(always (forall (?x) (at ?x) (next (eventually (at ?x))))) | 0 | ; valid for ever
(always (forall (?x) (at ?x) (eventually (not (at ?x))))) | 0 | ; valid for ever
(always (forall (?x) (at ?x) (eventually (exists (?y) (at ?y) (always (eventually (and (at ?y) (not (at ?x))))))))) | 0 | ; valid for ever
(always (forall (?x) (at ?x) (next (until (not (at ?x)) (at ?x))))) | 0 | ; valid for ever
(always (forall (?x) (at ?x) (until (at ?x) (not (at ?x))))) | 0 | ; valid for ever
(always (forall (?x) (at ?x) (until (exists (?y) (at ?y) (next (not (at ?y)))) (exists (?y) (at ?y) (next (at a)))))) | 0 | ; valid for ever
(always (until (exists (?x) (at ?x) (next (not (at ?x)))) (exists (?x) (at ?x) (within 2 (next (at ?x)))))) | 0 | ; valid for ever
(always (forall (?x) (at ?x) (next (exists (?y) (at ?y) (within 1 (forall (?z) (at ?z) (next (at ?x)))))))) | 0 | ; valid for ever
(eventually (forall (?x) (at ?x) (next (for 3 (forall (?y) (at ?y) (not (at ?x))))))) | 1 | ; disobeys
(always (forall (?x) (at ?x) (for 2 (exists (?y) (at ?y) (eventually (at ?x)))))) | 0 | ; valid for ever
";

/// The same for a round of four places.
const ROUND_OF_FOUR: &str = "
check-loop w p q | w = {places} (control {0})) & p = (problem q (init (at a) {steps}) (goal)) & q = (repeat (go a b) (go b c) (go c d) (go d a)) | {1} | {2}
(always (forall (?x) (at ?x) (next (at ?x)))) | 1 | ; disobeys
(always (forall (?x) (at ?x) (next (next (at ?x))))) | 1 | ; disobeys
(always (forall (?x) (at ?x) (next (next (next (at ?x)))))) | 1 | ; disobeys
(always (forall (?x) (at ?x) (next (next (next (next (at ?x))))))) | 0 | ; valid for ever
(always (forall (?x) (at ?x) (next (next (next (next (next (at ?x)))))))) | 1 | ; disobeys
(always (forall (?x) (at ?x) (next (within 0 (at ?x))))) | 1 | ; disobeys
(always (forall (?x) (at ?x) (next (within 1 (at ?x))))) | 1 | ; disobeys
(always (forall (?x) (at ?x) (next (within 2 (at ?x))))) | 1 | ; disobeys
(always (forall (?x) (at ?x) (next (within 3 (at ?x))))) | 0 | ; valid for ever
(always (forall (?x) (at ?x) (next (within 4 (at ?x))))) | 0 | ; valid for ever
(always (forall (?x) (at ?x) (next (within 5 (at ?x))))) | 0 | ; valid for ever
(always (forall (?x) (at ?x) (next (within 100000 (at ?x))))) | 0 | ; valid for ever
(always (forall (?x) (at ?x) (within 100000 (exists (?y) (at ?y) (and (not (at ?x)) (step ?x ?y)))))) | 0 | ; valid for ever
(always (forall (?x) (at ?x) (next (for 0 (not (at ?x)))))) | 0 | ; valid for ever
(always (forall (?x) (at ?x) (next (for 1 (not (at ?x)))))) | 0 | ; valid for ever
(always (forall (?x) (at ?x) (next (for 2 (not (at ?x)))))) | 0 | ; valid for ever
(always (forall (?x) (at ?x) (next (for 3 (not (at ?x)))))) | 1 | ; disobeys
(always (forall (?x) (at ?x) (next (for 4 (not (at ?x)))))) | 1 | ; disobeys
(always (forall (?x) (at ?x) (next (for 5 (not (at ?x)))))) | 1 | ; disobeys
(always (forall (?x) (at ?x) (next (for 100000 (not (at ?x)))))) | 1 | ; disobeys
(always (forall (?x) (at ?x) (for 100000 (exists (?y) (at ?y) (next (exists (?z) (at ?z) (step ?y ?z))))))) | 0 | ; valid for ever
(eventually (exists (?x) (at ?x) (always (at ?x)))) | 1 | ; disobeys
(always (exists (?x) (at ?x) (next (always (not (at ?x)))))) | 1 | ; disobeys
(always (forall (?x) (at ?x) (next (eventually (at ?x))))) | 0 | ; valid for ever
(always (forall (?x) (at ?x) (eventually (not (at ?x))))) | 0 | ; valid for ever
(always (forall (?x) (at ?x) (eventually (exists (?y) (at ?y) (always (eventually (and (at ?y) (not (at ?x))))))))) | 0 | ; valid for ever
(always (forall (?x) (at ?x) (next (until (not (at ?x)) (at ?x))))) | 0 | ; valid for ever
(always (forall (?x) (at ?x) (until (at ?x) (not (at ?x))))) | 0 | ; valid for ever
(always (forall (?x) (at ?x) (until (exists (?y) (at ?y) (next (not (at ?y)))) (exists (?y) (at ?y) (next (at a)))))) | 0 | ; valid for ever
(always (until (exists (?x) (at ?x) (next (not (at ?x)))) (exists (?x) (at ?x) (within 2 (next (at ?x)))))) | 1 | ; disobeys
(always (forall (?x) (at ?x) (next (exists (?y) (at ?y) (within 1 (forall (?z) (at ?z) (next (at ?x)))))))) | 1 | ; disobeys
(eventually (forall (?x) (at ?x) (next (for 3 (forall (?y) (at ?y) (not (at ?x))))))) | 1 | ; disobeys
(always (forall (?x) (at ?x) (for 2 (exists (?y) (at ?y) (eventually (at ?x)))))) | 0 | ; valid for ever
";

/// The same for a round of five places.
const ROUND_OF_FIVE: &str = "
check-loop w p q | w = {places} (control {0})) & p = (problem q (init (at a) {steps}) (goal)) & q = (repeat (go a b) (go b c) (go c d) (go d e) (go e a)) | {1} | {2}
(always (forall (?x) (at ?x) (next (at ?x)))) | 1 | ; disobeys
(always (forall (?x) (at ?x) (next (next (at ?x))))) | 1 | ; disobeys
(always (forall (?x) (at ?x) (next (next (next (at ?x)))))) | 1 | ; disobeys
(always (forall (?x) (at ?x) (next (next (next (next (at ?x))))))) | 1 | ; disobeys
(always (forall (?x) (at ?x) (next (next (next (next (next (at ?x)))))))) | 0 | ; valid for ever
(always (forall (?x) (at ?x) (next (within 0 (at ?x))))) | 1 | ; disobeys
(always (forall (?x) (at ?x) (next (within 1 (at ?x))))) | 1 | ; disobeys
(always (forall (?x) (at ?x) (next (within 2 (at ?x))))) | 1 | ; disobeys
(always (forall (?x) (at ?x) (next (within 3 (at ?x))))) | 1 | ; disobeys
(always (forall (?x) (at ?x) (next (within 4 (at ?x))))) | 0 | ; valid for ever
(always (forall (?x) (at ?x) (next (within 5 (at ?x))))) | 0 | ; valid for ever
(always (forall (?x) (at ?x) (next (within 100000 (at ?x))))) | 0 | ; valid for ever
(always (forall (?x) (at ?x) (within 100000 (exists (?y) (at ?y) (and (not (at ?x)) (step ?x ?y)))))) | 0 | ; valid for ever
(always (forall (?x) (at ?x) (next (for 0 (not (at ?x)))))) | 0 | ; valid for ever
(always (forall (?x) (at ?x) (next (for 1 (not (at ?x)))))) | 0 | ; valid for ever
(always (forall (?x) (at ?x) (next (for 2 (not (at ?x)))))) | 0 | ; valid for ever
(always (forall (?x) (at ?x) (next (for 3 (not (at ?x)))))) | 0 | ; valid for ever
(always (forall (?x) (at ?x) (next (for 4 (not (at ?x)))))) | 1 | ; disobeys
(always (forall (?x) (at ?x) (next (for 5 (not (at ?x)))))) | 1 | ; disobeys
(always (forall (?x) (at ?x) (next (for 100000 (not (at ?x)))))) | 1 | ; disobeys
(always (forall (?x) (at ?x) (for 100000 (exists (?y) (at ?y) (next (exists (?z) (at ?z) (step ?y ?z))))))) | 0 | ; valid for ever
(eventually (exists (?x) (at ?x) (always (at ?x)))) | 1 | ; disobeys
(always (exists (?x) (at ?x) (next (always (not (at ?x)))))) | 1 | ; disobeys
(always (forall (?x) (at ?x) (next (eventually (at ?x))))) | 0 | ; valid for ever
(always (forall (?x) (at ?x) (eventually (not (at ?x))))) | 0 | ; valid for ever
(always (forall (?x) (at ?x) (eventually (exists (?y) (at ?y) (always (eventually (and (at ?y) (not (at ?x))))))))) | 0 | ; valid for ever
(always (forall (?x) (at ?x) (next (until (not (at ?x)) (at ?x))))) | 0 | ; valid for ever
(always (forall (?x) (at ?x) (until (at ?x) (not (at ?x))))) | 0 | ; valid for ever
(always (forall (?x) (at ?x) (until (exists (?y) (at ?y) (next (not (at ?y)))) (exists (?y) (at ?y) (next (at a)))))) | 0 | ; valid for ever
(always (until (exists (?x) (at ?x) (next (not (at ?x)))) (exists (?x) (at ?x) (within 2 (next (at ?x)))))) | 1 | ; disobeys
(always (forall (?x) (at ?x) (next (exists (?y) (at ?y) (within 1 (forall (?z) (at ?z) (next (at ?x)))))))) | 1 | ; disobeys
(eventually (forall (?x) (at ?x) (next (for 3 (forall (?y) (at ?y) (not (at ?x))))))) | 0 | ; valid for ever
(always (forall (?x) (at ?x) (for 2 (exists (?y) (at ?y) (eventually (at ?x)))))) | 0 | ; valid for ever
";

/// Such rows for the same rounds, after two steps from a place to which nothing leads back.
const ROUND_OF_ONE_AFTER_A_STEM: &str = "
check-loop w p q | w = {places} (control {0})) & p = (problem q (init (at s) {steps}) (goal)) & q = (go s t) (go t a) (repeat (go a a)) | {1} | {2}
(always (forall (?x) (at ?x) (next (eventually (at ?x))))) | 1 | ; disobeys
(next (next (always (forall (?x) (at ?x) (next (eventually (at ?x))))))) | 0 | ; valid for ever
(exists (?x) (at ?x) (next (always (not (at ?x))))) | 0 | ; valid for ever
(eventually (exists (?x) (at ?x) (always (at ?x)))) | 0 | ; valid for ever
(always (exists (?x) (at ?x) (eventually (forall (?y) (at ?y) (and (not (at ?x)) (step ?x ?y)))))) | 1 | ; disobeys
(forall (?x) (at ?x) (next (next (next (at a))))) | 0 | ; valid for ever
(exists (?x) (at ?x) (next (next (next (within 2 (and (at a) (not (at ?x)))))))) | 0 | ; valid for ever
(exists (?x) (at ?x) (within 4 (exists (?y) (at ?y) (and (step t ?y) (next (until (not (at ?y)) (at ?y))))))) | 0 | ; valid for ever
(forall (?x) (at ?x) (within 100000 (exists (?y) (at ?y) (and (at e) (step ?y a))))) | 1 | ; disobeys
(exists (?x) (at ?x) (for 2 (not (at b)))) | 0 | ; valid for ever
(exists (?x) (at ?x) (for 3 (not (at b)))) | 0 | ; valid for ever
(exists (?x) (at ?x) (next (for 100000 (not (at ?x))))) | 0 | ; valid for ever
(exists (?x) (at ?x) (next (next (for 100000 (exists (?y) (at ?y) (not (at c))))))) | 0 | ; valid for ever
(forall (?x) (at ?x) (until (exists (?y) (at ?y) (next (not (at ?y)))) (exists (?y) (at ?y) (next (at ?y))))) | 0 | ; valid for ever
";

const ROUND_OF_TWO_AFTER_A_STEM: &str = "
check-loop w p q | w = {places} (control {0})) & p = (problem q (init (at s) {steps}) (goal)) & q = (go s t) (go t a) (repeat (go a b) (go b a)) | {1} | {2}
(always (forall (?x) (at ?x) (next (eventually (at ?x))))) | 1 | ; disobeys
(next (next (always (forall (?x) (at ?x) (next (eventually (at ?x))))))) | 0 | ; valid for ever
(exists (?x) (at ?x) (next (always (not (at ?x))))) | 0 | ; valid for ever
(eventually (exists (?x) (at ?x) (always (at ?x)))) | 1 | ; disobeys
(always (exists (?x) (at ?x) (eventually (forall (?y) (at ?y) (and (not (at ?x)) (step ?x ?y)))))) | 0 | ; valid for ever
(forall (?x) (at ?x) (next (next (next (at a))))) | 1 | ; disobeys
(exists (?x) (at ?x) (next (next (next (within 2 (and (at a) (not (at ?x)))))))) | 0 | ; valid for ever
(exists (?x) (at ?x) (within 4 (exists (?y) (at ?y) (and (step t ?y) (next (until (not (at ?y)) (at ?y))))))) | 0 | ; valid for ever
(forall (?x) (at ?x) (within 100000 (exists (?y) (at ?y) (and (at e) (step ?y a))))) | 1 | ; disobeys
(exists (?x) (at ?x) (for 2 (not (at b)))) | 0 | ; valid for ever
(exists (?x) (at ?x) (for 3 (not (at b)))) | 1 | ; disobeys
(exists (?x) (at ?x) (next (for 100000 (not (at ?x))))) | 0 | ; valid for ever
(exists (?x) (at ?x) (next (next (for 100000 (exists (?y) (at ?y) (not (at c))))))) | 0 | ; valid for ever
(forall (?x) (at ?x) (until (exists (?y) (at ?y) (next (not (at ?y)))) (exists (?y) (at ?y) (next (at ?y))))) | 1 | ; disobeys
";

const ROUND_OF_THREE_AFTER_A_STEM: &str = "
check-loop w p q | w = {places} (control {0})) & p = (problem q (init (at s) {steps}) (goal)) & q = (go s t) (go t a) (repeat (go a b) (go b c) (go c a)) | {1} | {2}
(always (forall (?x) (at ?x) (next (eventually (at ?x))))) | 1 | ; disobeys
(next (next (always (forall (?x) (at ?x) (next (eventually (at ?x))))))) | 0 | ; valid for ever
(exists (?x) (at ?x) (next (always (not (at ?x))))) | 0 | ; valid for ever
(eventually (exists (?x) (at ?x) (always (at ?x)))) | 1 | ; disobeys
(always (exists (?x) (at ?x) (eventually (forall (?y) (at ?y) (and (not (at ?x)) (step ?x ?y)))))) | 0 | ; valid for ever
(forall (?x) (at ?x) (next (next (next (at a))))) | 1 | ; disobeys
(exists (?x) (at ?x) (next (next (next (within 2 (and (at a) (not (at ?x)))))))) | 0 | ; valid for ever
(exists (?x) (at ?x) (within 4 (exists (?y) (at ?y) (and (step t ?y) (next (until (not (at ?y)) (at ?y))))))) | 0 | ; valid for ever
(forall (?x) (at ?x) (within 100000 (exists (?y) (at ?y) (and (at e) (step ?y a))))) | 1 | ; disobeys
(exists (?x) (at ?x) (for 2 (not (at b)))) | 0 | ; valid for ever
(exists (?x) (at ?x) (for 3 (not (at b)))) | 1 | ; disobeys
(exists (?x) (at ?x) (next (for 100000 (not (at ?x))))) | 0 | ; valid for ever
(exists (?x) (at ?x) (next (next (for 100000 (exists (?y) (at ?y) (not (at c))))))) | 1 | ; disobeys
(forall (?x) (at ?x) (until (exists (?y) (at ?y) (next (not (at ?y)))) (exists (?y) (at ?y) (next (at ?y))))) | 1 | ; disobeys
";

const ROUND_OF_FOUR_AFTER_A_STEM: &str = "
check-loop w p q | w = {places} (control {0})) & p = (problem q (init (at s) {steps}) (goal)) & q = (go s t) (go t a) (repeat (go a b) (go b c) (go c d) (go d a)) | {1} | {2}
(always (forall (?x) (at ?x) (next (eventually (at ?x))))) | 1 | ; disobeys
(next (next (always (forall (?x) (at ?x) (next (eventually (at ?x))))))) | 0 | ; valid for ever
(exists (?x) (at ?x) (next (always (not (at ?x))))) | 0 | ; valid for ever
(eventually (exists (?x) (at ?x) (always (at ?x)))) | 1 | ; disobeys
(always (exists (?x) (at ?x) (eventually (forall (?y) (at ?y) (and (not (at ?x)) (step ?x ?y)))))) | 0 | ; valid for ever
(forall (?x) (at ?x) (next (next (next (at a))))) | 1 | ; disobeys
(exists (?x) (at ?x) (next (next (next (within 2 (and (at a) (not (at ?x)))))))) | 1 | ; disobeys
(exists (?x) (at ?x) (within 4 (exists (?y) (at ?y) (and (step t ?y) (next (until (not (at ?y)) (at ?y))))))) | 0 | ; valid for ever
(forall (?x) (at ?x) (within 100000 (exists (?y) (at ?y) (and (at e) (step ?y a))))) | 1 | ; disobeys
(exists (?x) (at ?x) (for 2 (not (at b)))) | 0 | ; valid for ever
(exists (?x) (at ?x) (for 3 (not (at b)))) | 1 | ; disobeys
(exists (?x) (at ?x) (next (for 100000 (not (at ?x))))) | 0 | ; valid for ever
(exists (?x) (at ?x) (next (next (for 100000 (exists (?y) (at ?y) (not (at c))))))) | 1 | ; disobeys
(forall (?x) (at ?x) (until (exists (?y) (at ?y) (next (not (at ?y)))) (exists (?y) (at ?y) (next (at ?y))))) | 1 | ; disobeys
";

const ROUND_OF_FIVE_AFTER_A_STEM: &str = "
check-loop w p q | w = {places} (control {0})) & p = (problem q (init (at s) {steps}) (goal)) & q = (go s t) (go t a) (repeat (go a b) (go b c) (go c d) (go d e) (go e a)) | {1} | {2}
(always (forall (?x) (at ?x) (next (eventually (at ?x))))) | 1 | ; disobeys
(next (next (always (forall (?x) (at ?x) (next (eventually (at ?x))))))) | 0 | ; valid for ever
(exists (?x) (at ?x) (next (always (not (at ?x))))) | 0 | ; valid for ever
(eventually (exists (?x) (at ?x) (always (at ?x)))) | 1 | ; disobeys
(always (exists (?x) (at ?x) (eventually (forall (?y) (at ?y) (and (not (at ?x)) (step ?x ?y)))))) | 0 | ; valid for ever
(forall (?x) (at ?x) (next (next (next (at a))))) | 1 | ; disobeys
(exists (?x) (at ?x) (next (next (next (within 2 (and (at a) (not (at ?x)))))))) | 1 | ; disobeys
(exists (?x) (at ?x) (within 4 (exists (?y) (at ?y) (and (step t ?y) (next (until (not (at ?y)) (at ?y))))))) | 0 | ; valid for ever
(forall (?x) (at ?x) (within 100000 (exists (?y) (at ?y) (and (at e) (step ?y a))))) | 0 | ; valid for ever
(exists (?x) (at ?x) (for 2 (not (at b)))) | 0 | ; valid for ever
(exists (?x) (at ?x) (for 3 (not (at b)))) | 1 | ; disobeys
(exists (?x) (at ?x) (next (for 100000 (not (at ?x))))) | 0 | ; valid for ever
(exists (?x) (at ?x) (next (next (for 100000 (exists (?y) (at ?y) (not (at c))))))) | 1 | ; disobeys
(forall (?x) (at ?x) (until (exists (?y) (at ?y) (next (not (at ?y)))) (exists (?y) (at ?y) (next (at ?y))))) | 1 | ; disobeys
";

#[test]
fn words_below_quantifiers_are_judged_round_the_loop(rt: HostRuntime) -> Result<(), Stop> {
    are_run(&rt, rt.alloc(), ROUND_OF_ONE)?;
    are_run(&rt, rt.alloc(), ROUND_OF_TWO)?;
    are_run(&rt, rt.alloc(), ROUND_OF_THREE)?;
    are_run(&rt, rt.alloc(), ROUND_OF_FOUR)?;
    are_run(&rt, rt.alloc(), ROUND_OF_FIVE)?;
    are_run(&rt, rt.alloc(), ROUND_OF_ONE_AFTER_A_STEM)?;
    are_run(&rt, rt.alloc(), ROUND_OF_TWO_AFTER_A_STEM)?;
    are_run(&rt, rt.alloc(), ROUND_OF_THREE_AFTER_A_STEM)?;
    are_run(&rt, rt.alloc(), ROUND_OF_FOUR_AFTER_A_STEM)?;
    are_run(&rt, rt.alloc(), ROUND_OF_FIVE_AFTER_A_STEM)
}
