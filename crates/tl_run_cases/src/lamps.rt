// Plans for lamps that are pressed and put off: the control formula, the initial world, the goal
// list, the plan, the status, and the verdict.

use crate::run::are_run;
use crate::stop::Stop;

const BELOW: &str = "
check l p q | l = {lamps} (control {0})) & p = (problem p (init {1}) (goal {2})) & q = {3} | {4} | {5}
{stays} | {two} | (on a) (on b) | (press a) (press b) | 0 | ; valid
{stays} | {two} | (on b) | (press a) (off a) (press b) | 1 | ; disobeys
{stays} | {two} | (on a) | (press a) (off a) (press a) | 1 | ; disobeys
{stays} | {two} | - | - | 0 | ; valid
{goes} | {two} | - | (press a) (off a) | 0 | ; valid
{goes} | {two} | - | (press a) | 1 | ; disobeys
{goes} | {two} | - | (press a) (press b) (off a) | 1 | ; disobeys
{goes} | {two} | - | (press a) (press b) (off a) (off b) | 0 | ; valid
{settles} | {two} | - | (press a) (off a) (press b) (press a) | 0 | ; valid
{settles} | {two} | - | (press a) (press b) (off a) | 1 | ; disobeys
{settles} | {two} | (on a) | (press a) | 1 | ; disobeys
{once} | {two} | (on a) | (press b) (press a) (off b) | 0 | ; valid
{once} | {two} | (on a) | (press a) (off a) (press a) | 1 | ; disobeys
{once} | {two} | (on a) (on b) | (press a) (press b) | 0 | ; valid
{follows} | {two} | - | (press b) (press a) | 0 | ; valid
{follows} | (lamp a) | (on a) | (press a) | 1 | ; disobeys
{follows} | {two} | - | - | 1 | ; disobeys
{wanted} | {two} | (on a) | (press b) (off b) (press a) | 0 | ; valid
{wanted} | {two} | (on a) | (press b) (press a) (off b) | 1 | ; disobeys
{wanted} | {two} | (on a) | (press a) (press b) | 1 | ; disobeys
{alone} | {two} | (on b) | (press a) (off a) (press b) | 0 | ; valid
{alone} | {two} | (on b) | (press a) (press b) (off a) | 1 | ; disobeys
{all} | {two} | (on b) | (press a) (press b) (off a) | 1 | ; disobeys
{all} | {two} | - | (press a) (press b) (off a) (off b) | 1 | ; disobeys
{all} | {two} | - | (press a) (press b) | 0 | ; valid
{all} | {two} | (on a) | (press a) | 1 | ; disobeys
{light} | {two} | (on b) | (press a) (press b) (off a) | 0 | ; valid
{light} | {two} | (on b) | (press a) (off a) (press b) | 1 | ; disobeys
{first} | {three} | (on b) | (press a) (press b) | 0 | ; valid
{first} | {three} | (on b) | (press c) (press b) | 0 | ; valid
{first} | {three} | (on b) | (press c) (off c) (press b) | 1 | ; disobeys
{first} | {three} | - | (press a) | 1 | ; disobeys
";

const BOUNDS: &str = "
check l p q | l = {lamps} (control {0})) & p = (problem p (init {1}) (goal {2})) & q = {3} | {4} | {5}
{next bound} | (lamp a) (lamp b) (on b) | (on a) | (off b) (press a) | 0 | ; valid
{next bound} | (lamp a) (lamp b) (on b) | (on a) | (press a) | 1 | ; disobeys
{bound now} | (lamp a) (lamp b) (on b) | (on a) | (off b) (press a) | 1 | ; disobeys
{bound now} | (lamp a) (lamp b) (on b) | (on a) | (press a) (off b) | 0 | ; valid
{last} | {two} | - | (press a) (press b) | 0 | ; valid
{last} | {two} | - | (press a) | 1 | ; disobeys
{last} | (lamp a) (on a) | - | - | 0 | ; valid
(next (on a)) | (lamp a) (on a) | - | - | 0 | ; valid
(next (on a)) | (lamp a) | - | - | 1 | ; disobeys
{blinks} | {two} | - | (press a) (press b) (off a) | 0 | ; valid
{blinks} | {two} | (on a) | (press a) | 1 | ; disobeys
{avoids} | {two} | (on a) (not (on b)) | (press a) | 0 | ; valid
{avoids} | {two} | (on a) (not (on b)) | (press b) (press a) (off b) | 1 | ; disobeys
{avoids} | {two} | (on a) (not (on b)) | (press b) (press a) | 1 | ; goal unmet
";

const ORDER: &str = "
check l p q | l = {lamps} (control {0})) & p = (problem p (init {1}) (goal {2})) & q = {3} | {4} | {5}
{never} | {two} | - | - | 1 | ; disobeys
false | {two} | (on a) | (press a) (press a) | 1 | ; not executable 2
false | {two} | (on a) | (press b) | 1 | ; goal unmet
false | {two} | (on a) | (press a) | 1 | ; disobeys
true | {two} | (on a) | (press a) (off a) | 1 | ; goal unmet
true | {two} | (on a) | (press a) (off b) (press b) | 1 | ; not executable 2
true | {two} | (on a) | (off a) (press a) | 1 | ; not executable 1
(and) | {two} | (on a) | (press a) | 0 | ; valid
(next (and)) | {two} | (on a) | (press a) | 0 | ; valid
(next (or)) | {two} | (on a) | (press a) | 1 | ; disobeys
true | {two} | (on a) (on b) | (press a) | 1 | ; goal unmet
true | {two} | - |  (press -7) | 1 | ; not executable 1
true | {two} | - | {5 (press a) (off a) }(press a) (press a) | 1 | ; not executable 12
";

#[test]
fn plans_for_lamps_have_their_verdicts(rt: HostRuntime) -> Result<(), Stop> {
    are_run(&rt, rt.alloc(), BELOW)?;
    are_run(&rt, rt.alloc(), BOUNDS)?;
    are_run(&rt, rt.alloc(), ORDER)
}
