// Plans for lamps under `within` and `for`: the control formula, the initial world, the goal list,
// the plan, the status, and the verdict.

use crate::run::are_run;
use crate::stop::Stop;

const SPANS: &str = "
check l p q | l = {lamps} (control {0})) & p = (problem p (init {1}) (goal {2})) & q = {3} | {4} | {5}
(within 5 (on a)) | (lamp a) | - | - | 1 | ; disobeys
(within 5 (on a)) | (lamp a) (on a) | - | - | 0 | ; valid
(within 0 (on a)) | (lamp a) | - | (press a) | 1 | ; disobeys
(within 1 (on a)) | (lamp a) | - | (press a) | 0 | ; valid
(within 1 (on a)) | {two} | - | (press b) (press a) | 1 | ; disobeys
(within 100000 (on a)) | {two} | - | (press b) (press a) | 0 | ; valid
(for 0 (not (on a))) | (lamp a) | - | (press a) | 0 | ; valid
(for 1 (not (on a))) | (lamp a) | - | (press a) | 1 | ; disobeys
(for 2 (not (on a))) | {two} | (on a) | (press b) (off b) (press a) | 0 | ; valid
(for 100000 (not (on a))) | {two} | - | (press b) | 0 | ; valid
(for 100000 (on a)) | (lamp a) (on a) | - | (off a) (press a) | 1 | ; disobeys
{soon off} | {two} | - | (press a) (press b) (off a) (off b) | 0 | ; valid
{soon off} | {three} | - | (press a) (press b) (press c) (off a) (off b) (off c) | 1 | ; disobeys
{soon off} | {two} | (on a) | (press a) | 1 | ; disobeys
{dark} | (lamp a) | - | - | 0 | ; valid
{dark} | (lamp a) | - | (press a) | 1 | ; disobeys
{nearly} | (lamp a) | - | (press a) (off a) (press a) | 0 | ; valid
{nearly} | (lamp a) | - | (press a) (off a) | 1 | ; disobeys
{twice} | (lamp a) | - | (press a) | 0 | ; valid
{twice} | {three} | (on a) | (press b) (press c) (press a) | 1 | ; disobeys
{twice} | {two} | - | (press b) (press a) (off a) | 1 | ; disobeys
{twice} | {two} | - | (press b) (press a) (off b) | 0 | ; valid
{soon} | {two} | - | (press a) (press b) | 0 | ; valid
{soon} | {two} | - | (press a) (off a) | 1 | ; disobeys
{rests} | {two} | (on a) | (press b) (off b) (press a) | 0 | ; valid
{rests} | {two} | (on a) | (press b) (off b) (press b) (off b) (press a) | 1 | ; disobeys
";

#[test]
fn spans_of_states_are_counted(rt: HostRuntime) -> Result<(), Stop> {
    are_run(&rt, rt.alloc(), SPANS)
}
