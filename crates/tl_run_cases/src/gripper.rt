// Plans for a robot with two grippers that carries balls from room to room: the control formula,
// the goal list, the plan, the status, and the verdict.

use crate::run::are_run;
use crate::stop::Stop;

const CARRIED: &str = "
check g p q | g = {gripper} (control {0})) & p = (problem p (init {balls}) (goal {1})) & q = {2} | {3} | {4}
{useful} | {both} | {together} | 0 | ; valid
{useful} | {both} | {one by one} | 1 | ; disobeys
{useful} | {both} | {picked again} | 1 | ; disobeys
{useful} | (at 1 b) (at 2 a) | (pick 1 a left) (move a b) (drop 1 b left) | 0 | ; valid
{useful} | (at 1 b) | (pick 1 a left) (move a b) (drop 1 b left) | 1 | ; disobeys
{useful} | (at 2 b) | (pick 1 a left) (drop 1 a left) (pick 2 a left) (move a b) (drop 2 b left) | 1 | ; disobeys
{useful} | {both} | (pick 1 a left) (move a b) (drop 1 b left) | 1 | ; goal unmet
{arrives} | {both} | {together} | 0 | ; valid
{arrives} | {both} | {one by one} | 0 | ; valid
{arrives} | (at 1 b) | (pick 1 a left) (pick 2 a right) (move a b) (drop 1 b left) | 1 | ; disobeys
{arrives} | - | (pick 1 a left) | 1 | ; disobeys
{moved once} | {both} | {together} | 0 | ; valid
{moved once} | {both} | {one by one} | 0 | ; valid
{moved once} | {both} | {picked again} | 1 | ; disobeys
{leaves within three} | {both} | {together} | 0 | ; valid
{leaves within two} | {both} | {together} | 1 | ; disobeys
{leaves within two} | {both} | {one by one} | 0 | ; valid
{waits} | {both} | {together} | 0 | ; valid
{waits} | - | (move a b) | 1 | ; disobeys
{used} | {both} | {together} | 0 | ; valid
{used} | {both} | {one by one} | 1 | ; disobeys
true | {both} | (pick 1 a left) (pick 2 a left) | 1 | ; not executable 2
true | {both} | (pick 1 a left) (pick 2 a right) (move a a) | 1 | ; not executable 3
true | {both} | (pick 1 b left) | 1 | ; not executable 1
true | {both} | {one by one} | 0 | ; valid
";

#[test]
fn balls_are_carried(rt: HostRuntime) -> Result<(), Stop> {
    are_run(&rt, rt.alloc(), CARRIED)
}
