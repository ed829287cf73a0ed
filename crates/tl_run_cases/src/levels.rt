// Plans of a domain with a definition that names itself down to a number of levels: the levels, the
// control formula, the initial world, the goal list, the plan, the status, and the verdict.

use crate::run::are_run;
use crate::stop::Stop;

const LEVELS: &str = "
check r p q | r = (domain r (predicate edge 2) (predicate won 0) (defined {0} {reach}) {walks} (control {1})) & p = (problem p (init {2}) (goal {3})) & q = {4} | {5} | {6}
3 | true | {way} | (won) | (win) | 1 | ; not executable 1
4 | true | {way} | (won) | (win) | 0 | ; valid
62 | true | {way} | (won) | (win) | 0 | ; valid
1 | true | {way} | (won) | (win) | 1 | ; not executable 1
2 | true | {loop} | (won) | (win) | 0 | ; valid
4 | true | {way} | (won) | (cut b c) (win) | 1 | ; not executable 2
3 | {leads} | {way} | (edge c d) | - | 0 | ; valid
2 | {leads} | {way} | (edge c d) | - | 1 | ; disobeys
3 | {leads} | {way} | (edge c d) | (cut b c) | 1 | ; disobeys
3 | {leads} | {way} | (edge c d) | (cut a b) | 0 | ; valid
3 | {leads} | {way} | (not (edge b c)) | (cut b c) | 0 | ; valid
1 | {stops} | {way} | - | (cut a b) (cut b c) | 0 | ; valid
1 | {stops} | {way} | - | (cut a b) (cut c d) | 1 | ; disobeys
1 | (next (ends b)) | {way} | - | (cut b c) | 0 | ; valid
1 | (ends b) | {way} | - | (cut b c) | 1 | ; disobeys
";

#[test]
fn definitions_are_read_at_their_levels(rt: HostRuntime) -> Result<(), Stop> {
    are_run(&rt, rt.alloc(), LEVELS)
}
