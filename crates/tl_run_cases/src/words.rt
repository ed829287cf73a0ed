// Words, and the numbers of statuses.

use crate::run::are_run;
use crate::stop::Stop;
use tl_run::Status;

/// Rows of words, the files, the status, and the output.
const WORDS: &str = "
{0} | {1} | {2} | {3}
check d p q more | - | 8 | -
checks d p q | - | 8 | -
plan d p q | - | 8 | -
sample | - | 8 | -
samples 1 | - | 8 | -
plan deep 5 100 d p | - | 8 | -
explain d p | - | 8 | -
explain d p q more | - | 8 | -
cheapest 100 d p | - | 8 | -
cheap 100 d p k | - | 8 | -
check-loop d p | - | 8 | -
check-loop d p q more | - | 8 | -
--help | - | 8 | -
# one word for the domain and the problem: the file is read twice, and is no problem
check d d q | d = (domain one) & q = - | 3 | ; refused file 2 rule 10 at 0
";

#[test]
fn words_are_a_command_or_none(rt: HostRuntime) -> Result<(), Stop> {
    are_run(&rt, rt.alloc(), WORDS)
}

#[test]
fn statuses_have_their_numbers(rt: HostRuntime) {
    for (number, status) in [
        Status::Yes,
        Status::No,
        Status::Spent,
        Status::Refused,
        Status::Range,
        Status::ReadFault,
        Status::WriteFault,
        Status::NoMemory,
        Status::Usage,
    ]
    .iter()
    .enumerate()
    {
        assert_eq!(rt; usize::from(status.number()), number);
    }
}
