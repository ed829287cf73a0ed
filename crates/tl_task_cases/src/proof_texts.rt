// Proof files, written as they are read.

use crate::checks::are_bytes;
use crate::stop::Stop;
use crate::tasks::{forms_of, problem_in};
use std::alloc::Global;
use std::process::Abort;
use tl_cert::{proof_of, proof_text};
use tl_syntax::Problem;
use tl_tables::{filled, is_row};

/// Rows of proof files, each as it is written.
const PROOFS: &str = "
(none){lf}
(none-within 0){lf}
(none-within 100000){lf}(pair 0 (press a)){lf}
(none){lf}(pair 0 (press a)){lf}(pair 1 (press b)){lf}(pair 2 (off a)){lf}
";

/// Compares the text of the proof of a row with that row.
fn is_written<R: Abort>(rt: &R, alloc: Global, problem: &Problem, row: &str) -> Result<(), Stop> {
    let wanted = filled(alloc, row, "")?;
    let forms = forms_of(alloc, wanted.as_str())?;
    let proof = proof_of(alloc, &forms, problem)?;
    let found = proof_text(alloc, problem, &proof)?;
    are_bytes(rt, found.as_slice(), wanted.as_bytes(), row);
    Ok(())
}

/// Goes over the rows.
fn are_written<R: Abort>(rt: &R, alloc: Global, problem: &Problem) -> Result<(), Stop> {
    for row in PROOFS.lines() {
        if is_row(row) {
            is_written(rt, alloc, problem, row)?;
        }
    }
    Ok(())
}

/// The problem of two lamps that are to be on.
fn lamps(alloc: Global) -> Result<Problem, Stop> {
    let domain = filled(alloc, "{lamps})", "")?;
    let problem = filled(alloc, "{ab}", "")?;
    problem_in(alloc, domain.as_str(), problem.as_str())
}

#[test]
fn proofs_are_written_as_they_are_read(rt: HostRuntime) -> Result<(), Stop> {
    let problem = lamps(rt.alloc())?;
    let compared = are_written(&rt, rt.alloc(), &problem);
    drop(problem);
    compared
}
