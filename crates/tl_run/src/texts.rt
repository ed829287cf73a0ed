// The two texts of a sample, which are read in turn as files are.
ghost use Rattle.std.specs.Prelude.{◌≡◌, ◌≤◌, length, IfOk, IfErr};
ghost use Rattle.tl_gen.specs.Samples.{domain_text, problem_text};
ghost use Rattle.tl_run.specs.Held.{IsHeld, KeepsBounds};
ghost use Rattle.tl_run.specs.Inputs as inputs;
ghost use Rattle.tl_run.specs.SampleTexts.{SampleStandsFor};
ghost use Rattle.tl_run.specs.Stops.{IsSampleStop};

use crate::stop::Stop;
use crate::turn::{Input, add_bytes};
use crate::words::Role;
use std::alloc::Global;

/// What the bytes of the two texts of the sample of so many balls stand for.
fn read_texts(alloc: Global, balls: u32, domain: &[u8], problem: &[u8]) -> Result<Input, Stop>
    requires domain { domain.now ≡ domain_text }
    requires problem { problem.now ≡ problem_text balls }
    requires short_domain { length domain.now ≤ 4194304 }
    requires short_problem { length problem.now ≤ 4194304 }
    ensures held { IfOk result (λ held. (x : inputs.Input) × SampleStandsFor balls x × IsHeld held x) }
    ensures keeps { IfOk result KeepsBounds }
    ensures stop { IfErr result (IsSampleStop balls) }
{
    let mut input = Input::Nothing;
    add_bytes(alloc, 1, Role::Domain, domain, &mut input)?;
    add_bytes(alloc, 2, Role::Problem, problem, &mut input)?;
    Ok(input)
}

/// What the two texts of the sample of so many balls, from 1 to 100, stand for. No store is read.
pub(crate) fn read_sample(alloc: Global, balls: u32) -> Result<Input, Stop>
    requires some { 1 ≤ balls }
    requires few { balls ≤ 100 }
    ensures held { IfOk result (λ held. (x : inputs.Input) × SampleStandsFor balls x × IsHeld held x) }
    ensures keeps { IfOk result KeepsBounds }
    ensures stop { IfErr result (IsSampleStop balls) }
{
    let texts = tl_gen::sample(alloc, balls)?;
    read_texts(
        alloc,
        balls,
        texts.domain.as_slice(),
        texts.problem.as_slice(),
    )
}
