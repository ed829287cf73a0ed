// The two texts of a sample.
ghost use Rattle.std.specs.Prelude.{◌≡◌, ◌≤◌, length, IfOk};
ghost use Rattle.tl_gen.specs.Samples.{domain_text, problem_text};

use crate::domain::domain_text;
use crate::problem::problem_text;
use std::alloc::Global;
use tl_syntax::{Bytes, NoMemory};

/// The texts of a domain file and a problem file. Every line ends with a line feed.
#[derive(Drop)]
pub struct Texts {
    /// The text of the domain file, which is the same for every number of balls.
    pub domain: Bytes,
    /// The text of the problem file.
    pub problem: Bytes,
}

/// The sample of `n` balls, from 1 to 100, which a robot with two grippers has to move from one
/// room to another: the domain gripper of the planning competition of 1998, with control for a
/// search that goes forward. It fails for want of memory alone.
pub fn sample(alloc: Global, n: u32) -> Result<Texts, NoMemory>
    requires some { 1 ≤ n }
    requires few { n ≤ 100 }
    ensures domain { IfOk result (λ texts. texts.domain ≡ domain_text) }
    ensures problem { IfOk result (λ texts. texts.problem ≡ problem_text n) }
    // Both are as short as a file may be.
    ensures short_domain { IfOk result (λ texts. length texts.domain ≤ 4194304) }
    ensures short_problem { IfOk result (λ texts. length texts.problem ≤ 4194304) }
{
    let domain = domain_text(alloc)?;
    let problem = problem_text(alloc, n)?;
    Ok(Texts { domain, problem })
}
