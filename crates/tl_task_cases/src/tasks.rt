// The problem and the task of texts.
ghost use Rattle.std.specs.Prelude.{◌≤◌, IfOk};
ghost use Rattle.tl_sexpr.specs.Spelling.{symbols_in_all};
ghost use Rattle.tl_sexpr.specs.Tree.{trees_of};

use crate::stop::Stop;
use std::alloc::Global;
use tl_domain::{check_domain, problem_of};
use tl_sexpr::{Forms, read_forms};
use tl_syntax::Problem;
use tl_world::Task;

/// The forms of a text.
pub(crate) fn forms_of(alloc: Global, text: &str) -> Result<Forms, Stop>
    ensures few { IfOk result (λ forms. symbols_in_all (trees_of forms) ≤ 4194304) }
{
    if text.len() > 4_194_304 {
        return Err(Stop::Row("the text is too long"));
    }
    Ok(read_forms(alloc, text.as_bytes())?)
}

/// The problem of a domain text and a problem text.
pub(crate) fn problem_in(alloc: Global, domain: &str, problem: &str) -> Result<Problem, Stop> {
    let second = forms_of(alloc, problem)?;
    let first = forms_of(alloc, domain)?;
    check_domain(alloc, &first)?;
    Ok(problem_of(alloc, first, &second)?)
}

/// The task of a domain text and a problem text.
pub(crate) fn task_of(alloc: Global, domain: &str, problem: &str) -> Result<Task, Stop> {
    let problem = problem_in(alloc, domain, problem)?;
    Ok(Task::of(alloc, problem)?)
}
