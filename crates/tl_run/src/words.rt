// The words of a command line.
ghost use Rattle.std.specs.Prelude.{◌≡◌, ◌≤◌, [], ◌∷◌, length, map, IfOk, IfSome};
ghost use Rattle.std.specs.Option.{option_map};
ghost use Rattle.std.specs.String.{string_bytes};
ghost use Rattle.tl_run.specs.Commands.{cheapest_command, command_in, files_of, five_words_command, none_command, plan_command, sample_command, search_command, KeepsLimits};
ghost use Rattle.tl_run.specs.declared.words.Role.TheVariants as role;
ghost use Rattle.tl_run.specs.Searches.{IsWithinLimits};
ghost use Rattle.tl_run.specs.Words.{command_meant, file_meant};

use crate::search::{Mode, Search, breadth_of, number_of, search_of};
use std::alloc::{AllocError, Global};

/// What a file of a command is read as.
#[derive(Clone, Copy)]
pub(crate) enum Role {
    /// A domain, which is the first file.
    Domain,
    /// A problem, after a domain.
    Problem,
    /// A plan, after a problem.
    Plan,
    /// A proof that there is no plan, after a problem.
    Proof,
    /// The costs of operators, after a problem.
    Costs,
    /// A plan with a repeated part, after a problem.
    Loop,
}

/// A file of a command.
#[derive(Clone, Copy)]
pub(crate) struct File<'a> {
    /// What it is read as.
    pub(crate) role: Role,
    /// Its name.
    pub(crate) name: &'a str,
}

/// A command, with the names of its files, or with the number of balls of its sample.
#[derive(Clone, Copy)]
pub(crate) enum Command<'a> {
    /// The verdict on a plan.
    Check {
        /// The name of the domain file.
        domain: &'a str,
        /// The name of the problem file.
        problem: &'a str,
        /// The name of the plan file.
        plan: &'a str,
    },
    /// A search for a plan.
    Plan {
        /// The search.
        search: Search,
        /// The name of the domain file.
        domain: &'a str,
        /// The name of the problem file.
        problem: &'a str,
    },
    /// A search for a plan, with its events.
    Trace {
        /// The search.
        search: Search,
        /// The name of the domain file.
        domain: &'a str,
        /// The name of the problem file.
        problem: &'a str,
    },
    /// The residuals along a plan.
    Explain {
        /// The name of the domain file.
        domain: &'a str,
        /// The name of the problem file.
        problem: &'a str,
        /// The name of the plan file.
        plan: &'a str,
    },
    /// A search for a plan, and a proof that there is none.
    ProveNone {
        /// The search, which is breadth-first.
        search: Search,
        /// The name of the domain file.
        domain: &'a str,
        /// The name of the problem file.
        problem: &'a str,
    },
    /// The verdict on a proof that there is no plan.
    CheckNone {
        /// The name of the domain file.
        domain: &'a str,
        /// The name of the problem file.
        problem: &'a str,
        /// The name of the proof file.
        proof: &'a str,
    },
    /// The search of a sample, and the check of its plan.
    Sample {
        /// The number of balls, from 1 to 100.
        balls: u32,
    },
    /// A search for a plan of the least cost.
    Cheapest {
        /// The most search nodes that it keeps, from 1 to 100,000.
        nodes: u32,
        /// The name of the domain file.
        domain: &'a str,
        /// The name of the problem file.
        problem: &'a str,
        /// The name of the costs file.
        costs: &'a str,
    },
    /// The verdict on a plan with a repeated part.
    CheckLoop {
        /// The name of the domain file.
        domain: &'a str,
        /// The name of the problem file.
        problem: &'a str,
        /// The name of the plan file.
        plan: &'a str,
    },
}

impl<'a> Command<'a> {
    /// The files, in the order in which they are read: at most three.
    pub(crate) fn files(self, alloc: Global) -> Result<Vec<File<'a>>, AllocError>
        ensures files { IfOk result (λ files. map file_meant files.items ≡ files_of (command_meant self.entry)) }
        ensures few { IfOk result (λ files. length files.items ≤ 3) }
    {
        match self {
            Command::Check {
                domain,
                problem,
                plan,
            } => files_with(alloc, domain, problem, Role::Plan.file(plan)),
            Command::Plan {
                domain,
                problem,
                ..
            } => Ok(vec![in alloc; Role::Domain.file(domain), Role::Problem.file(problem)]?),
            Command::Trace {
                domain,
                problem,
                ..
            } => Ok(vec![in alloc; Role::Domain.file(domain), Role::Problem.file(problem)]?),
            Command::Explain {
                domain,
                problem,
                plan,
            } => files_with(alloc, domain, problem, Role::Plan.file(plan)),
            Command::ProveNone {
                domain,
                problem,
                ..
            } => Ok(vec![in alloc; Role::Domain.file(domain), Role::Problem.file(problem)]?),
            Command::CheckNone {
                domain,
                problem,
                proof,
            } => files_with(alloc, domain, problem, Role::Proof.file(proof)),
            Command::Sample { .. } => Ok(Vec::new(alloc)),
            Command::Cheapest {
                domain,
                problem,
                costs,
                ..
            } => files_with(alloc, domain, problem, Role::Costs.file(costs)),
            Command::CheckLoop {
                domain,
                problem,
                plan,
            } => files_with(alloc, domain, problem, Role::Loop.file(plan)),
        }
    }
}

impl Role {
    /// A file that is read as this.
    fn file(self, name: &str) -> File<'_>
        ensures { file_meant result ≡ (self, name.now) }
    {
        File { role: self, name }
    }
}

/// The files of a command on a problem and a file after it.
fn files_with<'a>(
    alloc: Global,
    domain: &'a str,
    problem: &'a str,
    last: File<'a>,
) -> Result<Vec<File<'a>>, AllocError>
    ensures { IfOk result (λ files. map file_meant files.items
        ≡ (role.Domain, domain.now) ∷ ((role.Problem, problem.now) ∷ (file_meant last.entry ∷ []))) }
{
    let files = vec![in alloc;
        Role::Domain.file(domain),
        Role::Problem.file(problem),
        last,
    ]?;
    Ok(files)
}

/// The command on a sample that the word names. It takes no memory.
fn sample_command<'a>(word: &str, balls: &str) -> Option<Command<'a>>
    ensures command { option_map command_meant result ≡ sample_command word.now balls.now }
    ensures limits { IfSome result (λ command. KeepsLimits (command_meant command)) }
{
    match word {
        "sample" => Some(Command::Sample {
            balls: number_of(balls, 1, 100)?,
        }),
        _ => None,
    }
}

/// The command on a plan, or on a proof, that the word names. It takes no memory.
fn plan_command<'a>(
    word: &str,
    domain: &'a str,
    problem: &'a str,
    plan: &'a str,
) -> Option<Command<'a>>
    ensures command { option_map command_meant result ≡ plan_command word.now domain.now problem.now plan.now }
    ensures limits { IfSome result (λ command. KeepsLimits (command_meant command)) }
{
    match word {
        "check" => Some(Command::Check {
            domain,
            problem,
            plan,
        }),
        "explain" => Some(Command::Explain {
            domain,
            problem,
            plan,
        }),
        "check-none" => Some(Command::CheckNone {
            domain,
            problem,
            proof: plan,
        }),
        "check-loop" => Some(Command::CheckLoop {
            domain,
            problem,
            plan,
        }),
        _ => None,
    }
}

/// The command with a search that the word names. It takes no memory.
fn search_command<'a>(
    word: &str,
    search: Search,
    domain: &'a str,
    problem: &'a str,
) -> Option<Command<'a>>
    requires { IsWithinLimits search }
    ensures command { option_map command_meant result ≡ search_command word.now domain.now problem.now search }
    ensures limits { IfSome result (λ command. KeepsLimits (command_meant command)) }
{
    match word {
        "plan" => Some(Command::Plan {
            search,
            domain,
            problem,
        }),
        "trace" => Some(Command::Trace {
            search,
            domain,
            problem,
        }),
        _ => None,
    }
}

/// The command with a search breadth-first that the word names. It takes no memory.
fn none_command<'a>(
    word: &str,
    search: Search,
    domain: &'a str,
    problem: &'a str,
) -> Option<Command<'a>>
    requires breadth { search.mode ≡ Mode.Breadth }
    requires limits { IsWithinLimits search }
    ensures command { option_map command_meant result ≡ none_command word.now domain.now problem.now search }
    ensures limits { IfSome result (λ command. KeepsLimits (command_meant command)) }
{
    match word {
        "prove-none" => Some(Command::ProveNone {
            search,
            domain,
            problem,
        }),
        _ => None,
    }
}

/// The command on a costs file. It takes no memory.
fn cheapest_command<'a>(
    nodes: &str,
    domain: &'a str,
    problem: &'a str,
    costs: &'a str,
) -> Option<Command<'a>>
    ensures command { option_map command_meant result ≡ cheapest_command nodes.now domain.now problem.now costs.now }
    ensures limits { IfSome result (λ command. KeepsLimits (command_meant command)) }
{
    Some(Command::Cheapest {
        nodes: number_of(nodes, 1, 100_000)?,
        domain,
        problem,
        costs,
    })
}

/// The command of five words: on a costs file, or with a search breadth-first. It takes no memory.
fn five_words_command<'a>(
    word: &str,
    first: &str,
    second: &'a str,
    third: &'a str,
    fourth: &'a str,
) -> Option<Command<'a>>
    ensures command { option_map command_meant result ≡ five_words_command word.now first.now second.now third.now fourth.now }
    ensures limits { IfSome result (λ command. KeepsLimits (command_meant command)) }
{
    match word {
        "cheapest" => cheapest_command(first, second, third, fourth),
        _ => {
            let search = breadth_of(first, second)?;
            none_command(word, search, third, fourth)
        }
    }
}

/// The command that the words write. It takes no memory.
pub(crate) fn command_of(words: &[String]) -> Option<Command<'_>>
    ensures command { option_map command_meant result ≡ command_in (map string_bytes words.now) }
    ensures limits { IfSome result (λ command. KeepsLimits (command_meant command)) }
{
    match words {
        [word, balls] => sample_command(word.as_str(), balls.as_str()),
        [word, domain, problem, plan] => plan_command(
            word.as_str(),
            domain.as_str(),
            problem.as_str(),
            plan.as_str(),
        ),
        [word, first, second, third, fourth] => five_words_command(
            word.as_str(),
            first.as_str(),
            second.as_str(),
            third.as_str(),
            fourth.as_str(),
        ),
        [word, mode, within, nodes, domain, problem] => {
            let search = search_of(mode.as_str(), within.as_str(), nodes.as_str())?;
            search_command(word.as_str(), search, domain.as_str(), problem.as_str())
        }
        _ => None,
    }
}
