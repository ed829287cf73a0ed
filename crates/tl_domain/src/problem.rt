// The problem that a domain file and a problem file stand for.
ghost use Rattle.std.specs.Prelude.{◌≡◌, ◌+◌, ◌<◌, ◌^◌, [], IfOk, IfErr};
ghost use Rattle.tl_sexpr.specs.Offsets.{AreAsRead};
ghost use Rattle.tl_sexpr.specs.Tree.{trees_of};
ghost use Rattle.tl_rules.specs.Reads.{IsFirst, IsLeastFault};
ghost use Rattle.tl_domain.specs.DomainFiles.{domain_file_breaks};
ghost use Rattle.tl_domain.specs.Files.{AreFilesOf, HaveRoomTogether, IsRead, names_of, problem_breaks};

use crate::read::domain_of;
use std::alloc::Global;
use tl_rules::{FormFault, add_forms};
use tl_sexpr::Forms;
use tl_syntax::{Domain, Names, NoMemory, Problem};

/// The names of all symbols of both files, in the order of their bytes.
fn names_in(alloc: Global, first: &Forms, second: &Forms) -> Result<Names, NoMemory>
    requires room { HaveRoomTogether (trees_of first.now) (trees_of second.now) }
    ensures names { IfOk result
        (λ names. names ≡ names_of (trees_of first.now) (trees_of second.now)) }
{
    let mut names = Names::new(alloc);
    add_forms(first.as_slice(), &mut names)?;
    add_forms(second.as_slice(), &mut names)?;
    let (names, numbers) = names.settled(alloc)?;
    drop(numbers);
    Ok(names)
}

/// The names of both files, and the domain of the first, which breaks no rule. It fails for want of
/// memory alone.
fn names_and_domain(
    alloc: Global,
    first: &Forms,
    second: &Forms,
) -> Result<(Names, Domain), NoMemory>
    requires lawful { domain_file_breaks (trees_of first.now) ≡ [] }
    requires room { HaveRoomTogether (trees_of first.now) (trees_of second.now) }
    ensures read { IfOk result (IsRead (trees_of first.now) (trees_of second.now)) }
{
    let names = names_in(alloc, first, second)?;
    match domain_of(alloc, &names, first) {
        Ok(domain) => Ok((names, domain)),
        Err(_) => {
            drop(names);
            Err(NoMemory)
        }
    }
}

/// The problem that the forms of a domain file, which break no rule and are dropped, and those of a
/// problem file stand for. Its names are the texts of all symbols of both, in the order of their
/// bytes. Or the second file's fault with the least offset, and there the least rule.
pub fn problem_of(alloc: Global, first: Forms, second: &Forms) -> Result<Problem, FormFault>
    requires lawful { domain_file_breaks (trees_of first) ≡ [] }
    requires room { HaveRoomTogether (trees_of first) (trees_of second.now) }
    ensures problem { IfOk result (AreFilesOf (trees_of first) (trees_of second.now)) }
    ensures fault { IfErr result (IsFirst
        (problem_breaks (trees_of first) (trees_of second.now))) }
    ensures least { AreAsRead (trees_of second.now)
        → IfErr result (IsLeastFault (problem_breaks (trees_of first) (trees_of second.now))) }
{
    let read = names_and_domain(alloc, &first, second);
    drop(first);
    let (names, domain) = read?;
    tl_problem::problem_of(alloc, names, domain, second)
}
