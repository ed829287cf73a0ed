// The problem that the forms of a file stand for.
ghost use Rattle.std.specs.Prelude.{◌≡◌, [], length, IfOk, IfErr, OnOk};
ghost use Rattle.tl_sexpr.specs.Offsets.{AreAsRead};
ghost use Rattle.tl_sexpr.specs.Tree.{trees_of};
ghost use Rattle.tl_syntax.specs.Kept.{DomainKeeps};
ghost use Rattle.tl_syntax.specs.Settled.{IsInOrder};
ghost use Rattle.tl_syntax.specs.Signature.{signature_of};
ghost use Rattle.tl_rules.specs.Named.{HaveNames};
ghost use Rattle.tl_rules.specs.Reads.{IsFirst, IsLeastFault, Reads};
ghost use Rattle.tl_problem.specs.Keeps.{SectionsKeep};
ghost use Rattle.tl_problem.specs.ProblemFiles.{problem_file_breaks, problem_file_meant};
ghost use Rattle.tl_problem.specs.Problems.{IsProblemOf, Says};
ghost use Rattle.tl_problem.specs.Readers.{sections_in};

use crate::section_lists::{SectionLists, section_lists};
use crate::sections::{SectionTables, problem_file};
use std::alloc::Global;
use tl_rules::{FormFault, Vocabulary};
use tl_sexpr::Forms;
use tl_syntax::{Domain, Names, NoMemory, Problem};

/// What the forms of a file say.
#[tactic(auto, using(crate::proofs::Rulesets::form_trees))]
fn said(
    alloc: Global,
    names: &Names,
    domain: &Domain,
    forms: &Forms,
) -> Result<SectionTables, FormFault>
    ensures { Reads sections_in result
        (problem_file_breaks names.now domain.now (trees_of forms.now))
        (problem_file_meant names.now domain.now (trees_of forms.now)) }
{
    let vocabulary = Vocabulary {
        alloc,
        names,
        declared: domain,
    };
    problem_file(&vocabulary, forms.as_slice())
}

/// The problem of these names, this domain and what a file says.
fn problem_with(
    alloc: Global,
    names: Names,
    domain: Domain,
    said: SectionTables,
) -> Result<Problem, NoMemory>
    requires order { IsInOrder names }
    requires domain { DomainKeeps (length names) domain }
    requires said { SectionsKeep (signature_of domain) (length names) (sections_in said) }
    requires init { (sections_in said).init.nots ≡ [] }
    ensures { IfOk result (Says names domain (sections_in said)) }
{
    let Ok(lists) = section_lists(alloc, said) else {
        drop(names);
        drop(domain);
        return Err(NoMemory);
    };
    let SectionLists { init, goal } = lists;
    Ok(Problem {
        domain,
        names,
        init_facts: init.facts,
        init_values: init.values,
        goal_facts: goal.facts,
        goal_values: goal.values,
        goal_nots: goal.nots,
    })
}

/// The problem that the forms of a problem file stand for, with the domain of the domain file and
/// the names of both files, in the order of their bytes. Or the fault with the least offset, and
/// there the least rule; a refused call drops the names and the domain.
pub fn problem_of(
    alloc: Global,
    names: Names,
    domain: Domain,
    forms: &Forms,
) -> Result<Problem, FormFault>
    requires order { IsInOrder names }
    requires named { HaveNames names (trees_of forms.now) }
    requires domain { DomainKeeps (length names) domain }
    ensures problem { IfOk result (IsProblemOf names domain (trees_of forms.now)) }
    ensures lawful { OnOk result (problem_file_breaks names domain (trees_of forms.now) ≡ []) }
    ensures fault { IfErr result (IsFirst (problem_file_breaks names domain (trees_of forms.now))) }
    ensures least { AreAsRead (trees_of forms.now)
        → IfErr result (IsLeastFault (problem_file_breaks names domain (trees_of forms.now))) }
{
    match said(alloc, &names, &domain, forms) {
        Ok(said) => Ok(problem_with(alloc, names, domain, said)?),
        Err(fault) => {
            drop(names);
            drop(domain);
            Err(fault)
        }
    }
}
