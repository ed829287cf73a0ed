// The domain that a file stands for.
ghost use Rattle.std.specs.Prelude.{length, IfErr, IfOk};
ghost use Rattle.tl_sexpr.specs.Offsets.{AreAsRead};
ghost use Rattle.tl_sexpr.specs.Tree.{trees_of};
ghost use Rattle.tl_syntax.specs.Kept.{DomainKeeps};
ghost use Rattle.tl_rules.specs.Named.{HaveNames};
ghost use Rattle.tl_rules.specs.Reads.{Reads, Checks, IsLeastFault};
ghost use Rattle.tl_domain.specs.DomainFiles.{domain_file_breaks};
ghost use Rattle.tl_domain.specs.DomainTrees.{domain_tree};
ghost use Rattle.tl_domain.specs.MeaningOfItems.{domain_file_meant};

use crate::domain_file::domain_file;
use std::alloc::Global;
use tl_rules::FormFault;
use tl_sexpr::Forms;
use tl_syntax::{Domain, Names};

/// The domain that the forms of a file stand for under these names, or the first broken rule in
/// reading order, which is the least rule at the broken form with the least offset. What the domain
/// keeps is copied; no form is.
#[tactic(auto, using(crate::proofs::Rulesets::files))]
pub fn domain_of(alloc: Global, names: &Names, forms: &Forms) -> Result<Domain, FormFault>
    ensures read { Reads domain_tree result (domain_file_breaks (trees_of forms.now))
        (domain_file_meant names.now (trees_of forms.now)) }
    ensures least { AreAsRead (trees_of forms.now)
        → IfErr result (IsLeastFault (domain_file_breaks (trees_of forms.now))) }
    ensures keeps { HaveNames names.now (trees_of forms.now)
        → IfOk result (DomainKeeps (length names.now)) }
{
    domain_file(alloc, names, forms.as_slice())
}

/// Checks that no form of a domain file breaks a rule, before any name has its number.
///
/// The fault is that of `domain_of`.
pub fn check_domain(alloc: Global, forms: &Forms) -> Result<(), FormFault>
    ensures lawful { Checks result (domain_file_breaks (trees_of forms.now)) }
    ensures least { AreAsRead (trees_of forms.now)
        → IfErr result (IsLeastFault (domain_file_breaks (trees_of forms.now))) }
{
    let names = Names::new(alloc);
    match domain_of(alloc, &names, forms) {
        Ok(domain) => {
            drop(domain);
            Ok(())
        }
        Err(fault) => Err(fault),
    }
}
