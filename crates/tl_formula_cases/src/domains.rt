// The domain of a text.
ghost use Rattle.std.specs.Prelude.{◌≤◌, length, IfOk};
ghost use Rattle.tl_sexpr.specs.Spelling.{symbols_in_all};
ghost use Rattle.tl_sexpr.specs.Tree.{trees_of};

use crate::stop::Stop;
use std::alloc::Global;
use tl_domain::domain_of;
use tl_rules::add_forms;
use tl_sexpr::{Forms, read_forms};
use tl_syntax::{Domain, Names};
use tl_tables::filled;

/// The forms of a text.
fn forms_of(alloc: Global, text: &str) -> Result<Forms, Stop>
    ensures few { IfOk result (λ forms. symbols_in_all (trees_of forms) ≤ 4194304) }
{
    if text.len() > 4_194_304 {
        return Err(Stop::Row("the text is too long"));
    }
    Ok(read_forms(alloc, text.as_bytes())?)
}

/// The domain of a text, whose symbols join the names.
#[tactic(auto, using(crate::proofs::FormTrees::form_trees))]
fn domain_in(alloc: Global, names: &mut Names, text: &str) -> Result<Domain, Stop>
    requires few { length names.old ≤ 4194304 }
{
    let forms = forms_of(alloc, text)?;
    add_forms(forms.as_slice(), names)?;
    Ok(domain_of(alloc, names, &forms)?)
}

/// The domain of a text in which what stands in braces is put in from a row.
pub(crate) fn filled_domain(
    alloc: Global,
    names: &mut Names,
    form: &str,
    row: &str,
) -> Result<Domain, Stop>
    requires few { length names.old ≤ 4194304 }
{
    let text = filled(alloc, form, row)?;
    domain_in(alloc, names, text.as_str())
}
