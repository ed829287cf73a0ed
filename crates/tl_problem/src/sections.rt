// The problem form and its two sections.
ghost use Rattle.tl_sexpr.specs.Tree.{list, tree_of};
ghost use Rattle.tl_rules.specs.Reads.{trees_in};
ghost use Rattle.tl_problem.specs.Readers.{ReadsSection, ReadsSections, ReadsProblemForm, ReadsProblemFile};

use crate::elements::{Section, read_elements};
use crate::literals::LiteralTables;
use tl_rules::parts::{begins_with, four, is_name, is_word, offset, rest_of, split_first};
use tl_rules::{FormFault, Rule, Vocabulary, breaks, check_last};
use tl_sexpr::Form;
use tl_syntax::Domain;

/// What the two sections of a problem form say, in tables.
#[derive(Drop)]
pub(crate) struct SectionTables {
    /// What is true at first.
    pub(crate) init: LiteralTables,
    /// What is wanted.
    pub(crate) goal: LiteralTables,
}

/// An `init` or a `goal` form.
#[tactic(auto, using(crate::proofs::Rulesets::composed))]
fn section(
    vocabulary: &Vocabulary<'_, Domain>,
    section: Section,
    form: &Form,
) -> Result<LiteralTables, FormFault>
    ensures { ReadsSection result vocabulary.now section (tree_of form.now) }
{
    let elements = rest_of(form);
    if elements.len() > 4096 {
        return Err(breaks(Rule::Limit, offset(form)));
    }
    let mut literals = LiteralTables::new(vocabulary.alloc);
    match read_elements(vocabulary, section, &mut literals, elements) {
        Ok(()) => Ok(literals),
        Err(fault) => {
            drop(literals);
            Err(fault)
        }
    }
}

/// The two sections of a problem form.
#[tactic(auto, using(crate::proofs::Rulesets::composed))]
fn both_sections(
    vocabulary: &Vocabulary<'_, Domain>,
    init: &Form,
    goal: &Form,
) -> Result<SectionTables, FormFault>
    ensures { ReadsSections result vocabulary.now (tree_of init.now) (tree_of goal.now) }
{
    let init = section(vocabulary, Section::Init, init)?;
    match section(vocabulary, Section::Goal, goal) {
        Ok(goal) => Ok(SectionTables { init, goal }),
        Err(fault) => {
            drop(init);
            Err(fault)
        }
    }
}

/// The problem form, by its elements and its offset.
#[tactic(auto, using(crate::proofs::Counts::problem_count))]
fn problem_list(
    vocabulary: &Vocabulary<'_, Domain>,
    forms: &[Form],
    at: u32,
) -> Result<SectionTables, FormFault>
    ensures { ReadsProblemForm result vocabulary.now (list (trees_in forms.now) at) }
{
    let Some((word, name, init, goal)) = four(forms) else {
        return Err(breaks(Rule::Shape, at));
    };
    if is_word("problem", word)
        && is_name(name)
        && begins_with("init", init)
        && begins_with("goal", goal)
    {
        both_sections(vocabulary, init, goal)
    } else {
        Err(breaks(Rule::Shape, at))
    }
}

/// The problem form.
#[tactic(auto, using(crate::proofs::Rulesets::form_trees))]
fn problem_form(
    vocabulary: &Vocabulary<'_, Domain>,
    form: &Form,
) -> Result<SectionTables, FormFault>
    ensures { ReadsProblemForm result vocabulary.now (tree_of form.now) }
{
    match form {
        Form::Sym(_, at) | Form::Int(_, at) => Err(breaks(Rule::Shape, *at)),
        Form::List(forms, at) => problem_list(vocabulary, forms.as_slice(), *at),
    }
}

/// The forms of a problem file.
#[tactic(auto, using(crate::proofs::Rulesets::composed))]
pub(crate) fn problem_file(
    vocabulary: &Vocabulary<'_, Domain>,
    forms: &[Form],
) -> Result<SectionTables, FormFault>
    ensures { ReadsProblemFile result vocabulary.now (trees_in forms.now) }
{
    let Some((first, rest)) = split_first(forms) else {
        return Err(breaks(Rule::Shape, 0));
    };
    let sections = problem_form(vocabulary, first)?;
    match check_last(rest) {
        Ok(()) => Ok(sections),
        Err(fault) => {
            drop(sections);
            Err(fault)
        }
    }
}
