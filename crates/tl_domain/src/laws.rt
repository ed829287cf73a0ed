// Laws of domain files, each the contract of a function that does nothing.
ghost use Rattle.tl_domain.specs.LawsFiles.{FilesStandForOneProblem, NamesAreTexts};
ghost use Rattle.tl_domain.specs.LawsKeeps.{DomainIsKept};
ghost use Rattle.tl_domain.specs.LawsMean.{DomainFilesMean};
ghost use Rattle.tl_domain.specs.LawsNames.{LawfulNamesAreWritable};
ghost use Rattle.tl_domain.specs.LawsOrder.{FirstBreakIsLeast};

/// Of the rules that the forms of a domain file break, the first in reading order is at the least
/// offset, and no lesser rule is broken there.
pub fn first_break_is_least()
    ensures { FirstBreakIsLeast }
{}

/// A domain that the forms of a file stand for, where these break no rule and each of their symbols
/// has a name, keeps what the domain of every problem keeps.
pub fn domain_is_kept()
    ensures { DomainIsKept }
{}

/// The names of two files are the texts of their symbols, each once, in the order of their bytes.
pub fn names_are_texts()
    ensures { NamesAreTexts }
{}

/// Two problems that the same two files stand for have the same names and the same domain, and say
/// the same.
pub fn files_stand_for_one_problem()
    ensures { FilesStandForOneProblem }
{}

/// Where the symbols of two files are tokens, as those of forms are that bytes spell, each name of
/// the problem that the files stand for is one too, no value that is written down there is a
/// variable, and operators have different names.
pub fn lawful_names_are_writable()
    ensures { LawfulNamesAreWritable }
{}

/// The forms of a domain file mean a domain exactly where they break no rule.
pub fn domain_files_mean()
    ensures { DomainFilesMean }
{}
