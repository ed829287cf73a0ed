// A search, as words write it.
ghost use Rattle.std.specs.Prelude.{◌≡◌, ◌≤◌, Some, IfSome};
ghost use Rattle.std.specs.Str.{all_ascii_digits};
ghost use Rattle.tl_run.specs.Searches.{breadth_in, mode_in, number_between, search_in, search_with, IsWithinLimits};

/// The order in which a search goes over search nodes.
#[derive(Clone, Copy)]
pub(crate) enum Mode {
    /// Those that are reached by fewer actions first.
    Breadth,
    /// Those after the one that was reached last first.
    Depth,
}

/// A search for a plan.
#[derive(Clone, Copy)]
pub(crate) struct Search {
    /// Its order.
    pub(crate) mode: Mode,
    /// The most actions of a plan, from 0 to 100,000.
    pub(crate) within: u32,
    /// The most search nodes that it keeps, from 1 to 100,000.
    pub(crate) nodes: u32,
}

/// Whether the word has nothing but decimal digits. It takes no memory.
fn is_digits(word: &str) -> bool
    ensures { result ≡ all_ascii_digits word.now }
{
    word.as_bytes().iter().all(|byte| byte.is_ascii_digit())
}

/// The number that the word writes in decimal digits, where it is from `least` to `most`. Zeros may
/// stand before it. It takes no memory.
pub(crate) fn number_of(word: &str, least: u32, most: u32) -> Option<u32>
    ensures number { result ≡ number_between least most word.now }
    ensures least { IfSome result (λ number. least ≤ number) }
    ensures most { IfSome result (λ number. number ≤ most) }
{
    if !is_digits(word) {
        return None;
    }
    match word.parse::<u32>() {
        Ok(number) if least <= number && number <= most => Some(number),
        _ => None,
    }
}

/// The mode that the word names. It takes no memory.
fn mode_of(word: &str) -> Option<Mode>
    ensures { result ≡ mode_in word.now }
{
    match word {
        "breadth" => Some(Mode::Breadth),
        "depth" => Some(Mode::Depth),
        _ => None,
    }
}

/// The search in this mode whose most actions and most search nodes the words write. It takes no
/// memory.
fn search_with(mode: Mode, within: &str, nodes: &str) -> Option<Search>
    ensures search { result ≡ search_with (Some mode) (number_between 0 100000 within.now) (number_between 1 100000 nodes.now) }
    ensures mode { IfSome result (λ search. search.mode ≡ mode) }
    ensures limits { IfSome result IsWithinLimits }
{
    Some(Search {
        mode,
        within: number_of(within, 0, 100_000)?,
        nodes: number_of(nodes, 1, 100_000)?,
    })
}

/// The search breadth-first that the words for the most actions and the most search nodes write. It
/// takes no memory.
pub(crate) fn breadth_of(within: &str, nodes: &str) -> Option<Search>
    ensures search { result ≡ breadth_in within.now nodes.now }
    ensures breadth { IfSome result (λ search. search.mode ≡ Mode.Breadth) }
    ensures limits { IfSome result IsWithinLimits }
{
    search_with(Mode::Breadth, within, nodes)
}

/// The search that the words for its mode, the most actions and the most search nodes write. It
/// takes no memory.
pub(crate) fn search_of(mode: &str, within: &str, nodes: &str) -> Option<Search>
    ensures search { result ≡ search_in mode.now within.now nodes.now }
    ensures limits { IfSome result IsWithinLimits }
{
    search_with(mode_of(mode)?, within, nodes)
}
