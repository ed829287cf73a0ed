// What is said of a proof.
use tl_syntax::Action;

/// The verdict on a proof that there is no plan.
#[derive(Drop)]
pub enum NoneVerdict {
    /// It covers the search space, so there is no plan.
    Proved,
    /// The link of this number, counted from 1, is the first that is not good.
    BadLink(u32),
    /// All links are good, and the node of this number is accepted.
    Accepts(u32),
    /// All links are good, and the action leads from the node of this number to one that is neither
    /// pruned nor listed.
    Open(u32, Action),
}
