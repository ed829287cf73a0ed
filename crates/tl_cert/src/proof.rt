// Proofs that there is no plan.
use tl_syntax::{Action, Items};

/// A search node that a proof lists: the one after an action of a node that is listed before it.
#[derive(Drop)]
pub struct Link {
    /// The number of the node that the action starts from: 0 for the node of the empty path, and k
    /// for that of the k-th link.
    pub from: u32,
    /// The action.
    pub action: Action,
}

/// The links of a proof in their order: the k-th lists the node of number k.
pub type Links = Items<Link>;

/// A proof that no plan is accepted: an inductive set of search nodes (Eriksson, Röger and Helmert
/// 2017), in the sense that every successor of a listed node is listed or pruned.
/// It speaks of plans of any length, or of those of at most so many actions as its bound says.
#[derive(Drop)]
pub struct Proof {
    /// The most actions of a plan that it speaks of, where it has a bound.
    pub bound: Option<u32>,
    /// Its links.
    pub links: Links,
}
