// A domain together with a problem of it.
ghost use Rattle.std.specs.Prelude.{◌≡◌, length, map, true, false};
ghost use Rattle.std.proofs.Props.{props};
ghost use Rattle.tl_syntax.specs.Kept.{DomainKeeps, FactKeeps, PlaceKeeps};
ghost use Rattle.tl_syntax.specs.KeptOnce.{domain-prop, facts-prop, places-prop};
ghost use Rattle.tl_syntax.specs.Keys.{fact_key, place_entry, no_clash, share_key};
ghost use Rattle.tl_syntax.specs.Lists.{Each};
ghost use Rattle.tl_syntax.specs.Settled.{IsInOrder};
ghost use Rattle.tl_syntax.specs.Signature.{signature_of};

use crate::{Domain, Facts, Names, PlaceValues};

/// A planning problem: a domain, the initial world and the goal (Bacchus and Kabanza 2000). Whoever
/// has one knows what its ghost fields say: names are in the order of their bytes, trees and facts
/// fit, no place has two values, and no fact is both wanted and unwanted.
#[derive(Drop)]
pub struct Problem {
    /// What may be said and done.
    pub domain: Domain,
    /// The names of all symbols of both files.
    pub names: Names,
    /// The facts that are true at first.
    pub init_facts: Facts,
    /// The places that have a value at first.
    pub init_values: PlaceValues,
    /// The facts that are wanted.
    pub goal_facts: Facts,
    /// The places of which a value is wanted.
    pub goal_values: PlaceValues,
    /// The facts that are to be false.
    pub goal_nots: Facts,
    pub ghost settled: { IsInOrder names } by { Prim.hlevel props },
    pub ghost domain_keeps: { DomainKeeps (length names) domain } by { domain-prop (length names) domain },
    pub ghost init_facts_keep: { Each (FactKeeps (signature_of domain) (length names)) init_facts } by { facts-prop (signature_of domain) (length names) init_facts },
    pub ghost init_values_keep: { Each (PlaceKeeps (signature_of domain) (length names)) init_values } by { places-prop (signature_of domain) (length names) init_values },
    pub ghost goal_facts_keep: { Each (FactKeeps (signature_of domain) (length names)) goal_facts } by { facts-prop (signature_of domain) (length names) goal_facts },
    pub ghost goal_values_keep: { Each (PlaceKeeps (signature_of domain) (length names)) goal_values } by { places-prop (signature_of domain) (length names) goal_values },
    pub ghost goal_nots_keep: { Each (FactKeeps (signature_of domain) (length names)) goal_nots } by { facts-prop (signature_of domain) (length names) goal_nots },
    pub ghost init_agrees: { no_clash (map place_entry init_values) ≡ true },
    pub ghost goal_agrees: { no_clash (map place_entry goal_values) ≡ true },
    pub ghost goal_is_consistent: { share_key (map fact_key goal_facts) (map fact_key goal_nots) ≡ false },
}
