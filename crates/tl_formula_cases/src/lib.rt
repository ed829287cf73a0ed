//! Worked cases of formulas as trees and as interned nodes, by the texts of domains. There is
//! nothing in it but tests; `tl_tables` says how a row is written.
#![tactic(auto)]

#[cfg(test)]
mod checks;
#[cfg(test)]
mod domains;
#[cfg(test)]
mod nodes;
#[cfg(test)]
mod stop;
#[cfg(test)]
mod trees;
