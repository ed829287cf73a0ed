//! Worked cases of plain data and of devices, without a domain. There is nothing in it but tests;
//! `tl_tables` says how a row is written.
#![tactic(auto)]

#[cfg(test)]
mod adapters;
#[cfg(test)]
mod checks;
#[cfg(test)]
mod counts;
#[cfg(test)]
mod known;
#[cfg(test)]
mod lists;
#[cfg(test)]
mod matches;
#[cfg(test)]
mod names;
#[cfg(test)]
mod outside;
#[cfg(test)]
mod spelling;
#[cfg(test)]
mod stop;
#[cfg(test)]
mod worlds;
