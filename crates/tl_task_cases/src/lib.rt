//! Worked cases of tasks and of what is read over them, by the texts of domains and problems.
//! There is nothing in it but tests; `tl_tables` says how a row is written.
#![tactic(auto)]

#[cfg(test)]
mod answers;
#[cfg(test)]
mod checks;
#[cfg(test)]
mod labels;
#[cfg(test)]
mod paths;
#[cfg(test)]
mod progression;
#[cfg(test)]
mod proof_texts;
#[cfg(test)]
mod stop;
#[cfg(test)]
mod tasks;
#[cfg(test)]
mod tuples;
