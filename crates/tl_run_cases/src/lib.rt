//! Worked cases of whole runs, over files in memory. There is nothing in it but tests; `tl_tables`
//! says how a row is written.
#![tactic(auto)]

#[cfg(test)]
mod cheapest;
#[cfg(test)]
mod checks;
#[cfg(test)]
mod depth;
#[cfg(test)]
mod devices;
#[cfg(test)]
mod domain_files;
#[cfg(test)]
mod explanations;
#[cfg(test)]
mod failing;
#[cfg(test)]
mod gripper;
#[cfg(test)]
mod labels;
#[cfg(test)]
mod lamps;
#[cfg(test)]
mod levels;
#[cfg(test)]
mod limits;
#[cfg(test)]
mod loops;
#[cfg(test)]
mod plans;
#[cfg(test)]
mod problem_files;
#[cfg(test)]
mod proof_files;
#[cfg(test)]
mod refusals;
#[cfg(test)]
mod repeats;
#[cfg(test)]
mod rounds;
#[cfg(test)]
mod run;
#[cfg(test)]
mod samples;
#[cfg(test)]
mod spans;
#[cfg(test)]
mod stop;
#[cfg(test)]
mod traces;
#[cfg(test)]
mod truth;
#[cfg(test)]
mod verdicts;
#[cfg(test)]
mod words;
#[cfg(test)]
mod worlds;
