// The commands, each from its input to a reply.

pub(crate) mod cheapest;
pub(crate) mod check;
pub(crate) mod check_loop;
pub(crate) mod check_none;
pub(crate) mod explain;
pub(crate) mod plan;
pub(crate) mod prove_none;
pub(crate) mod sample;
mod searching;
pub(crate) mod trace;
