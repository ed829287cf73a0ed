// The reply to a command.
ghost use Rattle.std.specs.Prelude.{◌≡◌, IfOk, IfErr};
ghost use Rattle.tl_run.specs.declared.status.Status.TheVariants as status;
ghost use Rattle.tl_run.specs.Commands.{KeepsLimits};
ghost use Rattle.tl_run.specs.Held.{IsHeld, KeepsBounds};
ghost use Rattle.tl_run.specs.Inputs as inputs;
ghost use Rattle.tl_run.specs.Promises.{IsAnswer};
ghost use Rattle.tl_run.specs.Refusals.{refusal_text};
ghost use Rattle.tl_run.specs.Replies.{FitsCommand, Replies};
ghost use Rattle.tl_run.specs.Stops.{IsBareStatus, ends_by_read_fault};
ghost use Rattle.tl_run.specs.Turns.{BeginsInTurn, calls_told};
ghost use Rattle.tl_run.specs.Words.{command_meant};

use crate::commands::{
    cheapest, check, check_loop, check_none, explain, plan, prove_none, sample, trace,
};
use crate::input::read_input;
use crate::status::Status;
use crate::stop::{Broken, Stop};
use crate::turn::Input;
use crate::words::Command;
use std::alloc::Global;
use tl_outside::Store;
use tl_syntax::{Bytes, NoMemory};
use tl_text::refused_text;

/// How a run ends, and what it writes.
#[derive(Drop)]
pub(crate) struct Reply {
    /// How it ends.
    pub(crate) status: Status,
    /// What it writes, each line with its end.
    pub(crate) text: Bytes,
}

impl From<NoMemory> for Status {
    ghost from_gives = { λ _ s. s ≡ status.NoMemory };

    fn from(_: NoMemory) -> Self {
        Status::NoMemory
    }
}

/// The reply to a command over its input: one line for each command.
fn reply_over(alloc: Global, command: Command<'_>, input: Input) -> Result<Reply, NoMemory>
    requires fits { FitsCommand (command_meant command) input }
    requires limits { KeepsLimits (command_meant command) }
    requires keeps { KeepsBounds input }
    ensures { (x : inputs.Input) → IsHeld input x → IfOk result (Replies (command_meant command.entry) x) }
{
    match command {
        Command::Check { .. } => {
            let (problem, plan) = input.into_plan();
            check::reply(alloc, problem, plan.as_slice())
        }
        Command::Plan { search, .. } => plan::reply(alloc, input.into_problem(), search),
        Command::Trace { search, .. } => trace::reply(alloc, input.into_problem(), search),
        Command::Explain { .. } => {
            let (problem, plan) = input.into_plan();
            explain::reply(alloc, problem, plan.as_slice())
        }
        Command::ProveNone { search, .. } => {
            prove_none::reply(alloc, input.into_problem(), search)
        }
        Command::CheckNone { .. } => {
            let (problem, proof) = input.into_proof();
            check_none::reply(alloc, problem, &proof)
        }
        Command::Sample { balls } => sample::reply(alloc, input.into_problem(), balls),
        Command::Cheapest { nodes, .. } => {
            let (problem, costs) = input.into_costs();
            cheapest::reply(alloc, problem, &costs, nodes)
        }
        Command::CheckLoop { .. } => {
            let (problem, plan) = input.into_loop();
            check_loop::reply(alloc, problem, &plan)
        }
    }
}

/// The reply where the file of this number breaks this rule.
fn refusal(alloc: Global, number: u8, broken: Broken) -> Result<Reply, NoMemory>
    ensures status { IfOk result (λ reply. reply.status ≡ Status.Refused) }
    ensures text { IfOk result (λ reply. reply.text ≡ refusal_text number broken) }
{
    let text = refused_text(alloc, number, broken.number(), broken.offset())?;
    let status = Status::Refused;
    Ok(Reply { status, text })
}

/// The reply to a command over the files of a store, or the status of a run that writes nothing.
pub(crate) fn reply_to<S: Store>(
    alloc: Global,
    store: &mut S,
    command: Command<'_>,
) -> Result<Reply, Status>
    requires { KeepsLimits (command_meant command) }
    ensures answer { IfOk result (λ reply. IsAnswer (S.files store.old) (command_meant command.entry)
        (calls_told (S.calls store.old) (S.calls store.new)) reply.status reply.text) }
    ensures bare { IfErr result (IsBareStatus (S.files store.old) (command_meant command.entry) (S.faults store.old) (S.faults store.new)) }
    ensures calls { BeginsInTurn (S.files store.old) (command_meant command.entry)
        (calls_told (S.calls store.old) (S.calls store.new)) (ends_by_read_fault result) }
{
    match read_input(alloc, store, command) {
        Ok(input) => Ok(reply_over(alloc, command, input)?),
        Err(Stop::Refused(number, broken)) => Ok(refusal(alloc, number, broken)?),
        Err(Stop::ReadFault) => Err(Status::ReadFault),
        Err(Stop::NoMemory) => Err(Status::NoMemory),
    }
}
