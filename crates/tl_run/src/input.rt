// What a command is over: its files, read in turn, or the texts of a sample.
ghost use Rattle.std.specs.Prelude.{IfOk, IfErr};
ghost use Rattle.tl_run.specs.Commands.{KeepsLimits};
ghost use Rattle.tl_run.specs.Held.{IsHeld, KeepsBounds};
ghost use Rattle.tl_run.specs.Inputs as inputs;
ghost use Rattle.tl_run.specs.Stops.{IsStop, ReadsFiles, has_read_fault};
ghost use Rattle.tl_run.specs.Turns.{BeginsInTurn, HoldInput, calls_told};
ghost use Rattle.tl_run.specs.Words.{command_meant};

use crate::stop::Stop;
use crate::texts::read_sample;
use crate::turn::{Input, read_next};
use crate::words::Command;
use std::alloc::Global;
use tl_outside::Store;

/// What the files of the command stand for. Each is begun after those before it have passed.
fn read_files<S: Store>(alloc: Global, store: &mut S, command: Command<'_>) -> Result<Input, Stop>
    requires { ReadsFiles (command_meant command) }
    ensures held { IfOk result (λ held. (x : inputs.Input)
        × HoldInput (S.files store.old) (command_meant command.entry) x × IsHeld held x) }
    ensures keeps { IfOk result KeepsBounds }
    ensures stop { IfErr result (IsStop (S.files store.old) (command_meant command.entry)
        (calls_told (S.calls store.old) (S.calls store.new)) (S.faults store.old) (S.faults store.new)) }
    ensures calls { BeginsInTurn (S.files store.old) (command_meant command.entry)
        (calls_told (S.calls store.old) (S.calls store.new)) (has_read_fault result) }
{
    let files = command.files(alloc)?;
    let mut input = Input::Nothing;
    let mut number = 0;
    for file in &files {
        number += 1;
        read_next(alloc, store, file, number, &mut input)?;
    }
    Ok(input)
}

/// What the files of the command stand for, or the texts of its sample.
pub(crate) fn read_input<S: Store>(
    alloc: Global,
    store: &mut S,
    command: Command<'_>,
) -> Result<Input, Stop>
    requires { KeepsLimits (command_meant command) }
    ensures held { IfOk result (λ held. (x : inputs.Input)
        × HoldInput (S.files store.old) (command_meant command.entry) x × IsHeld held x) }
    ensures keeps { IfOk result KeepsBounds }
    ensures stop { IfErr result (IsStop (S.files store.old) (command_meant command.entry)
        (calls_told (S.calls store.old) (S.calls store.new)) (S.faults store.old) (S.faults store.new)) }
    ensures calls { BeginsInTurn (S.files store.old) (command_meant command.entry)
        (calls_told (S.calls store.old) (S.calls store.new)) (has_read_fault result) }
{
    match command {
        Command::Sample { balls } => read_sample(alloc, balls),
        _ => read_files(alloc, store, command),
    }
}
