// A run as a whole.
ghost use Rattle.std.specs.Prelude.{◌≡◌, ◌↔◌, ◌⊎◌, Some, None, map};
ghost use Rattle.std.specs.String.{string_bytes};
ghost use Rattle.tl_outside.specs.Causes.{Rose};
ghost use Rattle.tl_run.specs.Commands.{ForCommand, command_in};
ghost use Rattle.tl_run.specs.Promises.{AnswersRightly, Writes};
ghost use Rattle.tl_run.specs.Replies.{HasLines, Sends};
ghost use Rattle.tl_run.specs.Sent.{sink_told};
ghost use Rattle.tl_run.specs.Stops.{is_read_fault};
ghost use Rattle.tl_run.specs.Turns.{BeginsInTurn, LacksFile, calls_told};

use crate::laws::laws;
use crate::reply::{Reply, reply_to};
use crate::status::Status;
use crate::words::command_of;
use std::alloc::Global;
use tl_outside::{Sink, Store, write_whole};

/// Sends the lines of a reply, and answers how the run ends.
fn send<K: Sink>(out: &mut K, reply: &Reply) -> Status
    requires { HasLines reply.now.status }
    ensures sent { Sends (sink_told (K.bytes out.old) (K.puts out.old))
        (sink_told (K.bytes out.new) (K.puts out.new)) reply.now.status reply.now.text result }
    ensures fault { result ≡ Status.WriteFault → Rose (K.faults out.old) (K.faults out.new) }
{
    match write_whole(out, reply.text.as_slice()) {
        Ok(()) => reply.status,
        Err(_) => Status::WriteFault,
    }
}

/// Runs the command of these words, which are those after the program's name.
pub fn run<S: Store, K: Sink>(alloc: Global, words: &[String], store: &mut S, out: &mut K) -> Status
    ensures usage { (result ≡ Status.Usage) ↔ (command_in (map string_bytes words.now) ≡ None) }

    // Wrong words leave the store and the sink untouched.
    ensures untouched { result ≡ Status.Usage → (store.new ≡ store.old) × (out.new ≡ out.old) }

    // A file is begun only in its turn, by its name, after those before it have passed; and a call
    // of the store that fails is its last, and the answer a read fault.
    ensures calls { ForCommand (map string_bytes words.now) (λ c.
        BeginsInTurn (S.files store.old) c (calls_told (S.calls store.old) (S.calls store.new)) (is_read_fault result)) }
    ensures read_fault { ForCommand (map string_bytes words.now) (λ c. result ≡ Status.ReadFault
        → LacksFile (S.files store.old) c ⊎ Rose (S.faults store.old) (S.faults store.new)) }
    ensures write_fault { result ≡ Status.WriteFault → Rose (K.faults out.old) (K.faults out.new) }

    // What is written is an answer that the files allow, and the headline holds of it: all of its
    // text, or, where a call of the sink fails, a front part, and then nothing more. Where the
    // store tells its files, each answer that they allow is this one, but for those that give way
    // to it by a cause of its own (`exact`). Where nothing past range is looked at, and a search
    // may keep all search nodes that it meets, this is neither an operation past range nor a search
    // that was spent; of a sample it is enough that its two texts break no rule and have no
    // arithmetic term (`calm`).
    ensures answers { ForCommand (map string_bytes words.now) (λ c.
        Writes (AnswersRightly (S.files store.old) c (calls_told (S.calls store.old) (S.calls store.new)))
        (sink_told (K.bytes out.old) (K.puts out.old)) (sink_told (K.bytes out.new) (K.puts out.new)) result) }
{
    laws();
    let Some(command) = command_of(words) else {
        return Status::Usage;
    };
    match reply_to(alloc, store, command) {
        Ok(reply) => send(out, &reply),
        Err(status) => status,
    }
}
