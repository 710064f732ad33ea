ghost use Rattle.std.specs.Prelude.{◌≡◌, ◌≢◌, ℕ, List, Option, true};
ghost use Rattle.std.specs.Io.KnownBytes.{Appends};
ghost use Rattle.ca_outside.specs.Outside.{AppendsPart, Rose};
ghost use Rattle.ca_run.specs.Run.{Wrote, WroteFront};
ghost use Rattle.ca_run.specs.Status.{is_whole, may_end_made};
ghost use Rattle.ca_run.specs.declared.status.Status.TheVariants as statuses;
ghost use Rattle.ca_run_command.specs.declared.command.Command.TheVariants as commands;

use crate::status::Status;
use crate::working::work_made;
use ca_outside::{Sink, write_all};
use std::alloc::Global;

/// Works the script that is made of a seed, and writes the summary of its history.
pub(crate) fn run_make<K: Sink>(alloc: Global, seed: u64, sink: &mut K) -> Status
    ensures whole { is_whole result ≡ true → (left left' : Option (List ℕ)) → Wrote (commands.Make seed) left left' result
        (Appends (K.held sink.old) (K.held sink.new)) }
    ensures part { result ≡ statuses.WriteFault → (left left' : Option (List ℕ)) → WroteFront (commands.Make seed) left left'
        (AppendsPart (K.held sink.old) (K.held sink.new)) }
    ensures memory { result ≡ statuses.Memory → sink.new ≡ sink.old }
    ensures kinds { may_end_made result ≡ true }
    ensures write_fault { result ≡ statuses.WriteFault → Rose (K.faults sink.old) (K.faults sink.new) }
    ensures no_write_fault { result ≢ statuses.WriteFault → K.faults sink.new ≡ K.faults sink.old }
{
    let Ok(made) = work_made(alloc, seed) else {
        return Status::Memory;
    };
    match write_all(sink, &made.text) {
        Ok(()) => Status::from(made.ended),
        Err(_) => Status::WriteFault,
    }
}
