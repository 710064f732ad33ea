ghost use Rattle.std.specs.Prelude.{◌≡◌, ◌≢◌, ◌⊎◌, ◌+◌, ◌<◌, ℕ, IfSome, Err, true, false};
ghost use Rattle.std.specs.Io.KnownBytes.{Appends};
ghost use Rattle.ca_outside.specs.Outside.{AppendsPart, LosesAtMost, Rose};
ghost use Rattle.ca_run.specs.Run.{Wrote, WroteFront};
ghost use Rattle.ca_run.specs.Status.{is_whole, writes};
ghost use Rattle.ca_run.specs.declared.status.Status.TheVariants as statuses;
ghost use Rattle.ca_script.specs.Script.{script_of};
ghost use Rattle.ca_script_lex.specs.declared.cause.ScriptCause.{ScriptCause};
ghost use Rattle.ca_run_command.specs.declared.command.Command.TheVariants as commands;

use crate::reading::script_from;
use crate::status::Status;
use crate::working::race;
use ca_base::limits::MAX_SCRIPT_BYTES;
use ca_outside::{Gate, Sink, Source};
use ca_trace_output::write_history;
use std::alloc::Global;
use std::sync::Wait;
use std::thread::Threads;

/// Reads a script to the end of the source, races it with so many workers, and writes the text of its history. It may wait.
pub(crate) fn run_race<R: Threads + Wait + Sync, S: Source, K: Sink, G: Gate + Sync>(
    rt: &R,
    alloc: Global,
    workers: u32,
    source: &mut S,
    sink: &mut K,
    gate: &G,
) -> Status
    requires { 0 < workers }
    ensures whole { is_whole result ≡ true → Wrote (commands.Race workers) (S.left source.old) (S.left source.new) result
        (Appends (K.held sink.old) (K.held sink.new)) }
    ensures part { result ≡ statuses.WriteFault → WroteFront (commands.Race workers) (S.left source.old) (S.left source.new)
        (AppendsPart (K.held sink.old) (K.held sink.new)) }
    ensures memory { result ≡ statuses.Memory → (sink.new ≡ sink.old)
        ⊎ WroteFront (commands.Race workers) (S.left source.old) (S.left source.new)
        (AppendsPart (K.held sink.old) (K.held sink.new)) }
    ensures unwritten { writes result ≡ false → sink.new ≡ sink.old }
    ensures loses { LosesAtMost (MAX_SCRIPT_BYTES + 1) (S.left source.old) (S.left source.new) }
    ensures script { (line : ℕ) (cause : ScriptCause) → result ≡ statuses.Script line cause →
        IfSome (S.left source.old) (λ bytes. script_of bytes ≡ Err (line, cause)) }
    ensures read_fault { result ≡ statuses.ReadFault → Rose (S.faults source.old) (S.faults source.new) }
    ensures no_read_fault { result ≢ statuses.ReadFault → S.faults source.new ≡ S.faults source.old }
    ensures write_fault { result ≡ statuses.WriteFault → Rose (K.faults sink.old) (K.faults sink.new) }
    ensures no_write_fault { result ≢ statuses.WriteFault → K.faults sink.new ≡ K.faults sink.old }
    ensures no_usage { result ≢ statuses.Usage }
{
    let script = match script_from(alloc, source) {
        Ok(script) => script,
        Err(status) => return status,
    };
    let Ok(worked) = race(rt, alloc, script, workers, gate) else {
        return Status::Memory;
    };
    match write_history(alloc, &worked.history, sink) {
        Ok(()) => Status::from(worked.status),
        Err(stop) => Status::from(stop),
    }
}
