ghost use Rattle.std.specs.Prelude.{◌≡◌, ◌≢◌, ◌⊎◌, ◌+◌, ℕ, IfSome, Err, true, false};
ghost use Rattle.std.specs.Io.KnownBytes.{Appends};
ghost use Rattle.ca_outside.specs.Outside.{AppendsPart, LosesAtMost, Rose};
ghost use Rattle.ca_run.specs.Beside.{status_beside, text_beside};
ghost use Rattle.ca_run.specs.Run.{Wrote, WroteFront};
ghost use Rattle.ca_run.specs.Status.{is_whole, writes};
ghost use Rattle.ca_run.specs.declared.status.Status.TheVariants as statuses;
ghost use Rattle.ca_script.specs.Script.{script_of};
ghost use Rattle.ca_script_lex.specs.declared.cause.ScriptCause.{ScriptCause};
ghost use Rattle.ca_run_command.specs.declared.command.Command.TheVariants as commands;

use crate::reading::script_from;
use crate::status::Status;
use crate::working::work_beside;
use ca_base::DomainId;
use ca_base::limits::MAX_SCRIPT_BYTES;
use ca_outside::{Sink, Source};
use ca_run_alone::{Lone, Outcome};
use ca_trace_output::{write_history, write_history_with};
use std::alloc::Global;

/// Reads a script to the end of the source, works it, and writes the text of its history; behind it the replies of the group's
/// lone run, where the group is closed.
pub(crate) fn run_alone<S: Source, K: Sink>(
    alloc: Global,
    group: &[DomainId],
    source: &mut S,
    sink: &mut K,
) -> Status
    ensures whole { is_whole result ≡ true → Wrote (commands.Alone group.now) (S.left source.old) (S.left source.new) result
        (Appends (K.held sink.old) (K.held sink.new)) }
    ensures part { result ≡ statuses.WriteFault → WroteFront (commands.Alone group.now) (S.left source.old) (S.left source.new)
        (AppendsPart (K.held sink.old) (K.held sink.new)) }
    ensures memory { result ≡ statuses.Memory → (sink.new ≡ sink.old)
        ⊎ WroteFront (commands.Alone group.now) (S.left source.old) (S.left source.new)
        (AppendsPart (K.held sink.old) (K.held sink.new)) }
    ensures unwritten { writes result ≡ false → sink.new ≡ sink.old }
    ensures loses { LosesAtMost (MAX_SCRIPT_BYTES + 1) (S.left source.old) (S.left source.new) }
    ensures script { (line : ℕ) (cause : ScriptCause) → result ≡ statuses.Script line cause →
        IfSome (S.left source.old) (λ bytes. script_of bytes ≡ Err (line, cause)) }
    ensures read_fault { result ≡ statuses.ReadFault → Rose (S.faults source.old) (S.faults source.new) }
    ensures no_read_fault { result ≢ statuses.ReadFault → S.faults source.new ≡ S.faults source.old }
    ensures write_fault { result ≡ statuses.WriteFault → Rose (K.faults sink.old) (K.faults sink.new) }
    ensures no_write_fault { result ≢ statuses.WriteFault → K.faults sink.new ≡ K.faults sink.old }
    ensures no_usage { result ≢ statuses.Usage }
{
    let script = match script_from(alloc, source) {
        Ok(script) => script,
        Err(status) => return status,
    };
    match work_beside(alloc, script, group) {
        Ok(lone) => write_lone(alloc, &lone, sink),
        Err(_) => Status::Memory,
    }
}

/// Writes what came of a script, and of a group beside it.
fn write_lone<K: Sink>(alloc: Global, lone: &Lone, sink: &mut K) -> Status
    ensures whole { is_whole result ≡ true → (result ≡ status_beside lone.now)
        × Appends (K.held sink.old) (K.held sink.new) (text_beside lone.now) }
    ensures part { is_whole result ≡ false → AppendsPart (K.held sink.old) (K.held sink.new) (text_beside lone.now) }
    ensures kinds { is_whole result ≡ false → (result ≡ statuses.WriteFault) ⊎ (result ≡ statuses.Memory) }
    ensures write_fault { result ≡ statuses.WriteFault → Rose (K.faults sink.old) (K.faults sink.new) }
    ensures no_write_fault { result ≢ statuses.WriteFault → K.faults sink.new ≡ K.faults sink.old }
{
    let written = match &lone.outcome {
        Outcome::NotClosed(_) => write_history(alloc, &lone.history, sink),
        Outcome::Replies(replies) => {
            write_history_with(alloc, &lone.history, replies.as_slice(), sink)
        }
    };
    match written {
        Ok(()) => status_of(lone),
        Err(stop) => Status::from(stop),
    }
}

/// The status of what came of a script, and of a group beside it, where all is written.
fn status_of(lone: &Lone) -> Status
    ensures { result ≡ status_beside lone.now }
{
    match lone.outcome {
        Outcome::NotClosed(queue) => Status::NotClosed(queue),
        Outcome::Replies(_) => Status::from(lone.status),
    }
}
