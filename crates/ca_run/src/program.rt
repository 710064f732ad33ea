ghost use Rattle.std.specs.Prelude.{◌≡◌, ◌≢◌, ◌⊎◌, ◌+◌, ℕ, Err, None, Some, map, true, false, IfSome};
ghost use Rattle.std.specs.Io.KnownBytes.{Appends};
ghost use Rattle.std.specs.String.{string_bytes};
ghost use Rattle.ca_outside.specs.Outside.{Rose, LosesAtMost, AppendsPart};
ghost use Rattle.ca_run.specs.Run.{Wrote, WroteFront};
ghost use Rattle.ca_run.specs.Status.{is_whole, may_end_made, writes};
ghost use Rattle.ca_run.specs.declared.status.Status.TheVariants as statuses;
ghost use Rattle.ca_script.specs.Script.{script_of};
ghost use Rattle.ca_script_lex.specs.declared.cause.ScriptCause.{ScriptCause};
ghost use Rattle.ca_run_command.specs.Words.{command_in};
ghost use Rattle.ca_run_command.specs.declared.command.Command as words_of;
ghost use Rattle.ca_run_command.specs.declared.command.Command.TheVariants as commands;

use crate::alone::run_alone;
use crate::make::run_make;
use crate::race::run_race;
use crate::script::run_script;
use crate::status::Status;
use ca_base::limits::MAX_SCRIPT_BYTES;
use ca_outside::{Gate, Sink, Source};
use ca_run_command::{Command, WordsError, command_of};
use std::alloc::Global;
use std::sync::Wait;
use std::thread::Threads;

/// Does all that the program does: what the words behind its name command. A race may wait, and goes through the gate before
/// each call of a worker on the fabric; the other commands make no such call.
pub fn run<R: Threads + Wait + Sync, S: Source, K: Sink, G: Gate + Sync>(
    rt: &R,
    alloc: Global,
    words: &[String],
    source: &mut S,
    sink: &mut K,
    gate: &G,
) -> Status
    // Where the status says so, the command was worked, and the sink took its whole output.
    ensures whole { (command : words_of.Command) → command_in (map string_bytes words.now) ≡ Some command
        → is_whole result ≡ true → Wrote command (S.left source.old) (S.left source.new) result
        (Appends (K.held sink.old) (K.held sink.new)) }

    // After a fault of the sink it took a front of that output, and not all of it.
    ensures part { (command : words_of.Command) → command_in (map string_bytes words.now) ≡ Some command
        → result ≡ statuses.WriteFault → WroteFront command (S.left source.old) (S.left source.new)
        (AppendsPart (K.held sink.old) (K.held sink.new)) }

    // Where memory ended it is as it was, or took such a front.
    ensures memory { (command : words_of.Command) → command_in (map string_bytes words.now) ≡ Some command
        → result ≡ statuses.Memory → (sink.new ≡ sink.old)
        ⊎ WroteFront command (S.left source.old) (S.left source.new)
        (AppendsPart (K.held sink.old) (K.held sink.new)) }

    // All else leaves the sink as it was.
    ensures unwritten { writes result ≡ false → sink.new ≡ sink.old }

    // Words that are no command come to this, unless memory ends, and nothing is touched.
    ensures usage { result ≡ statuses.Usage → command_in (map string_bytes words.now) ≡ None }
    ensures no_command { command_in (map string_bytes words.now) ≡ None
        → ((result ≡ statuses.Usage) ⊎ (result ≡ statuses.Memory)) × (source.new ≡ source.old) × (sink.new ≡ sink.old) }

    // A script that is made is not read, and its run ends as its order does, or by a fault of the sink or want of memory.
    ensures made { (seed : ℕ) → command_in (map string_bytes words.now) ≡ Some (commands.Make seed)
        → may_end_made result ≡ true }
    ensures unread { (seed : ℕ) → command_in (map string_bytes words.now) ≡ Some (commands.Make seed)
        → source.new ≡ source.old }

    // Whatever the answer, no more of the source is lost than a script may have, and one byte.
    ensures loses { LosesAtMost (MAX_SCRIPT_BYTES + 1) (S.left source.old) (S.left source.new) }

    // The refused line is the first that is, with its first cause.
    ensures script { (line : ℕ) (cause : ScriptCause) → result ≡ statuses.Script line cause →
        IfSome (S.left source.old) (λ bytes. script_of bytes ≡ Err (line, cause)) }

    // A fault comes only where its count rose, and where it rose, a fault comes.
    ensures read_fault { result ≡ statuses.ReadFault → Rose (S.faults source.old) (S.faults source.new) }
    ensures no_read_fault { result ≢ statuses.ReadFault → S.faults source.new ≡ S.faults source.old }
    ensures write_fault { result ≡ statuses.WriteFault → Rose (K.faults sink.old) (K.faults sink.new) }
    ensures no_write_fault { result ≢ statuses.WriteFault → K.faults sink.new ≡ K.faults sink.old }
{
    match command_of(alloc, words) {
        Ok(Command::Script) => run_script(alloc, source, sink),
        Ok(Command::Race(workers)) => run_race(rt, alloc, workers, source, sink, gate),
        Ok(Command::Alone(group)) => run_alone(alloc, group.as_slice(), source, sink),
        Ok(Command::Make(seed)) => run_make(alloc, seed, sink),
        Err(WordsError::Usage) => Status::Usage,
        Err(WordsError::Memory) => Status::Memory,
    }
}
