ghost use Rattle.std.specs.Prelude.{◌≡◌, ◌≢◌, ◌++◌, Err, List, ℕ, OnErr, OnOk};
ghost use Rattle.std.specs.Io.KnownBytes.{Appends};
ghost use Rattle.ca_outside.specs.Outside.{AppendsPart, HasCause, Rose};
ghost use Rattle.ca_trace.specs.Trace.{end_text, text};
ghost use Rattle.ca_trace_output.specs.declared.stop.WriteStop.TheVariants as stops;

use crate::stop::WriteStop;
use ca_base::Memory;
use ca_model::History;
use ca_outside::{Failed, Sink, write_all};
use ca_trace::{Line, print, print_line};
use std::alloc::Global;

/// How many bytes wait at least before they are written.
const BLOCK: usize = 65_536;

/// Writes the text of a history: the lines of all entries in order, and the line that tells how many there are.
pub fn write_history<K: Sink>(alloc: Global, h: &History, sink: &mut K) -> Result<(), WriteStop>
    ensures ok { OnOk result (Appends (K.held sink.old) (K.held sink.new) (text h.now)) }
    ensures err { OnErr result (AppendsPart (K.held sink.old) (K.held sink.new) (text h.now)) }
    ensures fault { result ≡ Err stops.Failed → Rose (K.faults sink.old) (K.faults sink.new) }
    ensures no_fault { result ≢ Err stops.Failed → K.faults sink.new ≡ K.faults sink.old }
{
    let mut waiting = Vec::new(alloc);
    let entries = h.as_slice();
    for entry in entries {
        print(entry, &mut waiting)?;
        pass_on(sink, &mut waiting)?;
    }
    print_end(entries.len(), &mut waiting)?;
    write_all(sink, &waiting)?;
    Ok(())
}

/// Writes the text of a history, and these bytes behind it.
pub fn write_history_with<K: Sink>(
    alloc: Global,
    h: &History,
    behind: &[u8],
    sink: &mut K,
) -> Result<(), WriteStop>
    ensures ok { OnOk result (Appends (K.held sink.old) (K.held sink.new) (text h.now ++ behind.now)) }
    ensures err { OnErr result (AppendsPart (K.held sink.old) (K.held sink.new) (text h.now ++ behind.now)) }
    ensures fault { result ≡ Err stops.Failed → Rose (K.faults sink.old) (K.faults sink.new) }
    ensures no_fault { result ≢ Err stops.Failed → K.faults sink.new ≡ K.faults sink.old }
{
    write_history(alloc, h, sink)?;
    write_all(sink, behind)?;
    Ok(())
}

/// Writes what waits where it is a block or more, and else leaves it.
fn pass_on<K: Sink>(sink: &mut K, waiting: &mut Vec<u8>) -> Result<(), Failed>
    ensures ok { OnOk result ((front : List ℕ) × (waiting.old.items ≡ front ++ waiting.new.items)
        × Appends (K.held sink.old) (K.held sink.new) front) }
    ensures err { OnErr result (AppendsPart (K.held sink.old) (K.held sink.new) waiting.old.items) }
    ensures cause { HasCause (K.faults sink.old) (K.faults sink.new) result }
{
    if waiting.len() < BLOCK {
        return Ok(());
    }
    write_all(sink, waiting)?;
    waiting.clear();
    Ok(())
}

/// Adds the line that tells how many entries there are.
fn print_end(count: usize, out: &mut Vec<u8>) -> Result<(), Memory>
    ensures { OnOk result (out.new.items ≡ out.old.items ++ end_text count) }
{
    print_line(&Line::End(count as u64), out)?;
    out.push(b'\n')?;
    Ok(())
}
