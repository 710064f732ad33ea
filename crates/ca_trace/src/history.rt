ghost use Rattle.std.specs.Prelude.{◌≡◌, ◌++◌, length, take, OnOk, OnErr};
ghost use Rattle.ca_trace.specs.Trace.{end_text, text};

use crate::entry::print;
use ca_base::Memory;
use ca_model::History;
use ca_trace_print::Text;

/// Appends the text of a history: the lines of all entries in order, and the line that tells how many there are.
/// `Memory` leaves the output as it was.
pub fn print_history(h: &History, out: &mut Vec<u8>) -> Result<(), Memory>
    ensures ok { OnOk result (out.new.items ≡ out.old.items ++ text h.now) }
    ensures err { OnErr result (out.new.items ≡ out.old.items) }
{
    let before = out.len();
    match put_history(h, out) {
        Ok(()) => Ok(()),
        Err(memory) => {
            out.truncate(before);
            Err(memory)
        }
    }
}

fn put_history(h: &History, out: &mut Vec<u8>) -> Result<(), Memory>
    ensures ok { OnOk result (out.new.items ≡ out.old.items ++ text h.now) }
    ensures front { OnErr result (take (length out.old.items) out.new.items ≡ out.old.items) }
{
    let entries = h.as_slice();
    for entry in entries {
        print(entry, out)?;
    }
    print_end(entries.len(), out)
}

fn print_end(count: usize, out: &mut Vec<u8>) -> Result<(), Memory>
    ensures ok { OnOk result (out.new.items ≡ out.old.items ++ end_text count) }
    ensures err { OnErr result (out.new.items ≡ out.old.items) }
{
    let mut text = Text::new(*out.allocator())?;
    text.put(format_args!("end {count}\n"))?;
    out.extend_from_slice(text.as_bytes())?;
    Ok(())
}
