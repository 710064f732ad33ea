ghost use Rattle.std.specs.Prelude.{◌≡◌, ◌++◌, length, take, OnOk, OnErr};
ghost use Rattle.ca_trace_output.specs.Text.{alone_text};

use ca_base::Memory;
use ca_model::Mark;
use ca_trace::print_reply;

/// Appends the line `alone` and the replies, each with its line feeds. `Memory` leaves the output as it was.
pub fn print_replies(replies: &[Mark], out: &mut Vec<u8>) -> Result<(), Memory>
    ensures ok { OnOk result (out.new.items ≡ out.old.items ++ alone_text replies.now) }
    ensures err { OnErr result (out.new.items ≡ out.old.items) }
{
    let before = out.len();
    match put_replies(replies, out) {
        Ok(()) => Ok(()),
        Err(memory) => {
            out.truncate(before);
            Err(memory)
        }
    }
}

fn put_replies(replies: &[Mark], out: &mut Vec<u8>) -> Result<(), Memory>
    ensures ok { OnOk result (out.new.items ≡ out.old.items ++ alone_text replies.now) }
    ensures front { OnErr result (take (length out.old.items) out.new.items ≡ out.old.items) }
{
    out.extend_from_slice(b"alone\n")?;
    for reply in replies {
        print_reply(reply, out)?;
    }
    Ok(())
}
