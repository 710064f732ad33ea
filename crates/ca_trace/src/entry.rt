ghost use Rattle.std.specs.Prelude.{◌≡◌, ◌∷◌, [], ◌++◌, OnOk, OnErr};
ghost use Rattle.std.specs.Int.{w32, w64};
ghost use Rattle.std.specs.List.{flat_map};
ghost use Rattle.ca_model.specs.Entries.{entry_of};
ghost use Rattle.ca_trace_print.specs.Words.{Lettered, joined, led, words};
ghost use Rattle.ca_trace.specs.Table.{event_words};
ghost use Rattle.ca_trace.specs.Trace.{entry_text, marks_text, mark_text, reply_text};

use crate::answer::{put_answer, put_got_lines};
use crate::mark::put_mark;
use ca_base::Memory;
use ca_model::{Entry, Event, Mark};
use ca_trace_print::{Text, alarm, put_call};

/// Appends the lines of an entry, each with its line feed. `Memory` leaves the output as it was.
pub fn print(e: &Entry, out: &mut Vec<u8>) -> Result<(), Memory>
    ensures ok { OnOk result (out.new.items ≡ out.old.items ++ entry_text (entry_of e.now)) }
    ensures err { OnErr result (out.new.items ≡ out.old.items) }
{
    let mut text = Text::new(*out.allocator())?;
    put_entry(&mut text, e)?;
    out.extend_from_slice(text.as_bytes())?;
    Ok(())
}

/// Appends a reply: a verb's answer with its call and the completions that it gave, and any other mark as its line, each
/// line with its line feed. `Memory` leaves the output as it was.
pub fn print_reply(m: &Mark, out: &mut Vec<u8>) -> Result<(), Memory>
    ensures ok { OnOk result (out.new.items ≡ out.old.items ++ reply_text m.now) }
    ensures err { OnErr result (out.new.items ≡ out.old.items) }
{
    let mut text = Text::new(*out.allocator())?;
    put_reply(&mut text, m)?;
    out.extend_from_slice(text.as_bytes())?;
    Ok(())
}

fn put_reply(text: &mut Text, m: &Mark) -> Result<(), Memory>
    ensures ok { OnOk result (text.new ≡ text.old ++ reply_text m.now) }
{
    match m {
        Mark::Verb { by, verb, answer } => {
            put_call(text, *by, verb)?;
            put_answer(text, answer)?;
            text.put_byte(b'\n')?;
            put_got_lines(text, answer)
        }
        _ => put_mark_line(text, m),
    }
}

fn put_entry(text: &mut Text, e: &Entry) -> Result<(), Memory>
    ensures ok { OnOk result (text.new ≡ text.old ++ entry_text (entry_of e.now)) }
{
    put_stamp(text, e.stamp, e.pass)?;
    put_event(text, &e.event)?;
    put_marks(text, e.marks.as_slice())
}

/// Adds the stamp and the pass of an entry.
pub fn put_stamp(text: &mut Text, stamp: u64, pass: u32) -> Result<(), Memory>
    ensures ok { OnOk result (text.new
        ≡ text.old ++ joined 32 (words (Lettered 64 w64 stamp ∷ Lettered 112 w32 pass ∷ []))) }
{
    text.put_number(b'@', stamp)?;
    text.put_byte(b' ')?;
    text.put_number(b'p', u64::from(pass))
}

/// Adds the words of an event, each after a space.
pub fn put_event(text: &mut Text, event: &Event) -> Result<(), Memory>
    ensures ok { OnOk result (text.new ≡ text.old ++ led 32 (words (event_words event.now))) }
{
    match event {
        Event::Verb { by, verb } => {
            text.put_byte(b' ')?;
            put_call(text, *by, verb)
        }
        Event::Request { queue, lot } => text.put_words(("request", queue, lot)),
        Event::Deliver { queue, index } => text.put_words(("deliver", queue, index)),
        Event::Respond { queue, lot } => text.put_words(("respond", queue, lot)),
        Event::Timeout { queue, hasten } => {
            let alarm = alarm(!*hasten);
            text.put_words(("timeout", queue, alarm))
        }
        Event::RnrWake { queue } => text.put_words(("wake", queue)),
    }
}

/// Adds what stands behind the words of the event: the answer, where one is in front, and the other marks.
fn put_marks(text: &mut Text, marks: &[Mark]) -> Result<(), Memory>
    ensures ok { OnOk result (text.new ≡ text.old ++ marks_text marks.now) }
{
    match marks {
        [Mark::Verb { answer, .. }, others @ ..] => {
            put_answer(text, answer)?;
            text.put_byte(b'\n')?;
            put_got_lines(text, answer)?;
            put_mark_lines(text, others)
        }
        _ => {
            text.put_byte(b'\n')?;
            put_mark_lines(text, marks)
        }
    }
}

fn put_mark_lines(text: &mut Text, marks: &[Mark]) -> Result<(), Memory>
    ensures ok { OnOk result (text.new ≡ text.old ++ flat_map mark_text marks.now) }
{
    for mark in marks {
        put_mark_line(text, mark)?;
    }
    Ok(())
}

fn put_mark_line(text: &mut Text, mark: &Mark) -> Result<(), Memory>
    ensures ok { OnOk result (text.new ≡ text.old ++ mark_text mark.now) }
{
    put_mark(text, mark)?;
    text.put_byte(b'\n')
}
