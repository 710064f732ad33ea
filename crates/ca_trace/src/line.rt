ghost use Rattle.std.specs.Prelude.{◌≡◌, ◌++◌, IfOk, OnOk, OnErr};
ghost use Rattle.std.specs.Str.{bytes_eq};
ghost use Rattle.ca_trace_print.specs.Words.{led, words};
ghost use Rattle.ca_trace.specs.Lines.{answer_line_words, line_text};

use crate::answer::{put_answer, put_completion};
use crate::entry::{put_event, put_stamp};
use crate::mark::put_mark;
use ca_base::{Completion, Memory};
use ca_model::{Answer, Event, Mark, Verb};
use ca_trace_print::{Text, put_call};
use std::alloc::Global;

/// What the line of a call tells of its answer: all of it, or how many completions a poll gave, which have lines of
/// their own.
#[derive(Drop)]
pub enum Told {
    Whole(Answer),
    Polled(u8),
}

/// One line of the text of a history.
#[derive(Drop)]
pub enum Line {
    /// The line of an entry of a turn.
    Turn {
        stamp: u64,
        pass: u32,
        event: Event,
    },
    /// The line of an entry of a verb, with its answer.
    Call {
        stamp: u64,
        pass: u32,
        by: u32,
        verb: Verb,
        told: Told,
    },
    /// A completion that a poll gave.
    Got(Completion),
    /// A mark that is no answer.
    Mark(Mark),
    /// The last line, which tells how many entries there are.
    End(u64),
}

/// Appends a line, without its line feed. `Memory` leaves the output as it was.
pub fn print_line(line: &Line, out: &mut Vec<u8>) -> Result<(), Memory>
    ensures ok { OnOk result (out.new.items ≡ out.old.items ++ line_text line.now) }
    ensures err { OnErr result (out.new.items ≡ out.old.items) }
{
    let mut text = Text::new(*out.allocator())?;
    put_line(&mut text, line)?;
    out.extend_from_slice(text.as_bytes())?;
    Ok(())
}

/// Whether a line prints as this text, without its line feed.
pub fn prints_as(alloc: Global, line: &Line, text: &[u8]) -> Result<bool, Memory>
    ensures { IfOk result (λ same. same ≡ bytes_eq (line_text line.now) text.now) }
{
    let mut printed = Text::new(alloc)?;
    put_line(&mut printed, line)?;
    Ok(printed.as_bytes() == text)
}

/// Adds a line, without its line feed.
fn put_line(text: &mut Text, line: &Line) -> Result<(), Memory>
    ensures ok { OnOk result (text.new ≡ text.old ++ line_text line.now) }
{
    match line {
        Line::Turn { stamp, pass, event } => {
            put_stamp(text, *stamp, *pass)?;
            put_event(text, event)
        }
        Line::Call {
            stamp,
            pass,
            by,
            verb,
            told,
        } => {
            put_stamp(text, *stamp, *pass)?;
            text.put_byte(b' ')?;
            put_call(text, *by, verb)?;
            put_told(text, told)
        }
        Line::Got(completion) => {
            text.put_words(("got",))?;
            put_completion(text, completion)
        }
        Line::Mark(mark) => put_mark(text, mark),
        Line::End(count) => text.put(format_args!("end {count}")),
    }
}

/// Adds what the line of a call tells of its answer, each word after a space.
fn put_told(text: &mut Text, told: &Told) -> Result<(), Memory>
    ensures ok { OnOk result (text.new ≡ text.old ++ led 32 (words (answer_line_words told.now))) }
{
    match told {
        Told::Whole(answer) => put_answer(text, answer),
        Told::Polled(count) => text.put_words(("->", "polled", count)),
    }
}
