mod calls;
mod longest;
mod polls;
mod requests;

use arrayvec::ArrayVec;
use ca_base::{Memory, Piece};
use ca_model::{Answer, Entry, Event, Mark, Marks, Verb};
use std::alloc::Global;
use std::process::Abort;
use std::test::Fail;
use test_trace::{Row, line_of, lines_of, text_of};

// The text is these lines.
fn lines_are(rt: &impl Abort, text: &[u8], want: &str) {
    assert_eq!(rt; line_of(text), Some(want));
}

// These rows are these lines.
fn rows_are<R: Abort + AllocGlobal, T: Row>(rt: &R, rows: &[T], lines: &str) -> Result<(), Fail> {
    let text = lines_of(rt.alloc(), rows)?;
    lines_are(rt, text.as_slice(), lines);
    Ok(())
}

// A list of at most four pieces.
fn list_of(pieces: &[Piece]) -> ArrayVec<Piece, 4> {
    let mut list = ArrayVec::new();
    for piece in pieces {
        let _ = list.try_push(*piece);
    }
    list
}

fn event_of(by: u32, verb: &Verb) -> Result<Event, Memory> {
    let verb = verb.clone()?;
    Ok(Event::Verb { by, verb })
}

fn answer_of(by: u32, verb: &Verb, answer: &Answer) -> Result<Mark, Memory> {
    let verb = verb.clone()?;
    let answer = answer.clone()?;
    Ok(Mark::Verb { by, verb, answer })
}

fn marks_of(alloc: Global, by: u32, verb: &Verb, answer: &Answer) -> Result<Marks, Memory> {
    let mut marks = Marks::empty(alloc);
    marks.reserve(1)?;
    marks.push(answer_of(by, verb, answer)?);
    Ok(marks)
}

// The entry of a call that was answered so.
fn call_entry(
    alloc: Global,
    stamp: u64,
    by: u32,
    verb: &Verb,
    answer: &Answer,
) -> Result<Entry, Memory> {
    let marks = marks_of(alloc, by, verb, answer)?;
    let event = event_of(by, verb)?;
    Ok(Entry {
        stamp,
        pass: 0,
        event,
        marks,
    })
}

fn call_text(
    alloc: Global,
    stamp: u64,
    by: u32,
    verb: &Verb,
    answer: &Answer,
) -> Result<Vec<u8>, Memory> {
    let entry = call_entry(alloc, stamp, by, verb, answer)?;
    text_of(alloc, entry)
}

// The same of a call that its caller needs no more.
fn text_of_call(
    alloc: Global,
    stamp: u64,
    by: u32,
    verb: Verb,
    answer: Answer,
) -> Result<Vec<u8>, Memory> {
    call_text(alloc, stamp, by, &verb, &answer)
}

// The entry of a call that was answered so is this line.
fn call_is<R: Abort + AllocGlobal>(
    rt: &R,
    stamp: u64,
    by: u32,
    verb: Verb,
    answer: Answer,
    want: &str,
) -> Result<(), Fail> {
    let text = text_of_call(rt.alloc(), stamp, by, verb, answer)?;
    lines_are(rt, text.as_slice(), want);
    Ok(())
}

/// A call: its stamp, its consumer, its verb and the answer.
#[derive(Drop)]
struct Call(u64, u32, Verb, Answer);

impl Row for Call {
    fn text(&self, alloc: Global) -> Result<Vec<u8>, Memory> {
        let Call(stamp, by, verb, answer) = self;
        call_text(alloc, *stamp, *by, verb, answer)
    }
}
