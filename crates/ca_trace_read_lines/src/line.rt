ghost use Rattle.std.specs.Prelude.{◌≡◌, ◌≢◌, ◌∷◌, true, false, IfOk, IfErr, IfNone, IfSome};
ghost use Rattle.std.specs.Str.{bytes_eq};
ghost use Rattle.ca_trace_lex.specs.Words.{Gives};
ghost use Rattle.ca_trace_lex.specs.declared.stop.Stop.TheVariants as stops;
ghost use Rattle.ca_trace.specs.Lines.{line_text};
ghost use Rattle.ca_trace_read_lines.specs.Fits.{LineFits};
ghost use Rattle.ca_trace_read_lines.specs.Reading as reading;
ghost use Rattle.ca_trace.specs.declared.line.Line as kinds;
ghost use Rattle.ca_trace_read_lines.specs.Calls as calls;

use crate::answer::{answer_at, completion_at};
use crate::mark::mark_at;
use ca_base::{Lot, QueueId};
use ca_model::Event;
use ca_trace::{Line, prints_as};
use ca_trace_lex::{
    Pieces, Stop, is_name, lettered_u32_in, lettered_u64_in, take_alarm, take_lettered_u32,
};
use ca_trace_read_verbs::verb_at;
use std::alloc::Global;

/// A turn, by its name.
#[tactic(auto, unfolding(crate::specs::Reading::turn_at))]
fn turn_at(name: &[u8], words: &mut Pieces) -> Result<Event, Stop>
    ensures { Gives result (reading.turn_at name.now words.old) }
{
    if is_name(name, "request") {
        let queue = words.take::<QueueId>()?;
        let lot = words.take::<Lot>()?;
        Ok(Event::Request { queue, lot })
    } else if is_name(name, "respond") {
        let queue = words.take::<QueueId>()?;
        let lot = words.take::<Lot>()?;
        Ok(Event::Respond { queue, lot })
    } else if is_name(name, "deliver") {
        let queue = words.take::<QueueId>()?;
        let index = words.take::<u64>()?;
        Ok(Event::Deliver { queue, index })
    } else if is_name(name, "timeout") {
        let queue = words.take::<QueueId>()?;
        let silent = take_alarm(words)?;
        Ok(Event::Timeout {
            queue,
            hasten: !silent,
        })
    } else if is_name(name, "wake") {
        let queue = words.take::<QueueId>()?;
        Ok(Event::RnrWake { queue })
    } else {
        Err(Stop::Outside)
    }
}

/// Whether a word names a consumer.
fn is_consumer(word: &[u8]) -> bool
    ensures { result ≡ reading.is_consumer word.now }
{
    match word {
        [] => false,
        [first, ..] => *first == b'c',
    }
}

/// The line of a call, behind its stamp and its pass.
#[tactic(auto, unfolding(crate::specs::Calls::call_at))]
fn call_at(
    alloc: Global,
    stamp: u64,
    pass: u32,
    name: &[u8],
    words: &mut Pieces,
) -> Result<Line, Stop>
    ensures { Gives result (calls.call_at stamp pass name.now words.old) }
{
    let by = lettered_u32_in(name)?;
    let verb = verb_at(alloc, words)?;
    let _ = words.take_word()?;
    let told = answer_at(alloc, words)?;
    Ok(Line::Call {
        stamp,
        pass,
        by,
        verb,
        told,
    })
}

/// The first line of an entry, behind its first word.
#[tactic(auto, unfolding(crate::specs::Reading::head_at, crate::specs::Calls::call_at))]
fn head_at(alloc: Global, first: &[u8], words: &mut Pieces) -> Result<Line, Stop>
    ensures { Gives result (reading.head_at (first.now ∷ words.old)) }
{
    let stamp = lettered_u64_in(first)?;
    let pass = take_lettered_u32(words)?;
    let name = words.take_word()?;
    if is_consumer(name) {
        return call_at(alloc, stamp, pass, name, words);
    }
    let event = turn_at(name, words)?;
    Ok(Line::Turn { stamp, pass, event })
}

/// A line behind an empty first word.
#[tactic(auto, unfolding(crate::specs::Reading::inner_at))]
fn inner_at(alloc: Global, words: &mut Pieces) -> Result<Line, Stop>
    ensures { Gives result (reading.inner_at words.old) }
{
    let name = words.take_word()?;
    if is_name(name, "got") {
        return Ok(Line::Got(completion_at(words)?));
    }
    Ok(Line::Mark(mark_at(alloc, name, words)?))
}

/// A line.
#[tactic(auto, unfolding(crate::specs::Reading::line_at), using(ca_trace_lex::proofs::ListLemmas::next_is))]
fn line_at(alloc: Global, words: &mut Pieces) -> Result<Line, Stop>
    ensures { Gives result (reading.line_at words.old) }
{
    let first = words.take_word()?;
    if is_name(first, "") {
        return inner_at(alloc, words);
    }
    if is_name(first, "end") {
        return Ok(Line::End(words.take::<u64>()?));
    }
    head_at(alloc, first, words)
}

/// Why what was read is not the line of this text, if it is not: it prints as another one, or memory ran out.
fn stop_of(alloc: Global, line: &Line, text: &[u8]) -> Option<Stop>
    ensures same { IfNone result (bytes_eq (line_text line.now) text.now ≡ true) }
    ensures differs { IfSome result (λ stop. stop ≡ stops.Outside → bytes_eq (line_text line.now) text.now ≡ false) }
{
    match prints_as(alloc, line, text) {
        Ok(true) => None,
        Ok(false) => Some(Stop::Outside),
        Err(_) => Some(Stop::Memory),
    }
}

/// The line that prints as this text.
#[tactic(auto, unfolding(crate::specs::Calls::exact_in))]
fn exact_line(alloc: Global, text: &[u8]) -> Result<Line, Stop>
    ensures exact { Gives result (calls.exact_in text.now) }
    ensures found { IfOk result (λ line. text.now ≡ line_text line) }
{
    let mut words = Pieces::of(b' ', text);
    let line = line_at(alloc, &mut words)?;
    match stop_of(alloc, &line, text) {
        None => Ok(line),
        Some(stop) => Err(stop),
    }
}

/// The line that prints as this text. `Outside` comes exactly where no line that may stand in a trace does.
pub fn read_line(alloc: Global, text: &[u8]) -> Result<Line, Stop>
    ensures exact { Gives result (calls.exact_in text.now) }
    ensures found { IfOk result (λ line. text.now ≡ line_text line) }
    ensures outside { IfErr result (λ stop. stop ≡ stops.Outside → (line : kinds.Line) → LineFits line
        → text.now ≢ line_text line) }
{
    exact_line(alloc, text)
}
