ghost use Rattle.std.specs.Prelude.{◌≡◌, ◌<◌, ◌+◌, length, drop, ◌∷◌, [], ◌++◌, List, true, false, MatchOption, IfOk, IfErr, OnErr, OnOk};
ghost use Rattle.ca_model.specs.Entries.{EntryValue};
ghost use Rattle.ca_trace_read_fits.specs.Histories.{HistoryFits};
ghost use Rattle.ca_trace_read.specs.Steps as steps;
ghost use Rattle.ca_trace_read.specs.Steps.{is_over};
ghost use Rattle.ca_trace_read.specs.Outside.{is_one_line};
ghost use Rattle.ca_trace_read.specs.Reader.{IsReached, TakesInto, IsCause, IsRefusedRight, IsReadAs};
ghost use Rattle.ca_trace_read.specs.declared.error.TraceError.TheVariants as errors;
ghost use Rattle.ca_trace.specs.Trace.{text};

use crate::error::TraceError;
use crate::reader::TraceReader;
use ca_base::Memory;
use ca_model::History;
use ca_trace::print_history;
use ca_trace_lex::place_of;
use ca_trace_read_fits::history_fits;
use std::alloc::Global;

/// The line feed.
const LINE_FEED: u8 = b'\n';

/// What stands behind a place.
fn behind(place: usize, text: &[u8]) -> &[u8]
    requires { place < length text.now }
    ensures { result.now ≡ drop (place + 1) text.now }
{
    &text[place + 1..]
}

/// The first line, and what stands behind its line feed; none where no line feed is left.
fn first_line(text: &[u8]) -> Option<(&[u8], &[u8])>
    ensures { MatchOption result (is_one_line text.now ≡ true)
        (λ cut. (text.now ≡ cut.0.now ++ 10 ∷ cut.1.now) × (is_one_line cut.0.now ≡ true)) }
{
    match place_of(LINE_FEED, text) {
        Some(place) => Some((&text[..place], behind(place, text))),
        None => None,
    }
}

/// Takes a line, and adds the entry that it shows to be complete to those that came before.
fn take_line(
    alloc: Global,
    reader: &mut TraceReader,
    history: &mut History,
    line: &[u8],
) -> Result<(), TraceError>
    requires { IsReached reader.old history.old }
    ensures taken { OnOk result (TakesInto reader.old history.old line.now reader.new history.new) }
    ensures cause { IfErr result (IsCause reader.old line.now) }
{
    match reader.line(alloc, line)? {
        Some(entry) => history.push(entry)?,
        None => {}
    }
    Ok(())
}

/// Whether a text ends behind its lines.
fn end_of_text(reader: &TraceReader, rest: &[u8]) -> Result<(), TraceError>
    ensures whole { OnOk result (rest.now ≡ []) }
    ensures over { OnOk result (reader.now.reading.stage ≡ steps.Over) }
    ensures refused { IfErr result (λ e. e ≡ errors.Refused reader.now.next) }
    ensures going { OnErr result (rest.now ≡ [] → is_over reader.now.reading.stage ≡ false) }
{
    if rest.is_empty() {
        reader.finish()
    } else {
        Err(reader.refusal())
    }
}

/// Reads the text of a history. `Refused` has the number, from 1, of the first line outside the grammar: where a text stops
/// before its last line it is the line behind those that are there, and so is one without a line feed.
pub fn read(alloc: Global, bytes: &[u8]) -> Result<History, TraceError>
    ensures found { IfOk result (λ h. bytes.now ≡ text h) }
    ensures fits { IfOk result HistoryFits }
    ensures only { (es : List EntryValue) → HistoryFits es → bytes.now ≡ text es → IsReadAs es result }
    ensures refused { IfErr result (IsRefusedRight bytes.now) }
{
    let mut reader = TraceReader::start();
    let mut history = History::empty(alloc);
    let mut rest = bytes;
    'lines: loop {
        match first_line(rest) {
            Some((line, more)) => {
                if let Err(error) = take_line(alloc, &mut reader, &mut history, line) {
                    return Err(error);
                }
                rest = more;
            }
            None => {
                if let Err(error) = end_of_text(&reader, rest) {
                    return Err(error);
                }
                return Ok(history);
            }
        }
    }
}

/// A history is printed, and read again from its text: what is read is this history.
pub fn read_back(alloc: Global, history: &History) -> Result<History, Memory>
    ensures { IfOk result (λ h. h ≡ history.now) }
{
    history_fits(history);
    let mut text = Vec::new(alloc);
    print_history(history, &mut text)?;
    match read(alloc, text.as_slice()) {
        Ok(read) => Ok(read),
        Err(TraceError::Memory) => Err(Memory),
        Err(TraceError::Refused(_)) => unreachable!(),
    }
}
