ghost use Rattle.std.specs.Prelude.{IfSome};
ghost use Rattle.ca_adapter_store.specs.Rows.{IsRow};

mod events;
mod refusals;
mod rows;
mod turns;

use ca_adapter_opening::{fit_contents, is_limited};
use ca_adapter_store::Row;
use ca_base::{ActError, Bytes, Config, DomainId, Lot, Memory, QueueId, Reason, Slot};
use ca_model::{Contents, Entry, Event, Marks, Opening, Verb};
use ca_script::read_script;
use ca_trace::print;
use ca_trace_read::{TraceError, TraceReader};
use std::alloc::Global;
use std::process::Abort;

/// Buffers of zeros.
fn zeros(alloc: Global, config: &Config) -> Result<Contents, Memory> {
    let mut contents = Contents::empty(alloc);
    for adapter in config.adapters.as_slice() {
        for size in adapter.buffers.as_slice() {
            let bytes = vec![in alloc; 0u8; *size as usize]?;
            contents.push(Bytes::from(bytes))?;
        }
    }
    Ok(contents)
}

/// The text of an entry. What wants memory once is tried again.
fn text_of(alloc: Global, entry: &Entry) -> Vec<u8> {
    let mut text = Vec::new(alloc);
    if print(entry, &mut text).is_err() {
        let _ = print(entry, &mut text);
    }
    text
}

/// More entries than this are not made.
const MOST_ENTRIES: u32 = 1000;

/// Makes an event. Where it wants memory it is made again, which shows that the parts stayed as they were.
fn made(alloc: Global, row: &mut Row, event: &Event) -> Result<Marks, ActError>
    requires { IsRow row.old }
    ensures { IsRow row.new }
{
    if row.count >= MOST_ENTRIES {
        return Err(ActError::Memory);
    }
    match row.make(alloc, event) {
        Ok(marks) => Ok(marks),
        Err(ActError::Memory) => row.make(alloc, event),
        Err(ActError::NotReady(reason)) => Err(ActError::NotReady(reason)),
    }
}

/// The event of an entry is made, and has the entry's marks.
fn is_made(rt: &impl Abort, alloc: Global, row: &mut Row, entry: Entry)
    requires { IsRow row.old }
    ensures { IsRow row.new }
{
    let want = text_of(alloc, &entry);
    let Ok(marks) = made(alloc, row, &entry.event) else {
        assert!(rt; false, "the event is possible");
        return;
    };
    let got = text_of(
        alloc,
        &Entry {
            stamp: entry.stamp,
            pass: entry.pass,
            event: entry.event,
            marks,
        },
    );
    let want = str::from_utf8(want.as_slice()).unwrap_or("no text");
    let got = str::from_utf8(got.as_slice()).unwrap_or("no text");
    assert_eq!(rt; got, want, "an entry");
}

/// The fabric of a setup before the first event.
fn begun(alloc: Global, setup: &str) -> Option<Row>
    ensures { IfSome result (λ row. IsRow row) }
{
    let config = match read_script(alloc, setup.as_bytes()) {
        Ok(script) => script.config,
        Err(_) => read_script(alloc, setup.as_bytes()).ok()?.config,
    };
    let contents = match zeros(alloc, &config) {
        Ok(contents) => contents,
        Err(_) => zeros(alloc, &config).ok()?,
    };
    let opening = Opening { config, contents };
    if !is_limited(&opening.config) || !fit_contents(&opening) {
        return None;
    }
    match Row::open(alloc, &opening) {
        Ok(row) => Some(row),
        Err(_) => Row::open(alloc, &opening).ok(),
    }
}

/// Each entry of a trace of verbs is made as it stands there.
fn goes_on(rt: &impl Abort, alloc: Global, row: &mut Row, trace: &str)
    requires { IsRow row.old }
    ensures { IsRow row.new }
{
    let mut reader = TraceReader::start();
    for line in trace.lines() {
        let read = match reader.line(alloc, line.as_bytes()) {
            Err(TraceError::Memory) => reader.line(alloc, line.as_bytes()),
            read => read,
        };
        match read {
            Ok(Some(entry)) => is_made(rt, alloc, row, entry),
            Ok(None) => {}
            Err(_) => assert!(rt; false, "the trace is read: {line}"),
        }
    }
    assert!(rt; reader.finish().is_ok(), "the trace ends");
}

/// So it is on the fabric of a setup.
fn follows<R: Abort + AllocGlobal>(rt: &R, setup: &str, trace: &str) {
    let alloc = rt.alloc();
    let Some(mut row) = begun(alloc, setup) else {
        assert!(rt; false, "a fabric");
        return;
    };
    goes_on(rt, alloc, &mut row, trace);
}

/// A poll of the first completion queue for at least so many completions is not possible yet.
fn waits_for(rt: &impl Abort, alloc: Global, row: &mut Row, least: u8)
    requires { IsRow row.old }
    ensures { IsRow row.new }
{
    let slot = Slot {
        domain: DomainId {
            adapter: 0,
            domain: 0,
        },
        slot: 0,
    };
    let event = Event::Verb {
        by: 0,
        verb: Verb::Poll { slot, n: 16, least },
    };
    let outcome = made(alloc, row, &event);
    let waits = matches!(outcome, Err(ActError::NotReady(Reason::Empty)));
    assert!(rt; waits, "a poll for at least {least} completions");
}

/// A turn is not possible, for one of two reasons: the queue pair's state, or that there is nothing to do.
fn is_refused(rt: &impl Abort, alloc: Global, row: &mut Row, turn: &Event, state: bool)
    requires { IsRow row.old }
    ensures { IsRow row.new }
{
    let outcome = made(alloc, row, turn);
    let as_told = if state {
        matches!(outcome, Err(ActError::NotReady(Reason::State)))
    } else {
        matches!(outcome, Err(ActError::NotReady(Reason::Empty)))
    };
    assert!(rt; as_told, "a turn");
}

/// No turn of this queue pair is possible: the answer for one of these reasons, and the timer and the wake for one.
fn no_turns(rt: &impl Abort, alloc: Global, row: &mut Row, number: u32, answer: bool, others: bool)
    requires { IsRow row.old }
    ensures { IsRow row.new }
{
    let queue = QueueId { adapter: 0, number };
    let lot = Lot::Pass;
    is_refused(rt, alloc, row, &Event::Respond { queue, lot }, answer);
    let hasten = true;
    is_refused(rt, alloc, row, &Event::Timeout { queue, hasten }, others);
    let hasten = false;
    is_refused(rt, alloc, row, &Event::Timeout { queue, hasten }, others);
    is_refused(rt, alloc, row, &Event::RnrWake { queue }, others);
}

/// So many zeros.
fn zeros_of(alloc: Global, count: usize) -> Option<Bytes> {
    match vec![in alloc; 0u8; count] {
        Ok(bytes) => Some(Bytes::from(bytes)),
        Err(_) => None,
    }
}

/// A store of so many zeros at the beginning of the first buffer is answered with these words.
fn store_answers(rt: &impl Abort, alloc: Global, row: &mut Row, count: usize, words: &str)
    requires { IsRow row.old }
    ensures { IsRow row.new }
{
    let zeros = zeros_of(alloc, count);
    let Some(bytes) = zeros.or(zeros_of(alloc, count)) else {
        return;
    };
    let verb = Verb::Store {
        adapter: 0,
        buffer: 0,
        offset: 0,
        bytes,
    };
    let event = Event::Verb { by: 0, verb };
    let Ok(marks) = made(alloc, row, &event) else {
        assert!(rt; false, "the store is possible");
        return;
    };
    let entry = Entry {
        stamp: 0,
        pass: 0,
        event,
        marks,
    };
    let text = text_of(alloc, &entry);
    let answers = text.as_slice().ends_with(words.as_bytes());
    assert!(rt; answers, "a store of {count} bytes");
}

#[test]
fn posts_polls_and_changes_of_state_answer_as_reckoned(rt: HostRuntime) {
    follows(
        &rt,
        rows::SENDS_AND_RECEIVES_SETUP,
        rows::SENDS_AND_RECEIVES,
    );
}

#[test]
fn queue_pairs_come_to_ready_to_send_as_reckoned(rt: HostRuntime) {
    follows(&rt, rows::QUEUE_PAIRS_SETUP, rows::QUEUE_PAIRS);
}

#[test]
fn domains_and_queue_pairs_end_as_reckoned(rt: HostRuntime) {
    follows(&rt, rows::ENDS_SETUP, rows::ENDS);
}

#[test]
fn packets_come_and_go_as_reckoned(rt: HostRuntime) {
    follows(&rt, events::USE_SETUP, events::USE);
}

#[test]
fn windows_are_bound_as_reckoned(rt: HostRuntime) {
    follows(&rt, events::BINDS_SETUP, events::BINDS);
}

#[test]
fn a_packet_ends_a_key_as_reckoned(rt: HostRuntime) {
    follows(&rt, events::ENDS_SETUP, events::ENDS);
}

#[test]
fn each_refusal_comes_at_its_edge(rt: HostRuntime) {
    follows(&rt, refusals::SETUP, refusals::REFUSALS);
}

#[test]
fn a_poll_waits_for_as_many_as_it_asks_for(rt: HostRuntime) {
    let alloc = rt.alloc();
    let Some(mut row) = begun(alloc, refusals::SETUP) else {
        assert!(rt; false, "a fabric");
        return;
    };
    goes_on(&rt, alloc, &mut row, refusals::ONE_COMPLETION);
    waits_for(&rt, alloc, &mut row, 2);
    waits_for(&rt, alloc, &mut row, 16);
    goes_on(&rt, alloc, &mut row, refusals::IT_IS_POLLED);
    waits_for(&rt, alloc, &mut row, 1);
    goes_on(&rt, alloc, &mut row, refusals::NOTHING_WAITS);
}

#[test]
fn turns_that_are_not_possible_say_why(rt: HostRuntime) {
    let alloc = rt.alloc();
    let Some(mut row) = begun(alloc, refusals::SETUP) else {
        assert!(rt; false, "a fabric");
        return;
    };
    no_turns(&rt, alloc, &mut row, 259, true, true);
    no_turns(&rt, alloc, &mut row, 256, true, true);
    goes_on(&rt, alloc, &mut row, turns::ONE_QUEUE_PAIR);
    no_turns(&rt, alloc, &mut row, 256, true, true);
    goes_on(&rt, alloc, &mut row, turns::IT_RECEIVES);
    no_turns(&rt, alloc, &mut row, 256, false, true);
    goes_on(&rt, alloc, &mut row, turns::IT_SENDS);
    no_turns(&rt, alloc, &mut row, 256, false, false);
    goes_on(&rt, alloc, &mut row, turns::NO_PEER);
    no_turns(&rt, alloc, &mut row, 257, false, true);
}

#[test]
fn a_long_store_is_refused(rt: HostRuntime) {
    let alloc = rt.alloc();
    let Some(mut row) = begun(alloc, refusals::LARGE_BUFFER) else {
        assert!(rt; false, "a fabric");
        return;
    };
    store_answers(
        &rt,
        alloc,
        &mut row,
        4097,
        "-> refused out-of-range:length\n",
    );
    store_answers(&rt, alloc, &mut row, 4096, "0000\n");
}
