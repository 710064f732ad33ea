ghost use Rattle.std.specs.Prelude.{IfSome};
ghost use Rattle.test_fixture_responder.specs.Responder as responders;

mod again;
mod drawn_rows;
mod hostile_rows;
mod reads;
mod refusals;
mod rows;
mod turns;
mod windows;
mod worked_rows;

use ca_base::{ActError, Bytes, Lot, QueueId, SendOp, SendRequest, Sent, Slot};
use ca_model::{Event, Mark, Marks, Verb};
use ca_qpstate::QueuePart;
use ca_trace::{Line, print_reply};
use std::alloc::Global;
use std::process::Abort;
use test_fixture_responder::Responder;
use test_fixture_responder::ca_trace_read_lines::read_line;
use test_fixture_responder::test_fixture_requester::{
    Setup, bed_of, full_text, reason_text, settings, setup_in,
};

fn texts_are(rt: &impl Abort, got: &[u8], want: &[u8], line: &str) {
    let got = str::from_utf8(got).unwrap_or("no text");
    let want = str::from_utf8(want).unwrap_or("no text");
    assert_eq!(rt; got, want, "before {line}");
}

fn holds(rt: &impl Abort, is: bool, what: &str) {
    assert!(rt; is, "{what}");
}

// The queue pair in Reset, over its region, with its shared receive queue.
fn responder_of(alloc: Global, setup: &Setup) -> Option<Responder>
    ensures { IfSome result responders.Stands }
{
    Responder::of(alloc, bed_of(alloc, setup)?)
}

// What a queue pair counts as a responder, with its state.
fn numbers(q: &QueuePart) -> [u64; 5] {
    let r = &q.responder;
    [
        r.expected,
        u64::from(r.msn),
        u64::from(r.nak_sent),
        r.answers.len() as u64,
        q.state as u64,
    ]
}

fn numbers_are(rt: &impl Abort, got: &[u64], want: &[u64], what: &str) {
    assert_eq!(rt; got, want, "{what}");
}

// Adds the lines of marks.
fn put(rt: &impl Abort, marks: &[Mark], text: &mut Vec<u8>) {
    for mark in marks {
        holds(rt, print_reply(mark, text).is_ok(), "the line of a mark");
    }
}

fn put_text(rt: &impl Abort, line: &[u8], text: &mut Vec<u8>) {
    holds(rt, text.extend_from_slice(line).is_ok(), "a line");
}

// The line of an answer that is sent: of the envelope's index it tells nothing, and it is of no request.
fn put_sent(rt: &impl Abort, q: &QueuePart, bytes: Vec<u8>, text: &mut Vec<u8>) {
    let target = match q.peer {
        None => q.queue,
        Some((peer, _)) => peer,
    };
    let sent = Mark::Sent {
        source: q.queue,
        target,
        index: None,
        request: None,
        bytes: Bytes::from(bytes),
    };
    holds(rt, print_reply(&sent, text).is_ok(), "the line of a packet");
}

// The responder's turn: it sends an answer, or says why not.
fn respond(rt: &impl Abort, alloc: Global, r: &mut Responder, room: bool, text: &mut Vec<u8>)
    requires { responders.Stands r.old }
    ensures { responders.Stands r.new }
{
    let before = numbers(&r.bed.queue);
    let mut marks = Marks::empty(alloc);
    let mut out = Vec::new(alloc);
    let done = r.respond(room, &mut marks, &mut out);
    put(rt, marks.as_slice(), text);
    match done {
        Some(Ok(Sent::Spelt { request: None })) => put_sent(rt, &r.bed.queue, out, text),
        Some(Err(ActError::NotReady(reason))) => {
            put_text(rt, reason_text(reason).as_bytes(), text);
            let after = numbers(&r.bed.queue);
            numbers_are(rt, after.as_slice(), before.as_slice(), "unchanged");
        }
        _ => holds(rt, false, "a turn"),
    }
}

// These bytes arrive, which have to be a request.
fn arrive(
    rt: &impl Abort,
    alloc: Global,
    r: &mut Responder,
    bytes: &[u8],
    envelope: Option<u64>,
    text: &mut Vec<u8>,
)
    requires { responders.Stands r.old }
    ensures { responders.Stands r.new }
{
    let mut marks = Marks::empty(alloc);
    let done = r.take(bytes, envelope, &mut marks);
    put(rt, marks.as_slice(), text);
    if !matches!(done, Some(Ok(()))) {
        put_text(rt, b" no request\n", text);
    }
}

// Posts a request; a bind of a type 2 window is done at once.
fn post(rt: &impl Abort, r: &mut Responder, slot: Slot, request: SendRequest)
    requires { responders.Stands r.old }
    ensures { responders.Stands r.new }
{
    if let SendOp::Bind2 {
        low,
        address,
        length,
        rights,
        ..
    } = request.op
    {
        let queue = QueueId {
            adapter: slot.domain.adapter,
            number: 256 + u32::from(slot.slot),
        };
        let bound = r.bind(low, queue, address, length, rights);
        holds(rt, bound, "a window is bound");
        return;
    }
    holds(rt, r.bed.post(request), "a request is posted");
}

// A consumer's call. Of an injection the envelope is told apart.
fn call(
    rt: &impl Abort,
    alloc: Global,
    r: &mut Responder,
    verb: Verb,
    envelope: Option<u64>,
    text: &mut Vec<u8>,
)
    requires { responders.Stands r.old }
    ensures { responders.Stands r.new }
{
    match verb {
        Verb::ModifyQp { change, .. } => {
            holds(rt, r.bed.change(&settings(), &change), "a change of state");
        }
        Verb::PostSend { slot, request } => post(rt, r, slot, request),
        Verb::PostRecv { request, .. } => holds(rt, r.receive(request), "a receive is posted"),
        Verb::PostSrq { request, .. } => {
            holds(rt, r.receive_shared(request), "a shared receive is posted");
        }
        Verb::Store { offset, bytes, .. } => {
            holds(rt, r.store(offset, bytes.as_slice()), "bytes are stored");
        }
        Verb::DeregMr { .. } => holds(rt, r.end_region(), "the region ends"),
        Verb::Inject { bytes, .. } => arrive(rt, alloc, r, bytes.as_slice(), envelope, text),
        _ => holds(rt, false, "a call of the table"),
    }
}

// A step. An injection by pass 1 is of an envelope, whose index is the stamp.
fn step(rt: &impl Abort, alloc: Global, r: &mut Responder, line: &str, text: &mut Vec<u8>)
    requires { responders.Stands r.old }
    ensures { responders.Stands r.new }
{
    match read_line(alloc, line.as_bytes()) {
        Ok(
            Line::Call {
                stamp,
                pass: 1,
                verb,
                ..
            },
        ) => call(rt, alloc, r, verb, Some(stamp), text),
        Ok(Line::Call { verb, .. }) => call(rt, alloc, r, verb, None, text),
        Ok(
            Line::Turn {
                event: Event::Respond { lot, .. },
                ..
            },
        ) => {
            respond(rt, alloc, r, !matches!(lot, Lot::Lose), text);
        }
        _ => texts_are(rt, b"a line of the trace", b"", line),
    }
}

// Goes on with the lines of a run: `got` is what the steps so far did, and `want` what their lines said.
fn go_on(rt: &impl Abort, alloc: Global, r: &mut Responder, text: &str)
    requires { responders.Stands r.old }
    ensures { responders.Stands r.new }
{
    let mut got = Vec::new(alloc);
    let mut want = Vec::new(alloc);
    for line in text.lines() {
        if line.starts_with(' ') {
            put_text(rt, line.as_bytes(), &mut want);
            put_text(rt, b"\n", &mut want);
        } else {
            texts_are(rt, got.as_slice(), want.as_slice(), line);
            got.clear();
            want.clear();
            step(rt, alloc, r, line, &mut got);
        }
    }
    texts_are(rt, got.as_slice(), want.as_slice(), "the end");
}

/// The queue pair 0/256 over a region of 4096 bytes.
const SETUP: &str = "@0 p0 c0 reg 0/0/0 0 0 4096 lrwab -> key 0x00000001
@0 p0 c0 qp 0/0/0 0 0 4 4 - -> qp 256 1
@0 p0 c0 init 0/0/0 -> ok
@0 p0 c0 rtr 0/0/0 1/256 1 0 256 12 -> ok
@0 p0 c0 rts 0/0/0 0 7 7 16 -> ok
";

/// The same of the queue pair 1/256, with which most rows of traces begin.
const ROWS_SETUP: &str = "@0 p0 c0 reg 1/0/0 0 0 4096 lrwab -> key 0x00000001
@0 p0 c0 qp 1/0/0 0 0 4 4 - -> qp 256 1
@0 p0 c1 init 1/0/0 -> ok
@1 p0 c1 rtr 1/0/0 0/256 1 0 256 12 -> ok
@2 p0 c1 rts 1/0/0 0 7 7 16 -> ok
";

// A text of a run: the lines that register its region and create its queue pair, and then each step, as it stands in a
// trace, and behind it what it does. A packet that arrives stands as an injection. So many messages were accepted
// before.
fn run(rt: &impl Abort, alloc: Global, text: &str, msn: u32) {
    let Some((setup, rest)) = setup_in(alloc, text) else {
        texts_are(rt, text.as_bytes(), b"", "the region and the queue pair");
        return;
    };
    match responder_of(alloc, &setup) {
        None => holds(rt, false, "a queue pair"),
        Some(mut r) => {
            holds(rt, r.start_at(msn), "an MSN");
            go_on(rt, alloc, &mut r, rest);
        }
    }
}

// A run, which says what differs from a setup.
fn is_run(rt: &impl Abort, alloc: Global, setup: &str, text: &str, msn: u32) {
    match full_text(alloc, setup, text) {
        None => texts_are(rt, text.as_bytes(), b"", "a run"),
        Some(full) => run(rt, alloc, full.as_str(), msn),
    }
}

// Runs that stand in a text, with a blank line between them.
fn runs_from(rt: &impl Abort, alloc: Global, setup: &str, texts: &str) {
    for text in texts.split("\n\n") {
        is_run(rt, alloc, setup, text, 0);
    }
}

fn runs(rt: &impl Abort, alloc: Global, texts: &str) {
    runs_from(rt, alloc, SETUP, texts);
}
