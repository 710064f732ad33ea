ghost use Rattle.std.specs.Prelude.{IfSome};
ghost use Rattle.test_fixture_requester.specs.Bed as beds;

mod answers;
mod drawn_rows;
mod limits;
mod messages;
mod order;
mod rows;
mod texts;
mod wakes;
mod worked_rows;

use ca_base::{ActError, Bytes, Lot, OpRefusal, Sent};
use ca_model::{Event, Mark, Marks, Verb};
use ca_qpstate::QueuePart;
use ca_trace::{Line, print_reply};
use std::alloc::Global;
use std::process::Abort;
use test_fixture_requester::ca_trace_read_lines::read_line;
use test_fixture_requester::{Bed, bed_of, full_text, reason_text, settings, setup_in};

fn texts_are(rt: &impl Abort, got: &[u8], want: &[u8], line: &str) {
    let got = str::from_utf8(got).unwrap_or("no text");
    let want = str::from_utf8(want).unwrap_or("no text");
    assert_eq!(rt; got, want, "before {line}");
}

fn holds(rt: &impl Abort, is: bool, what: &str) {
    assert!(rt; is, "{what}");
}

// What a queue pair counts as a requester, with its state.
fn numbers(q: &QueuePart) -> [u64; 10] {
    let r = &q.requester;
    [
        r.una,
        r.cursor,
        r.oldest,
        r.oldest_psn,
        r.next,
        u64::from(r.retries),
        r.rnrs,
        u64::from(r.waiting),
        r.timers,
        q.state as u64,
    ]
}

fn numbers_are(rt: &impl Abort, got: &[u64], want: &[u64], what: &str) {
    assert_eq!(rt; got, want, "{what}");
}

// Adds the lines of marks.
fn put(rt: &impl Abort, marks: &[Mark], text: &mut Vec<u8>) {
    for mark in marks {
        holds(rt, print_reply(mark, text).is_ok(), "the line of a mark");
    }
}

fn put_text(rt: &impl Abort, line: &[u8], text: &mut Vec<u8>) {
    holds(rt, text.extend_from_slice(line).is_ok(), "a line");
}

// The line of a packet that is sent: of the envelope's index it tells nothing.
fn put_sent(
    rt: &impl Abort,
    q: &QueuePart,
    request: Option<u64>,
    bytes: Vec<u8>,
    text: &mut Vec<u8>,
) {
    let target = match q.peer {
        None => q.queue,
        Some((peer, _)) => peer,
    };
    let sent = Mark::Sent {
        source: q.queue,
        target,
        index: None,
        request,
        bytes: Bytes::from(bytes),
    };
    holds(rt, print_reply(&sent, text).is_ok(), "the line of a packet");
}

// The requester's turn sends a packet, or fails a request, or says why not.
fn send(rt: &impl Abort, alloc: Global, bed: &mut Bed, room: bool, text: &mut Vec<u8>)
    requires { beds.Stands bed.old }
    ensures { beds.Stands bed.new }
{
    let before = numbers(&bed.queue);
    let mut marks = Marks::empty(alloc);
    let mut out = Vec::new(alloc);
    let done = bed.send(room, &mut marks, &mut out);
    put(rt, marks.as_slice(), text);
    match done {
        Some(Ok(Sent::Spelt { request })) => put_sent(rt, &bed.queue, request, out, text),
        Some(Ok(Sent::Silent)) => holds(rt, out.is_empty(), "no packet"),
        Some(Err(ActError::NotReady(reason))) => {
            put_text(rt, reason_text(reason).as_bytes(), text);
            numbers_are(
                rt,
                numbers(&bed.queue).as_slice(),
                before.as_slice(),
                "unchanged",
            );
        }
        _ => holds(rt, false, "a turn"),
    }
}

// The requester's turn performs a local operation, which is refused for a cause, if there is one.
fn perform(
    rt: &impl Abort,
    alloc: Global,
    bed: &mut Bed,
    cause: Option<OpRefusal>,
    text: &mut Vec<u8>,
)
    requires { beds.Stands bed.old }
    ensures { beds.Stands bed.new }
{
    let mut marks = Marks::empty(alloc);
    let done = bed.perform(cause, &mut marks);
    holds(rt, matches!(done, Some(Ok(()))), "a local operation");
    put(rt, marks.as_slice(), text);
}

// The requester's turn, whatever it is.
fn request(rt: &impl Abort, alloc: Global, bed: &mut Bed, room: bool, text: &mut Vec<u8>)
    requires { beds.Stands bed.old }
    ensures { beds.Stands bed.new }
{
    match bed.performs() {
        Some(Ok(true)) => perform(rt, alloc, bed, None, text),
        Some(Ok(false)) => send(rt, alloc, bed, room, text),
        Some(Err(reason)) => {
            send(rt, alloc, bed, room, text);
            let want = reason_text(reason).as_bytes();
            texts_are(
                rt,
                text.as_slice(),
                want,
                "the same reason as for a local operation",
            );
        }
        None => holds(rt, false, "a turn"),
    }
}

// Why a timer does not fire that is neither silent nor hastened.
fn undue(alloc: Global, bed: &mut Bed) -> &'static str
    requires { beds.Stands bed.old }
    ensures { beds.Stands bed.new }
{
    let mut marks = Marks::empty(alloc);
    match bed.time_out(false, false, &mut marks) {
        Some(Err(ActError::NotReady(reason))) => reason_text(reason),
        _ => "a timer that fired",
    }
}

fn time_out(rt: &impl Abort, alloc: Global, bed: &mut Bed, hasten: bool, text: &mut Vec<u8>)
    requires { beds.Stands bed.old }
    ensures { beds.Stands bed.new }
{
    let before = numbers(&bed.queue);
    let undue = undue(alloc, bed).as_bytes();
    let mut marks = Marks::empty(alloc);
    let done = bed.time_out(!hasten, hasten, &mut marks);
    put(rt, marks.as_slice(), text);
    match done {
        Some(Ok(())) => texts_are(rt, undue, b" reason not-due\n", "a timer that is not due"),
        Some(Err(ActError::NotReady(reason))) => {
            put_text(rt, reason_text(reason).as_bytes(), text);
            texts_are(rt, undue, text.as_slice(), "the same reason");
            numbers_are(
                rt,
                numbers(&bed.queue).as_slice(),
                before.as_slice(),
                "unchanged",
            );
        }
        _ => holds(rt, false, "a timer"),
    }
}

fn wake(rt: &impl Abort, bed: &mut Bed, peer_empty: bool, text: &mut Vec<u8>)
    requires { beds.Stands bed.old }
    ensures { beds.Stands bed.new }
{
    let before = numbers(&bed.queue);
    if let Err(reason) = bed.wake(peer_empty) {
        put_text(rt, reason_text(reason).as_bytes(), text);
        numbers_are(
            rt,
            numbers(&bed.queue).as_slice(),
            before.as_slice(),
            "unchanged",
        );
    }
}

// These bytes arrive, which have to be a response.
fn arrive(rt: &impl Abort, alloc: Global, bed: &mut Bed, bytes: &[u8], text: &mut Vec<u8>)
    requires { beds.Stands bed.old }
    ensures { beds.Stands bed.new }
{
    let mut marks = Marks::empty(alloc);
    let done = bed.take(bytes, &mut marks);
    holds(rt, matches!(done, Some(Ok(()))), "a response");
    put(rt, marks.as_slice(), text);
}

// A consumer's call.
fn call(rt: &impl Abort, alloc: Global, bed: &mut Bed, verb: Verb, text: &mut Vec<u8>)
    requires { beds.Stands bed.old }
    ensures { beds.Stands bed.new }
{
    match verb {
        Verb::ModifyQp { change, .. } => {
            holds(rt, bed.change(&settings(), &change), "a change of state");
        }
        Verb::PostSend { request, .. } => holds(rt, bed.post(request), "a request is posted"),
        Verb::Inject { bytes, .. } => arrive(rt, alloc, bed, bytes.as_slice(), text),
        _ => holds(rt, false, "a call of the table"),
    }
}

fn turn(
    rt: &impl Abort,
    alloc: Global,
    bed: &mut Bed,
    event: &Event,
    peer_empty: bool,
    text: &mut Vec<u8>,
)
    requires { beds.Stands bed.old }
    ensures { beds.Stands bed.new }
{
    match event {
        Event::Request { lot, .. } => {
            request(rt, alloc, bed, !matches!(lot, Lot::Lose), text);
        }
        Event::Timeout { hasten, .. } => time_out(rt, alloc, bed, *hasten, text),
        Event::RnrWake { .. } => wake(rt, bed, peer_empty, text),
        _ => holds(rt, false, "a turn of the table"),
    }
}

fn step(
    rt: &impl Abort,
    alloc: Global,
    bed: &mut Bed,
    line: &str,
    peer_empty: bool,
    text: &mut Vec<u8>,
)
    requires { beds.Stands bed.old }
    ensures { beds.Stands bed.new }
{
    match read_line(alloc, line.as_bytes()) {
        Ok(Line::Call { verb, .. }) => call(rt, alloc, bed, verb, text),
        Ok(Line::Turn { event, .. }) => turn(rt, alloc, bed, &event, peer_empty, text),
        _ => texts_are(rt, b"a line of the trace", b"", line),
    }
}

// Goes on with the lines of a run: `got` is what the steps so far did, and `want` what their lines said.
fn go_on(rt: &impl Abort, alloc: Global, bed: &mut Bed, text: &str, peer_empty: bool)
    requires { beds.Stands bed.old }
    ensures { beds.Stands bed.new }
{
    let mut got = Vec::new(alloc);
    let mut want = Vec::new(alloc);
    for line in text.lines() {
        if line.starts_with(' ') {
            put_text(rt, line.as_bytes(), &mut want);
            put_text(rt, b"\n", &mut want);
        } else {
            texts_are(rt, got.as_slice(), want.as_slice(), line);
            got.clear();
            want.clear();
            step(rt, alloc, bed, line, peer_empty, &mut got);
        }
    }
    texts_are(rt, got.as_slice(), want.as_slice(), "the end");
}

/// The first queue pair, with a shared receive queue, over a region of 4096 bytes.
const SETUP: &str = "@0 p0 c0 reg 0/0/0 0 0 4096 lrwab -> key 0x00000001
@0 p0 c0 qp 0/0/0 0 0 4 0 0 -> qp 256 1
@0 p0 c0 init 0/0/0 -> ok
@1 p0 c0 rtr 0/0/0 1/256 1 0 256 12 -> ok
@2 p0 c0 rts 0/0/0 0 7 7 16 -> ok
";

// What the first two lines of a text register and create, and the lines behind them.
fn begin(alloc: Global, text: &str) -> Option<(Bed, &str)>
    ensures { IfSome result (λ begun. beds.Stands begun.0) }
{
    let (setup, rest) = setup_in(alloc, text)?;
    Some((bed_of(alloc, &setup)?, rest))
}

fn run(rt: &impl Abort, alloc: Global, text: &str, peer_empty: bool) {
    match begin(alloc, text) {
        None => texts_are(rt, text.as_bytes(), b"", "the region and the queue pair"),
        Some((mut bed, rest)) => go_on(rt, alloc, &mut bed, rest, peer_empty),
    }
}

// A run, which says what differs from the setup. Each line is a step, as it stands in a trace, and behind it stands
// what it does. A packet that arrives stands as an injection. Of a request the lot says whether the peer has room:
// `lose` where it has none.
fn is_run(rt: &impl Abort, alloc: Global, text: &str, peer_empty: bool) {
    match full_text(alloc, SETUP, text) {
        None => texts_are(rt, text.as_bytes(), b"", "a run"),
        Some(full) => run(rt, alloc, full.as_str(), peer_empty),
    }
}

// Runs that stand in a text, with a blank line between them.
fn runs(rt: &impl Abort, alloc: Global, texts: &str) {
    for text in texts.split("\n\n") {
        is_run(rt, alloc, text, false);
    }
}

fn fail(rt: &impl Abort, alloc: Global, text: &str, cause: OpRefusal, want: &str) {
    match begin(alloc, text) {
        None => texts_are(rt, text.as_bytes(), b"", "the region and the queue pair"),
        Some((mut bed, rest)) => {
            go_on(rt, alloc, &mut bed, rest, false);
            let mut got = Vec::new(alloc);
            perform(rt, alloc, &mut bed, Some(cause), &mut got);
            texts_are(rt, got.as_slice(), want.as_bytes(), "the end");
        }
    }
}

// A run, behind which a local operation is refused for a cause.
fn fails(rt: &impl Abort, alloc: Global, text: &str, cause: OpRefusal, want: &str) {
    match full_text(alloc, SETUP, text) {
        None => texts_are(rt, text.as_bytes(), b"", "a run"),
        Some(full) => fail(rt, alloc, full.as_str(), cause, want),
    }
}
