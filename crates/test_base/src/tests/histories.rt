use super::{PIECES, QUEUE, SLOT, copy_of, holds, list_of_two};
use ca_base::{Bytes, Completion, RecvRequest, WcOp, WcStatus};
use ca_model::{Answer, Completions, Entry, Event, History, Mark, Marks, Verb};
use std::alloc::Global;

const COMPLETION: Completion = Completion {
    id: 9,
    queue: QUEUE,
    receive: true,
    place: 4,
    status: WcStatus::Success,
    op: WcOp::Recv,
    bytes: 64,
    imm: Some(7),
    invalidated: None,
};

fn is_store(verb: &Verb) -> bool {
    match verb {
        Verb::Store {
            adapter,
            buffer,
            offset,
            bytes,
        } => *adapter == 1 && *buffer == 2 && *offset == 3 && bytes.as_slice() == b"abc".as_slice(),
        _ => false,
    }
}

fn is_receive(verb: &Verb) -> bool {
    match verb {
        Verb::PostRecv { slot, request } => {
            *slot == SLOT && request.id == 8 && request.list.as_slice() == PIECES.as_slice()
        }
        _ => false,
    }
}

fn store(alloc: Global) -> Option<Verb> {
    Some(Verb::Store {
        adapter: 1,
        buffer: 2,
        offset: 3,
        bytes: Bytes::copy_of(alloc, b"abc").ok()?,
    })
}

fn receive() -> Option<Verb> {
    Some(Verb::PostRecv {
        slot: SLOT,
        request: RecvRequest {
            id: 8,
            list: list_of_two()?,
        },
    })
}

fn is_event(event: &Event) -> bool {
    match event {
        Event::Verb { by, verb } => *by == 5 && is_store(verb),
        _ => false,
    }
}

fn event(alloc: Global) -> Option<Event> {
    Some(Event::Verb {
        by: 5,
        verb: store(alloc)?,
    })
}

#[test]
fn verbs_and_their_events_are_copied(rt: HostRuntime) {
    let alloc = rt.alloc();
    let verb = store(alloc).and_then(copy_of);
    holds(&rt, matches!(&verb, Some(verb) if is_store(verb)), "store");
    let verb = receive().and_then(copy_of);
    holds(
        &rt,
        matches!(&verb, Some(verb) if is_receive(verb)),
        "receive",
    );
    let event = event(alloc).and_then(copy_of);
    holds(
        &rt,
        matches!(&event, Some(event) if is_event(event)),
        "event",
    );
}

fn is_polled(answer: &Answer) -> bool {
    match answer {
        Answer::Polled(completions) => completions.as_slice() == [COMPLETION].as_slice(),
        _ => false,
    }
}

fn is_loaded(answer: &Answer) -> bool {
    match answer {
        Answer::Loaded(bytes) => bytes.as_slice() == b"abc".as_slice(),
        _ => false,
    }
}

fn polled(alloc: Global) -> Option<Answer> {
    let mut completions = Completions::empty();
    completions.push(alloc, COMPLETION).ok()?;
    Some(Answer::Polled(completions))
}

fn loaded(alloc: Global) -> Option<Answer> {
    Some(Answer::Loaded(Bytes::copy_of(alloc, b"abc").ok()?))
}

#[test]
fn answers_are_copied(rt: HostRuntime) {
    let answer = polled(rt.alloc()).and_then(copy_of);
    holds(
        &rt,
        matches!(&answer, Some(answer) if is_polled(answer)),
        "completions",
    );
    let answer = loaded(rt.alloc()).and_then(copy_of);
    holds(
        &rt,
        matches!(&answer, Some(answer) if is_loaded(answer)),
        "bytes",
    );
}

const OTHER: Completion = Completion {
    id: 8,
    ..COMPLETION
};

// One lies in place, and the second takes all of them to the heap.
fn several(alloc: Global) -> Option<Answer> {
    let mut completions = Completions::empty();
    completions.push(alloc, COMPLETION).ok()?;
    completions.push(alloc, OTHER).ok()?;
    completions.push(alloc, COMPLETION).ok()?;
    Some(Answer::Polled(completions))
}

fn are_several(answer: &Answer) -> bool {
    match answer {
        Answer::Polled(completions) => {
            completions.as_slice() == [COMPLETION, OTHER, COMPLETION].as_slice()
        }
        _ => false,
    }
}

#[test]
fn several_completions_stay_in_order(rt: HostRuntime) {
    let answer = several(rt.alloc());
    holds(
        &rt,
        matches!(&answer, Some(answer) if are_several(answer)),
        "completions",
    );
    let copy = answer.and_then(copy_of);
    holds(
        &rt,
        matches!(&copy, Some(copy) if are_several(copy)),
        "their copy",
    );
}

fn is_answered(mark: &Mark) -> bool {
    match mark {
        Mark::Verb { by, verb, answer } => *by == 5
            && is_store(verb)
            && matches!(answer, Answer::Fine),
        _ => false,
    }
}

fn is_timer(mark: &Mark) -> bool {
    match mark {
        Mark::Timer { queue, silent } => *queue == QUEUE && *silent,
        _ => false,
    }
}

const TIMER: Mark = Mark::Timer {
    queue: QUEUE,
    silent: true,
};

fn answered(alloc: Global) -> Option<Mark> {
    Some(Mark::Verb {
        by: 5,
        verb: store(alloc)?,
        answer: Answer::Fine,
    })
}

// A mark, and two more behind it.
fn three_marks(alloc: Global) -> Option<Marks> {
    let more = vec![in alloc; answered(alloc)?, TIMER].ok()?;
    let mut marks = Marks::empty(alloc);
    marks.reserve(3).ok()?;
    marks.push(TIMER);
    marks.append(more);
    Some(marks)
}

fn are_the_three(marks: &Marks) -> bool {
    match marks.as_slice() {
        [first, second, third] => is_timer(first) && is_answered(second) && is_timer(third),
        _ => false,
    }
}

#[test]
fn marks_stand_in_order(rt: HostRuntime) {
    let marks = three_marks(rt.alloc());
    holds(
        &rt,
        matches!(&marks, Some(marks) if are_the_three(marks)),
        "the marks in order",
    );
}

// The timer of a queue pair fires, and nothing else happened.
fn timeout(alloc: Global) -> Option<History> {
    let mut marks = Marks::empty(alloc);
    marks.reserve(1).ok()?;
    marks.push(TIMER);
    let mut history = History::empty(alloc);
    history
        .push(Entry {
            stamp: 0,
            pass: 1,
            event: Event::Timeout {
                queue: QUEUE,
                hasten: false,
            },
            marks,
        })
        .ok()?;
    Some(history)
}

fn is_the_timeout(history: &History) -> bool {
    match history.as_slice() {
        [entry] => {
            history.len() == 1
                && !history.is_empty()
                && entry.stamp == 0
                && matches!(entry.marks.as_slice(), [mark] if is_timer(mark))
        }
        _ => false,
    }
}

#[test]
fn a_history_takes_entries_at_its_end(rt: HostRuntime) {
    let history = timeout(rt.alloc());
    holds(
        &rt,
        matches!(&history, Some(history) if is_the_timeout(history)),
        "the entry",
    );
}
