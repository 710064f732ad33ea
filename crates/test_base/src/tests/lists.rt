use super::{copy_of, holds};
use ca_base::{Answers, Items, Key, Queued, Run};
use std::alloc::Global;

const RUNS: [Run; 2] = [
    Run {
        adapter: 0,
        buffer: 1,
        offset: 8192,
        length: 4096,
    },
    Run {
        adapter: 7,
        buffer: 15,
        offset: 0,
        length: 1,
    },
];

const ANSWERS: [Queued; 5] = [
    Queued::Ack { psn: 1 },
    Queued::Rnr { psn: 2 },
    Queued::Nak { psn: 3, code: 2 },
    Queued::Read {
        psn: 4,
        key: Key(1),
        address: 4_294_967_296,
        left: 64,
        first: true,
        envelope: Some(0),
        duplicate: false,
    },
    Queued::Atomic {
        psn: 5,
        found: 7,
        duplicate: true,
    },
];

// The list that takes these items one by one.
fn pushed<T: Copy + Drop>(alloc: Global, items: &[T]) -> Option<Items<T>> {
    let mut list: Items<T> = Items::empty(alloc);
    for item in items {
        list.push(*item).ok()?;
    }
    Some(list)
}

// A list takes these items one by one, and each copy has them.
fn is_copied<T: Copy + Drop + PartialEq>(alloc: Global, items: &[T]) -> bool {
    let list = pushed(alloc, items).and_then(copy_of);
    let copy = Items::copy_of(alloc, items).ok().map(Items::into_vec);
    matches!(&list, Some(list) if list.as_slice() == items)
        && matches!(&copy, Some(copy) if copy.as_slice() == items)
}

#[test]
fn lists_take_items_and_are_copied(rt: HostRuntime) {
    let alloc = rt.alloc();
    holds(&rt, is_copied(alloc, b"\x00\x01\xff".as_slice()), "bytes");
    holds(&rt, is_copied(alloc, RUNS.as_slice()), "runs");
    holds(&rt, is_copied(alloc, [3u16, 0, 255].as_slice()), "pages");
}

fn queue(alloc: Global) -> Option<Answers> {
    let mut queue = Answers::empty(alloc);
    for answer in ANSWERS.as_slice() {
        queue.push(*answer).ok()?;
    }
    Some(queue)
}

fn has_each_in_its_place(queue: &Answers) -> bool {
    let mut all = queue.len() == ANSWERS.len();
    for place in 0..6 {
        all = all && queue.get(place) == ANSWERS.as_slice().get(place).copied();
    }
    all
}

#[test]
fn a_response_queue_takes_answers_at_its_end(rt: HostRuntime) {
    let queue = queue(rt.alloc());
    holds(
        &rt,
        matches!(&queue, Some(queue) if has_each_in_its_place(queue)),
        "five answers",
    );
}
