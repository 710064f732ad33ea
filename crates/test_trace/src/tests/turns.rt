use super::{entry, rows_are};
use crate::{OTHER_QUEUE, QUEUE, Row, text_of};
use ca_base::{Lot, Memory, QueueId};
use ca_model::Event;
use std::alloc::Global;
use std::test::Fail;

const LINES: &str = "@16 p0 request 0/256 pass
@15 p0 request 0/256 lose
@67 p0 request 1/256 repeat:1
@49 p0 request 1/256 hold:1
@7 p0 respond 0/256 pass
@18 p0 respond 1/256 lose
@36 p0 respond 0/258 repeat:2
@88 p0 respond 0/257 hold:3
@17 p0 deliver 1/256 0
@73 p0 timeout 0/257 hasten
@19 p0 timeout 0/256 silent
@19 p0 wake 0/256";

/// The stamp and the turn of each line.
const TURNS: [(u64, Event); 12] = [
    (
        16,
        Event::Request {
            queue: QUEUE,
            lot: Lot::Pass,
        },
    ),
    (
        15,
        Event::Request {
            queue: QUEUE,
            lot: Lot::Lose,
        },
    ),
    (
        67,
        Event::Request {
            queue: OTHER_QUEUE,
            lot: Lot::Repeat(1),
        },
    ),
    (
        49,
        Event::Request {
            queue: OTHER_QUEUE,
            lot: Lot::Hold(1),
        },
    ),
    (
        7,
        Event::Respond {
            queue: QUEUE,
            lot: Lot::Pass,
        },
    ),
    (
        18,
        Event::Respond {
            queue: OTHER_QUEUE,
            lot: Lot::Lose,
        },
    ),
    (
        36,
        Event::Respond {
            queue: QueueId {
                adapter: 0,
                number: 258,
            },
            lot: Lot::Repeat(2),
        },
    ),
    (
        88,
        Event::Respond {
            queue: QueueId {
                adapter: 0,
                number: 257,
            },
            lot: Lot::Hold(3),
        },
    ),
    (
        17,
        Event::Deliver {
            queue: OTHER_QUEUE,
            index: 0,
        },
    ),
    (
        73,
        Event::Timeout {
            queue: QueueId {
                adapter: 0,
                number: 257,
            },
            hasten: true,
        },
    ),
    (
        19,
        Event::Timeout {
            queue: QUEUE,
            hasten: false,
        },
    ),
    (19, Event::RnrWake { queue: QUEUE }),
];

impl Row for (u64, Event) {
    fn text(&self, alloc: Global) -> Result<Vec<u8>, Memory> {
        let (stamp, event) = self;
        let event = event.clone()?;
        text_of(alloc, entry(alloc, *stamp, 0, event))
    }
}

#[test]
fn turns_print_with_their_lots(rt: HostRuntime) -> Result<(), Fail> {
    rows_are(&rt, TURNS.as_slice(), LINES)
}
