mod offers;

use arrayvec::ArrayVec;
use ca_base::{AdapterConfig, Config, QueueId, Turn};
use ca_engine::{Engine, Offer, Outcome};
use std::process::Abort;

const FIRST: QueueId = QueueId {
    adapter: 0,
    number: 256,
};

const SECOND: QueueId = QueueId {
    adapter: 0,
    number: 512,
};

const THIRD: QueueId = QueueId {
    adapter: 1,
    number: 256,
};

/// What a round offers to two consumers and three queue pairs.
const ROUND: [Offer; 11] = [
    Offer::Consumer(0),
    Offer::Consumer(1),
    Offer::Turn(Turn::Due(FIRST)),
    Offer::Turn(Turn::Respond(FIRST)),
    Offer::Turn(Turn::Request(FIRST)),
    Offer::Turn(Turn::Due(SECOND)),
    Offer::Turn(Turn::Respond(SECOND)),
    Offer::Turn(Turn::Request(SECOND)),
    Offer::Turn(Turn::Due(THIRD)),
    Offer::Turn(Turn::Respond(THIRD)),
    Offer::Turn(Turn::Request(THIRD)),
];

/// What a timer pass offers.
const TIMERS: [Offer; 6] = [
    Offer::Turn(Turn::RnrWake(FIRST)),
    Offer::Turn(Turn::Timeout(FIRST)),
    Offer::Turn(Turn::RnrWake(SECOND)),
    Offer::Turn(Turn::Timeout(SECOND)),
    Offer::Turn(Turn::RnrWake(THIRD)),
    Offer::Turn(Turn::Timeout(THIRD)),
];

/// An adapter with so many domains of one queue pair each.
fn adapter(domains: u8) -> AdapterConfig {
    let mut adapter = AdapterConfig::default();
    adapter.domains = domains;
    adapter.qps = 1;
    adapter
}

/// Two domains on the first adapter and one on the second, with a queue pair each.
fn config() -> Config {
    let mut adapters = ArrayVec::new();
    let _ = adapters.try_push(adapter(2));
    let _ = adapters.try_push(adapter(1));
    Config {
        adapters,
        events: 100,
    }
}

/// The engine offers exactly these, and this is told of each.
fn goes<R: Abort>(rt: &R, engine: &mut Engine, wants: &[Offer], outcome: Outcome, what: &str) {
    for want in wants {
        assert!(rt; engine.next() == *want, "{what}");
        engine.tell(outcome);
    }
}
