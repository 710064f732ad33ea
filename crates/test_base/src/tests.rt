mod configurations;
mod histories;
mod lists;
mod requests;

use arrayvec::ArrayVec;
use ca_base::{DomainId, Key, Piece, QueueId, Slot};
use std::process::Abort;

const DOMAIN: DomainId = DomainId {
    adapter: 0,
    domain: 0,
};

const SLOT: Slot = Slot {
    domain: DOMAIN,
    slot: 0,
};

const QUEUE: QueueId = QueueId {
    adapter: 0,
    number: 256,
};

const PIECES: [Piece; 2] = [
    Piece {
        address: 4_294_967_296,
        key: Key(1),
        length: 64,
    },
    Piece {
        address: 4_294_967_360,
        key: Key(257),
        length: 0,
    },
];

fn holds(rt: &impl Abort, is: bool, what: &str) {
    assert!(rt; is, "{what}");
}

// A copy of a value, which is given up: so one value lives at a time.
fn copy_of<T: Clone + Drop>(value: T) -> Option<T> {
    value.clone().ok()
}

fn list_of_two() -> Option<ArrayVec<Piece, 4>> {
    ArrayVec::try_from(PIECES.as_slice()).ok()
}
