mod effects;
mod ranges;
mod table;

use arrayvec::ArrayVec;
use ca_base::{AdapterConfig, Config, DomainId, QueueId, Settings};
use ca_qpstate::{Change, Field, ModifyRefusal, QueuePart};
use std::alloc::Global;
use std::process::Abort;

/// The queue pair of the tests: slot 1 of domain 0.
const QUEUE: QueueId = QueueId {
    adapter: 0,
    number: 257,
};

/// Its peer: slot 0 of domain 1.
const PEER: QueueId = QueueId {
    adapter: 0,
    number: 512,
};

const DOMAIN: DomainId = DomainId {
    adapter: 0,
    domain: 0,
};

const TO_RTR: Change = Change::Rtr {
    peer: PEER,
    incarnation: 7,
    psn: 0x12_3456,
    mtu: 1024,
    rnr_code: 12,
};

const TO_RTS: Change = Change::Rts {
    psn: 0xAB_CDEF,
    retry: 3,
    rnr_retry: 5,
    reads: 16,
};

// The answers of a change, each by a number.
const DONE: u8 = 0;

const TRANSITION: u8 = 1;

const WINDOWS_BOUND: u8 = 2;

const PEER_OUT: u8 = 3;

const INCARNATION_OUT: u8 = 4;

const PSN_OUT: u8 = 5;

const MTU_OUT: u8 = 6;

const RNR_CODE_OUT: u8 = 7;

const RETRY_OUT: u8 = 8;

const RNR_RETRY_OUT: u8 = 9;

const READS_OUT: u8 = 10;

const OTHER_OUT: u8 = 11;

fn number_of_field(field: Field) -> u8 {
    match field {
        Field::Peer => PEER_OUT,
        Field::Incarnation => INCARNATION_OUT,
        Field::Psn => PSN_OUT,
        Field::Mtu => MTU_OUT,
        Field::RnrCode => RNR_CODE_OUT,
        Field::Retry => RETRY_OUT,
        Field::RnrRetry => RNR_RETRY_OUT,
        Field::Reads => READS_OUT,
        _ => OTHER_OUT,
    }
}

fn number_of_answer(answer: Result<(), ModifyRefusal>) -> u8 {
    match answer {
        Ok(()) => DONE,
        Err(ModifyRefusal::Transition) => TRANSITION,
        Err(ModifyRefusal::WindowsBound) => WINDOWS_BOUND,
        Err(ModifyRefusal::OutOfRange(field)) => number_of_field(field),
    }
}

fn adapter(domains: u8, qps: u16) -> AdapterConfig {
    AdapterConfig {
        buffers: ArrayVec::new(),
        domains,
        regions: 1,
        windows: 1,
        cqs: 9,
        srqs: 9,
        qps,
    }
}

// Adapter 0 has two domains of three queue pairs, and adapter 1 has one of two.
fn settings(rt: &impl Abort) -> Settings {
    let mut adapters = ArrayVec::new();
    let first = adapters.try_push(adapter(2, 3)).is_ok();
    let second = adapters.try_push(adapter(1, 2)).is_ok();
    assert!(rt; first && second);
    Settings::of(&Config {
        adapters,
        events: 100,
    })
}

// A queue pair in Reset, in its first incarnation, with queues of two requests.
fn created(rt: &impl Abort, alloc: Global) -> QueuePart {
    QueuePart::create(alloc, QUEUE, DOMAIN, 1, 3, 4, 2, 2, None).expect(rt, "memory is ample")
}

// The answer of a change, by its number.
fn modify(rt: &impl Abort, q: &mut QueuePart, settings: &Settings, change: &Change) -> u8 {
    assert!(rt; q.incarnation < 1000);
    let tested = match q.modify_refusal(settings, change) {
        Some(refusal) => number_of_answer(Err(refusal)),
        None => DONE,
    };
    let answer = number_of_answer(q.modify(settings, change));
    same(rt, tested, answer, "why it is refused");
    answer
}

// Tries a change, which has to give this answer and then to stand in this state.
fn tries(
    rt: &impl Abort,
    q: &mut QueuePart,
    settings: &Settings,
    change: &Change,
    (want, state): (u8, u8),
) {
    same(rt, modify(rt, q, settings, change), want, "the answer");
    same(rt, q.state as u8, state, "the state after it");
}

// A change that has to be done.
fn change(rt: &impl Abort, q: &mut QueuePart, settings: &Settings, change: &Change) {
    let answer = modify(rt, q, settings, change);
    same(rt, answer, DONE, "a change on the way");
}

fn same(rt: &impl Abort, got: u8, want: u8, what: &str) {
    assert_eq!(rt; got, want, "{what}");
}
