use super::{Call, call_text, rows_are};
use ca_base::{Change, DomainId, Field, Key, Memory, Rights, SendOp, SendRequest, Slot, State};
use ca_model::{Answer, Refusal, Verb};
use std::alloc::Global;
use std::test::Fail;
use test_trace::{HERE, OTHER_QUEUE, OTHER_SLOT, Row, SLOT};

/// The lines of calls that make an object or end it.
const MADE: &str = "@0 p0 c0 pd 0/0 -> ok
@87 p0 c0 unpd 0/3 -> refused no-domain
@3 p0 c0 reg 0/0/0 0 0 64 l -> key 0x00000001
@6 p0 c0 reg 0/0/0 1 0 35000 - -> key 0x00000001
@6 p0 c0 mr 0/0/3 4 -> ok
@20 p0 c0 dereg 0/0/0 -> ok
@9 p0 c0 mw 0/0/0 1 -> ok
@19 p0 c0 unmw 0/0/0 -> ok
@1 p0 c0 cq 0/0/0 8 -> ok
@52 p0 c0 uncq 0/0/0 -> refused cq-in-use
@5 p0 c1 srq 1/0/0 4 -> ok
@69 p0 c1 unsrq 0/1/0 -> ok
@2 p0 c0 qp 0/0/0 0 0 4 4 - -> qp 256 1
@3 p0 c0 qp 0/0/0 0 0 1 0 0 -> qp 256 1
@55 p0 c0 unqp 0/0/0 -> ok";

/// The stamp, the consumer, the verb and its answer of each line.
const MAKING: [Call; 15] = [
    Call(0, 0, Verb::AllocPd { domain: HERE }, Answer::Fine),
    Call(
        87,
        0,
        Verb::DeallocPd {
            domain: DomainId {
                adapter: 0,
                domain: 3,
            },
        },
        Answer::Refused(Refusal::NoDomain),
    ),
    Call(
        3,
        0,
        Verb::RegMr {
            slot: SLOT,
            buffer: 0,
            offset: 0,
            length: 64,
            rights: Rights {
                local_write: true,
                remote_read: false,
                remote_write: false,
                remote_atomic: false,
                window_bind: false,
            },
        },
        Answer::Key(Key(0x00000001)),
    ),
    Call(
        6,
        0,
        Verb::RegMr {
            slot: SLOT,
            buffer: 1,
            offset: 0,
            length: 35000,
            rights: Rights {
                local_write: false,
                remote_read: false,
                remote_write: false,
                remote_atomic: false,
                window_bind: false,
            },
        },
        Answer::Key(Key(0x00000001)),
    ),
    Call(
        6,
        0,
        Verb::AllocMr {
            slot: Slot {
                domain: HERE,
                slot: 3,
            },
            pages: 4,
        },
        Answer::Fine,
    ),
    Call(20, 0, Verb::DeregMr { slot: SLOT }, Answer::Fine),
    Call(
        9,
        0,
        Verb::AllocMw {
            slot: SLOT,
            kind: 1,
        },
        Answer::Fine,
    ),
    Call(19, 0, Verb::DeallocMw { slot: SLOT }, Answer::Fine),
    Call(
        1,
        0,
        Verb::CreateCq {
            slot: SLOT,
            capacity: 8,
        },
        Answer::Fine,
    ),
    Call(
        52,
        0,
        Verb::DestroyCq { slot: SLOT },
        Answer::Refused(Refusal::CqInUse),
    ),
    Call(
        5,
        1,
        Verb::CreateSrq {
            slot: OTHER_SLOT,
            depth: 4,
        },
        Answer::Fine,
    ),
    Call(
        69,
        1,
        Verb::DestroySrq {
            slot: Slot {
                domain: DomainId {
                    adapter: 0,
                    domain: 1,
                },
                slot: 0,
            },
        },
        Answer::Fine,
    ),
    Call(
        2,
        0,
        Verb::CreateQp {
            slot: SLOT,
            send_cq: 0,
            recv_cq: 0,
            send_depth: 4,
            recv_depth: 4,
            srq: None,
        },
        Answer::Queue {
            number: 256,
            incarnation: 1,
        },
    ),
    Call(
        3,
        0,
        Verb::CreateQp {
            slot: SLOT,
            send_cq: 0,
            recv_cq: 0,
            send_depth: 1,
            recv_depth: 0,
            srq: Some(0),
        },
        Answer::Queue {
            number: 256,
            incarnation: 1,
        },
    ),
    Call(55, 0, Verb::DestroyQp { slot: SLOT }, Answer::Fine),
];

#[test]
fn calls_that_make_and_end_objects_print(rt: HostRuntime) -> Result<(), Fail> {
    rows_are(&rt, MAKING.as_slice(), MADE)
}

/// The lines of calls on objects that stand. The last five have a poll that takes fewer than it may and states that the
/// others lack.
const USED: &str = "@5 p0 c1 reset 0/0/0 -> ok
@4 p0 c0 init 0/0/0 -> ok
@5 p0 c0 rtr 0/0/0 1/256 1 0 256 12 -> ok
@9 p0 c0 rts 0/0/1 0 7 7 2 -> ok
@47 p0 c1 sqd 1/0/0 -> ok
@50 p0 c1 resume 1/0/0 -> ok
@49 p0 c0 error 0/0/0 -> ok
@23 p0 c0 query 0/0/0 -> state reset 2 0 0
@51 p0 c2 query 1/1/1 -> state rts 1 0 0
@286 p0 c2 query 0/2/1 -> state error 2 1 0
@28 p0 c0 poll 0/0/0 0 -> refused out-of-range:length
@116 p0 c1 load 0/0 2772 4096 -> refused outside-buffer
@51 p0 c0 post 0/0/0 3 - bind1 2 0x00000201 0x200000000 0 r -> posted 0x00800201
@15 p0 c0 post 0/0/0 1 s bind2 0 0x00000001 9 0x100000000 64 w -> posted -
@71 p0 c1 post 1/0/0 7 - inv 0x01000001 -> posted -
@104 p0 c0 post 0/0/1 10 sfe inv 0x00000300 -> posted -
@28 p0 c0 poll 0/0/0 2 1 -> refused no-such
@28 p0 c0 wait 0/0/0 2 -> refused no-such
@23 p0 c0 query 0/0/0 -> state init 1 0 0
@23 p0 c0 query 0/0/0 -> state rtr 1 0 0
@23 p0 c0 query 0/0/0 -> state sqd 1 0 0";

/// The same of each of these lines.
const USING: [Call; 21] = [
    Call(
        5,
        1,
        Verb::ModifyQp {
            slot: SLOT,
            change: Change::Reset,
        },
        Answer::Fine,
    ),
    Call(
        4,
        0,
        Verb::ModifyQp {
            slot: SLOT,
            change: Change::Init,
        },
        Answer::Fine,
    ),
    Call(
        5,
        0,
        Verb::ModifyQp {
            slot: SLOT,
            change: Change::Rtr {
                peer: OTHER_QUEUE,
                incarnation: 1,
                psn: 0,
                mtu: 256,
                rnr_code: 12,
            },
        },
        Answer::Fine,
    ),
    Call(
        9,
        0,
        Verb::ModifyQp {
            slot: Slot {
                domain: HERE,
                slot: 1,
            },
            change: Change::Rts {
                psn: 0,
                retry: 7,
                rnr_retry: 7,
                reads: 2,
            },
        },
        Answer::Fine,
    ),
    Call(
        47,
        1,
        Verb::ModifyQp {
            slot: OTHER_SLOT,
            change: Change::Sqd,
        },
        Answer::Fine,
    ),
    Call(
        50,
        1,
        Verb::ModifyQp {
            slot: OTHER_SLOT,
            change: Change::Resume,
        },
        Answer::Fine,
    ),
    Call(
        49,
        0,
        Verb::ModifyQp {
            slot: SLOT,
            change: Change::Error,
        },
        Answer::Fine,
    ),
    Call(
        23,
        0,
        Verb::QueryQp { slot: SLOT },
        Answer::Query {
            state: State::Reset,
            incarnation: 2,
            sends: 0,
            receives: 0,
        },
    ),
    Call(
        51,
        2,
        Verb::QueryQp {
            slot: Slot {
                domain: DomainId {
                    adapter: 1,
                    domain: 1,
                },
                slot: 1,
            },
        },
        Answer::Query {
            state: State::Rts,
            incarnation: 1,
            sends: 0,
            receives: 0,
        },
    ),
    Call(
        286,
        2,
        Verb::QueryQp {
            slot: Slot {
                domain: DomainId {
                    adapter: 0,
                    domain: 2,
                },
                slot: 1,
            },
        },
        Answer::Query {
            state: State::Error,
            incarnation: 2,
            sends: 1,
            receives: 0,
        },
    ),
    Call(
        28,
        0,
        Verb::Poll {
            slot: SLOT,
            n: 0,
            least: 0,
        },
        Answer::Refused(Refusal::OutOfRange(Field::Length)),
    ),
    Call(
        116,
        1,
        Verb::Load {
            adapter: 0,
            buffer: 0,
            offset: 2772,
            length: 4096,
        },
        Answer::Refused(Refusal::OutsideBuffer),
    ),
    Call(
        51,
        0,
        Verb::PostSend {
            slot: SLOT,
            request: SendRequest {
                id: 3,
                signalled: false,
                fence: false,
                solicited: false,
                op: SendOp::Bind1 {
                    window: 2,
                    region: Key(0x00000201),
                    address: 0x200000000,
                    length: 0,
                    rights: Rights {
                        local_write: false,
                        remote_read: true,
                        remote_write: false,
                        remote_atomic: false,
                        window_bind: false,
                    },
                },
            },
        },
        Answer::Posted(Some(Key(0x00800201))),
    ),
    Call(
        15,
        0,
        Verb::PostSend {
            slot: SLOT,
            request: SendRequest {
                id: 1,
                signalled: true,
                fence: false,
                solicited: false,
                op: SendOp::Bind2 {
                    window: 0,
                    region: Key(0x00000001),
                    low: 9,
                    address: 0x100000000,
                    length: 64,
                    rights: Rights {
                        local_write: false,
                        remote_read: false,
                        remote_write: true,
                        remote_atomic: false,
                        window_bind: false,
                    },
                },
            },
        },
        Answer::Posted(None),
    ),
    Call(
        71,
        1,
        Verb::PostSend {
            slot: OTHER_SLOT,
            request: SendRequest {
                id: 7,
                signalled: false,
                fence: false,
                solicited: false,
                op: SendOp::LocalInv {
                    key: Key(0x01000001),
                },
            },
        },
        Answer::Posted(None),
    ),
    Call(
        104,
        0,
        Verb::PostSend {
            slot: Slot {
                domain: HERE,
                slot: 1,
            },
            request: SendRequest {
                id: 10,
                signalled: true,
                fence: true,
                solicited: true,
                op: SendOp::LocalInv {
                    key: Key(0x00000300),
                },
            },
        },
        Answer::Posted(None),
    ),
    Call(
        28,
        0,
        Verb::Poll {
            slot: SLOT,
            n: 2,
            least: 1,
        },
        Answer::Refused(Refusal::NoSuch),
    ),
    Call(
        28,
        0,
        Verb::Poll {
            slot: SLOT,
            n: 2,
            least: 2,
        },
        Answer::Refused(Refusal::NoSuch),
    ),
    Call(
        23,
        0,
        Verb::QueryQp { slot: SLOT },
        Answer::Query {
            state: State::Init,
            incarnation: 1,
            sends: 0,
            receives: 0,
        },
    ),
    Call(
        23,
        0,
        Verb::QueryQp { slot: SLOT },
        Answer::Query {
            state: State::Rtr,
            incarnation: 1,
            sends: 0,
            receives: 0,
        },
    ),
    Call(
        23,
        0,
        Verb::QueryQp { slot: SLOT },
        Answer::Query {
            state: State::Sqd,
            incarnation: 1,
            sends: 0,
            receives: 0,
        },
    ),
];

#[test]
fn calls_on_objects_print_with_their_answers(rt: HostRuntime) -> Result<(), Fail> {
    rows_are(&rt, USING.as_slice(), USED)
}

/// Each refusal, as it stands in the line of one call.
const REFUSED: &str = "@52 p0 c0 uncq 0/0/0 -> refused no-such
@52 p0 c0 uncq 0/0/0 -> refused no-domain
@52 p0 c0 uncq 0/0/0 -> refused domain-taken
@52 p0 c0 uncq 0/0/0 -> refused domain-in-use
@52 p0 c0 uncq 0/0/0 -> refused slot-taken
@52 p0 c0 uncq 0/0/0 -> refused empty
@52 p0 c0 uncq 0/0/0 -> refused outside-buffer
@52 p0 c0 uncq 0/0/0 -> refused rights-need-local-write
@52 p0 c0 uncq 0/0/0 -> refused windows-bound
@52 p0 c0 uncq 0/0/0 -> refused cq-too-small
@52 p0 c0 uncq 0/0/0 -> refused cq-in-use
@52 p0 c0 uncq 0/0/0 -> refused has-srq
@52 p0 c0 uncq 0/0/0 -> refused too-long
@52 p0 c0 uncq 0/0/0 -> refused queue-state
@52 p0 c0 uncq 0/0/0 -> refused queue-full
@52 p0 c0 uncq 0/0/0 -> refused transition
@52 p0 c0 uncq 0/0/0 -> refused out-of-range:capacity
@52 p0 c0 uncq 0/0/0 -> refused out-of-range:depth
@52 p0 c0 uncq 0/0/0 -> refused out-of-range:incarnation
@52 p0 c0 uncq 0/0/0 -> refused out-of-range:kind
@52 p0 c0 uncq 0/0/0 -> refused out-of-range:length
@52 p0 c0 uncq 0/0/0 -> refused out-of-range:list
@52 p0 c0 uncq 0/0/0 -> refused out-of-range:mtu
@52 p0 c0 uncq 0/0/0 -> refused out-of-range:pages
@52 p0 c0 uncq 0/0/0 -> refused out-of-range:peer
@52 p0 c0 uncq 0/0/0 -> refused out-of-range:reads
@52 p0 c0 uncq 0/0/0 -> refused out-of-range:rnr-code
@52 p0 c0 uncq 0/0/0 -> refused srq-in-use
@52 p0 c0 uncq 0/0/0 -> refused out-of-range:psn
@52 p0 c0 uncq 0/0/0 -> refused out-of-range:retry
@52 p0 c0 uncq 0/0/0 -> refused out-of-range:rnr-retry";

/// A call that is refused so.
#[derive(Clone, Copy)]
struct Refused(Refusal);

const REFUSALS: &[Refused] = &[
    Refused(Refusal::NoSuch),
    Refused(Refusal::NoDomain),
    Refused(Refusal::DomainTaken),
    Refused(Refusal::DomainInUse),
    Refused(Refusal::SlotTaken),
    Refused(Refusal::Empty),
    Refused(Refusal::OutsideBuffer),
    Refused(Refusal::RightsNeedLocalWrite),
    Refused(Refusal::WindowsBound),
    Refused(Refusal::CqTooSmall),
    Refused(Refusal::CqInUse),
    Refused(Refusal::HasSrq),
    Refused(Refusal::TooLong),
    Refused(Refusal::QueueState),
    Refused(Refusal::QueueFull),
    Refused(Refusal::Transition),
    Refused(Refusal::OutOfRange(Field::Capacity)),
    Refused(Refusal::OutOfRange(Field::Depth)),
    Refused(Refusal::OutOfRange(Field::Incarnation)),
    Refused(Refusal::OutOfRange(Field::Kind)),
    Refused(Refusal::OutOfRange(Field::Length)),
    Refused(Refusal::OutOfRange(Field::List)),
    Refused(Refusal::OutOfRange(Field::Mtu)),
    Refused(Refusal::OutOfRange(Field::Pages)),
    Refused(Refusal::OutOfRange(Field::Peer)),
    Refused(Refusal::OutOfRange(Field::Reads)),
    Refused(Refusal::OutOfRange(Field::RnrCode)),
    Refused(Refusal::SrqInUse),
    Refused(Refusal::OutOfRange(Field::Psn)),
    Refused(Refusal::OutOfRange(Field::Retry)),
    Refused(Refusal::OutOfRange(Field::RnrRetry)),
];

impl Row for Refused {
    fn text(&self, alloc: Global) -> Result<Vec<u8>, Memory> {
        let verb = Verb::DestroyCq { slot: SLOT };
        call_text(alloc, 52, 0, &verb, &Answer::Refused(self.0))
    }
}

#[test]
fn refusals_print_their_names(rt: HostRuntime) -> Result<(), Fail> {
    rows_are(&rt, REFUSALS, REFUSED)
}
