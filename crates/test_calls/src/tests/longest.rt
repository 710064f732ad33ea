use super::{Call, call_is, list_of, rows_are};
use ca_base::{Change, Field, Pages, Piece, SendOp, SendRequest, Slot, State};
use ca_model::{Answer, Refusal, Verb};
use std::process::Abort;
use std::test::Fail;
use test_trace::RIGHTS;
use test_trace::longest::{DOMAIN, KEY, LONG, QUEUE, WORD};

const SLOT: Slot = Slot {
    domain: DOMAIN,
    slot: 65_535,
};

const PIECE: Piece = Piece {
    address: LONG,
    key: KEY,
    length: WORD,
};

/// The lines of the longest calls and their answers.
const CALLED: &str =
    "@18446744073709551615 p0 c4294967295 reg 255/255/65535 65535 4294967295 4294967295 lrwab -> key 0xffffffff
@18446744073709551615 p0 c4294967295 qp 255/255/65535 65535 65535 65535 65535 65535 -> qp 4294967295 4294967295
@18446744073709551615 p0 c4294967295 rtr 255/255/65535 255/4294967295 4294967295 4294967295 65535 255 -> refused out-of-range:incarnation
@18446744073709551615 p0 c4294967295 query 255/255/65535 -> state reset 4294967295 65535 65535
@18446744073709551615 p0 c4294967295 load 255/65535 4294967295 4294967295 -> refused rights-need-local-write
@18446744073709551615 p0 c4294967295 post 255/255/65535 18446744073709551615 sfe bind2 65535 0xffffffff 255 0xffffffffffffffff 4294967295 lrwab -> posted 0xffffffff";

const CALLS: [Call; 6] = [
    Call(
        LONG,
        WORD,
        Verb::RegMr {
            slot: SLOT,
            buffer: 65_535,
            offset: WORD,
            length: WORD,
            rights: RIGHTS,
        },
        Answer::Key(KEY),
    ),
    Call(
        LONG,
        WORD,
        Verb::CreateQp {
            slot: SLOT,
            send_cq: 65_535,
            recv_cq: 65_535,
            send_depth: 65_535,
            recv_depth: 65_535,
            srq: Some(65_535),
        },
        Answer::Queue {
            number: WORD,
            incarnation: WORD,
        },
    ),
    Call(
        LONG,
        WORD,
        Verb::ModifyQp {
            slot: SLOT,
            change: Change::Rtr {
                peer: QUEUE,
                incarnation: WORD,
                psn: WORD,
                mtu: 65_535,
                rnr_code: 255,
            },
        },
        Answer::Refused(Refusal::OutOfRange(Field::Incarnation)),
    ),
    Call(
        LONG,
        WORD,
        Verb::QueryQp { slot: SLOT },
        Answer::Query {
            state: State::Reset,
            incarnation: WORD,
            sends: 65_535,
            receives: 65_535,
        },
    ),
    Call(
        LONG,
        WORD,
        Verb::Load {
            adapter: 255,
            buffer: 65_535,
            offset: WORD,
            length: WORD,
        },
        Answer::Refused(Refusal::RightsNeedLocalWrite),
    ),
    Call(
        LONG,
        WORD,
        Verb::PostSend {
            slot: SLOT,
            request: SendRequest {
                id: LONG,
                signalled: true,
                fence: true,
                solicited: true,
                op: SendOp::Bind2 {
                    window: 65_535,
                    region: KEY,
                    low: 255,
                    address: LONG,
                    length: WORD,
                    rights: RIGHTS,
                },
            },
        },
        Answer::Posted(Some(KEY)),
    ),
];

#[test]
fn the_longest_calls_print(rt: HostRuntime) -> Result<(), Fail> {
    rows_are(&rt, CALLS.as_slice(), CALLED)
}

// The entry of a request that was posted is this line.
fn post_is<R: Abort + AllocGlobal>(rt: &R, op: SendOp, want: &str) -> Result<(), Fail> {
    let verb = Verb::PostSend {
        slot: SLOT,
        request: SendRequest {
            id: LONG,
            signalled: true,
            fence: true,
            solicited: true,
            op,
        },
    };
    call_is(rt, LONG, WORD, verb, Answer::Posted(Some(KEY)), want)
}

#[test]
fn the_longest_requests_print(rt: HostRuntime) -> Result<(), Fail> {
    let op = SendOp::CmpSwap {
        address: LONG,
        key: KEY,
        compare: LONG,
        swap: LONG,
        list: list_of(&[PIECE, PIECE, PIECE, PIECE]),
    };
    let line =
        "@18446744073709551615 p0 c4294967295 post 255/255/65535 18446744073709551615 sfe cas 0xffffffffffffffff 0xffffffff 18446744073709551615 18446744073709551615 0xffffffff:0xffffffffffffffff:4294967295,0xffffffff:0xffffffffffffffff:4294967295,0xffffffff:0xffffffffffffffff:4294967295,0xffffffff:0xffffffffffffffff:4294967295 -> posted 0xffffffff";
    post_is(&rt, op, line)?;
    let op = SendOp::FastReg {
        region: 65_535,
        low: 255,
        buffer: 65_535,
        address: LONG,
        length: WORD,
        rights: RIGHTS,
        pages: Pages::copy_of(rt.alloc(), [65_535u16, 65_535].as_slice())?,
    };
    let line =
        "@18446744073709551615 p0 c4294967295 post 255/255/65535 18446744073709551615 sfe fastreg 65535 255 65535 0xffffffffffffffff 4294967295 lrwab 65535,65535 -> posted 0xffffffff";
    post_is(&rt, op, line)
}
