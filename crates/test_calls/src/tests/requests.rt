use super::{call_is, list_of};
use ca_base::{Bytes, DomainId, Key, Pages, Piece, RecvRequest, SendOp, SendRequest, Slot};
use ca_model::{Answer, Refusal, Verb};
use std::process::Abort;
use std::test::Fail;
use test_trace::{OTHER_QUEUE, OTHER_SLOT, RIGHTS, SLOT};

fn piece(address: u64, key: u32, length: u32) -> Piece {
    Piece {
        address,
        key: Key(key),
        length,
    }
}

fn slot(adapter: u8, domain: u8, slot: u16) -> Slot {
    Slot {
        domain: DomainId { adapter, domain },
        slot,
    }
}

// The entry of a request that was posted, signalled, is this line.
fn post_is<R: Abort + AllocGlobal>(
    rt: &R,
    stamp: u64,
    by: u32,
    slot: Slot,
    id: u64,
    op: SendOp,
    want: &str,
) -> Result<(), Fail> {
    let request = SendRequest {
        id,
        signalled: true,
        fence: false,
        solicited: false,
        op,
    };
    let verb = Verb::PostSend { slot, request };
    call_is(rt, stamp, by, verb, Answer::Posted(None), want)
}

#[test]
fn sends_print_their_lists(rt: HostRuntime) -> Result<(), Fail> {
    let list = list_of(&[
        piece(0x1_0000_72a6, 0x101, 5),
        piece(0x1_0000_eb5b, 1, 1),
        piece(0x1_0000_2efa, 0x101, 0),
        piece(0x1_0000_a1aa, 1, 2),
    ]);
    let line =
        "@112 p0 c0 post 0/0/0 4 s send 0x00000101:0x1000072a6:5,0x00000001:0x10000eb5b:1,0x00000101:0x100002efa:0,0x00000001:0x10000a1aa:2 -> posted -";
    post_is(&rt, 112, 0, SLOT, 4, SendOp::Send { list }, line)?;
    let op = SendOp::SendImm {
        imm: 2_729_858_276,
        list: list_of(&[]),
    };
    let line = "@92 p0 c1 post 1/0/0 4 s sendimm 2729858276 - -> posted -";
    post_is(&rt, 92, 1, OTHER_SLOT, 4, op, line)?;
    let op = SendOp::SendInv {
        key: Key(0x0080_01ff),
        list: list_of(&[]),
    };
    let line = "@170 p0 c2 post 1/1/1 3 s sendinv 0x008001ff - -> posted -";
    post_is(&rt, 170, 2, slot(1, 1, 1), 3, op, line)
}

#[test]
fn accesses_print_what_they_reach(rt: HostRuntime) -> Result<(), Fail> {
    let op = SendOp::Read {
        address: 0x3_0001_07d1,
        key: Key(0x0100_0001),
        list: list_of(&[]),
    };
    let line = "@42 p0 c0 post 0/0/0 5 s read 0x3000107d1 0x01000001 - -> posted -";
    post_is(&rt, 42, 0, SLOT, 5, op, line)?;
    let op = SendOp::WriteImm {
        address: 0x1_0000_2c5e,
        key: Key(0x0200_0101),
        imm: 2_928_881_333,
        list: list_of(&[]),
    };
    let line = "@80 p0 c0 post 0/0/0 2 s writeimm 0x100002c5e 0x02000101 2928881333 - -> posted -";
    post_is(&rt, 80, 0, SLOT, 2, op, line)?;
    let op = SendOp::Write {
        address: 0,
        key: Key(0xdead_beef),
        list: list_of(&[]),
    };
    let line = "@14 p0 c0 post 0/0/0 1 s write 0x0 0xdeadbeef - -> posted -";
    post_is(&rt, 14, 0, SLOT, 1, op, line)
}

#[test]
fn atomics_print_their_numbers(rt: HostRuntime) -> Result<(), Fail> {
    let op = SendOp::CmpSwap {
        address: 0x1_0000_0030,
        key: Key(0x0100_0201),
        compare: 0,
        swap: 7,
        list: list_of(&[piece(0, 1, 8)]),
    };
    let line =
        "@52 p0 c0 post 0/0/0 4 s cas 0x100000030 0x01000201 0 7 0x00000001:0x0:8 -> posted -";
    post_is(&rt, 52, 0, SLOT, 4, op, line)?;
    let op = SendOp::FetchAdd {
        address: 0x1_0000_7e40,
        key: Key(0x101),
        add: 1,
        list: list_of(&[piece(0x2cac, 0x0100_0307, 8)]),
    };
    let line =
        "@94 p0 c0 post 0/1/0 5 s add 0x100007e40 0x00000101 1 0x01000307:0x2cac:8 -> posted -";
    post_is(&rt, 94, 0, slot(0, 1, 0), 5, op, line)
}

#[test]
fn a_fast_registration_prints_its_pages(rt: HostRuntime) -> Result<(), Fail> {
    let op = SendOp::FastReg {
        region: 1,
        low: 7,
        buffer: 0,
        address: 0xffa,
        length: 12,
        rights: RIGHTS,
        pages: Pages::copy_of(rt.alloc(), [3u16, 1].as_slice())?,
    };
    let line = "@15 p0 c0 post 0/0/0 1 s fastreg 1 7 0 0xffa 12 lrwab 3,1 -> posted -";
    post_is(&rt, 15, 0, SLOT, 1, op, line)
}

#[test]
fn receives_print_their_lists(rt: HostRuntime) -> Result<(), Fail> {
    let request = RecvRequest {
        id: 1021,
        list: list_of(&[piece(0x1_0000_0c14, 0x201, 4)]),
    };
    let slot = slot(0, 0, 2);
    let line = "@97 p0 c0 recv 0/0/2 1021 0x00000201:0x100000c14:4 -> refused has-srq";
    let answer = Answer::Refused(Refusal::HasSrq);
    call_is(&rt, 97, 0, Verb::PostRecv { slot, request }, answer, line)
}

#[test]
fn shared_receives_print_their_lists(rt: HostRuntime) -> Result<(), Fail> {
    let request = RecvRequest {
        id: 1003,
        list: list_of(&[]),
    };
    let slot = slot(0, 2, 0);
    let line = "@52 p0 c2 srecv 0/2/0 1003 - -> posted -";
    let answer = Answer::Posted(None);
    call_is(&rt, 52, 2, Verb::PostSrq { slot, request }, answer, line)
}

fn store(bytes: Bytes) -> Verb {
    Verb::Store {
        adapter: 0,
        buffer: 0,
        offset: 0,
        bytes,
    }
}

const LOAD: Verb = Verb::Load {
    adapter: 1,
    buffer: 0,
    offset: 0,
    length: 1,
};

#[test]
fn calls_with_bytes_print_them(rt: HostRuntime) -> Result<(), Fail> {
    let verb = store(Bytes::copy_of(rt.alloc(), b"\xab".as_slice())?);
    let line = "@14 p0 c0 store 0/0 0 ab -> ok";
    call_is(&rt, 14, 0, verb, Answer::Fine, line)?;
    let verb = Verb::Inject {
        queue: OTHER_QUEUE,
        bytes: Bytes::empty(rt.alloc()),
    };
    let line = "@14 p0 c0 inject 1/256 - -> ok";
    call_is(&rt, 14, 0, verb, Answer::Fine, line)?;
    let answer = Answer::Loaded(Bytes::copy_of(rt.alloc(), b"\x00".as_slice())?);
    let line = "@19 p0 c1 load 1/0 0 1 -> bytes 00";
    call_is(&rt, 19, 1, LOAD, answer, line)
}
