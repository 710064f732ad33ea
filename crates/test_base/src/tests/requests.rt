use super::{DOMAIN, PIECES, QUEUE, copy_of, holds, list_of_two};
use ca_base::{
    Bytes, Denial, Grant, Key, Message, Pages, RecvRequest, Rights, Run, Runs, SendOp, SendRequest,
    Verdict,
};
use std::alloc::Global;

const RIGHTS: Rights = Rights {
    local_write: true,
    remote_read: true,
    remote_write: false,
    remote_atomic: false,
    window_bind: true,
};

const RUN: Run = Run {
    adapter: 0,
    buffer: 0,
    offset: 16,
    length: 64,
};

fn is_read(verdict: &Verdict) -> bool {
    match verdict {
        Verdict::Read(bytes) => bytes.as_slice() == b"abc".as_slice(),
        _ => false,
    }
}

fn is_wrote(verdict: &Verdict) -> bool {
    match verdict {
        Verdict::Wrote(bytes) => bytes.as_slice().is_empty(),
        _ => false,
    }
}

fn read(alloc: Global) -> Option<Verdict> {
    Some(Verdict::Read(Bytes::copy_of(alloc, b"abc").ok()?))
}

#[test]
fn verdicts_are_copied(rt: HostRuntime) {
    let verdict = read(rt.alloc()).and_then(copy_of);
    holds(
        &rt,
        matches!(&verdict, Some(verdict) if is_read(verdict)),
        "bytes",
    );
    let verdict = copy_of(Verdict::Wrote(Bytes::empty(rt.alloc())));
    holds(
        &rt,
        matches!(&verdict, Some(verdict) if is_wrote(verdict)),
        "no bytes",
    );
    let verdict = copy_of(Verdict::Swapped { found: 1, put: 2 });
    holds(
        &rt,
        matches!(&verdict, Some(Verdict::Swapped { found: 1, put: 2 })),
        "numbers",
    );
    let verdict = copy_of(Verdict::Denied(Denial::OutOfRange));
    holds(
        &rt,
        matches!(&verdict, Some(Verdict::Denied(Denial::OutOfRange))),
        "the part that failed",
    );
}

fn grant(alloc: Global) -> Option<Grant> {
    Some(Grant {
        key: Key(1),
        domain: DOMAIN,
        queue: Some(QUEUE),
        local: true,
        address: 4_294_967_312,
        length: 64,
        rights: RIGHTS,
        runs: Runs::copy_of(alloc, [RUN].as_slice()).ok()?,
    })
}

fn is_the_grant(grant: &Grant) -> bool {
    grant.key == Key(1)
        && grant.domain == DOMAIN
        && grant.queue == Some(QUEUE)
        && grant.local
        && grant.address == 4_294_967_312
        && grant.length == 64
        && grant.rights == RIGHTS
        && grant.runs.as_slice() == [RUN].as_slice()
}

#[test]
fn a_grant_is_copied(rt: HostRuntime) {
    let grant = grant(rt.alloc()).and_then(copy_of);
    holds(
        &rt,
        matches!(&grant, Some(grant) if is_the_grant(grant)),
        "the grant",
    );
}

fn is_fast_registration(op: &SendOp) -> bool {
    match op {
        SendOp::FastReg {
            region,
            low,
            buffer,
            address,
            length,
            rights,
            pages,
        } => {
            *region == 2
                && *low == 7
                && *buffer == 1
                && *address == 8_589_934_592
                && *length == 8192
                && *rights == RIGHTS
                && pages.as_slice() == [5u16, 3].as_slice()
        }
        _ => false,
    }
}

fn is_send(op: &SendOp) -> bool {
    match op {
        SendOp::Send { list } => list.as_slice() == PIECES.as_slice(),
        _ => false,
    }
}

fn fast_registration(alloc: Global) -> Option<SendOp> {
    Some(SendOp::FastReg {
        region: 2,
        low: 7,
        buffer: 1,
        address: 8_589_934_592,
        length: 8192,
        rights: RIGHTS,
        pages: Pages::copy_of(alloc, [5u16, 3].as_slice()).ok()?,
    })
}

fn send() -> Option<SendOp> {
    Some(SendOp::Send {
        list: list_of_two()?,
    })
}

#[test]
fn operations_are_copied(rt: HostRuntime) {
    let op = fast_registration(rt.alloc()).and_then(copy_of);
    holds(
        &rt,
        matches!(&op, Some(op) if is_fast_registration(op)),
        "the registration",
    );
    let op = send().and_then(copy_of);
    holds(&rt, matches!(&op, Some(op) if is_send(op)), "the list");
}

fn send_request() -> Option<SendRequest> {
    Some(SendRequest {
        id: 9,
        signalled: true,
        fence: false,
        solicited: true,
        op: send()?,
    })
}

fn is_send_request(request: &SendRequest) -> bool {
    request.id == 9
        && request.signalled
        && !request.fence
        && request.solicited
        && is_send(&request.op)
}

fn receive() -> Option<RecvRequest> {
    Some(RecvRequest {
        id: 8,
        list: list_of_two()?,
    })
}

fn is_receive(receive: &RecvRequest) -> bool {
    receive.id == 8 && receive.list.as_slice() == PIECES.as_slice()
}

#[test]
fn requests_are_copied(rt: HostRuntime) {
    let request = send_request().and_then(copy_of);
    holds(
        &rt,
        matches!(&request, Some(request) if is_send_request(request)),
        "the request",
    );
    let request = receive().and_then(copy_of);
    holds(
        &rt,
        matches!(&request, Some(request) if is_receive(request)),
        "the receive",
    );
}

fn is_the_send(message: &Message) -> bool {
    match message {
        Message::Send {
            place,
            receive,
            bytes,
        } => { *place == 3 && *bytes == 256 && is_receive(receive) }
        Message::Write { .. } => false,
    }
}

fn is_the_write(message: &Message) -> bool {
    match message {
        Message::Write {
            key,
            address,
            left,
            length,
        } => *key == Key(1) && *address == 4_294_967_296 && *left == 256 && *length == 512,
        Message::Send { .. } => false,
    }
}

fn send_in_progress() -> Option<Message> {
    Some(Message::Send {
        place: 3,
        receive: receive()?,
        bytes: 256,
    })
}

const WRITE_IN_PROGRESS: Message = Message::Write {
    key: Key(1),
    address: 4_294_967_296,
    left: 256,
    length: 512,
};

#[test]
fn messages_are_copied(rt: HostRuntime) {
    let message = send_in_progress().and_then(copy_of);
    holds(
        &rt,
        matches!(&message, Some(message) if is_the_send(message)),
        "the SEND",
    );
    let message = copy_of(WRITE_IN_PROGRESS);
    holds(
        &rt,
        matches!(&message, Some(message) if is_the_write(message)),
        "the WRITE",
    );
}
