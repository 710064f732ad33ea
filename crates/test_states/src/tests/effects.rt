use super::{DOMAIN, PEER, QUEUE, TO_RTR, TO_RTS, change, created, settings};
use arrayvec::ArrayVec;
use ca_base::{
    Key, Message, PostedSend, Queued, RecvRequest, RequesterNumbers, SendOp, SendRequest, Settings,
};
use ca_qpstate::{Change, QueuePart, State};
use std::process::Abort;

/// The first PSN 0.
const BASE: u64 = 0x100_0000;

fn numbers_are(rt: &impl Abort, got: &[u64], want: &[u64], what: &str) {
    assert_eq!(rt; got, want, "{what}");
}

fn holds(rt: &impl Abort, is: bool, what: &str) {
    assert!(rt; is, "{what}");
}

// All that a requester counts, in the order of its fields.
fn requester_is(rt: &impl Abort, r: &RequesterNumbers, want: &[u64], what: &str) {
    let got = [
        r.una,
        r.cursor,
        r.oldest,
        r.oldest_psn,
        r.next,
        u64::from(r.retries),
        r.rnrs,
        u64::from(r.waiting),
        r.timers,
        u64::from(r.retry),
        u64::from(r.rnr_retry),
        u64::from(r.reads),
    ];
    numbers_are(rt, got.as_slice(), want, what);
}

// The expected PSN, the MSN, whether a message is in progress, how many answers wait, whether a NAK was sent, the path
// MTU and the RNR code.
fn responder_is(rt: &impl Abort, q: &QueuePart, want: &[u64], what: &str) {
    let r = &q.responder;
    let got = [
        r.expected,
        u64::from(r.msn),
        u64::from(r.message.is_some()),
        r.answers.len() as u64,
        u64::from(r.nak_sent),
        u64::from(r.mtu),
        u64::from(r.rnr_code),
    ];
    numbers_are(rt, got.as_slice(), want, what);
}

fn peer_is(rt: &impl Abort, q: &QueuePart, want: bool, what: &str) {
    let is = match q.peer {
        None => false,
        Some((queue, incarnation)) => queue == PEER && incarnation == 7,
    };
    holds(rt, is == want && q.peer.is_some() == want, what);
}

fn receive(id: u64) -> RecvRequest {
    RecvRequest {
        id,
        list: ArrayVec::new(),
    }
}

fn invalidation(id: u64) -> PostedSend {
    PostedSend {
        request: SendRequest {
            id,
            signalled: true,
            fence: false,
            solicited: false,
            op: SendOp::LocalInv { key: Key(0) },
        },
        drawn: None,
    }
}

// Posts a receive at the queue pair's own queue, and says at which place.
fn post_receive(rt: &impl Abort, q: &mut QueuePart, id: u64) -> Option<u64> {
    match &mut q.receives {
        None => None,
        Some(receives) => {
            assert!(rt; receives.next_place() < 1000);
            receives.post(receive(id)).ok()
        }
    }
}

fn post_send(rt: &impl Abort, q: &mut QueuePart, id: u64) -> Option<u64> {
    assert!(rt; q.sends.next_place() < 1000);
    q.sends.post(invalidation(id)).ok()
}

// Takes the next receive of its own.
fn take_receive(q: &mut QueuePart) -> Option<u64> {
    match &mut q.receives {
        None => None,
        Some(receives) => receives.take_next(),
    }
}

// Names no peer, and counts nothing but timers.
fn is_at_start(rt: &impl Abort, q: &QueuePart, timers: u64) {
    peer_is(rt, q, false, "no peer");
    requester_is(
        rt,
        &q.requester,
        &[BASE, BASE, 0, BASE, 0, 0, 0, 0, timers, 0, 0, 0],
        "the requester at its start",
    );
    responder_is(
        rt,
        q,
        &[BASE, 0, 0, 0, 0, 256, 0],
        "the responder at its start",
    );
    holds(rt, q.saved.find(BASE + 5).is_none(), "no saved results");
}

// Two requests can be posted to each queue, from place 0 on.
fn has_empty_queues(rt: &impl Abort, q: &mut QueuePart) {
    holds(rt, take_receive(q).is_none(), "no receive waits");
    holds(rt, post_receive(rt, q, 1) == Some(0), "the first receive");
    holds(rt, post_receive(rt, q, 2) == Some(1), "the second receive");
    holds(rt, post_receive(rt, q, 3).is_none(), "a third receive");
    holds(rt, post_send(rt, q, 1) == Some(0), "the first send");
    holds(rt, post_send(rt, q, 2) == Some(1), "the second send");
    holds(rt, post_send(rt, q, 3).is_none(), "a third send");
}

// Has the names and numbers with which `created` makes it.
fn is_of_the_tests(rt: &impl Abort, q: &QueuePart, incarnation: u32) {
    holds(rt, q.queue == QUEUE && q.domain == DOMAIN, "its names");
    holds(rt, q.incarnation == incarnation, "its incarnation");
    holds(
        rt,
        q.send_cq == 3 && q.recv_cq == 4,
        "its completion queues",
    );
    holds(
        rt,
        q.srq.is_none() && q.windows.count == 0,
        "no shared queue, no windows",
    );
}

#[test]
fn a_new_queue_pair(rt: HostRuntime) {
    let mut q = created(&rt, rt.alloc());
    is_of_the_tests(&rt, &q, 1);
    is_at_start(&rt, &q, 0);
    has_empty_queues(&rt, &mut q);
}

#[test]
fn a_new_queue_pair_over_a_shared_receive_queue(rt: HostRuntime) {
    let q = QueuePart::create(rt.alloc(), QUEUE, DOMAIN, 6, 3, 4, 2, 0, Some(8)).expect(
        &rt,
        "memory is ample",
    );
    holds(
        &rt,
        q.srq == Some(8) && q.receives.is_none(),
        "no receives of its own",
    );
    holds(&rt, q.incarnation == 6, "its incarnation");
}

// Sends are posted and begun, and all else that a queue pair counts has changed.
fn busy(rt: &impl Abort, q: &mut QueuePart) {
    holds(rt, post_send(rt, q, 1) == Some(0), "a send");
    holds(rt, post_send(rt, q, 2) == Some(1), "another send");
    holds(rt, take_receive(q) == Some(0), "a receive is taken");
    q.requester.next = 1;
    q.requester.cursor = 0x1AB_CDF2;
    q.requester.una = 0x1AB_CDF0;
    q.requester.retries = 2;
    q.requester.rnrs = 4;
    q.requester.waiting = true;
    q.responder.expected = 0x112_345F;
    q.responder.msn = 8;
    q.responder.message = Some(Message::Write {
        key: Key(1),
        address: 2,
        left: 3,
        length: 4,
    });
    q.responder.nak_sent = true;
    q.saved.keep(BASE + 5, 6);
    q.responder
        .answers
        .push(Queued::Ack { psn: BASE })
        .expect(rt, "memory is ample");
}

// A queue pair in Ready to Send that is busy.
fn busy_queue(rt: &impl Abort, q: &mut QueuePart, settings: &Settings) {
    q.requester.timers = 5;
    change(rt, q, settings, &Change::Init);
    is_at_start(rt, q, 5);
    holds(rt, post_receive(rt, q, 1) == Some(0), "a receive");
    holds(rt, post_receive(rt, q, 2) == Some(1), "another receive");
    change(rt, q, settings, &TO_RTR);
    responder_is(rt, q, &[0x112_3456, 0, 0, 0, 0, 1024, 12], "in Rtr");
    peer_is(rt, q, true, "the peer from Rtr on");
    change(rt, q, settings, &TO_RTS);
    requester_is(
        rt,
        &q.requester,
        &[
            0x1AB_CDEF, 0x1AB_CDEF, 0, 0x1AB_CDEF, 0, 0, 0, 0, 5, 3, 5, 16,
        ],
        "in Rts",
    );
    busy(rt, q);
}

#[test]
fn error_flushes_what_is_posted(rt: HostRuntime) {
    let settings = settings(&rt);
    let mut q = created(&rt, rt.alloc());
    busy_queue(&rt, &mut q, &settings);
    change(&rt, &mut q, &settings, &Change::Error);
    requester_is(
        &rt,
        &q.requester,
        &[
            0x1AB_CDF0, 0x1AB_CDF2, 2, 0x1AB_CDEF, 2, 2, 4, 0, 5, 3, 5, 16,
        ],
        "the requester in Error",
    );
    responder_is(
        &rt,
        &q,
        &[0x112_345F, 8, 0, 0, 1, 1024, 12],
        "the responder in Error",
    );
    peer_is(&rt, &q, true, "the peer in Error");
    holds(
        &rt,
        q.incarnation == 1 && q.sends.occupied() == 2,
        "the sends stay until they are polled",
    );
    holds(&rt, take_receive(&mut q).is_none(), "no receive waits");
    holds(&rt, q.saved.find(BASE + 5) == Some(6), "saved results stay");
}

#[test]
fn a_move_to_error_keeps_the_response_queue(rt: HostRuntime) {
    let settings = settings(&rt);
    let mut q = created(&rt, rt.alloc());
    busy_queue(&rt, &mut q, &settings);
    q.flush();
    responder_is(
        &rt,
        &q,
        &[0x112_345F, 8, 0, 1, 1, 1024, 12],
        "the responder after a flush",
    );
    holds(
        &rt,
        matches!(q.state, State::Rts),
        "a flush keeps the state",
    );
    q.move_to_error();
    holds(
        &rt,
        matches!(q.state, State::Error),
        "the state after the move",
    );
    responder_is(
        &rt,
        &q,
        &[0x112_345F, 8, 0, 1, 1, 1024, 12],
        "the responder after the move",
    );
    q.empty_answers();
    responder_is(
        &rt,
        &q,
        &[0x112_345F, 8, 0, 0, 1, 1024, 12],
        "the responder without answers",
    );
}

#[test]
fn reset_empties_queues_and_numbers(rt: HostRuntime) {
    let settings = settings(&rt);
    let mut q = created(&rt, rt.alloc());
    busy_queue(&rt, &mut q, &settings);
    change(&rt, &mut q, &settings, &Change::Reset);
    is_of_the_tests(&rt, &q, 2);
    is_at_start(&rt, &q, 5);
    has_empty_queues(&rt, &mut q);
}

#[test]
fn drain_and_resume_change_the_state_alone(rt: HostRuntime) {
    let settings = settings(&rt);
    let mut q = created(&rt, rt.alloc());
    busy_queue(&rt, &mut q, &settings);
    change(&rt, &mut q, &settings, &Change::Sqd);
    change(&rt, &mut q, &settings, &Change::Resume);
    requester_is(
        &rt,
        &q.requester,
        &[
            0x1AB_CDF0, 0x1AB_CDF2, 0, 0x1AB_CDEF, 1, 2, 4, 1, 5, 3, 5, 16,
        ],
        "the requester after a drain",
    );
    responder_is(
        &rt,
        &q,
        &[0x112_345F, 8, 1, 1, 1, 1024, 12],
        "the responder after a drain",
    );
}
