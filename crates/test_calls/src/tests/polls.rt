use super::{lines_are, text_of_call};
use arrayvec::ArrayVec;
use ca_base::{Completion, Memory, QueueId, WcOp, WcStatus};
use ca_model::{Answer, Completions, Verb};
use std::alloc::Global;
use std::test::Fail;
use test_trace::{OTHER_QUEUE, QUEUE, SLOT};

/// A poll that took four completions.
const POLLED: &str = "@19 p0 c0 wait 0/0/0 4 -> polled 4
 got 0/257 recv 0 1003 recv-imm success 8 109352156 -
 got 1/513 send 0 3 cmp-swap success 8 - -
 got 0/256 send 0 1 fetch-add success 8 - -
 got 1/256 recv 0 9 recv success 300 - -";

const TAKEN: &[Completion] = &[
    Completion {
        id: 1003,
        queue: QueueId {
            adapter: 0,
            number: 257,
        },
        receive: true,
        place: 0,
        status: WcStatus::Success,
        op: WcOp::RecvImm,
        bytes: 8,
        imm: Some(109352156),
        invalidated: None,
    },
    Completion {
        id: 3,
        queue: QueueId {
            adapter: 1,
            number: 513,
        },
        receive: false,
        place: 0,
        status: WcStatus::Success,
        op: WcOp::CmpSwap,
        bytes: 8,
        imm: None,
        invalidated: None,
    },
    Completion {
        id: 1,
        queue: QUEUE,
        receive: false,
        place: 0,
        status: WcStatus::Success,
        op: WcOp::FetchAdd,
        bytes: 8,
        imm: None,
        invalidated: None,
    },
    Completion {
        id: 9,
        queue: OTHER_QUEUE,
        receive: true,
        place: 0,
        status: WcStatus::Success,
        op: WcOp::Recv,
        bytes: 300,
        imm: None,
        invalidated: None,
    },
];

fn polled(alloc: Global, completions: &[Completion]) -> Result<Answer, Memory> {
    let mut taken = ArrayVec::new();
    for completion in completions {
        let _ = taken.try_push(*completion);
    }
    let taken = Completions::copy_of(alloc, &taken)?;
    Ok(Answer::Polled(taken))
}

const POLL: Verb = Verb::Poll {
    slot: SLOT,
    n: 4,
    least: 4,
};

fn poll_text(alloc: Global, completions: &[Completion]) -> Result<Vec<u8>, Memory> {
    let answer = polled(alloc, completions)?;
    text_of_call(alloc, 19, 0, POLL, answer)
}

#[test]
fn a_poll_prints_what_it_took(rt: HostRuntime) -> Result<(), Fail> {
    let text = poll_text(rt.alloc(), TAKEN)?;
    lines_are(&rt, text.as_slice(), POLLED);
    Ok(())
}
