use super::{mark_is, mark_text, rows_are};
use crate::{OTHER_QUEUE, QUEUE, Row};
use ca_base::{
    Completion, Key, Memory, OpRefusal, QueueId, RegionError, WcOp, WcStatus, WindowError,
};
use ca_model::Mark;
use std::alloc::Global;
use std::test::Fail;

/// The lines of completions of no bytes, with each status and each cause. The last twelve have the causes that the
/// others lack.
const LINES: &str = " done 0/770 send 0 2 send bad-response 0 - - -
 done 0/256 send 0 1 send flushed 0 - - -
 done 0/512 recv 0 1003 recv local-length 0 - - -
 done 0/256 send 1 2 send local-protection 0 - - -
 done 0/256 send 0 1 read remote-access 0 - - -
 done 0/256 send 0 3 send remote-invalid-request 0 - - -
 done 0/257 send 0 3 send remote-operation 0 - - -
 done 0/513 send 0 4 read retry-exceeded 0 - - -
 done 0/256 send 0 1 send rnr-retry-exceeded 0 - - -
 done 0/256 send 0 1 bind success 0 - - -
 done 1/258 send 2 4 fast-reg flushed 0 - - -
 done 1/256 send 2 8 local-inv flushed 0 - - -
 done 0/256 send 1 2 write success 0 - - -
 done 0/256 send 1 1 fast-reg memory-management 0 - - region:bad-pages
 done 1/258 send 0 1 local-inv memory-management 0 - - region:key-differs
 done 0/512 recv 0 1001 recv memory-management 0 - - region:not-fast-registered
 done 1/258 send 0 3 local-inv memory-management 0 - - region:not-valid
 done 2/768 send 0 990 fast-reg memory-management 0 - - region:outside-buffer
 done 2/513 send 0 2 bind memory-management 0 - - window:empty
 done 0/258 send 0 13 bind memory-management 0 - - window:no-window
 done 0/256 send 0 1 bind memory-management 0 - - window:region-not-valid
 done 0/256 send 1 2 bind memory-management 0 - - window:still-bound
 done 0/769 send 1 990 local-inv memory-management 0 - - window:type1
 done 1/513 send 2 3 bind memory-management 0 - - window:wrong-type
 done 0/256 send 0 1 fast-reg memory-management 0 - - region:empty
 done 0/256 send 0 1 fast-reg memory-management 0 - - region:rights-need-local-write
 done 0/256 send 0 1 fast-reg memory-management 0 - - region:not-free
 done 0/256 send 0 1 fast-reg memory-management 0 - - region:windows-bound
 done 0/256 send 0 1 fast-reg memory-management 0 - - region:vacant
 done 0/256 send 0 1 bind memory-management 0 - - window:no-bind-right
 done 0/256 send 0 1 bind memory-management 0 - - window:rights-need-local-write
 done 0/256 send 0 1 bind memory-management 0 - - window:outside-region
 done 0/256 send 0 1 bind memory-management 0 - - window:not-bound
 done 0/256 send 0 1 bind memory-management 0 - - window:key-differs
 done 0/256 send 0 1 bind memory-management 0 - - window:wrong-queue";

type Done = (QueueId, bool, u64, u64, WcOp, WcStatus, Option<OpRefusal>);

/// The queue pair, whether it is of a receive, the posting place, the id, the operation, the status and the cause.
const DONE: &[Done] = &[
    (
        QueueId {
            adapter: 0,
            number: 770,
        },
        false,
        0,
        2,
        WcOp::Send,
        WcStatus::BadResponse,
        None,
    ),
    (QUEUE, false, 0, 1, WcOp::Send, WcStatus::Flushed, None),
    (
        QueueId {
            adapter: 0,
            number: 512,
        },
        true,
        0,
        1003,
        WcOp::Recv,
        WcStatus::LocalLength,
        None,
    ),
    (
        QUEUE,
        false,
        1,
        2,
        WcOp::Send,
        WcStatus::LocalProtection,
        None,
    ),
    (QUEUE, false, 0, 1, WcOp::Read, WcStatus::RemoteAccess, None),
    (
        QUEUE,
        false,
        0,
        3,
        WcOp::Send,
        WcStatus::RemoteInvalidRequest,
        None,
    ),
    (
        QueueId {
            adapter: 0,
            number: 257,
        },
        false,
        0,
        3,
        WcOp::Send,
        WcStatus::RemoteOperation,
        None,
    ),
    (
        QueueId {
            adapter: 0,
            number: 513,
        },
        false,
        0,
        4,
        WcOp::Read,
        WcStatus::RetryExceeded,
        None,
    ),
    (
        QUEUE,
        false,
        0,
        1,
        WcOp::Send,
        WcStatus::RnrRetryExceeded,
        None,
    ),
    (QUEUE, false, 0, 1, WcOp::Bind, WcStatus::Success, None),
    (
        QueueId {
            adapter: 1,
            number: 258,
        },
        false,
        2,
        4,
        WcOp::FastReg,
        WcStatus::Flushed,
        None,
    ),
    (
        OTHER_QUEUE,
        false,
        2,
        8,
        WcOp::LocalInv,
        WcStatus::Flushed,
        None,
    ),
    (QUEUE, false, 1, 2, WcOp::Write, WcStatus::Success, None),
    (
        QUEUE,
        false,
        1,
        1,
        WcOp::FastReg,
        WcStatus::MemoryManagement,
        Some(OpRefusal::Region(RegionError::BadPages)),
    ),
    (
        QueueId {
            adapter: 1,
            number: 258,
        },
        false,
        0,
        1,
        WcOp::LocalInv,
        WcStatus::MemoryManagement,
        Some(OpRefusal::Region(RegionError::KeyDiffers)),
    ),
    (
        QueueId {
            adapter: 0,
            number: 512,
        },
        true,
        0,
        1001,
        WcOp::Recv,
        WcStatus::MemoryManagement,
        Some(OpRefusal::Region(RegionError::NotFastRegistered)),
    ),
    (
        QueueId {
            adapter: 1,
            number: 258,
        },
        false,
        0,
        3,
        WcOp::LocalInv,
        WcStatus::MemoryManagement,
        Some(OpRefusal::Region(RegionError::NotValid)),
    ),
    (
        QueueId {
            adapter: 2,
            number: 768,
        },
        false,
        0,
        990,
        WcOp::FastReg,
        WcStatus::MemoryManagement,
        Some(OpRefusal::Region(RegionError::OutsideBuffer)),
    ),
    (
        QueueId {
            adapter: 2,
            number: 513,
        },
        false,
        0,
        2,
        WcOp::Bind,
        WcStatus::MemoryManagement,
        Some(OpRefusal::Window(WindowError::Empty)),
    ),
    (
        QueueId {
            adapter: 0,
            number: 258,
        },
        false,
        0,
        13,
        WcOp::Bind,
        WcStatus::MemoryManagement,
        Some(OpRefusal::Window(WindowError::NoWindow)),
    ),
    (
        QUEUE,
        false,
        0,
        1,
        WcOp::Bind,
        WcStatus::MemoryManagement,
        Some(OpRefusal::Window(WindowError::RegionNotValid)),
    ),
    (
        QUEUE,
        false,
        1,
        2,
        WcOp::Bind,
        WcStatus::MemoryManagement,
        Some(OpRefusal::Window(WindowError::StillBound)),
    ),
    (
        QueueId {
            adapter: 0,
            number: 769,
        },
        false,
        1,
        990,
        WcOp::LocalInv,
        WcStatus::MemoryManagement,
        Some(OpRefusal::Window(WindowError::Type1)),
    ),
    (
        QueueId {
            adapter: 1,
            number: 513,
        },
        false,
        2,
        3,
        WcOp::Bind,
        WcStatus::MemoryManagement,
        Some(OpRefusal::Window(WindowError::WrongType)),
    ),
    (
        QUEUE,
        false,
        0,
        1,
        WcOp::FastReg,
        WcStatus::MemoryManagement,
        Some(OpRefusal::Region(RegionError::Empty)),
    ),
    (
        QUEUE,
        false,
        0,
        1,
        WcOp::FastReg,
        WcStatus::MemoryManagement,
        Some(OpRefusal::Region(RegionError::RightsNeedLocalWrite)),
    ),
    (
        QUEUE,
        false,
        0,
        1,
        WcOp::FastReg,
        WcStatus::MemoryManagement,
        Some(OpRefusal::Region(RegionError::NotFree)),
    ),
    (
        QUEUE,
        false,
        0,
        1,
        WcOp::FastReg,
        WcStatus::MemoryManagement,
        Some(OpRefusal::Region(RegionError::WindowsBound)),
    ),
    (
        QUEUE,
        false,
        0,
        1,
        WcOp::FastReg,
        WcStatus::MemoryManagement,
        Some(OpRefusal::Region(RegionError::Vacant)),
    ),
    (
        QUEUE,
        false,
        0,
        1,
        WcOp::Bind,
        WcStatus::MemoryManagement,
        Some(OpRefusal::Window(WindowError::NoBindRight)),
    ),
    (
        QUEUE,
        false,
        0,
        1,
        WcOp::Bind,
        WcStatus::MemoryManagement,
        Some(OpRefusal::Window(WindowError::RightsNeedLocalWrite)),
    ),
    (
        QUEUE,
        false,
        0,
        1,
        WcOp::Bind,
        WcStatus::MemoryManagement,
        Some(OpRefusal::Window(WindowError::OutsideRegion)),
    ),
    (
        QUEUE,
        false,
        0,
        1,
        WcOp::Bind,
        WcStatus::MemoryManagement,
        Some(OpRefusal::Window(WindowError::NotBound)),
    ),
    (
        QUEUE,
        false,
        0,
        1,
        WcOp::Bind,
        WcStatus::MemoryManagement,
        Some(OpRefusal::Window(WindowError::KeyDiffers)),
    ),
    (
        QUEUE,
        false,
        0,
        1,
        WcOp::Bind,
        WcStatus::MemoryManagement,
        Some(OpRefusal::Window(WindowError::WrongQueue)),
    ),
];

fn mark_of(row: &Done) -> Mark {
    let (queue, receive, place, id, op, status, cause) = *row;
    Mark::Done {
        queue,
        completion: Completion {
            id,
            queue,
            receive,
            place,
            status,
            op,
            bytes: 0,
            imm: None,
            invalidated: None,
        },
        cause,
    }
}

impl Row for Done {
    fn text(&self, alloc: Global) -> Result<Vec<u8>, Memory> {
        mark_text(alloc, mark_of(self))
    }
}

#[test]
fn completions_print_their_status_and_cause(rt: HostRuntime) -> Result<(), Fail> {
    rows_are(&rt, DONE, LINES)
}

const INVALIDATING: Completion = Completion {
    id: 1008,
    queue: QueueId {
        adapter: 0,
        number: 512,
    },
    receive: true,
    place: 3,
    status: WcStatus::Success,
    op: WcOp::Recv,
    bytes: 0,
    imm: None,
    invalidated: Some(Key(0x01000401)),
};

fn done(completion: Completion) -> Mark {
    Mark::Done {
        queue: completion.queue,
        completion,
        cause: None,
    }
}

#[test]
fn a_completion_prints_the_key_that_was_invalidated(rt: HostRuntime) -> Result<(), Fail> {
    let line = " done 0/512 recv 3 1008 recv success 0 - 0x01000401 -";
    mark_is(&rt, done(INVALIDATING), line)
}
