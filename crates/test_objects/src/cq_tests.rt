ghost use Rattle.std.specs.Prelude.{◌≡◌, ◌≤◌, length};

mod drawn;
mod worked;

use arrayvec::ArrayVec;
use ca_base::{Completion, QueueId, WcOp, WcStatus};
use ca_cq::Cq;
use std::fmt::Debug;
use std::process::Abort;

const FIRST: QueueId = QueueId {
    adapter: 0,
    number: 256,
};

const SECOND: QueueId = QueueId {
    adapter: 0,
    number: 257,
};

/// What tells one completion of a test from another: the number of its queue pair, whether it is of a receive, and its
/// place.
type Seen = (u32, bool, u64);

fn same<T: PartialEq + Debug + Drop>(rt: &impl Abort, got: T, want: T, what: &str) {
    assert_eq!(rt; got, want, "{what}");
}

/// A completion of a queue pair.
fn completion(queue: QueueId, receive: bool, place: u64) -> Completion {
    Completion {
        id: place,
        queue,
        receive,
        place,
        status: WcStatus::Success,
        op: if receive { WcOp::Recv } else { WcOp::Send },
        bytes: 0,
        imm: None,
        invalidated: None,
    }
}

fn seen(completion: &Completion) -> Seen {
    (
        completion.queue.number,
        completion.receive,
        completion.place,
    )
}

/// The completion with so many in front of it.
fn seen_at(queue: &Cq, i: u16) -> Option<Seen> {
    match queue.at(i) {
        Some(found) => Some(seen(&found)),
        None => None,
    }
}

/// The places that a queue gives which drops a queue pair, where at most 256 completions wait.
fn dropped(queue: &mut Cq, of: QueueId) -> ArrayVec<u64, 256>
    requires { length queue.old.waiting ≤ 256 }
    ensures capacity { queue.new.capacity ≡ queue.old.capacity }
    ensures fewer { length queue.new.waiting ≤ length queue.old.waiting }
{
    queue.drop_queue(of)
}
