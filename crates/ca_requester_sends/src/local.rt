ghost use Rattle.std.specs.Prelude.{◌≡◌, ◌≤◌, None, Some};
ghost use Rattle.ca_model.specs.machine.CanStep.{CanStep};
ghost use Rattle.ca_model.specs.machine.Requester as requester;
ghost use Rattle.ca_requester_sends.specs.Turn.{HasFinished, IsOperationEnd, PerformsFound, operation_end, operation_in};

use crate::outcome::fail_oldest;
use crate::turn::{Found, performing_of};
use ca_base::{Memory, OpRefusal, SendRequest, WcStatus};
use ca_model::Marks;
use ca_qp_rows::ca_qpstate::QueuePart;
use ca_qp_rows::push_success;

/// The local operation that the turn performs, which `next_turn` found, with the byte that it drew. It takes no memory.
pub fn next_local<'a>(q: &'a QueuePart, found: &Found) -> (&'a SendRequest, Option<u8>)
    requires { PerformsFound q.now found.now }
    ensures { operation_in (requester.turn_of q.now) ≡ Some (result.0.now, result.1) }
{
    let next = performing_of(q, found);
    (next.request.request(), next.request.drawn())
}

/// Finishes the operation that `next_local` gives. Without a cause it is Success, which takes no memory. With one it is
/// MemoryManagement, and the queue pair moves to Error; `Memory` comes only there, and changes nothing. What the operation
/// revoked and granted is for the caller to say before.
pub fn local_done(
    q: &mut QueuePart,
    found: &Found,
    cause: Option<OpRefusal>,
    marks: &mut Marks,
) -> Result<(), Memory>
    requires step { CanStep q.old }
    requires local { PerformsFound q.old found.now }
    requires spare { cause ≡ None → 1 ≤ marks.old.room }
    ensures { IsOperationEnd result cause (operation_end q.old cause) q.old q.new marks.old marks.new }
{
    match cause {
        None => {
            finish(q, found, marks);
            Ok(())
        }
        Some(_) => fail_oldest(q, WcStatus::MemoryManagement, cause, None, marks),
    }
}

/// The operation succeeded.
fn finish(q: &mut QueuePart, found: &Found, marks: &mut Marks)
    requires step { CanStep q.old }
    requires local { PerformsFound q.old found.now }
    requires spare { 1 ≤ marks.old.room }
    ensures { HasFinished (operation_end q.old None) q.new marks.old marks.new }
{
    let next = performing_of(q, found);
    let posting = next.request.place;
    push_success(q.queue, posting, next.request.request(), marks);
    q.requester.oldest = posting + 1;
    q.requester.next = posting + 1;
}
