ghost use Rattle.std.specs.Prelude.{◌≡◌, ℕ, Option, IfOk};
ghost use Rattle.ca_model.specs.machine.Invariants.{IsQueue};
ghost use Rattle.ca_model.specs.machine.PostingVerbs.{after_flush, marks_of_flush, with_send};
ghost use Rattle.ca_adapter_posts.specs.Posting.{with_receive};

use crate::states::is_error;
use ca_base::{Memory, RecvRequest, SendRequest, WcStatus};
use ca_model::Mark;
use ca_qp_rows::{failure_mark, push_flushed, push_flushed_sends, receive_failure};
use ca_qpstate::QueuePart;
use std::alloc::Global;

/// The completions that come where a send request is posted: in Error all that is unfinished is flushed, the request
/// behind the sends before it. What byte it draws makes no difference.
pub(crate) fn flushed_with_send(
    alloc: Global,
    queue: &QueuePart,
    request: &SendRequest,
) -> Result<Vec<Mark>, Memory>
    requires { IsQueue queue.now }
    ensures { IfOk result (λ made. (drawn : Option ℕ)
        → made.items ≡ marks_of_flush (with_send request.now drawn queue.now)) }
{
    let mut made = Vec::new(alloc);
    if !is_error(queue.state) {
        return Ok(made);
    }
    let place = queue.sends.next_place();
    let oldest = queue.requester.oldest;
    push_flushed_sends(queue.queue, &queue.sends, oldest, place, &mut made)?;
    made.push(failure_mark(queue.queue, place, request, WcStatus::Flushed, None))?;
    push_flushed(queue, place, &mut made)?;
    Ok(made)
}

/// The completions that come where a receive is posted: in Error all that is unfinished is flushed, and the receive last.
pub(crate) fn flushed_with_receive(
    alloc: Global,
    queue: &QueuePart,
    request: &RecvRequest,
) -> Result<Vec<Mark>, Memory>
    requires { IsQueue queue.now }
    ensures { IfOk result (λ made. made.items ≡ marks_of_flush (with_receive request.now queue.now)) }
{
    let mut made = Vec::new(alloc);
    if !is_error(queue.state) {
        return Ok(made);
    }
    push_flushed(queue, queue.requester.oldest, &mut made)?;
    let Some(receives) = &queue.receives else {
        return Ok(made);
    };
    let place = receives.next_place();
    made.push(receive_failure(queue.queue, place, request, WcStatus::Flushed, None))?;
    Ok(made)
}

/// A queue pair in Error flushes what is posted.
pub(crate) fn flush_in_error(queue: &mut QueuePart)
    ensures { queue.new ≡ after_flush queue.old }
{
    if is_error(queue.state) {
        queue.flush();
    }
}
