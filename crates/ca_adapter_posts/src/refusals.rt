ghost use Rattle.std.specs.Prelude.{◌≡◌};
ghost use Rattle.ca_keys.specs.Refusals.{first_of};
ghost use Rattle.ca_model.specs.machine.PostingVerbs.{post_recv_refusals, post_send_refusals};
ghost use Rattle.ca_model.specs.Requests as requests;

use crate::states::{is_reset, takes_sends};
use ca_base::limits::{ATOMIC_BYTES, MAX_MESSAGE_BYTES};
use ca_base::{Field, RecvRequest, SendOp, SendRequest};
use ca_model::{Refusal, list_length};
use ca_qp_rows::is_atomic;
use ca_qpstate::QueuePart;

/// Why a send request is refused, the first reason.
pub(crate) fn send_refusal(queue: &QueuePart, request: &SendRequest) -> Option<Refusal>
    ensures { result ≡ first_of (post_send_refusals request.now queue.now) }
{
    let bytes = request_length(&request.op);
    if is_atomic(&request.op) && bytes != u64::from(ATOMIC_BYTES) {
        return Some(Refusal::OutOfRange(Field::List));
    }
    if bytes > u64::from(MAX_MESSAGE_BYTES) {
        return Some(Refusal::TooLong);
    }
    if !takes_sends(queue.state) {
        return Some(Refusal::QueueState);
    }
    if queue.sends.is_full() {
        return Some(Refusal::QueueFull);
    }
    None
}

/// The bytes of a request's list; a local operation has none.
fn request_length(op: &SendOp) -> u64
    ensures { result ≡ requests.list_length (requests.list_of op.now) }
{
    match op {
        SendOp::Send { list }
        | SendOp::SendImm { list, .. }
        | SendOp::SendInv { list, .. }
        | SendOp::Write { list, .. }
        | SendOp::WriteImm { list, .. }
        | SendOp::Read { list, .. }
        | SendOp::CmpSwap { list, .. }
        | SendOp::FetchAdd { list, .. } => list_length(list.as_slice()),
        SendOp::Bind1 { .. }
        | SendOp::Bind2 { .. }
        | SendOp::FastReg { .. }
        | SendOp::LocalInv { .. } => 0,
    }
}

/// Why a receive is refused, the first reason.
pub(crate) fn recv_refusal(queue: &QueuePart, request: &RecvRequest) -> Option<Refusal>
    ensures { result ≡ first_of (post_recv_refusals request.now queue.now) }
{
    let Some(receives) = &queue.receives else {
        return Some(Refusal::HasSrq);
    };
    if list_length(request.list.as_slice()) > u64::from(MAX_MESSAGE_BYTES) {
        return Some(Refusal::TooLong);
    }
    if is_reset(queue.state) {
        return Some(Refusal::QueueState);
    }
    if receives.is_full() {
        return Some(Refusal::QueueFull);
    }
    None
}
