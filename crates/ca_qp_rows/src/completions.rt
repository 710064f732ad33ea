ghost use Rattle.std.specs.Prelude.{◌≡◌, ◌≤◌};
ghost use Rattle.ca_base.specs.declared.completion.WcStatus.{WcStatus};
ghost use Rattle.ca_qpstate.specs.ca_model.Requests.{list_of};
ghost use Rattle.ca_qpstate.specs.ca_model.machine.Completions as completions;
ghost use Rattle.ca_qpstate.specs.ca_model.machine.Invariants.{IsList};
ghost use Rattle.ca_qpstate.specs.ca_model.machine.Requester as requester;
ghost use Rattle.ca_qp_rows.specs.Made.{AreAdded};

use crate::list::list_length;
use crate::operations::operation_of;
use crate::reads::local_mark;
use ca_base::limits::ATOMIC_BYTES;
use ca_base::{
    Completion, DeniedAsk, Key, OpRefusal, PlacedReceive, QueueId, RecvRequest, SendOp,
    SendRequest, Verdict, WcOp, WcStatus,
};
use ca_qpstate::ca_model::{Mark, Marks};

/// The completion of the send request at a posting place. With an error it tells of no bytes.
pub fn send_completion(
    queue: QueueId,
    posting: u64,
    request: &SendRequest,
    status: WcStatus,
    bytes: u32,
) -> Completion
    ensures { result ≡ completions.send_completion queue posting request.now status bytes }
{
    Completion {
        id: request.id,
        queue,
        receive: false,
        place: posting,
        status,
        op: operation_of(&request.op),
        bytes,
        imm: None,
        invalidated: None,
    }
}

/// The bytes that a success tells of: those of a READ's message, and the eight of an atomic.
fn bytes_of_success(op: &SendOp) -> u32
    requires { IsList (list_of op.now) }
    ensures { result ≡ completions.bytes_of_success op.now }
{
    match op {
        SendOp::Read { list, .. } => list_length(list.as_slice()),
        SendOp::CmpSwap { .. } | SendOp::FetchAdd { .. } => ATOMIC_BYTES,
        _ => 0,
    }
}

/// Adds the completion of a request that succeeded, where it is signalled, in the spare room. It takes no memory.
pub fn push_success(queue: QueueId, posting: u64, request: &SendRequest, marks: &mut Marks)
    requires list { IsList (list_of request.now.op) }
    requires room { 1 ≤ marks.old.room }
    ensures { AreAdded (completions.success_marks queue posting request.now) marks.old marks.new }
{
    if request.signalled {
        let bytes = bytes_of_success(&request.op);
        marks.push(Mark::Done {
            queue,
            completion: send_completion(queue, posting, request, WcStatus::Success, bytes),
            cause: None,
        });
    }
}

/// The completion of a request that failed, with its cause where a local operation was refused.
pub fn failure_mark(
    queue: QueueId,
    posting: u64,
    request: &SendRequest,
    status: WcStatus,
    cause: Option<OpRefusal>,
) -> Mark
    ensures { result ≡ completions.failure_mark queue posting request.now status cause }
{
    Mark::Done {
        queue,
        completion: send_completion(queue, posting, request, status, 0),
        cause,
    }
}

/// What the completion of a receive that succeeded tells of its message.
#[derive(Clone, Copy)]
pub struct Received {
    pub op: WcOp,
    pub bytes: u32,
    pub imm: Option<u32>,
    pub invalidated: Option<Key>,
}

/// The completion of a receive that succeeded.
pub fn receive_mark(queue: QueueId, receive: &PlacedReceive, received: Received) -> Mark
    ensures { result ≡ completions.receive_mark queue receive.now.place receive.now.receive WcStatus.Success
        received.op received.bytes received.imm received.invalidated }
{
    Mark::Done {
        queue,
        completion: Completion {
            id: receive.receive.id,
            queue,
            receive: true,
            place: receive.place,
            status: WcStatus::Success,
            op: received.op,
            bytes: received.bytes,
            imm: received.imm,
            invalidated: received.invalidated,
        },
        cause: None,
    }
}

/// The completion of a receive that failed.
pub fn receive_failure(
    queue: QueueId,
    posting: u64,
    receive: &RecvRequest,
    status: WcStatus,
    cause: Option<OpRefusal>,
) -> Mark
    ensures { result ≡ completions.receive_failure queue posting receive.now status cause }
{
    Mark::Done {
        queue,
        completion: Completion {
            id: receive.id,
            queue,
            receive: true,
            place: posting,
            status,
            op: WcOp::Recv,
            bytes: 0,
            imm: None,
            invalidated: None,
        },
        cause,
    }
}

/// The one mark of a piece of a list that was denied.
pub fn local_denial(denied: &DeniedAsk) -> Mark
    ensures { result ≡ requester.local_denial denied.now }
{
    local_mark(&denied.ask, Verdict::Denied(denied.denial))
}
