ghost use Rattle.std.specs.Prelude.{◌≡◌, if◌then◌else◌, IfSome, None, false, option_copied};
ghost use Rattle.std.specs.Option.{option_copied_mut};
ghost use Rattle.ca_base.specs.Handed.{left_behind};
ghost use Rattle.ca_base.specs.objects.SharedReceives.{after_receive_take};
ghost use Rattle.ca_model.specs.Packets.{is_response};
ghost use Rattle.ca_model.specs.machine.Arrivals as arrivals;
ghost use Rattle.ca_model.specs.machine.Delivery.{packet_arrived};
ghost use Rattle.ca_model.specs.machine.Expected as rows;
ghost use Rattle.ca_model.specs.machine.Invariants.{IsSharedReceives};
ghost use Rattle.ca_responder_operations.specs.Taking.{CanMeet, IsArrival, IsTaken, is_taken, outcome_in};
ghost use Rattle.ca_model.specs.machine.CanStep.{CanStep};
ghost use Rattle.ca_wire.specs.Packet.{IsWellFormed};
ghost use Rattle.ca_responder_operations.specs.ca_qp_rows.Made.{IsMade};

use crate::checks::{is_invalid, is_missing, put_receive};
use crate::duplicates::{take_ahead, take_duplicate};
use ca_base::{Memory, Queued};
use ca_model::Marks;
use ca_psn::widen;
use ca_responder_operations::ca_grant::Reach;
use ca_responder_operations::ca_qpstate::QueuePart;
use ca_responder_operations::ca_responder_answers::{queue_answer, refuse_invalid};
use ca_responder_operations::{
    Request, SharedReceive, take_atomic, take_read, take_send, take_write,
};
use ca_srq::Srq;
use ca_wire::{Packet, Shape, shape_of};

/// Takes a request that arrived. A packet ahead of the expected one asks once for what is missing; a duplicate is
/// answered once more, and does nothing again; the expected one is checked, judged, and takes effect. A request that is
/// refused moves the queue pair to Error. After Ok there is room for two more marks, and `Memory` changes nothing.
///
/// `srq` is the shared receive queue of the queue pair, where it has one, and `envelope` the index of the packet, for the
/// marks of its remote accesses. The packet is well formed, a request, and one that the adapter does not drop before.
pub fn on_request<R: Reach>(
    q: &mut QueuePart,
    srq: Option<&mut Srq>,
    reach: &mut R,
    p: &Packet<'_>,
    envelope: Option<u64>,
    marks: &mut Marks,
) -> Result<(), Memory>
    requires step { CanStep q.old }
    requires shared { IfSome (option_copied_mut srq) IsSharedReceives }
    requires packet { IsWellFormed p.now }
    requires request { is_response p.now.opcode ≡ false }
    requires at_hand { CanMeet R.sight R.judges R.touches R.ends reach.old q.old
        (packet_arrived p.now envelope (option_copied_mut srq) q.old) }
    ensures { IsArrival R.written R.revoked result
        (outcome_in (R.sight reach.old) (packet_arrived p.now envelope (option_copied_mut srq.entry) q.old))
        q.old q.new marks.old marks.new reach.old reach.new (option_copied_mut srq.entry) (left_behind srq.exit) }
{
    let Some(srq) = srq else {
        take_request(q, None, reach, p, envelope, marks)?;
        return Ok(());
    };
    let taken = take_request(q, Some(srq), reach, p, envelope, marks)?;
    take_shared(srq, taken);
    Ok(())
}

/// Takes the next receive of a shared receive queue, where the packet takes it.
fn take_shared(srq: &mut Srq, taken: SharedReceive)
    ensures { srq.new ≡ (if is_taken taken then after_receive_take srq.old else srq.old) }
{
    if matches!(taken, SharedReceive::Taken) {
        srq.take_next();
    }
}

/// Takes a request, but for the receive of the shared receive queue: it answers what becomes of that. Its steps, in this
/// order, with the function of each:
///
/// 1. its opcode is a request's: `shape_of`;
/// 2. no packet before it is missing: `take_ahead`;
/// 3. it did not come before: `take_duplicate`;
/// 4. it is no invalid request: `is_invalid`;
/// 5. where it takes a receive, one waits, and else an RNR NAK is queued: `put_receive` and `is_missing`;
/// 6. a SEND fits its receive: `exceeds_receive`;
/// 7. the receive's list is allowed: `judge_all`;
/// 8. the key of a WRITE or an atomic allows it: `check` of `Reach`, in `take_write` and `take_atomic`;
/// 9. its bytes are placed, the atomic acts, or the READ is queued: `write_judged`, `place_write`, `act`,
///    `take_read`;
/// 10. a SEND ends the key that it names: `end_key`;
/// 11. the expected PSN goes past it, and its message may end: `pass`, in `end_send` and `end_write`.
#[tactic(auto, using(crate::proofs::WaitingLemmas::lacks_by, crate::proofs::ShapeLemmas::request_has_shape))]
fn take_request<R: Reach>(
    q: &mut QueuePart,
    srq: Option<&Srq>,
    reach: &mut R,
    p: &Packet<'_>,
    envelope: Option<u64>,
    marks: &mut Marks,
) -> Result<SharedReceive, Memory>
    requires step { CanStep q.old }
    requires shared { IfSome (option_copied srq) IsSharedReceives }
    requires packet { IsWellFormed p.now }
    requires request { is_response p.now.opcode ≡ false }
    requires at_hand { CanMeet R.sight R.judges R.touches R.ends reach.old q.old
        (packet_arrived p.now envelope (option_copied srq) q.old) }
    ensures { IsTaken R.written R.revoked result
        (outcome_in (R.sight reach.old) (packet_arrived p.now envelope (option_copied srq.entry) q.old))
        q.old q.new marks.old marks.new reach.old reach.new }
{
    let Some(shape) = shape_of(p.opcode) else {
        unreachable!()
    };
    let psn = widen(q.responder.expected, p.psn);
    let request = Request {
        packet: &*p,
        envelope,
        shape,
    };
    if psn > q.responder.expected {
        take_ahead(q, marks)?;
        return Ok(SharedReceive::Stays);
    }
    if psn < q.responder.expected {
        take_duplicate(q, psn, &request, marks)?;
        return Ok(SharedReceive::Stays);
    }
    if is_invalid(q, &request) {
        refuse_invalid(q, marks)?;
        return Ok(SharedReceive::Stays);
    }
    let mut next = None;
    put_receive(q, srq, &request, &mut next)?;
    if is_missing(&request, &next) {
        queue_rnr(q, marks)?;
        return Ok(SharedReceive::Stays);
    }
    match shape {
        Shape::Send(position) => take_send(q, reach, &request, position, &next, marks),
        Shape::Write(position) => take_write(q, reach, &request, position, &next, marks),
        Shape::Read => take_read(q, &request, marks),
        Shape::Atomic(kind) => take_atomic(q, reach, &request, kind, marks),
    }
}

/// Queues an RNR NAK, since no receive waits for the packet. It stands apart, since that is rare.
#[cold]
#[inline(never)]
fn queue_rnr(q: &mut QueuePart, marks: &mut Marks) -> Result<(), Memory>
    ensures { IsMade result (rows.rnr_effects (arrivals.with_flag false q.old)) q.old q.new marks.old marks.new }
{
    let psn = q.responder.expected;
    queue_answer(q, Queued::Rnr { psn }, true, marks)
}
