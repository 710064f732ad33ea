ghost use Rattle.std.specs.Prelude.{◌≡◌, ◌≤◌, ◌^◌, [], MatchResult, false};
ghost use Rattle.ca_wire.specs.declared.syndrome.NakCode.{NakCode};
ghost use Rattle.ca_model.specs.machine.Arrivals as arrivals;
ghost use Rattle.ca_model.specs.machine.CanStep.{CanStep};
ghost use Rattle.ca_model.specs.machine.Expected.{behind_marks};
ghost use Rattle.ca_model.specs.machine.Row.{queue_and_marks};
ghost use Rattle.ca_qp_rows.specs.Made.{IsMade};
ghost use Rattle.ca_responder_answers.specs.Numbers.{CanPass, past_packet, with_ack_if_asked};

use crate::flush::{FlushedReceives, push_flush};
use ca_base::limits::PSN_COUNT;
use ca_base::{Memory, Queued};
use ca_model::{Mark, Marks, SPARE_MARKS};
use ca_qp_rows::ca_qpstate::QueuePart;
use ca_qp_rows::reserve_for;
use ca_wire::{NakCode, Packet};

/// Queues an answer, and says whether a NAK or an RNR NAK was queued since the last expected packet.
pub fn queue_answer(
    q: &mut QueuePart,
    answer: Queued,
    nak_sent: bool,
    marks: &mut Marks,
) -> Result<(), Memory>
    ensures { IsMade result (queue_and_marks (arrivals.with_flag nak_sent (arrivals.with_answer answer q.old)) [])
        q.old q.new marks.old marks.new }
{
    marks.reserve(SPARE_MARKS)?;
    q.responder.answers.push(answer)?;
    q.responder.nak_sent = nak_sent;
    Ok(())
}

/// Queues an acknowledgement of the expected packet, where it asks for one.
pub fn queue_ack(q: &mut QueuePart, p: &Packet<'_>) -> Result<(), Memory>
    ensures { MatchResult result (λ done. q.new ≡ with_ack_if_asked p.now.ack q.old) (λ memory. q.new ≡ q.old) }
{
    if !p.ack {
        return Ok(());
    }
    q.responder.answers.acknowledge(q.responder.expected)?;
    Ok(())
}

/// The expected PSN goes past a packet, and at a message's end the MSN rises by one.
pub fn pass(q: &mut QueuePart, count: u64, at_end: bool)
    requires numbers { CanPass q.old }
    requires count { count ≤ 2 ^ 32 }
    ensures { q.new ≡ past_packet count at_end q.old }
{
    q.responder.nak_sent = false;
    q.responder.expected += count;
    if at_end {
        q.responder.msn = (q.responder.msn + 1) % PSN_COUNT;
    }
}

/// Refuses the packet: a NAK at the expected PSN, behind these marks all that is posted is flushed, and the queue pair
/// moves to Error. It keeps its response queue. It stands apart, since that is rare.
#[cold]
#[inline(never)]
pub fn refuse(
    q: &mut QueuePart,
    code: NakCode,
    mut made: Vec<Mark>,
    marks: &mut Marks,
) -> Result<(), Memory>
    requires { CanStep q.old }
    ensures { IsMade result (behind_marks made.items
        (arrivals.refusal_effects code (arrivals.with_flag false q.old))) q.old q.new marks.old marks.new }
{
    push_flush(q, FlushedReceives::All, &mut made)?;
    reserve_for(made.as_slice(), 0, marks)?;
    queue_refusal(q, code)?;
    marks.append(made);
    Ok(())
}

/// Refuses the packet as an invalid request.
pub fn refuse_invalid(q: &mut QueuePart, marks: &mut Marks) -> Result<(), Memory>
    requires { CanStep q.old }
    ensures { IsMade result (arrivals.refusal_effects NakCode.InvalidRequest (arrivals.with_flag false q.old))
        q.old q.new marks.old marks.new }
{
    let none = Vec::new(q.alloc());
    refuse(q, NakCode::InvalidRequest, none, marks)
}

/// Queues a NAK at the expected PSN, and moves the queue pair to Error.
pub fn queue_refusal(q: &mut QueuePart, code: NakCode) -> Result<(), Memory>
    ensures { MatchResult result (λ done. q.new ≡ (arrivals.refusal_effects code
        (arrivals.with_flag false q.old)).queue) (λ memory. q.new ≡ q.old) }
{
    q.responder.answers.push(Queued::Nak {
        psn: q.responder.expected,
        code: code.code(),
    })?;
    q.responder.nak_sent = false;
    q.move_to_error();
    Ok(())
}
