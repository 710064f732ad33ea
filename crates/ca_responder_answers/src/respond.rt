ghost use Rattle.std.specs.Prelude.{◌≡◌, ◌+◌, ◌≤◌, [], IfOk, None, OnOk, Some, length, slice_get, true};
ghost use Rattle.ca_base.specs.declared.limits.TheConstants.{MAX_PAYLOAD_BYTES};
ghost use Rattle.ca_qp_rows.specs.ca_grant.Reaching.{AreAtHand};
ghost use Rattle.ca_model.specs.machine.Invariants.{IsQueue};
ghost use Rattle.ca_model.specs.machine.Respond as rows;
ghost use Rattle.ca_model.specs.machine.Row.{ending_of, queue_and_marks};
ghost use Rattle.ca_responder_answers.specs.Sending.{CanRead, CanRespond, IsOnePacket, IsReadBy, IsSent, one_ask, packet_turn, read_refusal};
ghost use Rattle.ca_qp_rows.specs.Asks.{touched_by};
ghost use Rattle.ca_qp_rows.specs.Made.{IsTurn};
ghost use Rattle.ca_model.specs.machine.CanStep.{CanStep};
ghost use Rattle.ca_wire.specs.Packet.{IsWellFormed, most_of_response};
ghost use Rattle.ca_wire.specs.Table.{shape_of};

use crate::answer::next_answer;
use crate::flush::{FlushedReceives, push_flush};
use crate::read_left::{is_last_response, response_ask, response_segment, rest_of};
use crate::remote::remote_mark;
use ca_base::{ActError, Ask, Bytes, Denial, Memory, Queued, Sent, Verdict};
use ca_model::{Marks, ReadLeft, SPARE_MARKS};
use ca_qp_rows::ca_grant::Reach;
use ca_qp_rows::ca_qpstate::QueuePart;
use ca_qp_rows::{peer_number, psn_bits, reserve_for, spell_packet};
use ca_wire::{NakCode, Packet, acknowledgement, atomic_acknowledge, nak, read_response, rnr_nak};

/// A response is of no request of this queue pair.
const RESPONSE: Sent = Sent::Spelt { request: None };

/// The ask that the responder's turn makes. None comes exactly where the next answer is no READ response with bytes. It
/// takes no memory.
pub fn respond_ask(q: &QueuePart) -> Option<Ask>
    ensures { one_ask result ≡ (rows.respond_row true q.now).asks }
{
    match next_answer(q, true) {
        Ok(answer) => answer_ask(q, answer),
        Err(_) => None,
    }
}

fn answer_ask(q: &QueuePart, answer: Queued) -> Option<Ask>
    ensures { one_ask result ≡ (rows.answer_turn q.now answer).asks }
{
    match answer {
        Queued::Read {
            psn,
            key,
            address,
            left,
            first,
            envelope,
            duplicate,
        } => read_ask(
            q,
            &ReadLeft {
                psn,
                key,
                address,
                left,
                first,
                envelope,
                duplicate,
            },
        ),
        _ => None,
    }
}

/// The ask of a READ's next response, if it has bytes.
fn read_ask(q: &QueuePart, r: &ReadLeft) -> Option<Ask>
    ensures { one_ask result ≡ (rows.read_row q.now r.now).asks }
{
    if r.left == 0 {
        return None;
    }
    Some(response_ask(q, r))
}

/// Sends the answer that waits at the front, spelt into `out` in at most 4128 bytes, and in no more than 24, or 19 and
/// those that its ask touches. After Ok there is room for two more marks. A READ is judged for all bytes that are left
/// of it, at each of its responses; a denied one sends a NAK, and moves the queue pair to Error. `room` says that the
/// peer's mailbox has room for a packet. The reasons are `State`, `Empty` and `NoRoom`, in this order.
pub fn next_response<R: Reach>(
    q: &mut QueuePart,
    reach: &mut R,
    room: bool,
    marks: &mut Marks,
    out: &mut Vec<u8>,
) -> Result<Sent, ActError>
    requires step { CanStep q.old }
    requires at_hand { AreAtHand R.sight R.judges R.touches reach.old (rows.respond_row room q.old).asks }
    ensures turn { IsTurn R.written result (ending_of (R.sight reach.old) (rows.respond_row room q.old))
        q.old q.new marks.old marks.new reach.old reach.new out.old.items out.new.items }
    ensures size { OnOk result (length out.new.items
        ≤ length out.old.items + most_of_response (touched_by (rows.respond_row room q.old).asks)) }
{
    match next_answer(q, room) {
        Ok(answer) => send_answer(q, reach, answer, marks, out),
        Err(reason) => Err(ActError::NotReady(reason)),
    }
}

/// Sends an answer: the one at the front.
fn send_answer<R: Reach>(
    q: &mut QueuePart,
    reach: &mut R,
    answer: Queued,
    marks: &mut Marks,
    out: &mut Vec<u8>,
) -> Result<Sent, ActError>
    requires step { CanStep q.old }
    requires front { slice_get q.old.responder.answers 0 ≡ Some answer }
    requires at_hand { AreAtHand R.sight R.judges R.touches reach.old (rows.answer_turn q.old answer).asks }
    ensures turn { IsTurn R.written result (ending_of (R.sight reach.old) (rows.answer_turn q.old answer))
        q.old q.new marks.old marks.new reach.old reach.new out.old.items out.new.items }
    ensures size { OnOk result (length out.new.items
        ≤ length out.old.items + most_of_response (touched_by (rows.answer_turn q.old answer).asks)) }
{
    match answer {
        Queued::Read {
            psn,
            key,
            address,
            left,
            first,
            envelope,
            duplicate,
        } => send_read(
            q,
            reach,
            &ReadLeft {
                psn,
                key,
                address,
                left,
                first,
                envelope,
                duplicate,
            },
            marks,
            out,
        ),
        _ => {
            let packet = packet_of(q, answer);
            send_front(q, &packet, marks, out)?;
            Ok(RESPONSE)
        }
    }
}

/// The packet of an answer that is no READ. Each carries the MSN as it is now.
fn packet_of<'a>(q: &QueuePart, answer: Queued) -> Packet<'a>
    requires queue { IsQueue q.now }
    requires one { IsOnePacket answer }
    ensures turn { rows.answer_turn q.now answer ≡ packet_turn q.now result }
    ensures formed { IsWellFormed result }
    ensures response { shape_of result.opcode ≡ None }
    ensures empty { length result.payload ≡ 0 }
{
    let (peer, msn) = (peer_number(q), q.responder.msn);
    match answer {
        Queued::Ack { psn } => acknowledgement(peer, psn_bits(psn), msn),
        Queued::Rnr { psn } => rnr_nak(q.responder.rnr_code, peer, psn_bits(psn), msn),
        Queued::Nak { psn, code } => nak(nak_of(code), peer, psn_bits(psn), msn),
        Queued::Atomic { psn, found, .. } => atomic_acknowledge(found, peer, psn_bits(psn), msn),
        Queued::Read { .. } => unreachable!(),
    }
}

/// The NAK of a code.
fn nak_of(code: u8) -> NakCode
    ensures { result ≡ rows.nak_of code }
{
    match NakCode::of(code) {
        Some(code) => code,
        None => NakCode::PsnSequenceError,
    }
}

/// Spells the packet of the answer at the front, and takes that answer away.
fn send_front(
    q: &mut QueuePart,
    packet: &Packet<'_>,
    marks: &mut Marks,
    out: &mut Vec<u8>,
) -> Result<(), Memory>
    requires formed { IsWellFormed packet.now }
    requires response { shape_of packet.now.opcode ≡ None }
    ensures sent { IsSent result (rows.with_packet packet.now (queue_and_marks (rows.without_front q.old) []))
        q.old q.new marks.old marks.new out.old.items out.new.items }
    ensures size { OnOk result
        (length out.new.items ≤ length out.old.items + most_of_response (length packet.now.payload)) }
{
    marks.reserve(SPARE_MARKS)?;
    spell_packet(packet, out)?;
    q.responder.answers.pop();
    Ok(())
}

/// A READ: its next response, or, where it is denied, a NAK.
fn send_read<R: Reach>(
    q: &mut QueuePart,
    reach: &mut R,
    r: &ReadLeft,
    marks: &mut Marks,
    out: &mut Vec<u8>,
) -> Result<Sent, ActError>
    requires can { CanRespond q.old r.now }
    requires at_hand { AreAtHand R.sight R.judges R.touches reach.old (rows.read_row q.old r.now).asks }
    ensures turn { IsTurn R.written result (ending_of (R.sight reach.old) (rows.read_row q.old r.now))
        q.old q.new marks.old marks.new reach.old reach.new out.old.items out.new.items }
    ensures size { OnOk result (length out.new.items
        ≤ length out.old.items + most_of_response (touched_by (rows.read_row q.old r.now).asks)) }
{
    if r.left == 0 {
        send_bytes(q, r, Bytes::empty(q.alloc()), marks, out)?;
        return Ok(RESPONSE);
    }
    let ask = response_ask(q, r);
    match read_one(q, reach, &ask)? {
        Ok(bytes) => send_bytes(q, r, bytes, marks, out)?,
        Err(denial) => refuse_read(q, r, denial, marks, out)?,
    }
    Ok(RESPONSE)
}

/// Reads the bytes that an ask touches, or says how it is denied: it is judged as it is read.
#[inline(always)]
fn read_one<R: Reach>(
    q: &QueuePart,
    reach: &mut R,
    ask: &Ask,
) -> Result<Result<Bytes, Denial>, Memory>
    requires { CanRead R.sight R.judges R.touches reach.old ask.now }
    ensures read { IfOk result (IsReadBy (R.sight reach.old) ask.now) }
    ensures same { reach.new ≡ reach.old }
{
    match reach.read(q.alloc(), ask)? {
        Verdict::Read(bytes) => Ok(Ok(bytes)),
        Verdict::Denied(denial) => Ok(Err(denial)),
        _ => unreachable!(),
    }
}

/// Sends a READ's next response with these bytes.
fn send_bytes(
    q: &mut QueuePart,
    r: &ReadLeft,
    bytes: Bytes,
    marks: &mut Marks,
    out: &mut Vec<u8>,
) -> Result<(), Memory>
    requires can { CanRespond q.old r.now }
    requires payload { length bytes ≤ MAX_PAYLOAD_BYTES }
    ensures sent { IsSent result (rows.read_answer q.old r.now bytes) q.old q.new marks.old marks.new out.old.items
        out.new.items }
    ensures size { OnOk result (length out.new.items ≤ length out.old.items + most_of_response (length bytes)) }
{
    let ask = response_ask(q, r);
    let segment = response_segment(r.first, is_last_response(q, r));
    let (peer, msn) = (peer_number(q), q.responder.msn);
    marks.reserve(SPARE_MARKS + 1)?;
    spell_packet(
        &read_response(segment, peer, psn_bits(r.psn), msn, bytes.as_slice()),
        out,
    )?;
    marks.push(remote_mark(&ask, r.envelope, Verdict::Read(bytes)));
    leave_front(q, r);
    Ok(())
}

/// Takes the READ at the front away after its last response, and else leaves there what is left of it.
fn leave_front(q: &mut QueuePart, r: &ReadLeft)
    requires { CanRespond q.old r.now }
    ensures { q.new ≡ (rows.read_answer q.old r.now []).queue }
{
    if is_last_response(q, r) {
        q.responder.answers.pop();
        return;
    }
    let rest = rest_of(q, r);
    q.responder.answers.set_front(rest);
}

/// Refuses a READ: a NAK, the response queue is emptied, and the queue pair moves to Error.
fn refuse_read(
    q: &mut QueuePart,
    r: &ReadLeft,
    denial: Denial,
    marks: &mut Marks,
    out: &mut Vec<u8>,
) -> Result<(), Memory>
    requires { CanStep q.old }
    ensures sent { IsSent result (read_refusal q.old r.now denial) q.old q.new marks.old marks.new out.old.items
        out.new.items }
    ensures size { OnOk result (length out.new.items ≤ length out.old.items + most_of_response 0) }
{
    let ask = response_ask(q, r);
    let mut made = Vec::new(q.alloc());
    made.push(remote_mark(&ask, r.envelope, Verdict::Denied(denial)))?;
    push_flush(q, FlushedReceives::All, &mut made)?;
    let (peer, msn) = (peer_number(q), q.responder.msn);
    reserve_for(made.as_slice(), 0, marks)?;
    spell_packet(
        &nak(NakCode::RemoteAccessError, peer, psn_bits(r.psn), msn),
        out,
    )?;
    marks.append(made);
    q.move_to_error();
    q.empty_answers();
    Ok(())
}
