ghost use Rattle.std.specs.Prelude.{◌≡◌, ◌+◌, ◌<◌, ◌≤◌, ◌==◌, if◌then◌else◌, [], ◌∷◌, false, length, IfErr, IfOk, None, OnOk, Some};
ghost use Rattle.ca_base.specs.Sight as sights;
ghost use Rattle.ca_wire.specs.declared.shape.Shape.{Shape};
ghost use Rattle.ca_grant.specs.Reaching.{AreAtHand, IsPacketAsk};
ghost use Rattle.ca_wire.specs.declared.syndrome.NakCode.{NakCode};
ghost use Rattle.ca_model.specs.declared.marks.TheConstants.{SPARE_MARKS};
ghost use Rattle.ca_model.specs.machine.Arrivals as arrivals;
ghost use Rattle.ca_model.specs.machine.CanStep.{CanStep};
ghost use Rattle.ca_model.specs.machine.Expected as rows;
ghost use Rattle.ca_responder_answers.specs.ca_qp_rows.Asks.{IsWrite};
ghost use Rattle.ca_responder_answers.specs.ca_qp_rows.Made.{HasMade, IsMade, written_all};
ghost use Rattle.ca_responder_answers.specs.Numbers.{CanPass, without_ack_request};
ghost use Rattle.ca_responder_operations.specs.Receives.{CanTake};
ghost use Rattle.ca_responder_operations.specs.Requests.{IsValidRequest};
ghost use Rattle.ca_responder_operations.specs.Taking.{CanMeet, IsTaken, is_taken, outcome_in};
ghost use Rattle.ca_responder_operations.specs.Access.{AreAllowed, IsFitting, IsFoundOf, ask_of_write, asks_met};

use crate::receive::take_own;
use crate::request::{Request, SharedReceive, shared_receive};
use crate::target::{write_ask, write_reach};
use ca_base::{Ask, Bytes, DeniedAsk, Memory, Message, PlacedReceive, Span, Verdict, WcOp};
use ca_grant::Reach;
use ca_model::{Marks, SPARE_MARKS, WriteReach};
use ca_responder_answers::ca_qp_rows::{Received, receive_mark};
use ca_responder_answers::ca_qpstate::QueuePart;
use ca_responder_answers::{pass, queue_ack, refuse, refuse_invalid, remote_mark};
use ca_wire::{NakCode, Packet, Position};

/// An ask that is not denied, with what was found of it; nothing where it has no bytes.
#[derive(Clone, Copy)]
pub struct JudgedAsk {
    pub ask: Ask,
    pub found: Option<Span>,
}

/// A WRITE packet, with where it stands in its message and what it reaches, and the index of its envelope for its mark.
#[derive(Clone, Copy)]
pub struct WritePacket<'a> {
    pub packet: &'a Packet<'a>,
    pub envelope: Option<u64>,
    pub position: Position,
    pub target: WriteReach,
}

/// A WRITE packet, which is judged for all bytes that are left. One of no bytes meets no key.
pub fn take_write<R: Reach>(
    q: &mut QueuePart,
    reach: &mut R,
    request: &Request<'_>,
    position: Position,
    next: &Option<PlacedReceive>,
    marks: &mut Marks,
) -> Result<SharedReceive, Memory>
    requires step { CanStep q.old }
    requires request { IsValidRequest q.old request.now next.now }
    requires shape { request.now.shape ≡ Shape.Write position }
    requires at_hand { CanMeet R.sight R.judges R.touches R.ends reach.old q.old
        (rows.valid_row (arrivals.with_flag false q.old) request.now.packet.now request.now.envelope next.now
        request.now.shape) }
    ensures taken { IsTaken R.written R.revoked result (outcome_in (R.sight reach.old)
        (rows.valid_row (arrivals.with_flag false q.old) request.now.packet.now request.now.envelope next.now
        request.now.shape))
        q.old q.new marks.old marks.new reach.old reach.new }
{
    let p = request.packet;
    let Some(target) = write_reach(q, p) else {
        refuse_invalid(q, marks)?;
        return Ok(SharedReceive::Stays);
    };
    let ask = write_ask(q, p, &target);
    let found = match judge_access(reach, &ask) {
        Ok(found) => found,
        Err(denied) => {
            deny(q, &denied, request.envelope, marks)?;
            return Ok(SharedReceive::Stays);
        }
    };
    let write = WritePacket {
        packet: p,
        envelope: request.envelope,
        position,
        target,
    };
    place_write(q, reach, &write, &JudgedAsk { ask, found }, next, marks)
}

/// Judges an access: what was found of it, or that it is denied. One of no bytes meets no key, and has nothing found.
pub fn judge_access<R: Reach>(reach: &R, ask: &Ask) -> Result<Option<Span>, DeniedAsk>
    requires at_hand { AreAtHand R.sight R.judges R.touches reach.now (asks_met ask.now) }
    requires touch { 0 < ask.now.length → IsPacketAsk ask.now }
    ensures denied { IfErr result (λ d. sights.first_denied (R.sight reach.now) (asks_met ask.now) ≡ Some d) }
    ensures allowed { OnOk result (sights.first_denied (R.sight reach.now) (asks_met ask.now) ≡ None) }
    ensures found { IfOk result (IsFoundOf (R.sight reach.now) ask.now) }
{
    if ask.length == 0 {
        return Ok(None);
    }
    match reach.check(ask) {
        Ok(found) => Ok(Some(found)),
        Err(denial) => Err(DeniedAsk { ask: *ask, denial }),
    }
}

/// Refuses a packet whose access is denied. It stands apart, since that is rare.
#[cold]
#[inline(never)]
pub fn deny(
    q: &mut QueuePart,
    denied: &DeniedAsk,
    envelope: Option<u64>,
    marks: &mut Marks,
) -> Result<(), Memory>
    requires { CanStep q.old }
    ensures { IsMade result (rows.behind_marks (arrivals.remote_mark denied.now.ask envelope
        (Verdict.Denied denied.now.denial) ∷ [])
        (arrivals.refusal_effects NakCode.RemoteAccessError (arrivals.with_flag false q.old))) q.old q.new
        marks.old marks.new }
{
    let mut made = Vec::new(q.alloc());
    made.push(remote_mark(&denied.ask, envelope, Verdict::Denied(denied.denial)))?;
    refuse(q, NakCode::RemoteAccessError, made, marks)
}

/// A WRITE packet that is not denied: its bytes are placed, and it takes effect.
fn place_write<R: Reach>(
    q: &mut QueuePart,
    reach: &mut R,
    w: &WritePacket<'_>,
    judged: &JudgedAsk,
    next: &Option<PlacedReceive>,
    marks: &mut Marks,
) -> Result<SharedReceive, Memory>
    requires step { CanStep q.old }
    requires fits { IsFitting q.old w.now next.now }
    requires ask { judged.now.ask ≡ ask_of_write q.old w.now }
    requires allowed { AreAllowed R.sight R.judges R.touches reach.old (asks_met judged.now.ask) }
    requires found { IsFoundOf (R.sight reach.old) judged.now.ask judged.now.found }
    ensures taken { IsTaken R.written R.revoked result (outcome_in (R.sight reach.old)
        (rows.write_row (arrivals.with_flag false q.old) w.now.packet.now w.now.envelope w.now.position next.now
        w.now.target))
        q.old q.new marks.old marks.new reach.old reach.new }
{
    let p = w.packet;
    let bytes = Bytes::copy_of(q.alloc(), p.payload)?;
    marks.reserve(SPARE_MARKS + 2)?;
    queue_ack(q, p)?;
    write_bytes(reach, judged, bytes.as_slice());
    marks.push(remote_mark(&judged.ask, w.envelope, Verdict::Wrote(bytes)));
    Ok(end_write(q, w, next, marks))
}

/// Writes bytes by an ask that is not denied. No bytes meet no key.
fn write_bytes<R: Reach>(reach: &mut R, judged: &JudgedAsk, bytes: &[u8])
    requires write { 0 < judged.now.ask.length → IsWrite (judged.now.ask, bytes.now) }
    requires allowed { AreAllowed R.sight R.judges R.touches reach.old (asks_met judged.now.ask) }
    requires found { IsFoundOf (R.sight reach.old) judged.now.ask judged.now.found }
    ensures wrote { reach.new ≡ written_all R.written reach.old
        (if judged.now.ask.length == 0 then [] else (judged.now.ask, bytes.now) ∷ []) }
{
    if let Some(found) = &judged.found {
        reach.write_at(&judged.ask, found, bytes);
    }
}

/// A WRITE packet took effect: it goes on, or ends, where immediate data complete a receive. The acknowledgement is
/// queued already.
#[inline(always)]
fn end_write(
    q: &mut QueuePart,
    w: &WritePacket<'_>,
    next: &Option<PlacedReceive>,
    marks: &mut Marks,
) -> SharedReceive
    requires numbers { CanPass q.old }
    requires left { length w.now.packet.now.payload ≤ w.now.target.left }
    requires receive { CanTake q.old next.now }
    requires room { SPARE_MARKS + 1 ≤ marks.old.room }
    ensures made { HasMade (rows.after_write_packet (arrivals.with_flag false q.old)
        (without_ack_request w.now.packet.now) w.now.position w.now.target next.now)
        q.new marks.old marks.new }
    ensures shared { is_taken result ≡ (rows.after_write_packet (arrivals.with_flag false q.old)
        (without_ack_request w.now.packet.now) w.now.position w.now.target next.now).takes_shared }
{
    if !w.position.ends() {
        q.responder.message = Some(write_left(w));
        pass(q, 1, false);
        return SharedReceive::Stays;
    }
    if q.responder.message.is_some() {
        q.responder.message = None;
    }
    pass(q, 1, true);
    let p = w.packet;
    let Some(imm) = p.imm else {
        return SharedReceive::Stays;
    };
    let Some(receive) = next else {
        return SharedReceive::Stays;
    };
    let received = Received {
        op: WcOp::RecvImm,
        bytes: w.target.whole,
        imm: Some(imm),
        invalidated: None,
    };
    marks.push(receive_mark(q.queue, receive, received));
    take_own(q);
    shared_receive(q)
}

/// What is left of a WRITE after a packet; addresses count modulo 2^64.
fn write_left(w: &WritePacket<'_>) -> Message
    requires { length w.now.packet.now.payload ≤ w.now.target.left }
    ensures { result ≡ rows.message_left w.now.target (length w.now.packet.now.payload) }
{
    let p = w.packet;
    let count = p.payload.len();
    Message::Write {
        key: w.target.key,
        address: w.target.address.wrapping_add(count as u64),
        left: w.target.left - count as u32,
        length: w.target.whole,
    }
}
