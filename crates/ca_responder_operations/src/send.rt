ghost use Rattle.std.specs.Prelude.{◌≡◌, ◌+◌, ◌≤◌, ◌∷◌, [], IfOk, IfSome, None, Some, false, true, if◌then◌else◌, length};
ghost use Rattle.std.specs.Option.{option_map};
ghost use Rattle.ca_base.specs.declared.completion.WcStatus.{WcStatus};
ghost use Rattle.ca_base.specs.declared.limits.TheConstants.{MAX_PAYLOAD_BYTES};
ghost use Rattle.ca_base.specs.declared.queue_numbers.Message.{Message};
ghost use Rattle.ca_base.specs.objects.QueuePair.{QueuePair};
ghost use Rattle.ca_wire.specs.declared.shape.Shape.{Shape};
ghost use Rattle.ca_model.specs.declared.marks.TheConstants.{SPARE_MARKS};
ghost use Rattle.ca_model.specs.machine.Arrivals as arrivals;
ghost use Rattle.ca_model.specs.machine.CanStep.{CanStep};
ghost use Rattle.ca_model.specs.machine.Completions as completions;
ghost use Rattle.ca_model.specs.machine.Expected as rows;
ghost use Rattle.ca_model.specs.machine.Requester as requester;
ghost use Rattle.ca_responder_answers.specs.ca_qp_rows.Asks.{IsFoundFirst};
ghost use Rattle.ca_responder_answers.specs.ca_qp_rows.Made.{HasMade, IsMade};
ghost use Rattle.ca_responder_answers.specs.Flush.{CanFlush, left_to_flush};
ghost use Rattle.ca_responder_answers.specs.Numbers.{CanPass, without_ack_request, without_taken_receive};
ghost use Rattle.ca_responder_operations.specs.Receives as receives;
ghost use Rattle.ca_responder_operations.specs.Receives.{CanHold, MayTake};
ghost use Rattle.ca_responder_operations.specs.Requests.{IsValidRequest};
ghost use Rattle.ca_wire.specs.declared.syndrome.NakCode.{NakCode};
ghost use Rattle.ca_responder_operations.specs.Taking.{CanMeet, IsTaken, MayEnd, is_taken, outcome_in};
ghost use Rattle.ca_responder_operations.specs.Sends.{CanPlace, IsEnding, IsFitting, key_end, outcome_of_send, receiving};

use crate::receive::{exceeds_receive, fill_receive_asks, holds_receive, receiving_of, take_own};
use crate::request::{Request, SharedReceive, shared_receive};
use crate::stand_in::{queue_stand_in, replace_by_ack, replace_by_nak};
use arrayvec::ArrayVec;
use ca_base::limits::MAX_PIECES;
use ca_base::{
    DeniedAsk, Key, Memory, Message, OpRefusal, PlacedReceive, RecvRequest, WcOp, WcStatus,
};
use ca_grant::Reach;
use ca_model::{Mark, Marks, SPARE_MARKS};
use ca_responder_answers::ca_qp_rows::{
    JudgedAsks, Received, judge_all, local_denial, push_writes, receive_failure, receive_mark,
    reserve_for, write_judged,
};
use ca_responder_answers::ca_qpstate::QueuePart;
use ca_responder_answers::{
    FlushedReceives, pass, push_flush, queue_ack, queue_refusal, refuse_invalid,
};
use ca_wire::{NakCode, Packet, Position};

/// The most marks of a SEND packet that is placed: those of its writes, of the key that it ends, and of its completion.
const SEND_MARKS: usize = MAX_PIECES + 2;

/// A SEND packet, with where it stands in its message and the receive of the message: how many bytes came into that
/// before, and whether the packet takes it.
#[derive(Clone, Copy)]
pub struct SendPacket<'a> {
    pub packet: &'a Packet<'a>,
    pub position: Position,
    pub receive: &'a PlacedReceive,
    pub before: u32,
    pub taken: bool,
}

/// A SEND packet, which goes to the receive of its message: the next one, where it begins the message.
pub fn take_send<R: Reach>(
    q: &mut QueuePart,
    reach: &mut R,
    request: &Request<'_>,
    position: Position,
    next: &Option<PlacedReceive>,
    marks: &mut Marks,
) -> Result<SharedReceive, Memory>
    requires step { CanStep q.old }
    requires request { IsValidRequest q.old request.now next.now }
    requires shape { request.now.shape ≡ Shape.Send position }
    requires at_hand { CanMeet R.sight R.judges R.touches R.ends reach.old q.old
        (rows.valid_row (arrivals.with_flag false q.old) request.now.packet.now request.now.envelope next.now
        request.now.shape) }
    ensures taken { IsTaken R.written R.revoked result (outcome_in (R.sight reach.old)
        (rows.valid_row (arrivals.with_flag false q.old) request.now.packet.now request.now.envelope next.now
        request.now.shape))
        q.old q.new marks.old marks.new reach.old reach.new }
{
    if holds_receive(q) {
        return go_on(q, reach, request, position, next, marks);
    }
    let Some(receive) = next else {
        refuse_invalid(q, marks)?;
        return Ok(SharedReceive::Stays);
    };
    let send = SendPacket {
        packet: request.packet,
        position,
        receive,
        before: 0,
        taken: true,
    };
    receive_send(q, reach, &send, marks)
}

/// A SEND packet that goes to the receive of the message in progress. It stands apart, since it copies that.
#[inline(never)]
fn go_on<R: Reach>(
    q: &mut QueuePart,
    reach: &mut R,
    request: &Request<'_>,
    position: Position,
    next: &Option<PlacedReceive>,
    marks: &mut Marks,
) -> Result<SharedReceive, Memory>
    requires step { CanStep q.old }
    requires request { IsValidRequest q.old request.now next.now }
    requires shape { request.now.shape ≡ Shape.Send position }
    requires at_hand { CanMeet R.sight R.judges R.touches R.ends reach.old q.old
        (rows.valid_row (arrivals.with_flag false q.old) request.now.packet.now request.now.envelope next.now
        request.now.shape) }
    requires holds { receives.holds_receive q.old.responder.message ≡ true }
    ensures taken { IsTaken R.written R.revoked result (outcome_in (R.sight reach.old)
        (rows.valid_row (arrivals.with_flag false q.old) request.now.packet.now request.now.envelope next.now
        request.now.shape))
        q.old q.new marks.old marks.new reach.old reach.new }
{
    let Some(r) = receiving_of(q)? else {
        refuse_invalid(q, marks)?;
        return Ok(SharedReceive::Stays);
    };
    let send = SendPacket {
        packet: request.packet,
        position,
        receive: &r.receive,
        before: r.before,
        taken: r.taken,
    };
    receive_send(q, reach, &send, marks)
}

/// A SEND packet with its receive: it is too long for it, its list is denied, the end of its key is refused, or it is
/// placed.
#[inline(never)]
fn receive_send<R: Reach>(
    q: &mut QueuePart,
    reach: &mut R,
    s: &SendPacket<'_>,
    marks: &mut Marks,
) -> Result<SharedReceive, Memory>
    requires step { CanStep q.old }
    requires payload { length s.now.packet.now.payload ≤ MAX_PAYLOAD_BYTES }
    requires receiving { CanHold q.old (receiving s.now) }
    requires at_hand { CanMeet R.sight R.judges R.touches R.ends reach.old q.old
        (rows.send_row (arrivals.with_flag false q.old) s.now.packet.now s.now.position (receiving s.now)) }
    ensures taken { IsTaken R.written R.revoked result (outcome_of_send (R.sight reach.old) q.old s.now)
        q.old q.new marks.old marks.new reach.old reach.new }
{
    let list = s.receive.receive.list.as_slice();
    if exceeds_receive(s.packet, s.before, list) {
        let none = Vec::new(q.alloc());
        let (status, code) = (WcStatus::LocalLength, NakCode::InvalidRequest);
        return fail_receive(q, s, status, code, none, marks);
    }
    let mut asks = ArrayVec::new();
    fill_receive_asks(q, s.packet, s.before, list, &mut asks);
    let asks = asks.as_slice();
    let [ask, behind @ ..] = asks else {
        return place_none(q, reach, s, marks);
    };
    let checked = reach.check(ask);
    match judge_all(reach, ask, &checked, behind) {
        Ok(found) => {
            let found = Some(found);
            place(q, reach, s, &JudgedAsks { asks, found }, marks)
        }
        Err(denied) => deny_receive(q, s, &denied, marks),
    }
}

/// A SEND packet of no bytes is placed.
#[inline(never)]
fn place_none<R: Reach>(
    q: &mut QueuePart,
    reach: &mut R,
    s: &SendPacket<'_>,
    marks: &mut Marks,
) -> Result<SharedReceive, Memory>
    requires step { CanStep q.old }
    requires can { CanPlace R.sight R.judges R.touches R.ends reach.old q.old s.now [] }
    ensures taken { IsTaken R.written R.revoked result (outcome_of_send (R.sight reach.old) q.old s.now)
        q.old q.new marks.old marks.new reach.old reach.new }
{
    let none = JudgedAsks {
        asks: &[],
        found: None,
    };
    place(q, reach, s, &none, marks)
}

/// A SEND packet whose list is allowed is placed, and may end a key.
#[inline(always)]
fn place<R: Reach>(
    q: &mut QueuePart,
    reach: &mut R,
    s: &SendPacket<'_>,
    judged: &JudgedAsks<'_, '_>,
    marks: &mut Marks,
) -> Result<SharedReceive, Memory>
    requires step { CanStep q.old }
    requires can { CanPlace R.sight R.judges R.touches R.ends reach.old q.old s.now judged.now.asks.now }
    requires found { IfSome judged.now.found (λ f. IsFoundFirst (R.sight reach.old) judged.now.asks.now f.now) }
    ensures taken { IsTaken R.written R.revoked result (outcome_of_send (R.sight reach.old) q.old s.now)
        q.old q.new marks.old marks.new reach.old reach.new }
{
    let p = s.packet;
    match p.ieth {
        None => place_send(q, reach, s, judged, marks),
        Some(key) => place_and_end(q, reach, s, judged, Key(key), marks),
    }
}

/// The list of the receive is denied, and so it fails. It stands apart, since that is rare.
#[cold]
#[inline(never)]
fn deny_receive(
    q: &mut QueuePart,
    s: &SendPacket<'_>,
    denied: &DeniedAsk,
    marks: &mut Marks,
) -> Result<SharedReceive, Memory>
    requires step { CanStep q.old }
    requires takes { MayTake (receiving s.now) q.old }
    ensures made { IsMade result (rows.behind_marks (requester.local_denial denied.now ∷ [])
        (rows.receive_failure_effects (without_taken_receive s.now.taken (arrivals.with_flag false q.old))
        s.now.receive.now WcStatus.LocalProtection None NakCode.RemoteOperationalError)) q.old
        q.new marks.old marks.new }
    ensures shared { IfOk result (λ shared. is_taken shared
        ≡ (if s.now.taken then arrivals.has_shared q.old else false)) }
{
    let mut made = Vec::new(q.alloc());
    made.push(local_denial(denied))?;
    let (status, code) = (WcStatus::LocalProtection, NakCode::RemoteOperationalError);
    fail_receive(q, s, status, code, made, marks)
}

/// The receive fails with this status, behind these marks; the packet is refused. It stands apart, since that is rare.
#[cold]
#[inline(never)]
fn fail_receive(
    q: &mut QueuePart,
    s: &SendPacket<'_>,
    status: WcStatus,
    code: NakCode,
    mut made: Vec<Mark>,
    marks: &mut Marks,
) -> Result<SharedReceive, Memory>
    requires step { CanStep q.old }
    requires takes { MayTake (receiving s.now) q.old }
    requires few { length made.items ≤ 1 }
    ensures made { IsMade result (rows.behind_marks made.items (rows.receive_failure_effects
        (without_taken_receive s.now.taken (arrivals.with_flag false q.old)) s.now.receive.now status None code)) q.old
        q.new marks.old marks.new }
    ensures shared { IfOk result (λ shared. is_taken shared
        ≡ (if s.now.taken then arrivals.has_shared q.old else false)) }
{
    let shared = taken_shared(q, s);
    let receive = s.receive;
    made.push(receive_failure(q.queue, receive.place, &receive.receive, status, None))?;
    push_flush(q, flushed_behind(s), &mut made)?;
    reserve_for(made.as_slice(), 0, marks)?;
    queue_refusal(q, code)?;
    marks.append(made);
    Ok(shared)
}

/// What becomes of the next receive of the shared receive queue.
fn taken_shared(q: &QueuePart, s: &SendPacket<'_>) -> SharedReceive
    ensures { is_taken result ≡ (if s.now.taken then arrivals.has_shared q.now else false) }
{
    if s.taken {
        return shared_receive(q);
    }
    SharedReceive::Stays
}

/// Which receives are flushed behind that of the packet.
fn flushed_behind(s: &SendPacket<'_>) -> FlushedReceives
    ensures left { (q : QueuePair)
        → left_to_flush result q ≡ arrivals.with_message None (without_taken_receive s.now.taken q) }
    ensures waits { (q : QueuePair) → MayTake (receiving s.now) q → CanFlush result q }
{
    if s.taken {
        return FlushedReceives::BehindNext;
    }
    FlushedReceives::Waiting
}

/// A SEND packet that ends no key is placed.
#[inline(always)]
fn place_send<R: Reach>(
    q: &mut QueuePart,
    reach: &mut R,
    s: &SendPacket<'_>,
    judged: &JudgedAsks<'_, '_>,
    marks: &mut Marks,
) -> Result<SharedReceive, Memory>
    requires step { CanStep q.old }
    requires can { CanPlace R.sight R.judges R.touches R.ends reach.old q.old s.now judged.now.asks.now }
    requires found { IfSome judged.now.found (λ f. IsFoundFirst (R.sight reach.old) judged.now.asks.now f.now) }
    requires no_key { s.now.packet.now.ieth ≡ None }
    ensures taken { IsTaken R.written R.revoked result (outcome_of_send (R.sight reach.old) q.old s.now)
        q.old q.new marks.old marks.new reach.old reach.new }
{
    let p = s.packet;
    let shared = taken_shared(q, s);
    marks.reserve(SEND_MARKS as u32 + SPARE_MARKS)?;
    let count = marks.as_slice().len();
    push_writes(q.alloc(), judged.asks, p.payload, marks)?;
    if let Err(memory) = queue_ack(q, p) {
        marks.truncate(count);
        return Err(memory);
    }
    write_judged(reach, judged, p.payload);
    end_send(q, s, marks);
    Ok(shared)
}

/// A SEND packet that ends a key is placed, and then the key ends. Where that is refused, the receive fails.
#[inline(never)]
fn place_and_end<R: Reach>(
    q: &mut QueuePart,
    reach: &mut R,
    s: &SendPacket<'_>,
    judged: &JudgedAsks<'_, '_>,
    key: Key,
    marks: &mut Marks,
) -> Result<SharedReceive, Memory>
    requires step { CanStep q.old }
    requires can { CanPlace R.sight R.judges R.touches R.ends reach.old q.old s.now judged.now.asks.now }
    requires found { IfSome judged.now.found (λ f. IsFoundFirst (R.sight reach.old) judged.now.asks.now f.now) }
    requires key { s.now.packet.now.ieth ≡ Some key.0 }
    ensures taken { IsTaken R.written R.revoked result (outcome_of_send (R.sight reach.old) q.old s.now)
        q.old q.new marks.old marks.new reach.old reach.new }
{
    let p = s.packet;
    let shared = taken_shared(q, s);
    let mut flushed = Vec::new(q.alloc());
    push_flush(q, flushed_behind(s), &mut flushed)?;
    reserve_for(flushed.as_slice(), SEND_MARKS, marks)?;
    let count = marks.as_slice().len();
    push_writes(q.alloc(), judged.asks, p.payload, marks)?;
    let psn = q.responder.expected;
    if let Err(memory) = queue_stand_in(&mut q.responder.answers, psn) {
        marks.truncate(count);
        return Err(memory);
    }
    write_judged(reach, judged, p.payload);
    if let Err(cause) = end_key(q, reach, key) {
        marks.push(refused_receive(q, s, cause));
        marks.append(flushed);
        replace_by_nak(&mut q.responder.answers, psn);
        q.responder.nak_sent = false;
        q.move_to_error();
        return Ok(shared);
    }
    replace_by_ack(&mut q.responder.answers, psn, p.ack);
    marks.push(Mark::Revoked {
        adapter: q.queue.adapter,
        key,
    });
    end_send(q, s, marks);
    Ok(shared)
}

/// The completion of a receive whose message's key was not ended.
fn refused_receive(q: &QueuePart, s: &SendPacket<'_>, cause: OpRefusal) -> Mark
    ensures { result ≡ completions.receive_failure q.now.queue s.now.receive.now.place s.now.receive.now.receive
        WcStatus.MemoryManagement (Some cause) }
{
    receive_failure(
        q.queue,
        s.receive.place,
        &s.receive.receive,
        WcStatus::MemoryManagement,
        Some(cause),
    )
}

/// Ends a key, and counts a type 2 window that it unbinds.
fn end_key<R: Reach>(q: &mut QueuePart, reach: &mut R, key: Key) -> Result<(), OpRefusal>
    requires { MayEnd R.sight R.ends reach.old q.old (key_end q.old key) }
    ensures { IsEnding R.sight R.revoked result (key_end q.old key) q.old q.new reach.old reach.new }
{
    reach.invalidate(key, q.queue, &mut q.windows)
}

/// A SEND packet took effect: its receive is taken where the message begins with it, and the message goes on or ends.
/// The acknowledgement is queued already.
#[inline(always)]
fn end_send(q: &mut QueuePart, s: &SendPacket<'_>, marks: &mut Marks)
    requires numbers { CanPass q.old }
    requires fits { IsFitting q.old s.now }
    requires room { SPARE_MARKS + 1 ≤ marks.old.room }
    ensures { HasMade (rows.after_send_packet
        (without_taken_receive s.now.taken (arrivals.with_flag false q.old))
        (without_ack_request s.now.packet.now) s.now.position (receiving s.now)) q.new marks.old marks.new }
{
    take_receive(q, s);
    let p = s.packet;
    let bytes = s.before + p.payload.len() as u32;
    if !s.position.ends() {
        q.responder.message = Some(message_behind(s, bytes));
        pass(q, 1, false);
        return;
    }
    let received = Received {
        op: WcOp::Recv,
        bytes,
        imm: p.imm,
        invalidated: ended_key(p),
    };
    marks.push(receive_mark(q.queue, s.receive, received));
    if q.responder.message.is_some() {
        q.responder.message = None;
    }
    pass(q, 1, true);
}

/// The message in progress behind a packet that does not end it, by so many bytes.
#[inline(never)]
fn message_behind(s: &SendPacket<'_>, bytes: u32) -> Message
    ensures { result ≡ Message.Send s.now.receive.now.place s.now.receive.now.receive bytes }
{
    let receive = &s.receive.receive;
    let mut list = ArrayVec::new();
    list.try_extend_from_slice(receive.list.as_slice()).unwrap();
    Message::Send {
        place: s.receive.place,
        receive: RecvRequest {
            id: receive.id,
            list,
        },
        bytes,
    }
}

/// Takes the next receive of the queue pair's own, where the packet takes it.
fn take_receive(q: &mut QueuePart, s: &SendPacket<'_>)
    requires { MayTake (receiving s.now) q.old }
    ensures { q.new ≡ without_taken_receive s.now.taken q.old }
{
    if s.taken {
        take_own(q);
    }
}

/// The key that the packet ends.
fn ended_key(p: &Packet<'_>) -> Option<Key>
    ensures { result ≡ option_map (λ key. record { 0 = key }) p.now.ieth }
{
    match p.ieth {
        Some(key) => Some(Key(key)),
        None => None,
    }
}
