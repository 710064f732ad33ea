ghost use Rattle.std.specs.Prelude.{◌≡◌, ◌≤◌, ◌∷◌, [], ℕ, Option, None, ◌==◌, if◌then◌else◌, IfNone, IfSome, false, length, option_copied};
ghost use Rattle.std.specs.Option.{option_map};
ghost use Rattle.ca_keys.specs.declared.access.Kind.{Kind};
ghost use Rattle.ca_base.specs.declared.limits.TheConstants.{MAX_PAYLOAD_BYTES, MAX_PIECES};
ghost use Rattle.ca_base.specs.objects.QueuePair.{QueuePair};
ghost use Rattle.ca_model.specs.Packets.{is_response};
ghost use Rattle.ca_model.specs.machine.Arrivals as arrivals;
ghost use Rattle.ca_model.specs.machine.Delivery.{packet_arrived};
ghost use Rattle.ca_model.specs.machine.Expected as rows;
ghost use Rattle.ca_model.specs.machine.Invariants.{IsSharedReceives};
ghost use Rattle.ca_responder.specs.Asking as asking;
ghost use Rattle.ca_responder.specs.Asking.{CanAsk, MeetsNothing};
ghost use Rattle.ca_responder_operations.specs.Receives.{AreCounted};
ghost use Rattle.ca_responder_operations.specs.Sends.{key_end};
ghost use Rattle.ca_model.specs.machine.CanStep.{CanStep};
ghost use Rattle.ca_wire.specs.Packet.{IsWellFormed};

use crate::checks::{is_invalid, lacks_receive};
use arrayvec::ArrayVec;
use ca_base::limits::{ATOMIC_BYTES, MAX_PIECES};
use ca_base::{Ask, Key, Message, Piece};
use ca_model::WriteReach;
use ca_psn::widen;
use ca_responder_operations::ca_qpstate::QueuePart;
use ca_responder_operations::ca_responder_answers::packet_ask;
use ca_responder_operations::{
    Request, exceeds_receive, next_receive, receive_asks, write_ask, write_reach,
};
use ca_srq::Srq;
use ca_wire::{Packet, Shape, shape_of};

/// The asks that `on_request` may make, in order; it makes no other. It takes no memory.
pub fn request_asks(q: &QueuePart, srq: Option<&Srq>, p: &Packet<'_>) -> ArrayVec<Ask, MAX_PIECES>
    requires step { CanStep q.now }
    requires shared { IfSome (option_copied srq) IsSharedReceives }
    requires packet { IsWellFormed p.now }
    requires request { is_response p.now.opcode ≡ false }
    ensures { (envelope : Option ℕ) → result.items ≡
        (packet_arrived p.now envelope (option_copied srq.entry) q.now).asks }
{
    match valid_shape(q, srq, p) {
        Some(shape) => valid_asks(q, srq, p, shape),
        None => ArrayVec::new(),
    }
}

/// The key that `on_request` may end: that of a SEND with Invalidate, at its last packet, where this is the expected one,
/// valid, and fits its receive. It ends no other, and this one only where its list is allowed. It takes no memory.
pub fn request_key(q: &QueuePart, srq: Option<&Srq>, p: &Packet<'_>) -> Option<Key>
    requires step { CanStep q.now }
    requires shared { IfSome (option_copied srq) IsSharedReceives }
    requires packet { IsWellFormed p.now }
    requires request { is_response p.now.opcode ≡ false }
    ensures { (envelope : Option ℕ) → option_map (key_end q.now) result ≡
        (packet_arrived p.now envelope (option_copied srq.entry) q.now).invalidation }
{
    match valid_shape(q, srq, p) {
        Some(shape) => valid_key(q, srq, p, shape),
        None => None,
    }
}

/// The shape of a request that has the expected PSN, is valid, and has its receive.
fn valid_shape(q: &QueuePart, srq: Option<&Srq>, p: &Packet<'_>) -> Option<Shape>
    requires step { CanStep q.now }
    requires shared { IfSome (option_copied srq) IsSharedReceives }
    requires packet { IsWellFormed p.now }
    requires request { is_response p.now.opcode ≡ false }
    ensures none { IfNone result ((envelope : Option ℕ)
        → MeetsNothing (packet_arrived p.now envelope (option_copied srq.entry) q.now)) }
    ensures some { IfSome result (λ shape. (envelope : Option ℕ)
        → rows.valid_row (arrivals.with_flag false q.now) p.now envelope
        (arrivals.next_receive q.now (option_copied srq.entry)) shape
        ≡ packet_arrived p.now envelope (option_copied srq.entry) q.now) }
{
    let Some(shape) = shape_of(p.opcode) else {
        return None;
    };
    if widen(q.responder.expected, p.psn) != q.responder.expected {
        return None;
    }
    let request = Request {
        packet: p,
        envelope: None,
        shape,
    };
    if is_invalid(q, &request) || lacks_receive(q, srq, &request) {
        return None;
    }
    Some(shape)
}

/// The asks of a packet that is valid and has its receive.
#[tactic(auto, using(crate::proofs::AskingLemmas::asks_of_send))]
fn valid_asks(
    q: &QueuePart,
    srq: Option<&Srq>,
    p: &Packet<'_>,
    shape: Shape,
) -> ArrayVec<Ask, MAX_PIECES>
    requires { CanAsk q.now (option_copied srq) p.now }
    ensures { (envelope : Option ℕ) → result.items ≡ (rows.valid_row (arrivals.with_flag false q.now)
        p.now envelope (arrivals.next_receive q.now (option_copied srq.entry)) shape).asks }
{
    match shape {
        Shape::Send(_) => send_asks(q, srq, p),
        Shape::Write(_) => match write_reach(q, p) {
            Some(r) => left_asks(q, p, &r),
            None => ArrayVec::new(),
        },
        Shape::Read => ArrayVec::new(),
        Shape::Atomic(kind) => match p.atomic {
            Some(a) => one(packet_ask(q, a.key, kind, a.address, ATOMIC_BYTES, ATOMIC_BYTES)),
            None => ArrayVec::new(),
        },
    }
}

/// The key that a packet ends which is valid and has its receive.
#[tactic(auto, using(crate::proofs::AskingLemmas::key_of_send, crate::proofs::AskingLemmas::key_of_write, crate::proofs::AskingLemmas::key_of_read, crate::proofs::AskingLemmas::key_of_atomic))]
fn valid_key(q: &QueuePart, srq: Option<&Srq>, p: &Packet<'_>, shape: Shape) -> Option<Key>
    requires { CanAsk q.now (option_copied srq) p.now }
    ensures { (envelope : Option ℕ) → option_map (key_end q.now) result
        ≡ (rows.valid_row (arrivals.with_flag false q.now)
        p.now envelope (arrivals.next_receive q.now (option_copied srq.entry)) shape).invalidation }
{
    match shape {
        Shape::Send(_) => send_key(q, srq, p),
        Shape::Write(_) => None,
        Shape::Read => None,
        Shape::Atomic(_) => None,
    }
}

/// A receive's list into which a packet's bytes fit, and how many bytes came before.
#[derive(Clone, Copy)]
struct Fit<'a> {
    before: u32,
    list: &'a [Piece],
}

/// The asks of a SEND packet.
fn send_asks(q: &QueuePart, srq: Option<&Srq>, p: &Packet<'_>) -> ArrayVec<Ask, MAX_PIECES>
    requires { CanAsk q.now (option_copied srq) p.now }
    ensures { result.items ≡ asking.send_asks q.now p.now
        (asking.fit_of q.now p.now (arrivals.next_receive q.now (option_copied srq.entry))) }
{
    match fit_of(q, srq, p) {
        Some(fit) => receive_asks(q, p, fit.before, fit.list),
        None => ArrayVec::new(),
    }
}

/// The key that a SEND packet ends.
fn send_key(q: &QueuePart, srq: Option<&Srq>, p: &Packet<'_>) -> Option<Key>
    requires { CanAsk q.now (option_copied srq) p.now }
    ensures { option_map (key_end q.now) result ≡ asking.send_key q.now p.now
        (asking.fit_of q.now p.now (arrivals.next_receive q.now (option_copied srq.entry))) }
{
    match fit_of(q, srq, p) {
        Some(_) => named_key(p),
        None => None,
    }
}

/// The key that a packet names in its IETH.
fn named_key(p: &Packet<'_>) -> Option<Key>
    ensures { (q : QueuePair) → option_map (key_end q) result ≡ rows.invalidation_of q p.now }
{
    match p.ieth {
        Some(key) => Some(Key(key)),
        None => None,
    }
}

/// The list that a SEND packet fits into, by the receive of the message in progress, or by the next one.
#[tactic(auto, using(crate::proofs::AskingLemmas::fit_of_next, crate::proofs::AskingLemmas::fit_of_none))]
fn fit_of<'a>(q: &'a QueuePart, srq: Option<&'a Srq>, p: &Packet<'_>) -> Option<Fit<'a>>
    requires { CanAsk q.now (option_copied srq) p.now }
    ensures value { option_map (λ f. (f.before, f.list.now)) result
        ≡ asking.fit_of q.now p.now (arrivals.next_receive q.now (option_copied srq.entry)) }
    ensures few { IfSome result (λ f. length f.list.now ≤ MAX_PIECES) }
{
    if let Some(Message::Send { receive, bytes, .. }) = &q.responder.message {
        return fit_into(p, *bytes, receive.list.as_slice());
    }
    match next_receive(q, srq) {
        Some(receive) => fit_into(p, 0, receive.list.as_slice()),
        None => None,
    }
}

/// A receive's list behind so many bytes, where a packet's fit into it.
fn fit_into<'a>(p: &Packet<'_>, before: u32, list: &'a [Piece]) -> Option<Fit<'a>>
    requires few { length list.now ≤ MAX_PIECES }
    requires counted { AreCounted (length p.now.payload) before list.now }
    ensures value { option_map (λ f. (f.before, f.list.now)) result ≡ asking.fit_into p.now before list.now }
    ensures few { IfSome result (λ f. length f.list.now ≤ MAX_PIECES) }
{
    if exceeds_receive(p, before, list) {
        return None;
    }
    Some(Fit { before, list })
}

/// The ask of a WRITE packet. One of no bytes makes none.
fn left_asks(q: &QueuePart, p: &Packet<'_>, r: &WriteReach) -> ArrayVec<Ask, MAX_PIECES>
    requires { length p.now.payload ≤ MAX_PAYLOAD_BYTES }
    ensures { result.items ≡ (if r.now.left == 0 then []
        else arrivals.packet_ask q.now r.now.key Kind.Write r.now.address r.now.left (length p.now.payload) ∷ []) }
{
    if r.left == 0 {
        return ArrayVec::new();
    }
    one(write_ask(q, p, r))
}

fn one(ask: Ask) -> ArrayVec<Ask, MAX_PIECES>
    ensures { result.items ≡ ask ∷ [] }
{
    let mut asks = ArrayVec::new();
    asks.push(ask);
    asks
}
