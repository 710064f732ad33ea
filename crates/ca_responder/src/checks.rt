ghost use Rattle.std.specs.Prelude.{◌≡◌, ◌&&◌, IfSome, None, OnOk, nat_lt, not, false, is_none, option_copied};
ghost use Rattle.std.specs.Option.{option_map_or};
ghost use Rattle.ca_base.specs.declared.limits.TheConstants.{MAX_MESSAGE_BYTES};
ghost use Rattle.ca_responder_operations.specs.Receives.{IsNext, receive_if};
ghost use Rattle.ca_model.specs.machine.Arrivals as arrivals;
ghost use Rattle.ca_model.specs.machine.Expected as rows;
ghost use Rattle.ca_model.specs.machine.Invariants.{IsQueue, IsSharedReceives};

use ca_base::limits::{ATOMIC_BYTES, MAX_MESSAGE_BYTES, MAX_READS};
use ca_base::{Memory, Message, PlacedReceive};
use ca_model::WriteReach;
use ca_responder_operations::ca_qpstate::QueuePart;
use ca_responder_operations::{Request, find_receive, next_receive, write_reach};
use ca_srq::Srq;
use ca_wire::{Packet, Position, Shape};

/// Whether the packet with the expected PSN is an invalid request: the checks in their order.
#[inline(always)]
pub fn is_invalid(q: &QueuePart, request: &Request<'_>) -> bool
    ensures { result ≡ rows.is_invalid q.now request.now.packet.now request.now.shape }
{
    let (p, shape) = (request.packet, request.shape);
    let is_valid = continues(&q.responder.message, shape)
        && fits_payload(q, p, shape)
        && fits_write(q, p, shape)
        && fits_message(p)
        && is_aligned(p)
        && has_place(q, shape);
    !is_valid
}

/// Whether the packet goes on with the message in progress, or begins one where none is.
fn continues(message: &Option<Message>, shape: Shape) -> bool
    ensures { result ≡ rows.continues message.now shape }
{
    match message {
        None => match shape {
            Shape::Send(position) => position.begins(),
            Shape::Write(position) => position.begins(),
            Shape::Read => true,
            Shape::Atomic(_) => true,
        },
        Some(Message::Send { .. }) => match shape {
            Shape::Send(position) => !position.begins(),
            _ => false,
        },
        Some(Message::Write { .. }) => match shape {
            Shape::Write(position) => !position.begins(),
            _ => false,
        },
    }
}

/// Whether the payload of a SEND or a WRITE fits its position in the message.
fn fits_payload(q: &QueuePart, p: &Packet<'_>, shape: Shape) -> bool
    ensures { result ≡ rows.fits_payload q.now p.now shape }
{
    let mtu = usize::from(q.responder.mtu);
    match shape {
        Shape::Send(position) => fits_position(mtu, position, p.payload.len()),
        Shape::Write(position) => fits_position(mtu, position, p.payload.len()),
        Shape::Read => true,
        Shape::Atomic(_) => true,
    }
}

/// Exactly the path MTU, 1 to it at the end, 0 to it alone.
fn fits_position(mtu: usize, position: Position, count: usize) -> bool
    ensures { result ≡ rows.fits_position mtu position count }
{
    match position {
        Position::First => count == mtu,
        Position::Middle => count == mtu,
        Position::Last => 0 < count && count <= mtu,
        Position::Only => count <= mtu,
    }
}

/// Whether a WRITE leaves bytes before its last packet, and ends exactly with it.
fn fits_write(q: &QueuePart, p: &Packet<'_>, shape: Shape) -> bool
    ensures { result ≡ rows.fits_write q.now p.now shape }
{
    match shape {
        Shape::Write(position) => match write_reach(q, p) {
            Some(r) => fits_left(p.payload.len(), position, &r),
            None => true,
        },
        Shape::Send(_) => true,
        Shape::Read => true,
        Shape::Atomic(_) => true,
    }
}

fn fits_left(count: usize, position: Position, r: &WriteReach) -> bool
    ensures { result ≡ rows.fits_left count position r.now }
{
    let left = r.left as usize;
    if position.ends() {
        count == left
    } else {
        count < left
    }
}

/// Whether the length of the RETH is one that a message may have.
fn fits_message(p: &Packet<'_>) -> bool
    ensures { result ≡ not (option_map_or (λ h. nat_lt MAX_MESSAGE_BYTES h.length) p.now.reth false) }
{
    match p.reth {
        Some(h) => h.length <= MAX_MESSAGE_BYTES,
        None => true,
    }
}

/// Whether an atomic's address is a multiple of eight.
fn is_aligned(p: &Packet<'_>) -> bool
    ensures { result ≡ not (rows.is_misaligned p.now) }
{
    match p.atomic {
        Some(a) => a.address % u64::from(ATOMIC_BYTES) == 0,
        None => true,
    }
}

/// Whether one more READ or atomic can be queued, where the packet is one.
#[inline(always)]
fn has_place(q: &QueuePart, shape: Shape) -> bool
    ensures { result ≡ not (rows.has_no_place q.now shape) }
{
    match shape {
        Shape::Read => q.responder.answers.fresh_count() < usize::from(MAX_READS),
        Shape::Atomic(_) => q.responder.answers.fresh_count() < usize::from(MAX_READS),
        Shape::Send(_) => true,
        Shape::Write(_) => true,
    }
}

/// Whether the packet takes a receive: a SEND as it begins, a WRITE with its immediate data.
fn takes_receive(request: &Request<'_>) -> bool
    ensures { result ≡ rows.takes_receive request.now.packet.now request.now.shape }
{
    let p = request.packet;
    match request.shape {
        Shape::Send(position) => position.begins(),
        Shape::Write(_) => p.imm.is_some(),
        Shape::Read => false,
        Shape::Atomic(_) => false,
    }
}

/// Whether the packet takes a receive where there is none.
#[tactic(auto, using(crate::proofs::AskingLemmas::none_waits))]
pub fn lacks_receive(q: &QueuePart, srq: Option<&Srq>, request: &Request<'_>) -> bool
    requires { IsQueue q.now }
    ensures { result ≡ (rows.takes_receive request.now.packet.now request.now.shape
        && is_none (arrivals.next_receive q.now (option_copied srq.entry))) }
{
    takes_receive(request) && next_receive(q, srq).is_none()
}

/// Whether the packet takes a receive, and this, which was found for it, is none.
pub fn is_missing(request: &Request<'_>, next: &Option<PlacedReceive>) -> bool
    ensures { result ≡ (rows.takes_receive request.now.packet.now request.now.shape && is_none next.now) }
{
    takes_receive(request) && next.is_none()
}

/// Puts a copy of the receive that the packet takes, with its posting place, where it takes one.
pub fn put_receive(
    q: &QueuePart,
    srq: Option<&Srq>,
    request: &Request<'_>,
    next: &mut Option<PlacedReceive>,
) -> Result<(), Memory>
    requires queue { IsQueue q.now }
    requires shared { IfSome (option_copied srq) IsSharedReceives }
    requires empty { next.old ≡ None }
    ensures { OnOk result (IsNext q.now (receive_if (rows.takes_receive request.now.packet.now request.now.shape)
        (arrivals.next_receive q.now (option_copied srq.entry))) next.new) }
{
    if !takes_receive(request) {
        return Ok(());
    }
    put_next(q, srq, next)
}

/// Puts a copy of the receive that a message would take. It stands apart, so that a packet that takes none has no room for
/// one made.
#[inline(never)]
fn put_next(
    q: &QueuePart,
    srq: Option<&Srq>,
    next: &mut Option<PlacedReceive>,
) -> Result<(), Memory>
    requires queue { IsQueue q.now }
    requires shared { IfSome (option_copied srq) IsSharedReceives }
    ensures { OnOk result (IsNext q.now (arrivals.next_receive q.now (option_copied srq.entry)) next.new) }
{
    *next = find_receive(q, srq)?;
    Ok(())
}
