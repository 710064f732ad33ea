ghost use Rattle.std.specs.Prelude.{◌≡◌, ℕ, Option, None, Some, IfOk, IfErr, OnOk};
ghost use Rattle.ca_keys.specs.Refusals.{first_of};
ghost use Rattle.ca_base.specs.objects.SharedReceives.{SharedReceives};
ghost use Rattle.ca_qpstate.specs.ca_model.machine.Delivery.{arrival_drops, arrival_row};
ghost use Rattle.ca_qpstate.specs.ca_model.machine.Responses.{drop_effects};
ghost use Rattle.ca_qpstate.specs.ca_model.machine.Row.{Does, plain_row};
ghost use Rattle.ca_qp_rows.specs.Arrival.{IsArrivalOf, drop_of};

use ca_base::State;
use ca_qpstate::QueuePart;
use ca_qpstate::ca_model::Drop1;
use ca_wire::{DEFAULT_PKEY, Operation, Packet, Shape, decode, operation_of};

/// A packet that arrived at a queue pair and is not dropped, for the engine that takes it.
#[derive(Drop)]
pub enum Arrival<'a> {
    /// A response, for the requester.
    Response(Packet<'a>),
    /// A request, and its shape, for the responder.
    Request(Packet<'a>, Shape),
}

/// The packet of bytes that arrive at a queue pair. An error is the first cause for which they are dropped before their
/// row: `Wire`, with what `decode` says, exactly where they are no packet, `Partition`, `Queue` and `State`; `drop_packet`
/// makes its mark. The payload is a slice of `bytes`; no memory is taken.
#[inline(always)]
pub fn arrival_of<'a>(q: &QueuePart, bytes: &'a [u8]) -> Result<Arrival<'a>, Drop1>
    ensures cause { IfErr result (λ cause. drop_of bytes.now q.now ≡ Some cause) }
    ensures dropped { IfErr result (λ cause. (envelope : Option ℕ) (shared : Option SharedReceives)
        → arrival_row bytes.now envelope shared q.now ≡ plain_row (Does (drop_effects q.now cause))) }
    ensures taken { OnOk result (drop_of bytes.now q.now ≡ None) }
    ensures arrived { IfOk result (λ a. IsArrivalOf bytes.now q.now a) }
{
    let p = match decode(bytes) {
        Ok(p) => p,
        Err(error) => return Err(Drop1::Wire(error)),
    };
    if let Some(cause) = drop_cause(q, &p) {
        return Err(cause);
    }
    match operation_of(p.opcode) {
        Some(Operation::Request(shape)) => Ok(Arrival::Request(p, shape)),
        Some(_) => Ok(Arrival::Response(p)),
        None => unreachable!(),
    }
}

/// The first cause for which a packet is dropped before its row.
#[inline(always)]
fn drop_cause(q: &QueuePart, p: &Packet<'_>) -> Option<Drop1>
    ensures { result ≡ first_of (arrival_drops q.now p.now) }
{
    if p.pkey != DEFAULT_PKEY {
        return Some(Drop1::Partition);
    }
    if p.queue != q.queue.number {
        return Some(Drop1::Queue);
    }
    if matches!(q.state, State::Rtr | State::Rts | State::Sqd) {
        None
    } else {
        Some(Drop1::State)
    }
}
