ghost use Rattle.std.specs.Prelude.{◌≡◌, ◌^◌, ◌<◌, ◌≤◌, length};
ghost use Rattle.ca_base.specs.declared.limits.TheConstants.{MAX_PAYLOAD_BYTES};
ghost use Rattle.ca_wire.specs.Builders as packets;
ghost use Rattle.ca_wire.specs.Packet.{IsWellFormed};
ghost use Rattle.ca_wire.specs.Syndrome.{FitsSyndrome};

use crate::opcode::*;
use crate::segment::Segment;
use crate::syndrome::{NakCode, Syndrome, UNLIMITED_CREDITS};
use crate::{Aeth, Packet, Position};

#[inline(always)]
fn aeth_of(syndrome: Syndrome, msn: u32) -> Aeth
    requires { FitsSyndrome syndrome }
    ensures { result ≡ packets.aeth_of syndrome msn }
{
    Aeth {
        syndrome: syndrome.byte(),
        msn,
    }
}

/// An Acknowledge packet that says this, at this PSN. All numbers but the codes are below 2^24.
pub fn acknowledge(syndrome: Syndrome, queue: u32, psn: u32, msn: u32) -> Packet<'static>
    requires code { FitsSyndrome syndrome }
    requires queue { queue < 2 ^ 24 }
    requires psn { psn < 2 ^ 24 }
    requires msn { msn < 2 ^ 24 }
    ensures fields { result ≡ packets.acknowledge syndrome queue psn msn }
    ensures well_formed { IsWellFormed result }
{
    Packet {
        aeth: Some(aeth_of(syndrome, msn)),
        ..Packet::plain(ACKNOWLEDGE, queue, psn, &[])
    }
}

/// An acknowledgement of all up to this PSN, whose responder does not limit its requester.
pub fn acknowledgement(queue: u32, psn: u32, msn: u32) -> Packet<'static>
    requires queue { queue < 2 ^ 24 }
    requires psn { psn < 2 ^ 24 }
    requires msn { msn < 2 ^ 24 }
    ensures fields { result ≡ packets.acknowledgement queue psn msn }
    ensures well_formed { IsWellFormed result }
{
    acknowledge(Syndrome::Ack(UNLIMITED_CREDITS), queue, psn, msn)
}

/// The receiver has nothing to take the request at this PSN; the timer code, below 32, says how long to wait.
pub fn rnr_nak(timer: u8, queue: u32, psn: u32, msn: u32) -> Packet<'static>
    requires code { FitsSyndrome (Syndrome.RnrNak timer) }
    requires queue { queue < 2 ^ 24 }
    requires psn { psn < 2 ^ 24 }
    requires msn { msn < 2 ^ 24 }
    ensures fields { result ≡ packets.rnr_nak timer queue psn msn }
    ensures well_formed { IsWellFormed result }
{
    acknowledge(Syndrome::RnrNak(timer), queue, psn, msn)
}

/// The request at this PSN is refused, for this reason.
pub fn nak(code: NakCode, queue: u32, psn: u32, msn: u32) -> Packet<'static>
    requires queue { queue < 2 ^ 24 }
    requires psn { psn < 2 ^ 24 }
    requires msn { msn < 2 ^ 24 }
    ensures fields { result ≡ packets.nak code queue psn msn }
    ensures well_formed { IsWellFormed result }
{
    acknowledge(Syndrome::Nak(code), queue, psn, msn)
}

/// The answer to the atomic at this PSN: the number that it found.
pub fn atomic_acknowledge(found: u64, queue: u32, psn: u32, msn: u32) -> Packet<'static>
    requires queue { queue < 2 ^ 24 }
    requires psn { psn < 2 ^ 24 }
    requires msn { msn < 2 ^ 24 }
    ensures fields { result ≡ packets.atomic_acknowledge found queue psn msn }
    ensures well_formed { IsWellFormed result }
{
    Packet {
        aeth: Some(aeth_of(Syndrome::Ack(UNLIMITED_CREDITS), msn)),
        result: Some(found),
        ..Packet::plain(ATOMIC_ACKNOWLEDGE, queue, psn, &[])
    }
}

fn read_response_opcode(position: Position) -> u8
    ensures { result ≡ packets.read_response_opcode position }
{
    match position {
        Position::First => RDMA_READ_RESPONSE_FIRST,
        Position::Middle => RDMA_READ_RESPONSE_MIDDLE,
        Position::Last => RDMA_READ_RESPONSE_LAST,
        Position::Only => RDMA_READ_RESPONSE_ONLY,
    }
}

fn read_response_aeth(position: Position, msn: u32) -> Option<Aeth>
    ensures { result ≡ packets.read_response_aeth msn position }
{
    match position {
        Position::Middle => None,
        _ => Some(aeth_of(Syndrome::Ack(UNLIMITED_CREDITS), msn)),
    }
}

/// A segment of the answer to a READ, with the bytes that it brings. One in the middle has no AETH, and so no MSN.
pub fn read_response(segment: Segment, queue: u32, psn: u32, msn: u32, payload: &[u8]) -> Packet<'_>
    requires segment { segment.index < segment.count }
    requires queue { queue < 2 ^ 24 }
    requires psn { psn < 2 ^ 24 }
    requires msn { msn < 2 ^ 24 }
    requires payload { length payload.now ≤ MAX_PAYLOAD_BYTES }
    ensures fields { result ≡ packets.read_response segment queue psn msn payload.now }
    ensures well_formed { IsWellFormed result }
{
    let position = segment.position();
    Packet {
        aeth: read_response_aeth(position, msn),
        ..Packet::plain(read_response_opcode(position), queue, psn, payload)
    }
}
