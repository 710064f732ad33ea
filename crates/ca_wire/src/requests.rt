ghost use Rattle.std.specs.Prelude.{◌≡◌, ◌^◌, ◌<◌, ◌≤◌, length};
ghost use Rattle.ca_base.specs.declared.limits.TheConstants.{MAX_PAYLOAD_BYTES};
ghost use Rattle.ca_wire.specs.Builders as packets;
ghost use Rattle.ca_wire.specs.Packet.{IsWellFormed};

use crate::opcode::*;
use crate::segment::Segment;
use crate::{AtomicEth, Packet, Position, Reth};
use ca_base::Key;

/// What a SEND brings beside its bytes, at its end.
#[derive(Clone, Copy)]
pub enum SendKind {
    /// Nothing.
    Plain,
    /// Immediate data.
    WithImmediate(u32),
    /// The R_Key that the responder is to invalidate.
    WithInvalidate(Key),
}

impl SendKind {
    fn opcode(self, position: Position) -> u8
        ensures { result ≡ packets.send_opcode self position }
    {
        match (position, self) {
            (Position::First, _) => SEND_FIRST,
            (Position::Middle, _) => SEND_MIDDLE,
            (Position::Last, SendKind::Plain) => SEND_LAST,
            (Position::Only, SendKind::Plain) => SEND_ONLY,
            (Position::Last, SendKind::WithImmediate(_)) => SEND_LAST_WITH_IMMEDIATE,
            (Position::Only, SendKind::WithImmediate(_)) => SEND_ONLY_WITH_IMMEDIATE,
            (Position::Last, SendKind::WithInvalidate(_)) => SEND_LAST_WITH_INVALIDATE,
            (Position::Only, SendKind::WithInvalidate(_)) => SEND_ONLY_WITH_INVALIDATE,
        }
    }

    fn immediate(self) -> Option<u32>
        ensures { result ≡ packets.immediate_of self }
    {
        match self {
            SendKind::WithImmediate(imm) => Some(imm),
            _ => None,
        }
    }

    fn invalidates(self) -> Option<u32>
        ensures { result ≡ packets.invalidated_by self }
    {
        match self {
            SendKind::WithInvalidate(key) => Some(key.0),
            _ => None,
        }
    }
}

fn write_opcode(imm: Option<u32>, position: Position) -> u8
    ensures { result ≡ packets.write_opcode imm position }
{
    match (position, imm) {
        (Position::First, _) => RDMA_WRITE_FIRST,
        (Position::Middle, _) => RDMA_WRITE_MIDDLE,
        (Position::Last, None) => RDMA_WRITE_LAST,
        (Position::Only, None) => RDMA_WRITE_ONLY,
        (Position::Last, Some(_)) => RDMA_WRITE_LAST_WITH_IMMEDIATE,
        (Position::Only, Some(_)) => RDMA_WRITE_ONLY_WITH_IMMEDIATE,
    }
}

fn at_end(position: Position, value: Option<u32>) -> Option<u32>
    ensures { result ≡ packets.at_end position value }
{
    if position.ends() { value } else { None }
}

/// A segment of a SEND, with the bytes that it brings. `solicited` is the request's: it is sent at the message's end.
pub fn send_packet(
    kind: SendKind,
    segment: Segment,
    solicited: bool,
    queue: u32,
    psn: u32,
    payload: &[u8],
) -> Packet<'_>
    requires segment { segment.index < segment.count }
    requires queue { queue < 2 ^ 24 }
    requires psn { psn < 2 ^ 24 }
    requires payload { length payload.now ≤ MAX_PAYLOAD_BYTES }
    ensures fields { result ≡ packets.send_packet kind segment solicited queue psn payload.now }
    ensures well_formed { IsWellFormed result }
{
    let position = segment.position();
    Packet {
        solicited: position.ends() && solicited,
        ack: segment.asks_acknowledgement(),
        imm: at_end(position, kind.immediate()),
        ieth: at_end(position, kind.invalidates()),
        ..Packet::plain(kind.opcode(position), queue, psn, payload)
    }
}

/// A segment of a WRITE, with the bytes that it brings. The RETH speaks of the whole message, and is sent at its
/// beginning; the immediate data and the request's `solicited`, which needs them, at its end.
pub fn write_packet(
    segment: Segment,
    reth: Reth,
    imm: Option<u32>,
    solicited: bool,
    queue: u32,
    psn: u32,
    payload: &[u8],
) -> Packet<'_>
    requires segment { segment.index < segment.count }
    requires queue { queue < 2 ^ 24 }
    requires psn { psn < 2 ^ 24 }
    requires payload { length payload.now ≤ MAX_PAYLOAD_BYTES }
    ensures fields { result ≡ packets.write_packet segment reth imm solicited queue psn payload.now }
    ensures well_formed { IsWellFormed result }
{
    let position = segment.position();
    Packet {
        solicited: position.ends() && (imm.is_some() && solicited),
        ack: segment.asks_acknowledgement(),
        reth: if position.begins() { Some(reth) } else { None },
        imm: at_end(position, imm),
        ..Packet::plain(write_opcode(imm, position), queue, psn, payload)
    }
}

/// A READ of what the RETH names.
pub fn read_request(reth: Reth, queue: u32, psn: u32) -> Packet<'static>
    requires queue { queue < 2 ^ 24 }
    requires psn { psn < 2 ^ 24 }
    ensures fields { result ≡ packets.read_request reth queue psn }
    ensures well_formed { IsWellFormed result }
{
    Packet {
        ack: true,
        reth: Some(reth),
        ..Packet::plain(RDMA_READ_REQUEST, queue, psn, &[])
    }
}

/// A CmpSwap.
pub fn cmp_swap(atomic: AtomicEth, queue: u32, psn: u32) -> Packet<'static>
    requires queue { queue < 2 ^ 24 }
    requires psn { psn < 2 ^ 24 }
    ensures fields { result ≡ packets.cmp_swap atomic queue psn }
    ensures well_formed { IsWellFormed result }
{
    Packet {
        ack: true,
        atomic: Some(atomic),
        ..Packet::plain(CMP_SWAP, queue, psn, &[])
    }
}

/// A FetchAdd of this number to the eight bytes at this address, under this R_Key. It sends 0 as the number to compare
/// with, which is this profile's choice.
pub fn fetch_add(address: u64, key: Key, add: u64, queue: u32, psn: u32) -> Packet<'static>
    requires queue { queue < 2 ^ 24 }
    requires psn { psn < 2 ^ 24 }
    ensures fields { result ≡ packets.fetch_add address key add queue psn }
    ensures well_formed { IsWellFormed result }
{
    let atomic = AtomicEth {
        address,
        key,
        swap: add,
        compare: 0,
    };
    Packet {
        ack: true,
        atomic: Some(atomic),
        ..Packet::plain(FETCH_ADD, queue, psn, &[])
    }
}
