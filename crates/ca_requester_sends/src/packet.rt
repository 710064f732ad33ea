ghost use Rattle.std.specs.Prelude.{◌≡◌, ℕ, ◌+◌, ◌*◌, ◌<◌, ◌≤◌, [], true, if◌then◌else◌, Some, OnOk, OnErr, length};
ghost use Rattle.ca_keys.specs.declared.access.Kind.{Kind};
ghost use Rattle.ca_base.specs.declared.limits.TheConstants.{MAX_PAYLOAD_BYTES};
ghost use Rattle.ca_model.specs.Requests as requests;
ghost use Rattle.ca_model.specs.machine.Invariants.{IsList};
ghost use Rattle.ca_model.specs.machine.Numbering.{is_answered_op, is_atomic_op};
ghost use Rattle.ca_model.specs.machine.Requester as requester;
ghost use Rattle.ca_wire.specs.Packet.{most_spelt};
ghost use Rattle.ca_qp_rows.specs.Asks.{AreAsksFor};
ghost use Rattle.ca_qp_rows.specs.Made.{IsSpelt};
ghost use Rattle.ca_requester_sends.specs.Packets.{IsBuilt, IsHead, IsHeadOf, IsPacket, packet_fields, reth_of};
ghost use Rattle.ca_wire.specs.Builders as packets;

use crate::numbering::Numbered;
use arrayvec::ArrayVec;
use ca_base::limits::MAX_PIECES;
use ca_base::{Ask, Key, Kind, Memory, Piece, SendOp, SendRequest};
use ca_qp_rows::ca_qpstate::QueuePart;
use ca_qp_rows::{
    Asker, fill_asks, is_answered, list_length, list_of, peer_number, psn_bits, spell_packet,
};
use ca_wire::{
    AtomicEth, Packet, Reth, Segment, SendKind, cmp_swap, fetch_add, read_request, send_packet,
    write_packet,
};

/// Which packet of its request the next one is.
fn index_of_packet(q: &QueuePart, n: &Numbered<'_>) -> u32
    requires { IsPacket q.now n.now }
    ensures value { result ≡ requester.index_of_packet q.now n.now }
    ensures within { result < n.now.count }
{
    q.requester.cursor.saturating_sub(n.first) as u32
}

/// How many bytes of its request's list lie before those of the next packet.
#[tactic(auto, using(crate::proofs::NumberingLemmas::few_before))]
fn bytes_before(q: &QueuePart, n: &Numbered<'_>) -> u32
    requires { IsPacket q.now n.now }
    ensures { result ≡ requester.index_of_packet q.now n.now * q.now.responder.mtu }
{
    index_of_packet(q, n) * u32::from(q.responder.mtu)
}

/// The most bytes of its request's list that a packet carries: those of a path MTU; a READ and an atomic carry none.
fn most_carried(q: &QueuePart, n: &Numbered<'_>) -> u32
    ensures { result ≡ (if is_answered_op n.now.request.op then 0 else q.now.responder.mtu) }
{
    if is_answered(n.op()) {
        0
    } else {
        u32::from(q.responder.mtu)
    }
}

/// Puts the asks of the next packet into an empty list, for the bytes that it carries of its request's list. The list need
/// not be summed, since no asks reach past its end.
#[tactic(auto, using(crate::proofs::PacketLemmas::most_asks))]
#[inline(always)]
pub(crate) fn fill_packet_asks(
    q: &QueuePart,
    n: &Numbered<'_>,
    asks: &mut ArrayVec<Ask, MAX_PIECES>,
)
    requires packet { IsPacket q.now n.now }
    requires empty { asks.old.items ≡ [] }
    ensures value { asks.new.items ≡ requester.packet_asks q.now n.now }
    ensures asks { AreAsksFor Kind.Read MAX_PAYLOAD_BYTES asks.new.items }
{
    let asker = Asker {
        queue: q.queue,
        domain: q.domain,
        kind: Kind::Read,
    };
    fill_asks(
        asker,
        bytes_before(q, n),
        most_carried(q, n),
        list_of(n.op()),
        asks,
    );
}

/// Adds the bytes that spell the next packet, with this payload.
#[tactic(auto, using(crate::proofs::PacketLemmas::few_spelt))]
pub(crate) fn spell(
    q: &QueuePart,
    n: &Numbered<'_>,
    payload: &[u8],
    out: &mut Vec<u8>,
) -> Result<(), Memory>
    requires packet { IsPacket q.now n.now }
    requires payload { length payload.now ≤ MAX_PAYLOAD_BYTES }
    ensures spelt { OnOk result (IsSpelt (requester.spelt_packet q.now n.now payload.now) out.old.items out.new.items) }
    ensures size { OnOk result (length out.new.items ≤ length out.old.items + most_spelt (length payload.now)) }
    ensures err { OnErr result (out.new.items ≡ out.old.items) }
{
    let packet = packet_of(q, n, payload);
    spell_packet(&packet, out)
}

/// The next packet, with this payload.
fn packet_of<'a>(q: &QueuePart, n: &Numbered<'_>, payload: &'a [u8]) -> Packet<'a>
    requires packet { IsPacket q.now n.now }
    requires payload { length payload.now ≤ MAX_PAYLOAD_BYTES }
    ensures { IsBuilt (packet_fields q.now n.now payload.now) result }
{
    let head = head_of(q, n, payload);
    let request = n.request();
    match &request.op {
        SendOp::Send { .. } => send_of(&head, SendKind::Plain),
        SendOp::SendImm { imm, .. } => send_of(&head, SendKind::WithImmediate(*imm)),
        SendOp::SendInv { key, .. } => send_of(&head, SendKind::WithInvalidate(*key)),
        SendOp::Write { address, key, list } => {
            write_of(&head, *address, *key, None, list.as_slice())
        }
        SendOp::WriteImm {
            address,
            key,
            imm,
            list,
        } => write_of(&head, *address, *key, Some(*imm), list.as_slice()),
        SendOp::Read { address, key, list } => {
            read_of(&head, bytes_before(q, n), *address, *key, list.as_slice())
        }
        SendOp::CmpSwap { .. } | SendOp::FetchAdd { .. } => atomic_of(&head, request),
        SendOp::Bind1 { .. }
        | SendOp::Bind2 { .. }
        | SendOp::FastReg { .. }
        | SendOp::LocalInv { .. } => unreachable!(),
    }
}

/// What a packet has of its queue pair and of its request, and its payload.
#[derive(Clone, Copy)]
pub(crate) struct Head<'a> {
    pub index: u32,
    pub count: u32,
    pub solicited: bool,
    pub queue: u32,
    pub psn: u32,
    pub payload: &'a [u8],
}

/// What the next packet has.
fn head_of<'a>(q: &QueuePart, n: &Numbered<'_>, payload: &'a [u8]) -> Head<'a>
    requires packet { IsPacket q.now n.now }
    requires payload { length payload.now ≤ MAX_PAYLOAD_BYTES }
    ensures { IsHeadOf q.now n.now payload.now result }
{
    Head {
        index: index_of_packet(q, n),
        count: n.count,
        solicited: n.request().solicited,
        queue: peer_number(q),
        psn: psn_bits(q.requester.cursor),
        payload,
    }
}

/// A packet of an atomic.
fn atomic_of<'a>(head: &Head<'a>, request: &SendRequest) -> Packet<'a>
    requires atomic { is_atomic_op request.now.op ≡ true }
    requires head { IsHead head.now }
    ensures { (mtu : ℕ) → IsBuilt
        (requests.request_packet mtu request.now head.now.index head.now.queue head.now.psn head.now.payload.now)
        result }
{
    match &request.op {
        SendOp::CmpSwap {
            address,
            key,
            compare,
            swap,
            ..
        } => {
            let atomic = AtomicEth {
                address: *address,
                key: *key,
                swap: *swap,
                compare: *compare,
            };
            cmp_swap(atomic, head.queue, head.psn)
        }
        SendOp::FetchAdd {
            address,
            key,
            add,
            ..
        } => fetch_add(*address, *key, *add, head.queue, head.psn),
        _ => unreachable!(),
    }
}

/// Which segment of its message the packet carries.
fn segment_of(head: &Head<'_>) -> Segment
    ensures { result ≡ record { index = head.now.index; count = head.now.count } }
{
    Segment {
        index: head.index,
        count: head.count,
    }
}

/// A packet of a SEND.
fn send_of<'a>(head: &Head<'a>, kind: SendKind) -> Packet<'a>
    requires { IsHead head.now }
    ensures { IsBuilt (Some (packets.send_packet kind (record { index = head.now.index; count = head.now.count })
        head.now.solicited head.now.queue head.now.psn head.now.payload.now)) result }
{
    send_packet(
        kind,
        segment_of(head),
        head.solicited,
        head.queue,
        head.psn,
        head.payload,
    )
}

/// A packet of a WRITE.
fn write_of<'a>(
    head: &Head<'a>,
    address: u64,
    key: Key,
    imm: Option<u32>,
    list: &[Piece],
) -> Packet<'a>
    requires list { IsList list.now }
    requires head { IsHead head.now }
    ensures { IsBuilt (Some (packets.write_packet (record { index = head.now.index; count = head.now.count })
        (reth_of address key (requests.list_length list.now)) imm
        head.now.solicited head.now.queue head.now.psn head.now.payload.now)) result }
{
    let reth = Reth {
        address,
        key,
        length: list_length(list),
    };
    write_packet(
        segment_of(head),
        reth,
        imm,
        head.solicited,
        head.queue,
        head.psn,
        head.payload,
    )
}

/// A packet of a READ, for what it reaches without so many bytes at its front. Addresses count modulo 2^64.
fn read_of<'a>(head: &Head<'a>, skip: u32, address: u64, key: Key, list: &[Piece]) -> Packet<'a>
    requires list { IsList list.now }
    requires head { IsHead head.now }
    ensures { IsBuilt (Some
        (packets.read_request (requests.reth_behind skip address key (requests.list_length list.now))
        head.now.queue head.now.psn)) result }
{
    let reth = Reth {
        address: address.wrapping_add(u64::from(skip)),
        key,
        length: list_length(list).saturating_sub(skip),
    };
    read_request(reth, head.queue, head.psn)
}
