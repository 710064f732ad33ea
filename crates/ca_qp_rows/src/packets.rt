ghost use Rattle.std.specs.Prelude.{◌≡◌, ◌+◌, ◌<◌, ◌≤◌, ◌^◌, None, OnOk, OnErr, length};
ghost use Rattle.ca_qpstate.specs.ca_model.machine.Invariants.{IsQueue};
ghost use Rattle.ca_qpstate.specs.ca_model.machine.Requester as requester;
ghost use Rattle.ca_wire.specs.Packet.{IsWellFormed, most_of_response, most_spelt, spelling};
ghost use Rattle.ca_wire.specs.Table.{shape_of};
ghost use Rattle.ca_qp_rows.specs.Made.{IsSpelt};

use ca_base::Memory;
use ca_base::limits::PSN_COUNT;
use ca_qpstate::QueuePart;
use ca_wire::{Packet, encode, spelling_length};

/// The number of the peer, which the queue pair's packets name as their destination.
pub fn peer_number(q: &QueuePart) -> u32
    requires { IsQueue q.now }
    ensures value { result ≡ requester.peer_number q.now }
    ensures narrow { result < 2 ^ 24 }
{
    match q.peer {
        Some((peer, _)) => peer.number,
        None => 0,
    }
}

/// The 24 bits of a whole number that a packet carries.
pub fn psn_bits(psn: u64) -> u32
    ensures value { result ≡ requester.psn_bits psn }
    ensures narrow { result < 2 ^ 24 }
{
    (psn % u64::from(PSN_COUNT)) as u32
}

/// Adds the bytes that spell a packet, at most 4128: by the bytes of its payload, no more than an atomic or a WRITE with
/// immediate data has, and of a response no more than an ATOMIC Acknowledge or a READ Response.
#[inline(always)]
pub fn spell_packet(packet: &Packet<'_>, out: &mut Vec<u8>) -> Result<(), Memory>
    requires { IsWellFormed packet.now }
    ensures spelt { OnOk result (IsSpelt (spelling packet.now) out.old.items out.new.items) }
    ensures size { OnOk result
        (length out.new.items ≤ length out.old.items + most_spelt (length packet.now.payload)) }
    ensures response { shape_of packet.now.opcode ≡ None → OnOk result
        (length out.new.items ≤ length out.old.items + most_of_response (length packet.now.payload)) }
    ensures err { OnErr result (out.new.items ≡ out.old.items) }
{
    spelling_length();
    encode(packet, out)
}
