ghost use Rattle.std.specs.Prelude.{◌≡◌, ◌≤◌, length};
ghost use Rattle.ca_base.specs.declared.limits.TheConstants.{MAX_PAYLOAD_BYTES};
ghost use Rattle.ca_model.specs.machine.Arrivals as arrivals;
ghost use Rattle.ca_model.specs.machine.Expected as rows;

use ca_base::{Ask, Kind, Message};
use ca_model::WriteReach;
use ca_responder_answers::ca_qpstate::QueuePart;
use ca_responder_answers::packet_ask;
use ca_wire::Packet;

/// What a WRITE packet reaches: one that begins a WRITE has it in its RETH, and one that goes on in the message in
/// progress. None comes exactly where there is neither.
pub fn write_reach(q: &QueuePart, p: &Packet<'_>) -> Option<WriteReach>
    ensures { result ≡ rows.write_reach q.now p.now }
{
    if let Some(h) = p.reth {
        return Some(WriteReach {
            key: h.key,
            address: h.address,
            left: h.length,
            whole: h.length,
        });
    }
    match q.responder.message {
        Some(
            Message::Write {
                key,
                address,
                left,
                length,
            },
        ) => Some(WriteReach {
            key,
            address,
            left,
            whole: length,
        }),
        _ => None,
    }
}

/// The ask of a WRITE packet: all bytes that are left, of which it touches its payload.
pub fn write_ask(q: &QueuePart, p: &Packet<'_>, r: &WriteReach) -> Ask
    requires { length p.now.payload ≤ MAX_PAYLOAD_BYTES }
    ensures { result ≡ arrivals.packet_ask q.now r.now.key Kind.Write r.now.address r.now.left (length p.now.payload) }
{
    packet_ask(
        q,
        r.key,
        Kind::Write,
        r.address,
        r.left,
        p.payload.len() as u32,
    )
}
