ghost use Rattle.std.specs.Prelude.{◌≡◌, ◌<◌, ◌^◌};
ghost use Rattle.ca_qp_rows.specs.ca_grant.Reaching.{IsPacketAsk};
ghost use Rattle.ca_model.specs.machine.Invariants.{IsQueue};
ghost use Rattle.ca_model.specs.machine.Respond as rows;

use crate::remote::packet_ask;
use ca_base::{Ask, Kind, Queued};
use ca_model::ReadLeft;
use ca_qp_rows::ca_qpstate::QueuePart;
use ca_wire::Segment;

/// The bytes of its next response: at most the path MTU.
pub fn response_length(q: &QueuePart, r: &ReadLeft) -> u32
    ensures { result ≡ rows.response_length q.now r.now }
{
    u32::from(q.responder.mtu).min(r.left)
}

/// Whether its next response is the last.
pub fn is_last_response(q: &QueuePart, r: &ReadLeft) -> bool
    ensures { result ≡ rows.is_last_response q.now r.now }
{
    r.left <= u32::from(q.responder.mtu)
}

/// Where a response stands in the message: first or not, last or not.
pub fn response_segment(first: bool, last: bool) -> Segment
    ensures value { result ≡ rows.response_segment first last }
    ensures inside { result.index < result.count }
{
    let index = u32::from(!first);
    Segment {
        index,
        count: if last { index + 1 } else { index + 2 },
    }
}

/// The ask of its next response: all bytes that are left are judged.
pub fn response_ask(q: &QueuePart, r: &ReadLeft) -> Ask
    ensures value { result ≡ rows.response_ask q.now r.now }
    ensures packet { IsQueue q.now → 0 < r.now.left → IsPacketAsk result }
{
    let length = response_length(q, r);
    packet_ask(q, r.key, Kind::Read, r.address, r.left, length)
}

/// The READ without its next response, as it waits then.
pub fn rest_of(q: &QueuePart, r: &ReadLeft) -> Queued
    requires { r.now.psn < 2 ^ 63 }
    ensures { result ≡ rows.rest_of q.now r.now }
{
    let length = response_length(q, r);
    Queued::Read {
        psn: r.psn + 1,
        key: r.key,
        address: r.address.wrapping_add(u64::from(length)),
        left: r.left - length,
        first: false,
        envelope: r.envelope,
        duplicate: r.duplicate,
    }
}
