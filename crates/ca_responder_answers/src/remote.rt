ghost use Rattle.std.specs.Prelude.{◌≡◌};
ghost use Rattle.ca_model.specs.machine.Arrivals as arrivals;

use ca_base::{Ask, Key, Kind, Verdict};
use ca_model::Mark;
use ca_qp_rows::ca_qpstate::QueuePart;

/// The ask of a packet by an R_Key, for so many bytes from an address on, of which it touches some.
pub fn packet_ask(q: &QueuePart, key: Key, kind: Kind, address: u64, length: u32, touch: u32) -> Ask
    ensures { result ≡ arrivals.packet_ask q.now key kind address length touch }
{
    Ask {
        queue: q.queue,
        domain: q.domain,
        key,
        local: false,
        kind,
        address,
        length,
        touch,
    }
}

/// The mark of a remote access.
pub fn remote_mark(ask: &Ask, envelope: Option<u64>, verdict: Verdict) -> Mark
    ensures { result ≡ arrivals.remote_mark ask.now envelope verdict }
{
    Mark::Remote {
        queue: ask.queue,
        domain: ask.domain,
        envelope,
        key: ask.key,
        kind: ask.kind,
        address: ask.address,
        length: ask.length,
        verdict,
    }
}
