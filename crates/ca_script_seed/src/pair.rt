ghost use Rattle.std.specs.Prelude.{◌≡◌, ◌≤◌, ◌<◌, IfOk};
ghost use Rattle.std.specs.Prelude.{◌+◌, ◌-◌, ◌*◌};
ghost use Rattle.ca_base.specs.declared.change.Change.TheVariants as changes;
ghost use Rattle.ca_script_lines.specs.declared.what.What.TheVariants as whats;
ghost use Rattle.ca_script_seed.specs.Made as made;

use ca_base::{Change, DomainId, Memory, QueueId, Rights, Slot};
use ca_model::Verb;
use ca_script::{Line, What};
use std::alloc::Global;

/// Object 0 of a domain.
pub(crate) fn first_slot(adapter: u8, domain: u8) -> Slot
    ensures { result ≡ made.first_slot adapter domain }
{
    Slot {
        domain: DomainId { adapter, domain },
        slot: 0,
    }
}

/// A line that calls a verb.
pub(crate) fn line(number: u32, verb: Verb) -> Line
    ensures { result ≡ record { number = number; what = whats.Verb verb } }
{
    Line {
        number,
        what: What::Verb(verb),
    }
}

const ALL_RIGHTS: Rights = Rights {
    local_write: true,
    remote_read: true,
    remote_write: true,
    remote_atomic: true,
    window_bind: true,
};

/// To Ready to Receive: the peer is the queue pair of the same domain of the other adapter.
fn to_receive(adapter: u8, domain: u8) -> Change
    requires { adapter ≤ 1 }
    ensures { result ≡ changes.Rtr (record { adapter = 1 - adapter; number = 256 * (domain + 1) }) 1 0 1024 12 }
{
    Change::Rtr {
        peer: QueueId {
            adapter: 1 - adapter,
            number: 256 * (u32::from(domain) + 1),
        },
        incarnation: 1,
        psn: 0,
        mtu: 1024,
        rnr_code: 12,
    }
}

/// The lines of one side of a pair, from this number on.
pub(crate) fn pair(alloc: Global, number: u32, adapter: u8, domain: u8) -> Result<Vec<Line>, Memory>
    requires adapter { adapter ≤ 1 }
    requires number { number < 4096 }
    ensures { IfOk result (λ lines. lines.items ≡ made.lines_from number (made.pair adapter domain)) }
{
    let slot = first_slot(adapter, domain);
    let to_send = Change::Rts {
        psn: 0,
        retry: 7,
        rnr_retry: 7,
        reads: 16,
    };
    let region = Verb::RegMr {
        slot,
        buffer: 0,
        offset: 16384 * u32::from(domain),
        length: 16384,
        rights: ALL_RIGHTS,
    };
    let queue = Verb::CreateQp {
        slot,
        send_cq: 0,
        recv_cq: 0,
        send_depth: 4,
        recv_depth: 4,
        srq: None,
    };
    Ok(vec![in alloc;
        line(
            number,
            Verb::AllocPd {
                domain: slot.domain
            }
        ),
        line(number + 1, Verb::CreateCq { slot, capacity: 8 }),
        line(number + 2, queue),
        line(number + 3, region),
        line(
            number + 4,
            Verb::ModifyQp {
                slot,
                change: Change::Init
            }
        ),
        line(
            number + 5,
            Verb::ModifyQp {
                slot,
                change: to_receive(adapter, domain)
            }
        ),
        line(
            number + 6,
            Verb::ModifyQp {
                slot,
                change: to_send
            }
        ),
    ]?)
}
