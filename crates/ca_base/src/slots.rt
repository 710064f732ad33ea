ghost use Rattle.std.specs.Prelude.{◌≡◌, ◌-◌, ◌/◌, ◌%◌, ◌<◌, ◌≤◌, ◌&&◌, nat_lt, IsTrue};
ghost use Rattle.ca_base.specs.objects.Slices as slices;

use ca_keys::{DomainId, Key, QueueId, Slot};

/// The slot of a queue pair's number, which names a domain of 8 bits.
pub fn slot_of_queue(queue: QueueId) -> Slot
    requires { queue.number < 65792 }
    ensures { result ≡ slices.slot_of_queue queue }
{
    Slot {
        domain: DomainId {
            adapter: queue.adapter,
            domain: (queue.number / 256).saturating_sub(1) as u8,
        },
        slot: (queue.number % 256) as u16,
    }
}

/// The slot that a key names, at a domain's adapter.
pub fn slot_of_key(domain: DomainId, key: Key) -> Slot
    ensures { result ≡ slices.slot_of_key domain key }
{
    Slot {
        domain: DomainId {
            adapter: domain.adapter,
            domain: (key.index() / 0x10000) as u8,
        },
        slot: (key.index() % 0x8000) as u16,
    }
}

/// Whether a key is one of a domain.
pub(crate) fn is_key_of(domain: DomainId, key: Key) -> bool
    ensures { result ≡ slices.is_key_of domain key }
{
    key.index() / 0x10000 == u32::from(domain.domain)
}

/// Whether a queue pair's number, which is at least 256, is that of a slot, where there are so many domains and each has
/// so many queue pairs.
pub(crate) fn names_qp(number: u32, domains: u8, qps: u16) -> bool
    requires { 256 ≤ number }
    ensures value { result ≡ (nat_lt (number / 256 - 1) domains && nat_lt (number % 256) qps) }
    ensures narrow { IsTrue result → number < 65792 }
{
    number / 256 - 1 < u32::from(domains) && number % 256 < u32::from(qps)
}
