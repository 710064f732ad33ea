ghost use Rattle.std.specs.Prelude.{◌≡◌, ◌+◌, ◌*◌, ◌<◌, ◌≤◌, Some};
ghost use Rattle.ca_keys.specs.Spelling.{domain_text, slot_text, queue_text};

use std::fmt;

/// A protection domain: the adapter that it is of, and its number there.
#[derive(Clone, Copy, Default, PartialEq, Eq)]
pub struct DomainId {
    pub adapter: u8,
    pub domain: u8,
}

impl fmt::Display for DomainId {
    ghost output = { λ domain. Some (domain_text domain) };

    fn fmt<W: fmt::Write>(&self, f: &mut fmt::Formatter<W>) -> fmt::Result {
        let adapter = self.adapter;
        let domain = self.domain;
        write!(f, "{adapter}/{domain}")
    }
}

/// An object of a domain: a region, a window, a completion queue, a shared receive queue or a queue pair.
#[derive(Clone, Copy, PartialEq, Eq)]
pub struct Slot {
    pub domain: DomainId,
    pub slot: u16,
}

impl fmt::Display for Slot {
    ghost output = { λ slot. Some (slot_text slot) };

    fn fmt<W: fmt::Write>(&self, f: &mut fmt::Formatter<W>) -> fmt::Result {
        let domain = self.domain;
        let slot = self.slot;
        write!(f, "{domain}/{slot}")
    }
}

/// A queue pair: the adapter that it is of, and its queue pair number there. The number carries the domain, as
/// `(domain + 1) * 256 + slot`, so that the reserved numbers 0 and 1 never occur (this profile's choice).
#[derive(Clone, Copy, Default, PartialEq, Eq)]
pub struct QueueId {
    pub adapter: u8,
    pub number: u32,
}

impl QueueId {
    ghost use Rattle.ca_keys.specs.Numbers.{queue_of, domain_of};

    /// The queue pair that stands in a slot.
    pub fn of_slot(slot: Slot) -> QueueId
        ensures { result ≡ queue_of slot }
    {
        QueueId {
            adapter: slot.domain.adapter,
            number: (u32::from(slot.domain.domain) + 1) * 256 + u32::from(slot.slot),
        }
    }

    /// The domain of a queue pair, by its number, which is one that a slot has.
    pub fn domain(self) -> DomainId
        requires named { 256 ≤ self.number }
        requires in_domains { self.number < 65792 }
        ensures { result ≡ domain_of self }
    {
        DomainId {
            adapter: self.adapter,
            domain: (self.number / 256 - 1) as u8,
        }
    }
}

impl fmt::Display for QueueId {
    ghost output = { λ queue. Some (queue_text queue) };

    fn fmt<W: fmt::Write>(&self, f: &mut fmt::Formatter<W>) -> fmt::Result {
        let adapter = self.adapter;
        let number = self.number;
        write!(f, "{adapter}/{number}")
    }
}
