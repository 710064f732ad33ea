use ca_base::{Change, DomainId, QueueId, Rights, Slot};
use ca_model::Verb;

/// Registers so many bytes of a buffer in slot 0 of a domain, to be written and to be used by atomics from afar.
pub(crate) fn register(domain: DomainId, buffer: u16, length: u32) -> Verb {
    Verb::RegMr {
        slot: Slot { domain, slot: 0 },
        buffer,
        offset: 0,
        length,
        rights: Rights {
            local_write: true,
            remote_read: false,
            remote_write: true,
            remote_atomic: true,
            window_bind: false,
        },
    }
}

/// Creates a queue pair over the completion queue of its own number.
pub(crate) fn create(slot: Slot) -> Verb {
    Verb::CreateQp {
        slot,
        send_cq: slot.slot,
        recv_cq: slot.slot,
        send_depth: 4,
        recv_depth: 4,
        srq: None,
    }
}

/// The change with which a queue pair receives from its peer.
pub(crate) fn to_receive(peer: Slot) -> Change {
    Change::Rtr {
        peer: QueueId::of_slot(peer),
        incarnation: 1,
        psn: 0,
        mtu: 1024,
        rnr_code: 12,
    }
}

/// The change with which it sends.
pub(crate) fn to_send() -> Change {
    Change::Rts {
        psn: 0,
        retry: 7,
        rnr_retry: 7,
        reads: 16,
    }
}
