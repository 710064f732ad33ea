use ca_base::{DomainId, QueueId, Rights, Slot};

/// The first domain, here and at the other adapter.
pub const HERE: DomainId = DomainId {
    adapter: 0,
    domain: 0,
};

pub const THERE: DomainId = DomainId {
    adapter: 1,
    domain: 0,
};

/// The first slot of these domains.
pub const SLOT: Slot = Slot {
    domain: HERE,
    slot: 0,
};

pub const OTHER_SLOT: Slot = Slot {
    domain: THERE,
    slot: 0,
};

/// The queue pairs of these slots.
pub const QUEUE: QueueId = QueueId {
    adapter: 0,
    number: 256,
};

pub const OTHER_QUEUE: QueueId = QueueId {
    adapter: 1,
    number: 256,
};

/// All rights.
pub const RIGHTS: Rights = Rights {
    local_write: true,
    remote_read: true,
    remote_write: true,
    remote_atomic: true,
    window_bind: true,
};
