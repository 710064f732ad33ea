use ca_keys::QueueId;

/// Who reserves room in a completion queue: a queue pair for its sends, or for its receives, or a queue pair that uses a
/// shared receive queue, by slot.
#[derive(Clone, Copy)]
pub enum Reserve {
    Sends(QueueId),
    Receives(QueueId),
    Shared { srq: u16, user: QueueId },
}

/// Who reserved, and for how many completions.
#[derive(Drop)]
pub struct Reservation {
    pub who: Reserve,
    pub room: u16,
}
