use ca_keys::QueueId;

/// A queue pair in an incarnation.
#[derive(Clone, Copy)]
pub struct Correspondent {
    pub queue: QueueId,
    pub incarnation: u32,
}
