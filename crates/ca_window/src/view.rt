use ca_base::{Key, QueueId, Rights};

/// What others see of a bound window: its key, of a type 2 window the queue pair through which it was bound, its range
/// and its rights.
#[derive(Clone, Copy, PartialEq, Eq)]
pub struct WindowView {
    pub key: Key,
    pub queue: Option<QueueId>,
    pub address: u64,
    pub length: u32,
    pub rights: Rights,
}
