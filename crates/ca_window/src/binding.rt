use ca_base::{QueueId, Rights};

/// A window's binding: the slot of its region, of a type 2 window the queue pair, the range and the rights.
#[derive(Clone, Copy)]
pub struct Binding {
    pub region: u16,
    pub queue: Option<QueueId>,
    pub address: u64,
    pub length: u32,
    pub rights: Rights,
}
