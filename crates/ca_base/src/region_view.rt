use ca_keys::{Key, Rights};

/// What others see of a memory region: whether it is valid, its key, its rights and its range.
#[derive(Clone, Copy)]
pub struct RegionView {
    pub valid: bool,
    pub key: Key,
    pub rights: Rights,
    pub address: u64,
    pub length: u32,
}
