//! The greatest number of each field, whether it may occur or not. The longest lines have these, and the longest name of
//! each choice.

use ca_base::{DomainId, Key, QueueId};

pub const DOMAIN: DomainId = DomainId {
    adapter: 255,
    domain: 255,
};

pub const QUEUE: QueueId = QueueId {
    adapter: 255,
    number: 4_294_967_295,
};

pub const KEY: Key = Key(4_294_967_295);

pub const WORD: u32 = 4_294_967_295;

pub const LONG: u64 = 18_446_744_073_709_551_615;
