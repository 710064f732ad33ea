//! Names of domains, queue pairs and slots, keys, addresses and rights; the grants that keys stand for, the asks that are
//! judged by them, and the rule that says which access a grant allows; and the lists that hold such values.
//!
//! To the layers above it promises that numbers of keys, queue pairs and addresses are formed in one place, that an ask
//! is denied exactly where the rule `Allowed` says so, with the first part that fails, and that a name prints itself.
//!
//! Source: InfiniBand Architecture Specification Volume 1, the chapter on the software transport interface
//! (memory regions and windows, protection domains, keys).
#![tactic(auto)]

mod access;
mod grant;
mod key;
mod lists;
mod memory;
mod names;
mod place;
mod rights;
mod spelling;
mod verdict;

pub use access::{Ask, AtomicOp, Denial, KeyUse, Kind};
pub use grant::Grant;
pub use key::Key;
pub use lists::{Bytes, Items, Pages, Runs};
pub use memory::Memory;
pub use names::{DomainId, QueueId, Slot};
pub use place::{Place, Run, Span, first_address};
pub use rights::Rights;
pub use spelling::{Address, Perhaps};
pub use verdict::Verdict;
