//! The key check over parts, and what an engine may reach: memory and keys, by asks alone.
//!
//! To the layers above it promises that an ask is judged by the grants for which its key's window and region stand, with
//! the places of the bytes that it touches; and that an engine over `Reach` meets memory only where an ask is allowed.
//!
//! Source: InfiniBand Architecture Specification Volume 1, the chapter on the software transport interface, sections on
//! memory regions and windows, and the chapter on the transport layer, sections on remote access.
#![tactic(auto)]

mod access;
mod key_check;
mod law;
mod reach;

pub use access::{bytes_of_span, write_span};
pub use ca_memory;
pub use key_check::judge;
pub use law::judged_by_slot;
pub use reach::Reach;
