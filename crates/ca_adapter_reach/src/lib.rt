//! What keys and asks reach of the parts in hand: windows, regions and buffers on shelves, and that they meet `Reach`.
//! To the layers above it promises that an ask is judged by the part that its key names, vacant where it is not in
//! hand; that bytes are read from and written to the buffer of their run; and that the end of a key is that of its
//! part, with the region in which its window is bound. So engines over `Reach` act on the parts in hand. A shelf is a
//! few things under names: a thing stands under the name with which it was put there, things are read and changed where
//! they stand, and what was added is given back.
//!
//! Source: InfiniBand Architecture Specification Volume 1, the chapter on the software transport interface, sections on
//! memory regions and windows; that an event has a few parts in hand, on shelves, is this profile's choice.
#![tactic(auto)]

mod reach;
mod reached;
mod shelf;
mod shelf_name;

pub use ca_grant::ca_memory;
pub use ca_localops::{ca_region, ca_window};
pub use reached::{BufferId, Reached};
pub use shelf::{Named, Shelf};
pub use shelf_name::ShelfName;
