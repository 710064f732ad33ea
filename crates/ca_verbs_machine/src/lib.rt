//! The parts of a fabric as a machine that threads can share: what a part stands for, what an event that is asked for
//! needs, and what of it the history keeps.
//!
//! To the layers above it promises that a row of these parts is one of the adapters' machine: each entry is its step after
//! the entries before it, the event of an entry is what was asked for in the world at that moment, under the weather that
//! was named, and each part has what that world has of it.
//!
//! Source: this profile's choice. The standard leaves open how an adapter orders what its consumers do at once.
#![tactic(auto)]

mod asked;
mod laws;
mod part;

pub use asked::{Asked, Told};
pub use laws::entries_follow_the_machine;
pub use part::SharedPart;
