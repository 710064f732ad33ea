//! Parts that threads share: a row of values, each behind an atomic word of its own, and one clock word that gives
//! the stamps of one list of entries.
//!
//! It serves any machine that is cut into parts. To the layers above it promises that between any two steps, in every
//! schedule, each part is at home or in the hand of the one pass that its word names, that each value is what its part
//! stands for after all entries so far, that the stamps are the numbers from 0 on, each once, and that every note is
//! true. `docs/PARTS.md` says these facts in plain words.
//!
//! Source: this profile's own choice. The standard leaves open how an adapter orders what its consumers do at once.
#![tactic(auto)]

mod facts;
mod machine;
mod parts;
mod pass;
mod plays;
mod range;
mod stamps;
mod takes;
mod view;
mod words;

pub use facts::Facts;
pub use machine::Machine;
pub use parts::Parts;
pub use pass::{Busy, PartPass, Spent, Turn1};
pub use view::View;
pub use words::WORDS_APART;
