//! What the program `ca` does with its words and its streams: it reads a script, works it, on one thread or on many, and
//! writes its history; beside it it writes what a group of domains gets alone; or it works the script of a seed, and writes a
//! summary.
//!
//! To the layer above it promises how each status comes: where a command was worked, what is written is its output. That of
//! a script is the text of one history of it, and of no other: of its order where one thread works it. This history follows
//! the machine, is judged, licensed, carried and ordered, its atomics act once, and closed groups of domains get what they
//! would get alone; and the status says how it ended. Each line that is refused is the first that is, with its first cause. A
//! fault of a stream is told, and nothing else is told as one.
//!
//! Source: this profile's choice; the standard says nothing of programs.
#![tactic(auto)]

mod alone;
mod make;
mod program;
mod race;
mod reading;
mod script;
mod status;
mod working;

pub use program::run;
pub use status::{Status, exit_code, status_line};
