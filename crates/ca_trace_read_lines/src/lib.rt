//! The lines of a trace, read, and with them answers, completions and what came of an access: each by the table that it
//! prints by.
//!
//! To the layer above it promises that a line is read exactly where it is one that prints so, unless memory runs out.
//!
//! Source: this profile's choice, as the text of a history is.
#![tactic(auto)]

mod answer;
mod line;
mod mark;

pub use line::read_line;
