//! The verbs of a trace, read, and with them what a send request asks for: each by the row of the table that it prints
//! by.
//!
//! To the layer above it promises that the words of a verb are read as what they say, that the words behind them are
//! left, and that a verb that fits is read from its words.
//!
//! Source: this profile's choice, as the text of a history is.
#![tactic(auto)]

mod change;
mod operation;
mod verb;

pub use verb::verb_at;
