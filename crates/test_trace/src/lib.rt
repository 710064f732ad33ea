//! Tests of the text of a history: lines of turns, marks and completions and a whole history, which another program
//! wrote, and what prints of the same values.
//!
//! What a table of lines needs stands here, also for the lines of calls; the tables stand in the tests.
#![tactic(auto)]

pub mod longest;
mod names;
mod rows;
#[cfg(test)]
mod tests;

pub use names::{HERE, OTHER_QUEUE, OTHER_SLOT, QUEUE, RIGHTS, SLOT, THERE};
pub use rows::{Row, line_of, lines_of, text_of};
