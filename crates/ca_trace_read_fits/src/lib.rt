//! What a trace can tell: the values of the program's types are within what its words may stand for.
//!
//! To the layer above it promises that the words of each verb, turn, answer and mark that exists as a value may stand in
//! a trace, and so every history that exists as a value; and it tells which lines have the shape of one.
//!
//! Source: this profile's choice, as the text of a history is.
#![tactic(auto)]

mod answer;
mod event;
mod history;
mod line;
mod list;
mod mark;
mod operation;
mod verb;
mod word;

pub use answer::{answer_fits, completion_fits, completions_fit};
pub use ca_trace_read_lines;
pub use event::event_fits;
pub use history::history_fits;
pub use line::{is_shaped, line_fits};
pub use mark::mark_fits;
pub use verb::verb_fits;
pub use word::{u32_fits, u64_fits};
