//! The text of a history, read back: line by line as it comes, or whole.
//!
//! To the layers above it promises that the text of a history that fits gives this history, and that no other history
//! that fits has this text; that a text is refused at its first line outside the grammar; and that every history that
//! exists as a value fits. A line is taken exactly where the steps from line to line allow it, what is known behind it is
//! what they say, an entry is given once it is complete, and an error changes nothing.
//!
//! Source: this profile's choice, as the text of a history is.
#![tactic(auto)]

mod error;
mod laws;
mod progress;
mod reader;
mod whole;

pub use ca_trace_read_fits;
pub use ca_trace_read_fits::{ca_trace_read_lines, history_fits};
pub use error::TraceError;
pub use laws::{
    lines_are_text, lines_give, one_more_line, one_text, refused_line_begins_none,
    taken_lines_begin, text_is_read,
};
pub use reader::TraceReader;
pub use whole::{read, read_back};
