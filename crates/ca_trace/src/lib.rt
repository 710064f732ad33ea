//! The text of a history: one line for each event and one for each of its marks, in the words of the script.
//!
//! To the layers above it promises that what is printed is, byte for byte, the text that the definitions give, and
//! that want of memory leaves the output as it was.
//!
//! Source: this profile's choice. The words for verbs and keys follow the InfiniBand Architecture Specification
//! Volume 1, the chapter on the software transport interface.
#![tactic(auto)]

mod answer;
mod entry;
mod history;
mod line;
mod mark;

pub use ca_trace_print::print_call;
pub use entry::{print, print_reply};
pub use history::print_history;
pub use line::{Line, Told, print_line, prints_as};
