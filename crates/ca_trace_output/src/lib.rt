//! What the program writes: the text of a history on its way to a sink, and the text of a group's replies behind it. To
//! the layers above it promises that the sink takes, byte for byte, the text that the definitions give, and after a
//! fault of the sink or want of memory a front of it, not all; and that a fault is told exactly where the sink's count
//! rose. The text leaves in blocks as it is made, so there is never more of it in memory than a block and the lines of
//! an entry. Of a group's replies it promises that what is printed is, byte for byte, the line `alone` and the text of
//! each reply in order, and that want of memory leaves the output as it was.
//!
//! Source: this profile's choice; the standard says nothing of texts.
#![tactic(auto)]

mod history;
mod stop;
mod text;

pub use history::{write_history, write_history_with};
pub use stop::WriteStop;
pub use text::print_replies;
