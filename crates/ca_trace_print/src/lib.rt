//! The words of a trace: text that is put together, the one spelling of each kind of word, and the words of a verb, which
//! a script and a trace share.
//!
//! To the layers above it promises that what is added is, byte for byte, the text that the definitions give.
//!
//! Source: this profile's choice. The words for verbs and keys follow the InfiniBand Architecture Specification
//! Volume 1, the chapter on the software transport interface.
#![tactic(auto)]

mod post;
mod spelled;
mod text;
mod verb;
mod words;

pub use ca_model;
pub use spelled::{Hex, InAdapter, Word, Words};
pub use text::Text;
pub use verb::{print_call, put_call};
pub use words::{Queues, alarm, object, side};
