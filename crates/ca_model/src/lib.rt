//! What happened at the adapters: verbs and turns, their answers and marks, and the history that lists them.
//!
//! To the layers above it promises types in which each event says what it did, and definitions that say of a finished
//! history what each access, each grant, each packet, each atomic and each completion in it must be. No definition
//! looks at an adapter.
//!
//! Source: InfiniBand Architecture Specification Volume 1, the chapters on the software transport interface and on
//! the transport layer.
#![tactic(auto)]

mod answer;
mod completions;
mod entry;
mod event;
mod history;
mod laws;
mod list;
mod mark;
mod marks;
mod opening;
mod part_name;
mod read_left;
mod receiving;
mod verb;
mod write_reach;

pub use answer::{Answer, Refusal};
pub use completions::Completions;
pub use entry::Entry;
pub use event::Event;
pub use history::History;
pub use laws::{
    event_agrees_where_it_touches, event_depends_on_what_it_touches, event_leaves_the_rest,
    events_depend_on_what_they_touch, row_does_what_is_seen,
};
pub use list::list_length;
pub use mark::{Drop1, Mark};
pub use marks::{Marks, SPARE_MARKS};
pub use opening::{Contents, Opening};
pub use part_name::PartName;
pub use read_left::ReadLeft;
pub use receiving::Receiving;
pub use verb::Verb;
pub use write_reach::WriteReach;
