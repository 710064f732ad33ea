//! The words of a trace, read: a text is cut into words; a word is the number, the key or the list that it spells, or the
//! choice that it names, as a status, a state or the reason of a refusal; and a field takes the first word of what is left
//! of a line.
//!
//! To the layer above it promises that what is printed as a word is read as the same value again, unless memory runs
//! out, that a word that names no choice is told from one that does, and that a field is read as its word is and leaves
//! the words behind it. It reads leniently: what is read need not print as that word, and the layer above compares.
//!
//! Source: this profile's choice, as the text of a history is.
#![tactic(auto)]

mod digits;
mod field;
mod find;
mod id;
mod in_word;
mod list;
mod list_field;
mod name;
mod number;
mod pieces;
mod stop;
mod word;

pub use ca_trace_print::ca_model;
pub use field::{take_address, take_alarm, take_lettered_u32, take_object, take_queues, take_side};
pub use find::Named;
pub use id::{address_in, domain_in, has, lettered_u32_in, lettered_u64_in};
pub use in_word::InWord;
pub use list_field::{take_hex, take_pages, take_pieces, take_runs};
pub use number::u64_in;
pub use pieces::{Pieces, place_of};
pub use stop::Stop;
pub use word::is_name;
