//! The words of a script, read: a line is cut into words, and a word is the name, the number, the bytes or the list that
//! it says, or it is refused with its first cause.
//!
//! To the layer above it promises of each kind of word what it is read as, and which cause comes first: the form of the
//! whole word, and then whether its numbers fit.
//!
//! Source: this profile's choice, as the text of a script is.
#![tactic(auto)]

mod cause;
mod cursor;
mod flags;
mod front;
mod hexadecimal;
mod line_error;
mod list;
mod name;
mod number;
mod take;

pub use ca_trace_lex;
pub use ca_trace_lex::ca_model;
pub use cause::ScriptCause;
pub use cursor::LineWords;
pub use flags::Flags;
pub use line_error::LineError;
pub use number::{consumer_number, is_consumer, is_number, number_within};
pub use take::{
    take_buffer, take_domain, take_flags, take_hex, take_number, take_optional_u16, take_pages,
    take_pieces, take_queue, take_rights, take_slot, take_u8, take_u16, take_u32, take_u64,
};
