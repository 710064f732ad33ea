//! The lines of a script's consumers, read: each verb and operation by its row of one table.
//!
//! To the layer above it promises that a line is what its row makes of its words, word by word from the left, or is
//! refused with its first cause; and that the line of a verb in a trace is a line of a script that says this verb.
//!
//! Source: this profile's choice, as the text of a script is.
#![tactic(auto)]

mod change;
mod line;
mod object;
mod operation;
mod what;
mod work;

pub use ca_script_lex;
pub use ca_script_lex::ca_trace_lex;
pub use line::take_what;
pub use what::{Line, What};
