//! The made script of a seed, worked in its order, and the summary of what came of it.
//!
//! To the layer above it promises that the text is exactly the summary of the order of the made script, and that the
//! status says how this order ended; that every made script keeps to the limits and can be worked, and that its order is
//! lawful. Nothing is read for it. Its one refusal is want of memory.
//!
//! Source: this profile's choice; the standard says nothing of programs.
#![tactic(auto)]

mod buffers;
mod laws;
mod made;

pub use ca_script_run;
pub use laws::{made_scripts_can_be_worked, orders_of_made_scripts_are_lawful};
pub use made::{Made, make};
