//! What the runs of one queue pair stand on, as a requester and as a responder: the queue pair over one region, the
//! script that it begins with, and the texts of runs.
//!
//! Its tests stand in `test_requester`, so that it is proved once.
#![tactic(auto)]

mod bed;
mod setup;
mod text;

pub use bed::{Bed, FAR, are_here, is_narrow, is_short};
pub use ca_trace_read_lines;
pub use setup::{Setup, bed_of, reason_text, settings, setup_in};
pub use text::full_text;
