//! What the runs of one queue pair as a responder stand on: the bed of a requester's runs, with a window and a shared
//! receive queue.
//!
//! Its tests stand in `test_responder`, so that it is proved once.
#![tactic(auto)]

mod responder;

pub use responder::Responder;
pub use test_fixture_requester;
pub use test_fixture_requester::ca_trace_read_lines;
