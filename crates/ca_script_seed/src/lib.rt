//! Made scripts, and the summary of what they come to. To the layer above it promises that the script is exactly the
//! made script of its seed, for a run that needs no text: two adapters with four pairs of queue pairs, seeded weather,
//! and 200 requests of each pair, drawn from a generator. And that each number of a summary is exactly the one that its
//! definition has for the history, and its text the eight lines of a made script's summary. Each number counts marks or
//! entries but for the sum of the bytes at the end, which the caller has of the buffers themselves.
//!
//! Source: this profile's choice; the standard says nothing of how much happened.
#![tactic(auto)]

mod counted;
mod pair;
mod requests;
mod script;
mod summary;

pub use counted::{Counted, count};
pub use script::generate;
pub use summary::{Summary, summary_of};
