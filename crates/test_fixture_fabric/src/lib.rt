//! Connections on a fabric, for tests and measurements: verbs and turns of a pass that have to be made, a region, and a queue
//! pair that sends to its peer; and lists of steps that are tried one after another.
//!
//! To the layers above it promises that the pass stays one of the fabric. What a call does is what `ca_verbs` promises.
//!
//! Source: this profile's choice.
#![tactic(auto)]

mod bed;
mod steps;
mod verbs;

pub use bed::{answer, call, queue_pair, region, turn};
pub use ca_verbs;
pub use steps::{Step, add_queue_pair, add_region, try_step};
