//! What tests and measurements stand on: a window, a region and a buffer that meet `Reach`, and a small engine over any
//! `Reach`.
//!
//! Its tests stand in `test_grant`, so that it is proved once.
#![tactic(auto)]

mod engine;
mod small_reach;

pub use engine::{Outcome, turn};
pub use small_reach::SmallReach;
