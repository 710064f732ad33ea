//! Acts on completions: what a poll does with the parts in hand.
//!
//! To the layers above it promises that the act is the plan of its verb, carried out in the small world of what is held:
//! the same marks and changes, and where memory ends, none.
//!
//! Source: InfiniBand Architecture Specification Volume 1, the chapter on the verbs, Poll for Completion; the order of
//! refusals is this profile's choice.
#![tactic(auto)]

mod polls;

pub use polls::poll;
