//! The engine that works scripts in their order: the order as offers, each in turn, and what stands next by what was
//! told of the last. To the layer above it promises that the offers are those of the order of a script, and that Quiet
//! is offered only behind a round and a timer pass in which all was told to be not ready at one clock, but for
//! consumers at their end. And, as clauses of functions that do nothing, that who takes what an engine offers, makes it
//! where it is possible, and tells what came of it, comes to an end, and makes the order of the script; and who begins
//! so at any stage makes the rounds from there. These laws hold of the machine's definitions, and no code is in them.
//!
//! Source: this profile's choice; the standard says nothing of the order in which channel adapters work.
#![tactic(auto)]

mod engine;
mod laws;
mod offer;
mod offers;
mod outcome;
mod pass;

pub use engine::Engine;
pub use laws::{
    offers_come_to_an_end, offers_from_a_stage_come_to_an_end, offers_from_a_stage_make_its_rounds,
    offers_make_the_order, quiet_comes_when_all_are_not_ready,
};
pub use offer::Offer;
pub use outcome::Outcome;
pub use pass::Pass;
