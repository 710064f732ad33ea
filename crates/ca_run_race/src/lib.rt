//! A script raced: each worker works its consumers and the engines of all queue pairs on a thread of its own, and the caller
//! goes on alone.
//!
//! To the layer above it promises that what comes of it is a history that follows the machine and is one of the script,
//! whatever the threads did: each consumer called the verbs of its lines in order, none before the clock for which it waited,
//! the weather's word stands in each event, and a timer fires only where all is idle. And that the script ended as its status
//! says.
//!
//! Source: this profile's choice; the standard leaves open how an adapter orders what its consumers do at once.
#![tactic(auto)]

mod calls;
mod gathering;
mod merging;
mod race;
mod turns;
mod visits;
mod work;
mod worker;
mod workers;

pub use ca_script_run;
pub use race::race_script;
