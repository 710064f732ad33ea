//! A queue pair: its state, its peer, its queues, and what its requester and its responder count.
//!
//! To the layers above it promises that a change of its state is refused for the first reason that the state table
//! names and changes nothing then, and else leaves exactly the queue pair that the table says.
//!
//! Source: InfiniBand Architecture Specification Volume 1, the chapter on the software transport interface, sections on
//! queue pairs and their states, with the chapter on its verbs (Create and Modify Queue Pair). That a change which stays
//! in its state is refused, that Error is not reached from Reset, and that each Reset begins a new incarnation is this
//! profile's choice.
#![tactic(auto)]

mod at_start;
mod fields;
mod queue_part;
mod state_table;

pub use ca_base::{Change, Field, ModifyRefusal, State};
pub use ca_model;
pub use ca_workqueue;
pub use queue_part::QueuePart;
