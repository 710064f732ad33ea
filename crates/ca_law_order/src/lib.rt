//! Laws of histories on completions: every history that follows the machine over a limited configuration, with events
//! that can be made, is Ordered. To the layers above it promises, as clauses of functions that do nothing:
//!
//! - The past that the marks leave agrees with the world, before the first event and after each. Each queue pair has
//!   the completion queues that they tell of, and in each completion queue wait the completions that wait by the marks,
//!   in order. The latest send that a queue pair completed in its present incarnation stands before the oldest that it
//!   has not finished, with no signalled one between. What it holds or takes next of receives, its own or of its shared
//!   receive queue, lies behind the latest receive that it completed. Which receive stands at which place is what was
//!   posted there; a message in progress holds the one at its place, with as many bytes in its list as the marks told
//!   of. Nothing is told of a later incarnation, and a queue pair in Error has nothing left that was posted to it.
//! - So each send completes behind those that completed before it, with the id and the operation of the request that
//!   was posted at its place, and with no signalled one left between; each receive completes behind those that its
//!   queue pair completed before; each poll gives the front of what waits, so many as it gives; and such a history is
//!   Ordered: the completions of each queue pair come once and in posting order.
//!
//! They hold of the machine's definitions, and no code is in them.
//!
//! Source: InfiniBand Architecture Specification Volume 1, the chapter on the software transport interface, sections on
//! work queues, on receive queues and shared receive queues, on completion queues and on the order of work; a history
//! is what the relations on histories speak of.
#![tactic(auto)]

mod laws;

pub use laws::{
    event_keeps_completed_agreed, event_keeps_lists_agreed, event_keeps_polls_agreed,
    event_keeps_receives_agreed, histories_agree_on_completed, histories_agree_on_lists,
    histories_agree_on_polls, histories_agree_on_receives, machine_is_ordered,
    opening_agrees_on_completed, opening_agrees_on_lists, opening_agrees_on_polls,
    opening_agrees_on_receives, polls_give_in_order, receives_complete_in_order,
    sends_complete_in_order,
};
