//! Laws of histories on packets: every history that follows the machine over a limited configuration, with events that
//! can be made, is Carried. To the layers above it promises, as clauses of functions that do nothing:
//!
//! - The past that the marks leave agrees with the world, before the first event and after each. A message in progress,
//!   if it is a WRITE, goes on where the latest WRITE of its queue pair ended; each READ that waits to be answered is
//!   the rest of a READ request that arrived at its queue pair in its present incarnation; a queue pair has the path
//!   MTU that it was told; every region ends where addresses end, or before; and with which PSN a queue pair begins,
//!   and each of its requests, is what the marks tell.
//! - So each remote write and atomic stands where the packet arrived that asks for it, and each remote read stands in a
//!   Respond and asks for the rest of a READ request; a send that has packets completes with success only where a
//!   response arrived at its queue pair; each packet that was sent is the one of its request that has its PSN, or a
//!   response; and such a history is Carried.
//!
//! They hold of the machine's definitions, and no code is in them.
//!
//! Source: InfiniBand Architecture Specification Volume 1, the chapter on the transport layer, sections on RDMA WRITE,
//! RDMA READ and ATOMIC operations; a history is what the relations on histories speak of.
#![tactic(auto)]

mod laws;

pub use laws::{
    accesses_are_carried, event_keeps_accesses_agreed, event_keeps_starts_agreed,
    events_end_with_their_causes, histories_agree_on_accesses, histories_agree_on_starts,
    machine_is_carried, opening_agrees_on_accesses, opening_agrees_on_starts,
    reads_have_their_requests, successes_have_their_responses, writes_have_their_packets,
};
